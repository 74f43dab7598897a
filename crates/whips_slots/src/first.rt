//! The first words of a board.
ghost use Rattle.std.specs.Prelude.{◌≡◌, ◌<◌, ◌≤◌, ◌+◌, ◌-◌, ◌*◌, ◌^◌, ◌++◌, ◌∷◌, suc, length, replicate, vec_len, IfOk, OnOk};
ghost use Rattle.std.specs.List.{flat_map};
ghost use Rattle.whips_slot_words.specs.Words.{view_words};
ghost use Rattle.whips_slot_words.specs.Slots.{board_size};
ghost use Rattle.whips_slot_words.specs.StoreLaws.{shape_of};
ghost use Rattle.whips_slots.specs.Boards.{first_words, row_slot};

use std::alloc::Global;
use whips_rel::{NoMemory, Rows, Tuple};
use whips_setup::Setup;

/// Puts so many zeros at the end.
fn put_zeros(words: &mut Vec<u64>, count: u32) -> Result<(), NoMemory>
    ensures { OnOk result (words.new.items ≡ words.old.items ++ replicate count 0) }
{
    for _ in 0..count {
        words.push(0)?;
    }
    Ok(())
}

/// Puts a slot for each of the rows at the end: the row is added at version 0 in the last entry, behind so many zeros.
fn put_rows(words: &mut Vec<u64>, zeros: u32, rows: &[Tuple]) -> Result<(), NoMemory>
    ensures { OnOk result (words.new.items
        ≡ words.old.items ++ flat_map (row_slot zeros) rows.now) }
{
    for row in rows {
        put_zeros(words, zeros)?;
        words.push(1)?;
        words.extend_from_slice(row.codes())?;
    }
    Ok(())
}

/// Puts a slot for each row of the relation at the end, in the order of their keys.
fn put_all_rows(words: &mut Vec<u64>, zeros: u32, rows: &Rows) -> Result<(), NoMemory>
    ensures { OnOk result (words.new.items
        ≡ words.old.items ++ flat_map (row_slot zeros) rows.now.rows) }
{
    for chunk in rows.chunks() {
        put_rows(words, zeros, chunk.rows())?;
    }
    Ok(())
}

/// Puts the slots of a view at the end, of which so many versions stay readable. The rows stand in the first slots, in the
/// order of their keys, and the other slots are blank.
fn put_view(words: &mut Vec<u64>, rows: &Rows, slots: u32, versions: u32) -> Result<(), NoMemory>
    requires least { 1 ≤ versions }
    requires most { versions ≤ 4 }
    requires width { length rows.now.columns.kinds ≤ 16 }
    requires slots { slots ≤ 4096 }
    requires room { length rows.now.rows ≤ slots }
    ensures { OnOk result (words.new.items ≡ words.old.items ++ view_words versions
        (record { width = length rows.now.columns.kinds; slots = slots }) rows.now.rows) }
{
    let entry = rows.schema().kinds().len() as u32 + 1;
    put_all_rows(words, (versions - 1) * entry, rows)?;
    let spare = slots - rows.len() as u32;
    put_zeros(words, spare * (versions * entry))?;
    Ok(())
}

/// The words of a setup's board before any store: the phase 0, and the rows of each view at version 0.
pub fn layout(alloc: Global, setup: &Setup) -> Result<Vec<u64>, NoMemory>
    ensures words { IfOk result (λ words. words.items ≡ first_words setup.now) }
    ensures size { IfOk result (λ words. (vec_len words ≡ board_size (shape_of setup.now))
        × (vec_len words < 2 ^ 32)) }
{
    let _sound = setup.sources();
    let mut words = Vec::new(alloc);
    words.push(0)?;
    for x in 0..setup.views() {
        put_view(&mut words, setup.value(x), setup.slots(x), setup.versions())?;
    }
    Ok(words)
}
