//! How many slots a view needs.
ghost use Rattle.std.specs.Prelude.{◌≡◌, ◌≤◌, ◌+◌, ◌^◌, [], ◌∷◌, length, map, reverse, OnOk};
ghost use Rattle.std.specs.List.{AllByRecursion};
ghost use Rattle.whips_model.specs.Tuples.{put_row};
ghost use Rattle.whips_lists.specs.Lists.{places_from};
ghost use Rattle.whips_vnl.specs.Records.{steps_or_none};
ghost use Rattle.whips_store.specs.Versions.{rows_shown_at};
ghost use Rattle.whips_store.specs.Sound.{StepsHaveWidth};
ghost use Rattle.whips_slot_index.specs.Slots.{all_steps};
ghost use Rattle.whips_plain_store.specs.Plain.{put_all, put_values};

use whips_rel::{NoMemory, Relation, Tuple};
use whips_slot_index::row_shown;
use whips_vnl::Vrec;

/// Puts the row into the place of the one with its key.
fn put(rows: &mut Relation, row: &Tuple) -> Result<(), NoMemory>
    requires { length row.now ≡ length rows.old.columns.kinds }
    ensures { OnOk result (rows.new
        ≡ record rows.old { rows = put_row rows.old.columns.key row.now rows.old.rows }) }
{
    let key = rows.schema().key_of(row)?;
    let copy = row.copy()?;
    rows.delete_if_there(&key)?;
    match rows.insert(copy) {
        Ok(()) => Ok(()),
        Err(_) => Err(NoMemory),
    }
}

/// Puts these rows, one after another.
pub(crate) fn put_rows(rows: &mut Relation, news: &[Tuple]) -> Result<(), NoMemory>
    requires { AllByRecursion (λ t. length t ≡ length rows.old.columns.kinds) news.now }
    ensures { OnOk result (rows.new
        ≡ record rows.old { rows = put_all rows.old.columns.key rows.old.rows news.now }) }
{
    for row in news {
        put(rows, row)?;
    }
    Ok(())
}

/// Puts the row that the slot shows at version `v`, where it shows one.
fn put_slot(rows: &mut Relation, slot: &Option<Vrec>, v: u64, n: u32) -> Result<(), NoMemory>
    requires { StepsHaveWidth (length rows.old.columns.kinds) (steps_or_none slot.now) }
    ensures { OnOk result (rows.new
        ≡ record rows.old {
          rows = put_all rows.old.columns.key rows.old.rows
              (rows_shown_at n v (steps_or_none slot.now ∷ []));
        }) }
{
    match row_shown(slot, v, n) {
        Some(row) => put(rows, row),
        None => Ok(()),
    }
}

/// Puts the rows that the slots show at version `v`.
fn put_shown(rows: &mut Relation, records: &[Option<Vrec>], v: u64, n: u32) -> Result<(), NoMemory>
    requires { AllByRecursion (StepsHaveWidth (length rows.old.columns.kinds)) (all_steps records.now) }
    ensures { OnOk result (rows.new
        ≡ record rows.old {
          rows = put_all rows.old.columns.key rows.old.rows
              (rows_shown_at n v (all_steps records.now));
        }) }
{
    for i in 0..records.len() {
        put_slot(rows, &records[i], v, n)?;
    }
    Ok(())
}

/// Puts the rows that the slots show at the `count` versions from `first` on, the newest first.
pub(crate) fn put_versions(
    rows: &mut Relation,
    records: &[Option<Vrec>],
    n: u32,
    first: u64,
    count: u64,
) -> Result<(), NoMemory>
    requires widths { AllByRecursion (StepsHaveWidth (length rows.old.columns.kinds))
        (all_steps records.now) }
    requires versions { first + count ≤ 2 ^ 63 }
    ensures { OnOk result (rows.new
        ≡ record rows.old {
          rows = put_values rows.old.columns.key rows.old.rows
              (reverse (map (λ v. rows_shown_at n v (all_steps records.now)) (places_from first count)));
        }) }
{
    if count == 0 {
        return Ok(());
    }
    put_versions(rows, records, n, first + 1, count - 1)?;
    put_shown(rows, records, first, n)?;
    Ok(())
}
