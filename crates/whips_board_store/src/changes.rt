//! A change is stored.
ghost use Rattle.std.specs.Prelude.{◌≡◌, ◌<◌, ◌≤◌, ◌+◌, ◌^◌, ◌++◌, length};
ghost use Rattle.whips_board.specs.History.{IsLawful};
ghost use Rattle.whips_slot_words.specs.Words.{IsSlotOf, phase_of, headers, target_of};
ghost use Rattle.whips_slot_words.specs.Stores.{IsAllowed};
ghost use Rattle.whips_slot_words.specs.Slots.{op_number, row_stored, change_stores, board_size};
ghost use Rattle.whips_slot_words.specs.StoreLaws.{shape_of};
ghost use Rattle.whips_board_store.specs.Words.{words_now, row_stores};

use crate::board_words::BoardWords;
use whips_rel::Change;
use whips_setup::Setup;
use whips_slots::{Gate, target, word_place};

/// The words of the row that the change brings.
fn row_brought(change: &Change) -> &[u64]
    ensures { result.now ≡ row_stored change.now }
{
    match change {
        Change::Add(row) | Change::Replace(row) => row.codes(),
        Change::Remove(_) => &[],
    }
}

/// What the change does, as a header has it.
fn operation(change: &Change) -> u64
    ensures number { result ≡ op_number change.now }
    ensures few { result < 4 }
{
    match change {
        Change::Add(_) => 1,
        Change::Replace(_) => 2,
        Change::Remove(_) => 3,
    }
}

/// The entry of the slot that its next change is stored in.
fn target_entry<G: Gate>(words: &BoardWords<G>, setup: &Setup, x: u32, i: u32) -> u32
    requires board { length words.now.board.first ≡ board_size (shape_of setup.now) }
    requires slot { IsSlotOf (shape_of setup.now) x i }
    ensures entry { result ≡ target_of (headers (shape_of setup.now) (words_now words.now) x i) }
    ensures within { result < setup.now.versions }
{
    let _sound = setup.sources();
    let n = setup.versions() as usize;
    let mut headers = [0; 4];
    for e in 0..n {
        headers[e] = words.word(word_place(setup, x, i, e as u32, 0));
    }
    target(&headers[..n])
}

/// Stores these words at the places from `place` on.
fn store_row<G: Gate>(words: &mut BoardWords<G>, place: u32, row: &[u64])
    requires versions { 1 ≤ words.old.board.law.versions }
    requires board { length words.old.board.first ≡ board_size words.old.board.law }
    requires small { board_size words.old.board.law < 2 ^ 32 }
    requires lawful { IsLawful (IsAllowed words.old.board.law) (words_now words.old)
        (row_stores place row.now) }
    ensures { words.new ≡ record words.old {
      history = words.old.history ++ row_stores place row.now;
    } }
{
    for k in 0..row.len() {
        words.store(place + k as u32, row[k]);
    }
}

/// Stores the change in the slot: the words of its row, in order, and then the header.
pub(crate) fn store_change<G: Gate>(
    words: &mut BoardWords<G>,
    setup: &Setup,
    x: u32,
    i: u32,
    change: &Change,
)
    requires law { words.old.board.law ≡ shape_of setup.now }
    requires board { length words.old.board.first ≡ board_size (shape_of setup.now) }
    requires small { board_size (shape_of setup.now) < 2 ^ 32 }
    requires slot { IsSlotOf (shape_of setup.now) x i }
    requires phase { phase_of (words_now words.old) ≤ 2 ^ 62 }
    requires lawful { IsLawful (IsAllowed (shape_of setup.now)) (words_now words.old)
        (change_stores (shape_of setup.now) (words_now words.old) x i change.now) }
    ensures { words.new ≡ record words.old {
      history = words.old.history
          ++ change_stores (shape_of setup.now) (words_now words.old) x i change.now;
    } }
{
    let entry = target_entry(words, setup, x, i);
    let header = word_place(setup, x, i, entry, 0);
    let version = words.word(0) / 2 + 1;
    store_row(words, header + 1, row_brought(change));
    words.store(header, 4 * version + operation(change));
}
