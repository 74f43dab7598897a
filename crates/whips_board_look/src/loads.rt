//! Loads of words that stand apart.
ghost use Rattle.std.specs.Prelude.{◌≡◌, ◌<◌, ◌≤◌, ◌+◌, ◌*◌, ◌^◌, ◌++◌, ℕ, length};
ghost use Rattle.whips_slot_words.specs.Loads.{loads_of, words_at};

use whips_board::{Board, Eye};
use whips_slots::SlotLaw;

/// Loads a word into each of these in order, from the place `first` on, so many places apart.
pub(crate) fn load_words(
    eye: &mut Eye<SlotLaw>,
    board: &Board<SlotLaw>,
    first: u32,
    step: u32,
    words: &mut [u64],
)
    requires board { eye.old.board ≡ board.now }
    requires small { length board.now.first < 2 ^ 32 }
    requires few { length words.old ≤ 16 }
    requires places { (k : ℕ) → k < length words.old → first + k * step < length board.now.first }
    ensures board { eye.new.board ≡ eye.old.board }
    ensures loaded { loads_of eye.new.log
        ≡ loads_of eye.old.log ++ words_at (λ k. first + k * step) 0 words.new }
{
    for k in 0..words.len() {
        words[k] = eye.load(board, first + k as u32 * step);
    }
}
