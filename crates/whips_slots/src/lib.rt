//! The board of a setup's slots: its law, its first words, the place of each word, and what is chosen by the headers of
//! a slot. Writers and readers use it, and each tells a gate what it is about to do.
#![tactic(auto)]

ghost use Rattle.whips_slots.specs.Boards.{BoardsAreSmall};

mod first;
mod gate;
mod headers;
mod law;
mod places;

pub use first::layout;
pub use gate::{Gate, Moment, Pass};
pub use headers::{greatest, taken, target};
pub use law::SlotLaw;
pub use places::{view_width, word_place};

/// Law: each place of a setup's board is a number of 32 bits.
pub fn boards_are_small()
    ensures { BoardsAreSmall }
{}
