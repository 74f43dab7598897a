//! A reader's side of a board of slots: it loads single words through an eye, with no lock and no memory.
#![tactic(auto)]

ghost use Rattle.whips_board_look.specs.Laws.{LoadsAreCounted, FetchesAreBounded, FetchesReadSlots, FetchesReadStarts, PhasesAreRead};

mod loads;
mod look;
mod shown;

pub use look::BoardLook;

/// Law: a phase is one load, and a slot as many as versions stay readable, and where it shows a row one for each column.
pub fn loads_are_counted()
    ensures { LoadsAreCounted }
{}

/// Law: how many loads a fetch is at most.
pub fn fetches_are_bounded()
    ensures { FetchesAreBounded }
{}

/// Law: a fetch that isn't expired saw in each slot what was there while its version was live.
pub fn fetches_read_slots()
    ensures { FetchesReadSlots }
{}

/// Law: it saw what was there after one prefix, at the phase at which the session started.
pub fn fetches_read_starts()
    ensures { FetchesReadStarts }
{}

/// Law: each phase that is read was the board's.
pub fn phases_are_read()
    ensures { PhasesAreRead }
{}
