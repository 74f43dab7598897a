//! The slots of one view: what each shows, in which one a change is made, and an index that finds it without looking at all.
#![tactic(auto)]

mod index;
mod slots;

pub use index::SlotIndex;
pub use slots::{find_slot, row_shown, slot_shown, versions_used};
