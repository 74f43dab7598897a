//! The net changes from one value of a view to another, and how many keys several values have
//! together. Definitions over plain rows.
#![tactic(auto)]

ghost use Rattle.whips_changes.specs.Changes.{ChangesWithinNeed};

/// Law: there are at most as many net changes between two values of a view as keys that both, with
/// any older values, have together.
pub fn changes_within_need()
    ensures { ChangesWithinNeed }
{}
