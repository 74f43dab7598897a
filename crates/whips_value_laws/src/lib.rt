//! The values of views at the end of a run.
#![tactic(auto)]

ghost use Rattle.whips_facts.specs.Values.{LastCutHasAll};

/// Law: where no event of the pipeline of a valid script is enabled after a list of events, the value
/// of each view at the current cut is that of all transactions.
pub fn last_cut_has_all()
    ensures { LastCutHasAll }
{}
