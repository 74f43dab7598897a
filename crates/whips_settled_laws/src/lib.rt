//! Where no event is enabled, nothing is left on its way, and the last cut counts every transaction that concerns a view.
#![tactic(auto)]

ghost use Rattle.whips_settled_laws.specs.LastCut.{LastCutIsComplete};
ghost use Rattle.whips_settled_laws.specs.Settled.{NothingIsLeft};

/// Where no event of the pipeline is enabled after a list of events, every transaction is committed,
/// every queue, open step, row and row set is used up, and the phase is even.
pub fn nothing_is_left()
    ensures { NothingIsLeft }
{}

/// Law: where no event of the pipeline is enabled after a list of events, a transaction that the
/// current cut doesn't count concerns no view.
pub fn last_cut_is_complete()
    ensures { LastCutIsComplete }
{}
