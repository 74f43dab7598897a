//! What the slots of a store show at each version that readers may read, as laws over the
//! definitions alone.
#![tactic(auto)]

ghost use Rattle.whips_faithful_laws.specs.Laws.{RowsAreExact, ValuesAreDetermined, SlotsNeededAreForValues};
ghost use Rattle.whips_faithful_laws.specs.Laws.{FirstStoreIsSound, FirstIsFaithful};
ghost use Rattle.whips_faithful_laws.specs.Laws.{BeginKeepsFaithful, ChangeKeepsFaithful, PublishKeepsFaithful};
ghost use Rattle.whips_faithful_laws.specs.Scans.{MomentsFollow, VisitsSeeOneStore, SessionsReadValues, VisitsGoOn};
ghost use Rattle.whips_faithful_laws.specs.Runs.{CallsKeepFaithful, CallsKeepTelling};

/// Law: rows that are those of some values are the same rows, and as many.
pub fn rows_are_exact()
    ensures { RowsAreExact }
{}

/// Law: a store shows the values of one function at most at each live version.
pub fn values_are_determined()
    ensures { ValuesAreDetermined }
{}

/// Law: a faithful store needs slots for the values at the versions in use and the rows afterwards.
pub fn slots_needed_are_for_values()
    ensures { SlotsNeededAreForValues }
{}

/// Law: a store at version 0 of a setup is sound.
pub fn first_store_is_sound()
    ensures { FirstStoreIsSound }
{}

/// Law: a store at version 0 of a setup is faithful to the views' values on the initial relations.
pub fn first_is_faithful()
    ensures { FirstIsFaithful }
{}

/// Law: a store stays faithful when a transaction of net changes begins that leads to the values at
/// the next version.
pub fn begin_keeps_faithful()
    ensures { BeginKeepsFaithful }
{}

/// Law: a store stays faithful when a change is made.
pub fn change_keeps_faithful()
    ensures { ChangeKeepsFaithful }
{}

/// Law: a store stays faithful when a version is committed.
pub fn publish_keeps_faithful()
    ensures { PublishKeepsFaithful }
{}

/// Law: a moment of a store is no earlier than itself, and later ones follow one another.
pub fn moments_follow()
    ensures { MomentsFollow }
{}

/// Law: what visits see at a version that isn't stale at the last moment is what the slots show
/// then.
pub fn visits_see_one_store()
    ensures { VisitsSeeOneStore }
{}

/// Law: a session that scans a view in visits while the store goes on reads the view's rows at its
/// version, where that isn't stale at the last visit.
pub fn sessions_read_values()
    ensures { SessionsReadValues }
{}

/// Law: one more visit, on a later moment, stays in turn, and what it sees is put behind what was
/// read.
pub fn visits_go_on()
    ensures { VisitsGoOn }
{}

/// Law: calls of a store, one after another, keep it sound and faithful, and lead to later moments.
pub fn calls_keep_faithful()
    ensures { CallsKeepFaithful }
{}

/// Law: a faithful store that tells the values of its past goes on to tell them.
pub fn calls_keep_telling()
    ensures { CallsKeepTelling }
{}
