//! Laws on histories of a board whose slots show the values of views, over the definitions alone.
#![tactic(auto)]

ghost use Rattle.whips_slot_laws.specs.Calls.{BeginIsCarried, PublishIsCarried, ChangeIsCarried, FirstRowsFit, FirstIsCarried};
ghost use Rattle.whips_slot_laws.specs.Histories.{EmptyIsFaithful, ChangesGoOn, PhasesGoOn, LiveIsLive};

/// Law: the empty history is faithful where the first words hold a faithful store.
pub fn empty_is_faithful()
    ensures { EmptyIsFaithful }
{}

/// Law: a faithful history stays faithful through the stores of a change.
pub fn changes_go_on()
    ensures { ChangesGoOn }
{}

/// Law: a faithful history stays faithful when the phase is stored.
pub fn phases_go_on()
    ensures { PhasesGoOn }
{}

/// Law: a begin is one store of the phase.
pub fn begin_is_carried()
    ensures { BeginIsCarried }
{}

/// Law: a publish is one store of the phase.
pub fn publish_is_carried()
    ensures { PublishIsCarried }
{}

/// Law: the next change is its stores in its slot.
pub fn change_is_carried()
    ensures { ChangeIsCarried }
{}

/// Law: the values of a setup's views fit into the slots.
pub fn first_rows_fit()
    ensures { FirstRowsFit }
{}

/// Law: the first words of a setup carry the store at version 0.
pub fn first_is_carried()
    ensures { FirstIsCarried }
{}

/// Law: a version is live on words exactly where it is live in a store at their phase.
pub fn live_is_live()
    ensures { LiveIsLive }
{}
