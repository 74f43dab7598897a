//! Laws on stores of versioned rows, over the definitions alone.
#![tactic(auto)]

ghost use Rattle.whips_store_laws.specs.Laws.{BeginKeepsSound, ChangeKeepsSound, PublishKeepsSound, ChangeKeepsReads, BeginKeepsReads, PublishKeepsReads, LiveVersionsAreShown, FirstIsSound};

/// Law: a store stays sound when a transaction of net changes begins that no view is short of
/// slots for.
pub fn begin_keeps_sound()
    ensures { BeginKeepsSound }
{}

/// Law: a store stays sound when a change is made.
pub fn change_keeps_sound()
    ensures { ChangeKeepsSound }
{}

/// Law: a store stays sound when a version is committed.
pub fn publish_keeps_sound()
    ensures { PublishKeepsSound }
{}

/// Law: a change leaves what each slot shows at a version that was committed and isn't stale.
pub fn change_keeps_reads()
    ensures { ChangeKeepsReads }
{}

/// Law: what the slots show is the same after a transaction begins.
pub fn begin_keeps_reads()
    ensures { BeginKeepsReads }
{}

/// Law: what the slots show is the same after a version is committed.
pub fn publish_keeps_reads()
    ensures { PublishKeepsReads }
{}

/// Law: in a store no slot is past at a version that isn't stale.
pub fn live_versions_are_shown()
    ensures { LiveVersionsAreShown }
{}

/// Law: a view with no number above the greatest is sound in a store at version 0.
pub fn first_is_sound()
    ensures { FirstIsSound }
{}
