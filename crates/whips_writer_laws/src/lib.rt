//! A store beside the writer of a run: the same phase, the same changes left, the same shortages,
//! and the views' values at the writer's cuts, as laws over the definitions alone.
#![tactic(auto)]

ghost use Rattle.whips_writer_laws.specs.Needs.{FullIsShortage, CutsInUseAreOfVersions};
ghost use Rattle.whips_writer_laws.specs.Writers.{FirstGoesWith, BeginGoesWith, ChangeGoesWith, PublishGoesWith};
ghost use Rattle.whips_writer_laws.specs.Writers.{SessionsReadCuts, EventsGoWith, RunsGoWith};

/// Law: a store that is faithful to a script's values is full exactly where the script has a
/// shortage.
pub fn full_is_shortage()
    ensures { FullIsShortage }
{}

/// Law: a writer's cuts in use are those of the versions in use.
pub fn cuts_in_use_are_of_versions()
    ensures { CutsInUseAreOfVersions }
{}

/// Law: a store at version 0 of a script's setup goes with the writer at the start.
pub fn first_goes_with()
    ensures { FirstGoesWith }
{}

/// Law: a store that goes with a writer is full exactly where the writer's begin has a shortage, and
/// else goes with the begun writer.
pub fn begin_goes_with()
    ensures { BeginGoesWith }
{}

/// Law: a store that goes with a writer does so after a change.
pub fn change_goes_with()
    ensures { ChangeGoesWith }
{}

/// Law: a store that goes with a writer does so after its version is committed.
pub fn publish_goes_with()
    ensures { PublishGoesWith }
{}

/// Law: a session that scans a view while the store goes on reads the view's value at the cut of its
/// version.
pub fn sessions_read_cuts()
    ensures { SessionsReadCuts }
{}

/// Law: a store that goes with a pipeline's writer does so after each event, and is a later moment.
pub fn events_go_with()
    ensures { EventsGoWith }
{}

/// Law: a store that goes with a pipeline's writer does so after a run, and is a later moment.
pub fn runs_go_with()
    ensures { RunsGoWith }
{}
