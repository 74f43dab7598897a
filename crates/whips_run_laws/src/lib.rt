//! A run with sessions moves the pipeline as its events say, and ends where nothing is enabled or
//! where a view has too few slots.
#![tactic(auto)]

ghost use Rattle.whips_run_laws.specs.Runs.{TurnsAreSteps, RunsEnd};
ghost use Rattle.whips_run_laws.specs.Reached.{ListedRunsAreReached, PickedRunsAreReached};

/// A turn moves the pipeline by its event alone: sessions leave it as it is.
pub fn turns_are_steps()
    ensures { TurnsAreSteps }
{}

/// After the drain no event of the pipeline is enabled, or the run ended at a begin for which a view
/// has too few slots.
pub fn runs_end()
    ensures { RunsEnd }
{}

/// The pipeline at the end of a listed run, its drain included, is the one after some list of events.
pub fn listed_runs_are_reached()
    ensures { ListedRunsAreReached }
{}

/// The pipeline at the end of a picked run, its drain included, is the one after some list of events.
pub fn picked_runs_are_reached()
    ensures { PickedRunsAreReached }
{}
