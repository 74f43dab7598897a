//! The facts of a script meet the premises of the laws on the pipeline, so that these laws hold of
//! every run of every script.
#![tactic(auto)]

ghost use Rattle.whips_facts_laws.specs.FactsLaws.{FactsAreRoomy, FactsAskSourcesOfRun};
ghost use Rattle.whips_facts_laws.specs.ScriptRuns.{ListedRunsEndWell, PickedRunsEndWell};

/// Law: where no view of a script has too few slots for its rows at some cuts, there are at most as
/// many changes between the last two of these cuts as slots.
pub fn facts_are_roomy()
    ensures { FactsAreRoomy }
{}

/// Law: the sources that the queries of a script ask are sources of the script.
pub fn facts_ask_sources_of_run()
    ensures { FactsAskSourcesOfRun }
{}

/// Law: at the end of a listed run of a script, its drain included, the cuts of the versions advance,
/// and a view had too few slots or everything is committed and used up.
pub fn listed_runs_end_well()
    ensures { ListedRunsEndWell }
{}

/// Law: at the end of a picked run of a script, its drain included, the cuts of the versions advance,
/// and a view had too few slots or everything is committed and used up.
pub fn picked_runs_end_well()
    ensures { PickedRunsEndWell }
{}
