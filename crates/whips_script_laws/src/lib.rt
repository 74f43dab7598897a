//! What the reader of scripts accepts, other parts accept: no view, no setup and no workload of a
//! script that was read is refused when it is made. And an event is read from the text that is printed for it.
#![tactic(auto)]

ghost use Rattle.whips_flow.specs.declared.event.Event.{Event};
ghost use Rattle.whips_facts.specs.Scripts.{Labels};
ghost use Rattle.whips_reading.specs.Json.{Text};
ghost use Rattle.whips_script_laws.specs.Printed.{IsReadAsPrinted};
ghost use Rattle.whips_script_laws.specs.Laws.{ViewsAreMade, SourcesAreSound, WorkloadsAreMade, SetupsAreMade};
ghost use Rattle.whips_script_laws.specs.Scripts.{ViewsAreAccepted, ScriptsAreAccepted};

/// Law: the parts of a view that was read make a view.
pub fn views_are_made()
    ensures { ViewsAreMade }
{}

/// Law: sources that were read are within the limits of a setup, and their relations are sound.
pub fn sources_are_sound()
    ensures { SourcesAreSound }
{}

/// Law: the transactions of sources that were read are a workload of each setup of these sources.
pub fn workloads_are_made()
    ensures { WorkloadsAreMade }
{}

/// Law: views that were read over sources that were read make a setup with these sources.
pub fn setups_are_made()
    ensures { SetupsAreMade }
{}

/// Law: a view that was read is never refused when it is made.
pub fn views_are_accepted()
    ensures { ViewsAreAccepted }
{}

/// Law: a script whose parts were read is never refused when its setup and its workload are made.
pub fn scripts_are_accepted()
    ensures { ScriptsAreAccepted }
{}

/// Law: the text that an event is read from is the one that is printed for it.
#[tactic(auto, using(crate::proofs::Printed::printed))]
pub fn events_are_read_as_printed()
    ensures { (l : Labels) (t : Text) (e : Event) → IsReadAsPrinted l t e }
{}
