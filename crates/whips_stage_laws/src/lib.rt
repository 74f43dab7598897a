//! What the contents of each stage are at every moment, and what one message does to a source and to a manager.
#![tactic(auto)]

ghost use Rattle.whips_facts.specs.Scripts.{Script};
ghost use Rattle.whips_setup.specs.Refusals.{IsSetup};
ghost use Rattle.whips_setup.specs.Workloads.{IsWorkload};
ghost use Rattle.whips_stage_laws.specs.Fits.{FitsWork};

/// Law: the views of a valid setup are over its relations at their homes, and a valid workload has
/// transactions of each source's own relations, valid in turn.
pub fn setups_fit()
    ensures { (s : Script) → IsSetup s.setup → IsWorkload s.setup s.work → FitsWork s }
{}
