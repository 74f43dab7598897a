//! What the pipeline asks of a script, from the script's plain data: relations, views and
//! transactions.
#![tactic(auto)]

ghost use Rattle.std.specs.Prelude.{◌≡◌, ℕ, length};
ghost use Rattle.whips_facts.specs.Scripts.{Script};
ghost use Rattle.whips_facts.specs.ScriptFacts.{facts_of};

/// Law: the pipeline of a script has a manager for each view of the script.
pub fn each_view_has_slots()
    ensures { (s : Script) → length (facts_of s).slots ≡ length s.setup.views }
{}
