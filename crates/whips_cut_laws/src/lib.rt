//! The cuts of the versions advance.
#![tactic(auto)]

ghost use Rattle.whips_cut_laws.specs.Cuts.{CutsAdvance};

/// After any list of events, each version's cut is nowhere below the one before it and above it at
/// some source, and no cut passes what was committed.
pub fn cuts_advance()
    ensures { CutsAdvance }
{}
