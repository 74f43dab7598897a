//! The maintenance pipeline as a machine over numbers: events, the painted table, the state of each
//! actor, what each event does, and the work that is left. No tuple stands here.
#![tactic(auto)]

ghost use Rattle.std.specs.Prelude.{◌≡◌, false, List, ◌++◌};
ghost use Rattle.whips_flow.specs.Facts.{Facts};
ghost use Rattle.whips_flow.specs.State.{Pipeline};
ghost use Rattle.whips_flow.specs.Progress.{is_done, step, after};
ghost use Rattle.whips_flow.specs.declared.event.Event.{Event};

pub mod event;

pub use event::Event;

/// A run goes on from where it stopped.
pub fn runs_join()
    ensures { (f : Facts) (p : Pipeline) (es more : List Event)
        → after f p (es ++ more) ≡ after f (after f p es) more }
{}

/// An event that isn't enabled changes nothing, nor does a begin for which a view has too few slots.
pub fn disabled_changes_nothing()
    ensures { (f : Facts) (p : Pipeline) (e : Event) → is_done f p e ≡ false → step f p e ≡ p }
{}
