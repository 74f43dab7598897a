//! The drain ends: each event that is done leaves less work, so that with as many turns as there is
//! work no event is left that the drain could do.
#![tactic(auto)]

ghost use Rattle.whips_drain_laws.specs.Drain.{EventsLessenWork, DrainEnds};

/// Each event that is done leaves less work.
pub fn events_lessen_work()
    ensures { EventsLessenWork }
{}

/// With at least as many turns as there is work, the drain ends where no event is enabled, or where
/// the first enabled one is a begin for which a view has too few slots.
pub fn drain_ends()
    ensures { DrainEnds }
{}
