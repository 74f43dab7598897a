//! Plans of runs.
ghost use Rattle.std.specs.Prelude.{◌≡◌};

use std::marker::Model;
use whips_flow::Event;

/// Events, seen as their list.
#[derive(Drop)]
pub struct Events {
    items: Vec<Event>,
}

impl Model for Events {
    ghost use Rattle.std.specs.Prelude.{List};
    ghost use Rattle.whips_flow.specs.declared.event.Event.{Event};

    ghost Value = { List Event };

    ghost view = { λ e. e.items.items };
}

impl Events {
    /// These events.
    pub fn of(items: Vec<Event>) -> Events
        ensures { result ≡ items.items }
    {
        Events { items }
    }

    /// The events as a slice.
    pub fn as_slice(&self) -> &[Event]
        ensures { result.now ≡ self.now }
    {
        &self.items
    }
}

/// Which events a run takes before it is drained.
#[derive(Drop)]
pub enum Plan {
    /// These events, in order.
    Listed(Events),
    /// Events that are picked among the enabled ones.
    Picked {
        /// What the picking starts from.
        start: u32,
        /// How many events are picked.
        steps: u32,
    },
}
