//! The law of a board of slots.
ghost use Rattle.std.specs.Prelude.{◌≡◌};
ghost use Rattle.whips_slot_words.specs.StoreLaws.{shape_of};

use std::marker::Model;
use std::snapshot::Snapshot;
use whips_board::Law;
use whips_setup::Setup;

/// Which stores are allowed on the board of a setup. It has no bytes, and nothing is tested when the program runs.
#[derive(Drop)]
pub struct SlotLaw {
    setup: Snapshot<Setup>,
}

impl Model for SlotLaw {
    ghost use Rattle.whips_slot_words.specs.Words.{Shape};
    ghost use Rattle.whips_slot_words.specs.StoreLaws.{shape_of};

    ghost Value = { Shape };

    ghost view = { λ l. shape_of l.setup.value };
}

impl SlotLaw {
    /// The law of this setup's board.
    pub fn of(setup: &Setup) -> SlotLaw
        ensures { result ≡ shape_of setup.now }
    {
        SlotLaw {
            setup: Snapshot::of(setup),
        }
    }
}

impl Law for SlotLaw {
    ghost use Rattle.whips_slot_words.specs.Stores.{IsAllowed};

    ghost allows = { IsAllowed };
}
