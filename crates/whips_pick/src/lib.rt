//! A generator of picks: each start gives the same run of numbers everywhere.
#![tactic(auto)]

ghost use Rattle.std.specs.Prelude.{◌≡◌, ◌<◌, ◌≤◌};
ghost use Rattle.whips_pick.specs.Picks.{next_state, picked};

use std::marker::Model;

const MULTIPLIER: u32 = 1_664_525;

const INCREMENT: u32 = 1_013_904_223;

/// A linear congruential generator over 32 bits, seen as its state.
#[derive(Debug, Drop)]
pub struct Picker {
    state: u32,
}

impl Model for Picker {
    ghost use Rattle.std.specs.Prelude.{ℕ};

    ghost Value = { ℕ };

    ghost view = { λ p. p.state };
}

impl Picker {
    /// A picker whose first state is `start`.
    pub fn new(start: u32) -> Picker
        ensures { result ≡ start }
    {
        Picker { state: start }
    }

    /// Goes to the next state and picks a number from 0 to `count - 1` by it.
    ///
    /// Only 16 bits of the state are used, so `count` is at most 65,536.
    pub fn pick(&mut self, count: u32) -> u32
        requires not_empty { 1 ≤ count }
        requires within { count ≤ 65536 }
        ensures state { self.new ≡ next_state self.old }
        ensures answer { result ≡ picked count self.new }
        ensures below { result < count }
    {
        self.state = self.state.wrapping_mul(MULTIPLIER).wrapping_add(INCREMENT);
        (self.state >> 16) % count
    }
}
