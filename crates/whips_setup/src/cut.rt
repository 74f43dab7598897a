//! Cuts.
ghost use Rattle.std.specs.Prelude.{◌≡◌, ◌<◌, length, slice_get, Some, IfOk};

use std::marker::Model;
use whips_rel::NoMemory;

/// A prefix of each source's transactions, seen as the list of how many it has of each source.
#[derive(Drop)]
pub struct Cut {
    counts: Vec<u64>,
}

impl Model for Cut {
    ghost use Rattle.std.specs.Prelude.{ℕ, List};

    ghost Value = { List ℕ };

    ghost view = { λ c. c.counts.items };
}

impl Cut {
    /// The cut of these counts, one for each source.
    pub fn of(counts: Vec<u64>) -> Cut
        ensures { result ≡ counts.items }
    {
        Cut { counts }
    }

    /// How many transactions it has of source `y`.
    pub fn count(&self, y: u32) -> u64
        requires { y < length self.now }
        ensures { slice_get self.now y ≡ Some result }
    {
        self.counts[y as usize]
    }

    /// The same cut again.
    pub fn copy(&self) -> Result<Cut, NoMemory>
        ensures { IfOk result (λ c. c ≡ self.now) }
    {
        Ok(Cut {
            counts: Vec::from_slice(*self.counts.allocator(), &self.counts)?,
        })
    }
}
