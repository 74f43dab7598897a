// What comes from outside and what goes there.
ghost use Rattle.std.specs.Prelude.{◌≡◌, ◌≤◌, ◌<◌, ℕ, List, length, Option, IfOk};
ghost use Rattle.std.specs.Io.KnownBytes.{ReadConsumes, WriteAppends};
ghost use Rattle.whips_io.specs.Counts.{next_count, FailsByFault};

use std::alloc::AllocError;

/// The outside failed.
#[derive(Clone, Copy, Debug, PartialEq, Eq)]
pub struct Failed;

/// There was no memory left.
#[derive(Clone, Copy, Debug, PartialEq, Eq)]
pub struct NoMemory;

impl From<AllocError> for NoMemory {
    fn from(_error: AllocError) -> NoMemory {
        NoMemory
    }
}

/// Bytes that come from outside.
///
/// Its ghost members are `left`, the bytes still to come where they are known; `faults`, a count
/// that never falls; and `calls`, the number of calls of `read` so far. Both counts stop at
/// 2^64 - 1.
pub trait Source {
    ghost left: { Self → Option (List ℕ) };

    ghost faults: { Self → ℕ };

    ghost calls: { Self → ℕ };

    /// Reads up to `buf.len()` bytes into the front of `buf` and returns how many: none only at
    /// the end, or where `buf` is empty. After `Failed` no byte was taken, and `buf` holds
    /// anything.
    fn read(&mut self, buf: &mut [u8]) -> Result<usize, Failed>
        ensures bound { IfOk result (λ n. n ≤ length buf.new) }
        ensures bytes { ReadConsumes (left self.old) (left self.new) result buf.new }
        ensures cause { FailsByFault (faults self.old) (faults self.new) result }
        ensures counted { calls self.new ≡ next_count (calls self.old) };
}

/// A place outside that takes bytes.
///
/// Its ghost members are `written`, the bytes taken so far where they are known; `faults`, a count
/// that never falls; and `calls`, the number of calls of `write` so far. Both counts stop at
/// 2^64 - 1.
pub trait Sink {
    ghost written: { Self → Option (List ℕ) };

    ghost faults: { Self → ℕ };

    ghost calls: { Self → ℕ };

    /// Writes the front of `piece` and returns how many bytes that was: at least one, unless
    /// `piece` is empty. After `Failed` nothing was written.
    fn write(&mut self, piece: &[u8]) -> Result<usize, Failed>
        ensures bound { IfOk result (λ n. n ≤ length piece.now) }
        ensures some { IfOk result (λ n. 0 < length piece.now → 0 < n) }
        ensures bytes { WriteAppends (written self.old) (written self.new) result piece.now }
        ensures cause { FailsByFault (faults self.old) (faults self.new) result }
        ensures counted { calls self.new ≡ next_count (calls self.old) };
}
