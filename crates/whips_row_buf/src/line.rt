//! The codes of one row, in memory that stays.
ghost use Rattle.std.specs.Prelude.{◌≡◌, IfOk, length};
ghost use Rattle.whips_model.specs.Tuples.{codes_cmp, at_columns};
ghost use Rattle.std.specs.Ordering.{is_le};

use std::alloc::Global;
use std::marker::Model;
use whips_rel::{NoMemory, compare_both};

/// The codes of one row, seen as their list. Their number stays.
#[derive(Drop)]
pub(crate) struct Line {
    codes: Vec<u64>,
}

impl Model for Line {
    ghost use Rattle.std.specs.Prelude.{ℕ, List};

    ghost Value = { List ℕ };

    ghost view = { λ l. l.codes.items };
}

impl Line {
    /// A row of this many codes, all 0.
    pub(crate) fn make(alloc: Global, width: usize) -> Result<Line, NoMemory>
        ensures { IfOk result (λ l. length l ≡ width) }
    {
        Ok(Line {
            codes: vec![in alloc; 0u64; width]?,
        })
    }

    /// Takes these codes in place of its own.
    pub(crate) fn set(&mut self, codes: &[u64])
        requires { length codes.now ≡ length self.old }
        ensures { self.new ≡ codes.now }
    {
        self.codes.copy_from_slice(codes);
    }

    /// The codes as a slice.
    pub(crate) fn codes(&self) -> &[u64]
        ensures { result.now ≡ self.now }
    {
        &self.codes
    }
}

/// Whether the first row's key isn't above the second's.
pub(crate) fn is_up_to(columns: &[u32], t: &[u64], u: &[u64]) -> bool
    ensures { result ≡ is_le (codes_cmp (at_columns columns.now t.now)
        (at_columns columns.now u.now)) }
{
    compare_both(columns, t, u).is_le()
}
