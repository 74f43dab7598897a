//! The records of a run.
ghost use Rattle.std.specs.Prelude.{◌≡◌, length, IfOk};

use std::alloc::Global;
use whips_rel::{NoMemory, Rows};
use whips_row_buf::RowBuf;
use whips_setup::{Cut, Event};

/// A record of a run, with the rows that it reports. Sources, views and sessions go by their place.
#[derive(Clone, Copy)]
pub enum Rec<'a> {
    /// A version.
    Version {
        /// Its number.
        number: u64,
        /// Its cut: the number of transactions of each source.
        cut: &'a [u64],
        /// The number of rows of each view.
        rows: &'a [u64],
    },
    /// An event of the plan that wasn't enabled.
    Skip {
        /// Its place in the plan, from 1.
        at: u64,
        /// The event.
        event: Event,
    },
    /// A session began.
    Opened {
        /// The session.
        s: u32,
        /// Its version.
        v: u64,
        /// The phase.
        phase: u64,
    },
    /// A fetch after which slots remain.
    More {
        /// The session.
        s: u32,
        /// The view.
        x: u32,
        /// The session's version.
        v: u64,
        /// The phase.
        phase: u64,
        /// The number of slots visited since the scan began.
        slots: u32,
    },
    /// A fetch that ended its scan.
    Read {
        /// The session.
        s: u32,
        /// The view.
        x: u32,
        /// The session's version.
        v: u64,
        /// The phase.
        phase: u64,
        /// The view's rows at the version.
        rows: &'a RowBuf,
    },
    /// A fetch of a stale session.
    Expired {
        /// The session.
        s: u32,
        /// The view.
        x: u32,
        /// The session's version.
        v: u64,
        /// The phase.
        phase: u64,
    },
    /// A view has too few slots, which ends the run.
    Full {
        /// The view.
        view: u32,
        /// How many slots it needs.
        need: u64,
        /// How many it has.
        slots: u64,
    },
    /// The number of all transactions of each source.
    Final {
        /// These numbers.
        counts: &'a [u64],
    },
    /// The rows of a view at the end.
    View {
        /// The view.
        x: u32,
        /// Its rows.
        rows: &'a Rows,
    },
}

/// The counts of a cut, one for each source.
pub fn cut_counts(alloc: Global, cut: &Cut, sources: u32) -> Result<Vec<u64>, NoMemory>
    requires { length cut.now ≡ sources }
    ensures { IfOk result (λ counts. counts.items ≡ cut.now) }
{
    let mut counts = Vec::with_capacity(alloc, sources as usize)?;
    for y in 0..sources {
        counts.push(cut.count(y))?;
    }
    Ok(counts)
}
