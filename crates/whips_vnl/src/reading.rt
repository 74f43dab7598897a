//! What a record shows at a version.
ghost use Rattle.std.specs.Prelude.{◌≡◌, ◌≤◌, length};
ghost use Rattle.whips_vnl.specs.Records.{LiveVersionsAreKept, shown_of, visible};

use crate::record::{Shown, Vrec};

/// What the record shows at version `v`, where `n` versions are kept.
///
/// `Row` doesn't carry the row: it is that of `step_at`.
pub fn shown(rec: &Vrec, v: u64, n: u32) -> Shown
    requires least { 2 ≤ n }
    requires most { n ≤ 4 }
    requires kept { length rec.now ≤ n }
    ensures { result ≡ shown_of (visible n v rec.now) }
{
    match rec.step_at(v) {
        Some(step) => match step.row {
            Some(_) => Shown::Row,
            None => Shown::Nothing,
        },
        None => {
            if rec.len() < n as usize {
                Shown::Nothing
            } else {
                Shown::Past
            }
        }
    }
}

/// On a record whose versions aren't above the one that is written at a phase, a version that
/// isn't stale at that phase is never past.
pub fn live_versions_are_kept()
    ensures { LiveVersionsAreKept }
{}
