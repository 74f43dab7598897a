//! Net changes.
ghost use Rattle.std.specs.Prelude.{◌≡◌};

use std::alloc::Global;
use whips_fixtures::pairs;
use whips_net::net;
use whips_rel::{Change, NoMemory, Rows};

/// What is done to a row, and its codes or its key's.
fn parts(change: &Change) -> (&str, &[u64]) {
    match change {
        Change::Add(row) => ("+", row.codes()),
        Change::Replace(row) => ("=", row.codes()),
        Change::Remove(key) => ("-", key.codes()),
    }
}

/// Whether the changes are these, in order.
fn are_changes(changes: &[Change], wanted: &[(&str, &[u64])]) -> bool {
    changes.len() == wanted.len()
        && changes
            .iter()
            .zip(wanted)
            .all(|(change, wanted)| parts(change) == *wanted)
}

/// Whether the changes between these rows are these.
fn leads_by(
    alloc: Global,
    before: &Rows,
    after: &Rows,
    wanted: &[(&str, &[u64])],
) -> Result<bool, NoMemory>
    requires { before.now.columns ≡ after.now.columns }
{
    let changes = net(alloc, before, after)?;
    Ok(are_changes(&changes, wanted))
}

fn is_net(alloc: Global) -> Result<bool, NoMemory> {
    let before = pairs(alloc, &[(1, 5), (2, 5), (4, 5)])?;
    let after = pairs(alloc, &[(2, 9), (3, 5), (4, 5)])?;
    let wanted: [(&str, &[u64]); 3] = [("-", &[1]), ("=", &[2, 9]), ("+", &[3, 5])];
    leads_by(alloc, &before, &after, &wanted)
}

#[test]
fn one_change_for_each_key_whose_row_differs(rt: HostRuntime) {
    assert!(rt; matches!(is_net(rt.alloc()), Ok(true)));
}
