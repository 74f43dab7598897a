//! Versioned records, and when a session's version is too old.
ghost use Rattle.std.specs.Prelude.{◌≤◌, length};

use std::alloc::Global;
use whips_rel::{Change, NoMemory, Tuple};
use whips_vnl::{Shown, Vrec, changed, shown, stale};

fn keeps_rows(alloc: Global) -> Result<bool, NoMemory> {
    let first = Tuple::from_slice(alloc, &[1, 5])?;
    let second = Tuple::from_slice(alloc, &[1, 9])?;
    let rec = changed(None, Change::Add(first), 1, 2);
    let rec = changed(Some(rec), Change::Replace(second), 2, 2);
    Ok(
        (rec.len() == 2)
            & shows(&rec, 3, 9)
            & shows(&rec, 2, 9)
            & shows(&rec, 1, 5)
            & is_past(&rec, 0),
    )
}

#[test]
fn shows_the_row_of_each_kept_version(rt: HostRuntime) {
    assert!(rt; matches!(keeps_rows(rt.alloc()), Ok(true)));
}

/// Whether the record shows the row (1, code) at the version.
fn shows(rec: &Vrec, v: u64, code: u64) -> bool
    requires { length rec.now ≤ 2 }
{
    (shown(rec, v, 2) == Shown::Row) & (code_at(rec, v) == Some([1, code].as_slice()))
}

/// The codes of the row that serves the version.
fn code_at(rec: &Vrec, v: u64) -> Option<&[u64]> {
    let step = rec.step_at(v)?;
    let row = step.row.as_ref()?;
    Some(row.codes())
}

fn is_past(rec: &Vrec, v: u64) -> bool
    requires { length rec.now ≤ 2 }
{
    shown(rec, v, 2) == Shown::Past
}

fn loses_row(alloc: Global) -> Result<bool, NoMemory> {
    let row = Tuple::from_slice(alloc, &[1, 5])?;
    let key = Tuple::from_slice(alloc, &[1])?;
    let rec = changed(None, Change::Add(row), 1, 2);
    let before = shown(&rec, 0, 2) == Shown::Nothing;
    let rec = changed(Some(rec), Change::Remove(key), 2, 2);
    Ok(before & (shown(&rec, 2, 2) == Shown::Nothing) & is_past(&rec, 0))
}

#[test]
fn shows_nothing_where_the_row_went(rt: HostRuntime) {
    assert!(rt; matches!(loses_row(rt.alloc()), Ok(true)));
}

#[test]
fn expires_by_phase_and_kept_versions(rt: HostRuntime) {
    let cases = [
        (0, 0, [false, false, false]),
        (0, 1, [false, false, false]),
        (0, 2, [false, false, false]),
        (0, 3, [true, false, false]),
        (0, 4, [true, false, false]),
        (0, 5, [true, true, false]),
        (0, 6, [true, true, false]),
        (0, 7, [true, true, true]),
        (1, 4, [false, false, false]),
        (1, 5, [true, false, false]),
        (u64::MAX, u64::MAX, [false, false, false]),
        (0, u64::MAX, [true, true, true]),
        (9_223_372_036_854_775_806, u64::MAX, [true, false, false]),
        (9_223_372_036_854_775_807, u64::MAX, [false, false, false]),
    ];
    for (v, phase, wanted) in cases {
        let found = [stale(v, phase, 2), stale(v, phase, 3), stale(v, phase, 4)];
        assert!(rt; found == wanted, "version {v} at phase {phase}");
    }
}
