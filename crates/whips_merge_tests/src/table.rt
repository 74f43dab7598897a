//! Rows that come into a painted table of two views, are painted and leave it.
ghost use Rattle.std.specs.Prelude.{◌≡◌, ◌<◌, ◌≤◌, length, IfOk, OnOk};

use std::alloc::Global;
use whips_paint::{NoMemory, Table};

/// The views that a transaction concerns.
#[derive(Clone, Copy)]
enum Views {
    First,
    Second,
    Both,
}

/// What a table is told, and what it is asked for.
#[derive(Clone, Copy)]
enum Step {
    /// A row comes: its number, its source and the views.
    Row(u64, u32, Views),
    /// The list of this view up to this number is painted.
    Paint(u32, u64),
    /// The last number that was told is to be this one.
    Told(u64),
    /// The rows of these numbers are to leave, or none.
    Take(&'static [u64]),
}

/// A row comes, whose number is above the last one that was told.
fn add(
    alloc: Global,
    table: &mut Table,
    number: u64,
    source: u32,
    views: Views,
) -> Result<(), NoMemory>
    requires views { table.old.views ≡ 2 }
    ensures views { OnOk result (table.new.views ≡ 2) }
{
    if number <= table.told() {
        return Err(NoMemory);
    }
    match views {
        Views::First => table.add_row(number, source, &vec![in alloc; 0]?),
        Views::Second => table.add_row(number, source, &vec![in alloc; 1]?),
        Views::Both => table.add_row(number, source, &vec![in alloc; 0, 1]?),
    }
}

/// Whether the rows of these numbers leave, or none.
fn takes(table: &mut Table, wanted: &[u64]) -> Result<bool, NoMemory>
    requires views { table.old.views ≡ 2 }
    ensures views { OnOk result (table.new.views ≡ 2) }
{
    match table.take_ready()? {
        Some(numbers) => Ok(numbers.as_slice() == wanted),
        None => Ok(wanted.is_empty()),
    }
}

/// Whether the step goes as it is to go.
fn goes(alloc: Global, table: &mut Table, step: Step) -> Result<bool, NoMemory>
    requires views { table.old.views ≡ 2 }
    ensures views { OnOk result (table.new.views ≡ 2) }
{
    match step {
        Step::Row(number, source, views) => {
            add(alloc, table, number, source, views)?;
            Ok(true)
        }
        Step::Paint(view, upto) => {
            if view > 1 || upto > table.told() {
                return Err(NoMemory);
            }
            table.paint(view, upto);
            Ok(true)
        }
        Step::Told(number) => Ok(table.told() == number),
        Step::Take(numbers) => takes(table, numbers),
    }
}

/// Whether each step goes as it is to go, and no row is left.
fn all_go(alloc: Global, table: &mut Table, steps: &[Step]) -> Result<bool, NoMemory>
    requires { table.old.views ≡ 2 }
{
    for step in steps {
        if !goes(alloc, table, *step)? {
            return Ok(false);
        }
    }
    Ok(table.len() == 0)
}

/// Whether the run goes as it is to go, on a new table.
fn run_goes(alloc: Global, steps: &[Step]) -> Result<bool, NoMemory> {
    let mut table = Table::new(alloc, 2)?;
    all_go(alloc, &mut table, steps)
}

/// Rows of different views leave in order, where they are of one source.
const IN_ORDER: &[Step] = &[
    Step::Told(0),
    Step::Row(1, 0, Views::First),
    Step::Told(1),
    Step::Row(2, 0, Views::Second),
    Step::Paint(1, 2),
    Step::Take(&[]),
    Step::Paint(0, 2),
    Step::Take(&[1]),
    Step::Take(&[2]),
    Step::Take(&[]),
    Step::Told(2),
];

/// Rows of one list leave together.
const TOGETHER: &[Step] = &[
    Step::Row(1, 0, Views::Both),
    Step::Row(2, 1, Views::First),
    Step::Paint(0, 2),
    Step::Take(&[]),
    Step::Paint(1, 1),
    Step::Take(&[1, 2]),
    Step::Take(&[]),
];

#[test]
fn rows_leave_as_they_are_painted(rt: HostRuntime) {
    for (i, run) in [IN_ORDER, TOGETHER].iter().enumerate() {
        assert!(rt; matches!(run_goes(rt.alloc(), run), Ok(true)), "run {i}");
    }
}
