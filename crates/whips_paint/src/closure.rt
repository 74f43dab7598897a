//! Which rows are ready, and which of them go together.
ghost use Rattle.std.specs.Prelude.{◌≡◌, ◌<◌, ◌++◌, ◌∷◌, [], if◌then◌else◌, OnOk, Some, length, map, not, filter, position, slice_get, IfOk};
ghost use Rattle.std.specs.List.{AllPairs, list_all, zip};
ghost use Rattle.std.specs.List.Sorted.{IsStrictlyIncreasing};
ghost use Rattle.std.specs.Option.{option_map};
ghost use Rattle.whips_flow.specs.Painted.{closure, is_ready, is_waiting, has_number, rows_with, rows_without};
ghost use Rattle.whips_paint.specs.declared.bounds.Side.TheVariants.{Needed};
ghost use Rattle.whips_paint.specs.Marks.{first_mark, number_of_pair, is_marked_pair, is_fit_pair, one_mark, IsSpread};

use crate::NoMemory;
use crate::bounds::Side;
use crate::marks::{Mark, first_clear, spread};
use crate::row::Row;
use std::alloc::Global;

/// A mark for each row: found where the row waits for a list.
fn waiting_marks(alloc: Global, rows: &[Row]) -> Result<Vec<Mark>, NoMemory>
    ensures { IfOk result (λ v. v.items ≡ map first_mark rows.now) }
{
    Ok(
        rows.iter()
            .map(|row| {
                if row.is_waiting() {
                    Mark::Found
                } else {
                    Mark::Clear
                }
            })
            .collect(alloc)?,
    )
}

/// The marks of the rows that go with the row at a place.
fn closure_marks(alloc: Global, rows: &[Row], place: usize) -> Result<Vec<Mark>, NoMemory>
    requires order { AllPairs (λ r q. r.number < q.number) rows.now }
    requires place { place < length rows.now }
    ensures { IfOk result (λ m.
        IsSpread Needed rows.now (one_mark (length rows.now) place) m.items) }
{
    let mut marks = vec![in alloc; Mark::Clear; rows.len()]?;
    marks[place] = Mark::Found;
    spread(alloc, rows, Side::Needed, &mut marks)?;
    Ok(marks)
}

/// Whether no marked row waits for a list.
fn none_waits(rows: &[Row], marks: &[Mark]) -> bool
    ensures { result ≡ list_all is_fit_pair (zip rows.now marks.now) }
{
    rows.iter()
        .zip(marks)
        .all(|(row, mark)| mark.is_clear() || !row.is_waiting())
}

/// Whether the row at a place is ready.
fn is_ready_at(alloc: Global, rows: &[Row], place: usize) -> Result<bool, NoMemory>
    requires order { AllPairs (λ r q. r.number < q.number) rows.now }
    requires place { place < length rows.now }
    ensures { IfOk result (λ b.
        option_map (is_ready rows.now) (slice_get rows.now place) ≡ Some b) }
{
    let marks = closure_marks(alloc, rows, place)?;
    Ok(none_waits(rows, &marks))
}

/// The first row that waits for no list.
fn first_done(rows: &[Row]) -> Option<usize>
    ensures { result ≡ position (λ r. not (is_waiting r)) rows.now }
{
    rows.iter().position(|row| !row.is_waiting())
}

/// The place of the first row that leads to no waiting row, where there is one.
///
/// A row isn't ready exactly where it leads to a waiting row, so the rows that aren't ready are
/// marked from the waiting ones.
fn first_unmarked(alloc: Global, rows: &[Row]) -> Result<Option<usize>, NoMemory>
    requires { AllPairs (λ r q. r.number < q.number) rows.now }
    ensures { IfOk result (λ place. place ≡ position (is_ready rows.now) rows.now) }
{
    let mut marks = waiting_marks(alloc, rows)?;
    spread(alloc, rows, Side::Needing, &mut marks)?;
    Ok(first_clear(&marks))
}

/// The place of the first row whose closure has no waiting row, where there is one.
///
/// Where all rows wait, there is none, and where the first row that doesn't wait is ready, it is
/// that one.
pub(crate) fn first_ready(alloc: Global, rows: &[Row]) -> Result<Option<usize>, NoMemory>
    requires { AllPairs (λ r q. r.number < q.number) rows.now }
    ensures { IfOk result (λ place. place ≡ position (is_ready rows.now) rows.now) }
{
    let Some(place) = first_done(rows) else {
        return Ok(None);
    };
    if is_ready_at(alloc, rows, place)? {
        return Ok(Some(place));
    }
    first_unmarked(alloc, rows)
}

/// The numbers of the marked rows, in order.
fn marked_numbers(alloc: Global, rows: &[Row], marks: &[Mark]) -> Result<Vec<u64>, NoMemory>
    ensures { IfOk result (λ v.
        v.items ≡ map number_of_pair (filter is_marked_pair (zip rows.now marks.now))) }
{
    Ok(
        rows.iter()
            .zip(marks)
            .filter(|(_, mark)| !mark.is_clear())
            .map(|(row, _)| row.number())
            .collect(alloc)?,
    )
}

/// The numbers of the rows that go with the row at a place, in order.
pub(crate) fn closure_numbers(
    alloc: Global,
    rows: &[Row],
    place: usize,
) -> Result<Vec<u64>, NoMemory>
    requires order { AllPairs (λ r q. r.number < q.number) rows.now }
    requires place { place < length rows.now }
    ensures { IfOk result (λ v.
        option_map (λ r. closure rows.now r.number) (slice_get rows.now place) ≡ Some v.items) }
{
    let marks = closure_marks(alloc, rows, place)?;
    marked_numbers(alloc, rows, &marks)
}

/// Whether the number isn't one of the numbers, which are in rising order.
fn lacks(numbers: &[u64], number: u64) -> bool
    ensures { IsStrictlyIncreasing numbers.now → result ≡ not (has_number numbers.now number) }
{
    numbers.binary_search(&number).is_err()
}

/// Takes the rows with these numbers, which are in rising order, out of the rows.
pub(crate) fn remove_rows(rows: &mut Vec<Row>, numbers: &[u64])
    requires { IsStrictlyIncreasing numbers.now }
    ensures { rows.new.items ≡ rows_without numbers.now rows.old.items }
{
    rows.retain(|row| lacks(numbers, row.number()));
}

/// Puts a copy of the row to the others, where it has one of the numbers.
fn copy_one(row: &Row, numbers: &[u64], copies: &mut Vec<Row>) -> Result<(), NoMemory>
    requires { IsStrictlyIncreasing numbers.now }
    ensures { OnOk result (copies.new.items ≡ copies.old.items
        ++ (if has_number numbers.now row.now.number then row.now ∷ [] else [])) }
{
    if !lacks(numbers, row.number()) {
        copies.push(row.copy()?)?;
    }
    Ok(())
}

/// Copies of the rows with these numbers, which are in rising order.
pub(crate) fn copy_rows(alloc: Global, rows: &[Row], numbers: &[u64]) -> Result<Vec<Row>, NoMemory>
    requires { IsStrictlyIncreasing numbers.now }
    ensures { IfOk result (λ v. v.items ≡ rows_with numbers.now rows.now) }
{
    let mut copies = Vec::with_capacity(alloc, numbers.len())?;
    for row in rows {
        copy_one(row, numbers, &mut copies)?;
    }
    Ok(copies)
}
