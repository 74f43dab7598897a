//! Marks on rows: which rows a set of rows leads to.
ghost use Rattle.std.specs.Prelude.{◌≡◌, length, ◌<◌, true, false, position, IfOk, OnOk};
ghost use Rattle.std.specs.List.{AllPairs};
ghost use Rattle.whips_paint.specs.Marks.{is_clear, IsSpread, IsBounded, IsGrown, IsSame, IsTold};

use crate::NoMemory;
use crate::bounds::{Bound, Side, is_led, is_past, note_row};
use crate::row::Row;
use std::alloc::Global;

/// Whether a row was found.
#[derive(Clone, Copy)]
pub(crate) enum Mark {
    /// No marked row leads to it.
    Clear,
    /// It is marked.
    Found,
}

impl Mark {
    pub(crate) fn is_clear(self) -> bool
        ensures { result ≡ is_clear self }
    {
        matches!(self, Mark::Clear)
    }
}

/// The first row that isn't marked.
pub(crate) fn first_clear(marks: &[Mark]) -> Option<usize>
    ensures { result ≡ position is_clear marks.now }
{
    marks.iter().position(|mark| mark.is_clear())
}

/// How far the marked rows lead.
fn first_bounds(
    alloc: Global,
    rows: &[Row],
    side: Side,
    marks: &[Mark],
) -> Result<Vec<Bound>, NoMemory>
    requires { length marks.now ≡ length rows.now }
    ensures { IfOk result (λ b. IsBounded side rows.now marks.now b.items (length rows.now)) }
{
    let mut bounds = Vec::new(alloc);
    for place in 0..rows.len() {
        if !marks[place].is_clear() {
            note_row(&mut bounds, side, &rows[place])?;
        }
    }
    Ok(bounds)
}

/// Marks the row at the place, where it is clear and a marked row leads to it; says whether it did.
fn visit(
    rows: &[Row],
    side: Side,
    place: usize,
    marks: &mut [Mark],
    bounds: &mut Vec<Bound>,
) -> Result<bool, NoMemory>
    requires size { length marks.old ≡ length rows.now }
    requires place { place < length rows.now }
    ensures size { length marks.new ≡ length marks.old }
    ensures grown { IfOk result (λ grew. grew ≡ true
        → IsGrown side rows.now marks.old marks.new bounds.old.items bounds.new.items) }
    ensures same { IfOk result (λ grew. grew ≡ false
        → IsSame marks.old marks.new bounds.old.items bounds.new.items) }
    ensures told { IfOk result (λ grew. grew ≡ false
        → IsTold side rows.now marks.new bounds.new.items place) }
{
    if !marks[place].is_clear() || !is_led(bounds, side, &rows[place]) {
        return Ok(false);
    }
    marks[place] = Mark::Found;
    note_row(bounds, side, &rows[place])?;
    Ok(true)
}

/// Goes once over the rows, and marks each to which a marked row leads; says whether there was one.
fn sweep(
    rows: &[Row],
    side: Side,
    marks: &mut [Mark],
    bounds: &mut Vec<Bound>,
) -> Result<bool, NoMemory>
    requires size { length marks.old ≡ length rows.now }
    requires order { AllPairs (λ r q. r.number < q.number) rows.now }
    ensures size { length marks.new ≡ length marks.old }
    ensures grown { IfOk result (λ grew. grew ≡ true
        → IsGrown side rows.now marks.old marks.new bounds.old.items bounds.new.items) }
    ensures same { IfOk result (λ grew. grew ≡ false
        → IsSame marks.old marks.new bounds.old.items bounds.new.items) }
    ensures told { IfOk result (λ grew. grew ≡ false
        → (k : _) → IsTold side rows.now marks.new bounds.new.items k) }
{
    let mut grew = false;
    for place in 0..rows.len() {
        if is_past(bounds, side, &rows[place]) {
            return Ok(grew);
        }
        let here = visit(rows, side, place, marks, bounds)?;
        grew = grew | here;
    }
    Ok(grew)
}

/// Marks each row that a marked row leads to, and so on.
///
/// A sweep finds the rows that later lists draw in, and the next one those that earlier
/// transactions of a source draw in; the last one finds none.
pub(crate) fn spread(
    alloc: Global,
    rows: &[Row],
    side: Side,
    marks: &mut [Mark],
) -> Result<(), NoMemory>
    requires size { length marks.old ≡ length rows.now }
    requires order { AllPairs (λ r q. r.number < q.number) rows.now }
    ensures size { length marks.new ≡ length marks.old }
    ensures spread { OnOk result (IsSpread side rows.now marks.old marks.new) }
{
    let mut bounds = first_bounds(alloc, rows, side, marks)?;
    let mut grew = true;
    while grew {
        grew = sweep(rows, side, marks, &mut bounds)?;
    }
    Ok(())
}
