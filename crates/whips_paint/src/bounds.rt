//! How far a set of rows leads, view by view and source by source.
ghost use Rattle.std.specs.Prelude.{◌≡◌, nat_lt, length, OnOk};
ghost use Rattle.std.specs.List.{list_any, list_all};
ghost use Rattle.whips_paint.specs.Bounds.{is_as_far, source_draws, covers, bound_number, is_past, uncovered, noted, draws, IsNoted};

use crate::NoMemory;
use crate::row::Row;

/// Which rows a row leads to.
#[derive(Clone, Copy)]
pub(crate) enum Side {
    /// Those that it needs.
    Needed,
    /// Those that need it.
    Needing,
}

impl Side {
    /// Whether a bound at `own` reaches as far as one at `other`.
    fn is_as_far(self, own: u64, other: u64) -> bool
        ensures { result ≡ is_as_far self own other }
    {
        match self {
            Side::Needed => other <= own,
            Side::Needing => own <= other,
        }
    }

    /// Whether the row `from` leads to the row `to` of its source.
    pub(crate) fn leads_on(self, to: u64, from: u64) -> bool
        ensures { result ≡ source_draws self to from }
    {
        match self {
            Side::Needed => to < from,
            Side::Needing => from < to,
        }
    }
}

/// How far some row leads.
#[derive(Clone, Copy)]
pub(crate) enum Bound {
    /// To the rows of a view up to this number, or to those that need a row of this number there.
    View(usize, u64),
    /// To the rows of a source before or after this number.
    Source(u32, u64),
}

impl Bound {
    fn number(self) -> u64
        ensures { result ≡ bound_number self }
    {
        match self {
            Bound::View(_, number) => number,
            Bound::Source(_, number) => number,
        }
    }

    /// Whether this bound leads to all rows to which the other one leads.
    fn covers(self, side: Side, other: Bound) -> bool
        ensures { result ≡ covers side self other }
    {
        match self {
            Bound::View(view, number) => match other {
                Bound::View(its_view, its) => view == its_view && side.is_as_far(number, its),
                Bound::Source(_, _) => false,
            },
            Bound::Source(source, number) => match other {
                Bound::View(_, _) => false,
                Bound::Source(its_source, its) => {
                    source == its_source && side.is_as_far(number, its)
                }
            },
        }
    }
}

fn is_covered(bounds: &[Bound], side: Side, bound: Bound) -> bool
    ensures { result ≡ list_any (λ own. covers side own bound) bounds.now }
{
    bounds.iter().any(|own| own.covers(side, bound))
}

/// Whether some bound leads to the row.
pub(crate) fn is_led(bounds: &[Bound], side: Side, row: &Row) -> bool
    ensures { result ≡ draws side bounds.now row.now }
{
    bounds.iter().any(|bound| row.is_drawn(side, *bound))
}

/// Whether the numbers of all bounds are below this one.
fn are_below(bounds: &[Bound], number: u64) -> bool
    ensures { result ≡ list_all (λ b. nat_lt (bound_number b) number) bounds.now }
{
    bounds.iter().all(|bound| bound.number() < number)
}

/// Whether it is known that no bound leads to the row, nor to any later one.
pub(crate) fn is_past(bounds: &[Bound], side: Side, row: &Row) -> bool
    ensures { result ≡ is_past side bounds.now row.now.number }
{
    match side {
        Side::Needed => are_below(bounds, row.number()),
        Side::Needing => false,
    }
}

/// Drops the bounds that this one covers.
fn drop_covered(bounds: &mut Vec<Bound>, side: Side, bound: Bound)
    ensures { bounds.new.items ≡ uncovered side bound bounds.old.items }
{
    bounds.retain(|own| !bound.covers(side, *own));
}

/// Adds the bound, where no other one covers it, in the place of those that it covers.
fn note(bounds: &mut Vec<Bound>, side: Side, bound: Bound) -> Result<(), NoMemory>
    ensures { OnOk result (bounds.new.items ≡ noted side bound bounds.old.items) }
{
    if !is_covered(bounds, side, bound) {
        drop_covered(bounds, side, bound);
        bounds.push(bound)?;
    }
    Ok(())
}

/// Adds how far the row leads.
pub(crate) fn note_row(bounds: &mut Vec<Bound>, side: Side, row: &Row) -> Result<(), NoMemory>
    ensures { OnOk result (IsNoted side row.now bounds.old.items bounds.new.items) }
{
    for view in 0..row.views() {
        if let Some(number) = row.bound(side, view) {
            note(bounds, side, Bound::View(view, number))?;
        }
    }
    note(bounds, side, Bound::Source(row.source(), row.number()))
}
