//! The entries of a row, one for each view.
ghost use Rattle.std.specs.Prelude.{◌≡◌, ◌<◌, Some, IfOk, map, slice_get};
ghost use Rattle.std.specs.List.{All, list_any};
ghost use Rattle.whips_lists.specs.Lists.{changed_at};
ghost use Rattle.whips_flow.specs.Painted.{is_concerned, is_white, entry_needs, reddened_entry};
ghost use Rattle.whips_paint.specs.Table.{new_entries, is_red};
ghost use Rattle.whips_paint.specs.Entries.{entry_colour};
ghost use Rattle.whips_paint.specs.Bounds.{view_draws, entry_bound, option_bound};

use crate::NoMemory;
use crate::bounds::Side;
use std::alloc::Global;

/// The entry of a row for one view.
#[derive(Clone, Copy)]
pub(crate) enum Entry {
    /// The view isn't concerned.
    Black,
    /// The view's list hasn't come.
    White,
    /// The list of this number covers the row.
    Red(u64),
}

impl Entry {
    fn is_concerned(&self) -> bool
        ensures { result ≡ is_concerned (Some (entry_colour self.now)) }
    {
        !matches!(self, Entry::Black)
    }

    fn is_white(&self) -> bool
        ensures { result ≡ is_white (entry_colour self.now) }
    {
        matches!(self, Entry::White)
    }

    /// Whether a row of number `own` with this entry needs the row `other` that concerns the same
    /// view.
    fn needs(&self, own: u64, other: u64) -> bool
        ensures { result ≡ entry_needs own (entry_colour self.now) other }
    {
        match self {
            Entry::Black => false,
            Entry::White => other <= own,
            Entry::Red(upto) => other <= *upto,
        }
    }

    /// Whether the list of this number covers the row.
    fn is_red(&self, upto: u64) -> bool
        ensures { result ≡ is_red upto (Some (entry_colour self.now)) }
    {
        match self {
            Entry::Black | Entry::White => false,
            Entry::Red(own) => *own == upto,
        }
    }

    /// Whether rows up to the bound, or from it on, lead to a row of number `own` with this entry.
    fn is_drawn(&self, side: Side, own: u64, bound: u64) -> bool
        ensures { result ≡ view_draws (Some (entry_colour self.now)) side own bound }
    {
        match side {
            Side::Needed => self.is_concerned() && own <= bound,
            Side::Needing => self.needs(own, bound),
        }
    }

    /// How far a row of number `own` with this entry leads.
    fn bound(&self, side: Side, own: u64) -> Option<u64>
        ensures { result ≡ entry_bound (entry_colour self.now) side own }
    {
        match self {
            Entry::Black => None,
            Entry::White => Some(own),
            Entry::Red(upto) => match side {
                Side::Needed => Some(*upto),
                Side::Needing => Some(own),
            },
        }
    }
}

/// The entries of a new row: white for the concerned views and black for the others.
pub(crate) fn entries_of(
    alloc: Global,
    views: u32,
    concerned: &[u32],
) -> Result<Vec<Entry>, NoMemory>
    requires { All (λ x. x < views) concerned.now }
    ensures { IfOk result (λ v. map entry_colour v.items ≡ new_entries views concerned.now) }
{
    let mut entries = vec![in alloc; Entry::Black; views as usize]?;
    for view in concerned {
        entries[*view as usize] = Entry::White;
    }
    Ok(entries)
}

/// Makes the entry of the view red where it is white.
pub(crate) fn redden(entries: &mut [Entry], view: u32, upto: u64)
    ensures { map entry_colour entries.new
        ≡ changed_at view (reddened_entry upto) (map entry_colour entries.old) }
{
    let view = view as usize;
    if view < entries.len() && entries[view].is_white() {
        entries[view] = Entry::Red(upto);
    }
}

/// Whether some entry is white.
pub(crate) fn has_white(entries: &[Entry]) -> bool
    ensures { result ≡ list_any (λ e. is_white (entry_colour e)) entries.now }
{
    entries.iter().any(|entry| entry.is_white())
}

/// Whether rows up to the bound in this view, or from it on, lead to a row of number `own` with
/// these entries.
pub(crate) fn is_drawn_at(entries: &[Entry], side: Side, own: u64, view: usize, bound: u64) -> bool
    ensures { result ≡ view_draws (slice_get (map entry_colour entries.now) view) side own bound }
{
    match entries.get(view) {
        Some(entry) => entry.is_drawn(side, own, bound),
        None => false,
    }
}

/// Whether the entry of this view is red with this number.
pub(crate) fn is_red_at(entries: &[Entry], view: usize, upto: u64) -> bool
    ensures { result ≡ is_red upto (slice_get (map entry_colour entries.now) view) }
{
    match entries.get(view) {
        Some(entry) => entry.is_red(upto),
        None => false,
    }
}

/// How far a row of number `own` with these entries leads in this view.
pub(crate) fn bound_at(entries: &[Entry], side: Side, own: u64, view: usize) -> Option<u64>
    ensures { result ≡ option_bound (slice_get (map entry_colour entries.now) view) side own }
{
    match entries.get(view) {
        Some(entry) => entry.bound(side, own),
        None => None,
    }
}
