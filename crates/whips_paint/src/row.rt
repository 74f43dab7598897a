//! A row of the table: a numbered transaction with an entry for each view.
ghost use Rattle.std.specs.Prelude.{◌≡◌, length, map, slice_get, IfOk};
ghost use Rattle.whips_flow.specs.Painted.{painted_row, is_waiting};
ghost use Rattle.whips_paint.specs.Entries.{entry_colour};
ghost use Rattle.whips_paint.specs.Table.{is_red};
ghost use Rattle.whips_paint.specs.Bounds.{bound_draws, row_bound};

use crate::NoMemory;
use crate::bounds::{Bound, Side};
use crate::entry::{Entry, bound_at, has_white, is_drawn_at, is_red_at, redden};
use std::marker::Model;

/// A numbered transaction of a source with one entry per view.
#[derive(Drop)]
pub struct Row {
    number: u64,
    source: u32,
    place: u64,
    entries: Vec<Entry>,
}

impl Model for Row {
    ghost use Rattle.std.specs.Prelude.{map};
    ghost use Rattle.whips_flow.specs.Painted.{Row as PaintedRow};
    ghost use Rattle.whips_paint.specs.Entries.{entry_colour};

    ghost Value = { PaintedRow };

    ghost view = { λ r. record {
      number = r.number;
      source = r.source;
      place = r.place;
      entries = map entry_colour r.entries.items;
    } };
}

impl Row {
    /// The row of a transaction with these entries.
    pub(crate) fn new(number: u64, source: u32, place: u64, entries: Vec<Entry>) -> Row
        ensures { result ≡ record {
          number = number;
          source = source;
          place = place;
          entries = map entry_colour entries.items;
        } }
    {
        Row {
            number,
            source,
            place,
            entries,
        }
    }

    /// The number of the transaction.
    pub fn number(&self) -> u64
        ensures { result ≡ self.now.number }
    {
        self.number
    }

    /// Makes a white entry of the view red, where the list `upto` covers the row.
    pub(crate) fn paint(&mut self, view: u32, upto: u64)
        ensures { self.new ≡ painted_row view upto self.old }
    {
        if self.number <= upto {
            redden(&mut self.entries, view, upto);
        }
    }

    /// Whether some concerned view's list hasn't come.
    pub(crate) fn is_waiting(&self) -> bool
        ensures { result ≡ is_waiting self.now }
    {
        has_white(&self.entries)
    }

    /// The number of views.
    pub(crate) fn views(&self) -> usize
        ensures { result ≡ length self.now.entries }
    {
        self.entries.len()
    }

    /// The source.
    pub fn source(&self) -> u32
        ensures { result ≡ self.now.source }
    {
        self.source
    }

    /// Which of its source's transactions it is, or 0 where the table wasn't told.
    pub fn place(&self) -> u64
        ensures { result ≡ self.now.place }
    {
        self.place
    }

    /// Whether this list of the view covers the row.
    pub fn is_red(&self, view: u32, upto: u64) -> bool
        ensures { result ≡ is_red upto (slice_get self.now.entries view) }
    {
        is_red_at(&self.entries, view as usize, upto)
    }

    /// The same row once more.
    pub(crate) fn copy(&self) -> Result<Row, NoMemory>
        ensures { IfOk result (λ r. r ≡ self.now) }
    {
        Ok(Row {
            number: self.number,
            source: self.source,
            place: self.place,
            entries: Vec::from_slice(*self.entries.allocator(), &self.entries)?,
        })
    }

    /// Whether the bound leads to this row.
    pub(crate) fn is_drawn(&self, side: Side, bound: Bound) -> bool
        ensures { result ≡ bound_draws side self.now bound }
    {
        match bound {
            Bound::View(view, number) => {
                is_drawn_at(&self.entries, side, self.number, view, number)
            }
            Bound::Source(source, number) => {
                source == self.source && side.leads_on(self.number, number)
            }
        }
    }

    /// How far this row leads in the view.
    pub(crate) fn bound(&self, side: Side, view: usize) -> Option<u64>
        ensures { result ≡ row_bound side self.now view }
    {
        bound_at(&self.entries, side, self.number, view)
    }
}
