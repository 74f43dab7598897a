//! The painted table.
ghost use Rattle.std.specs.Prelude.{◌≡◌, ◌<◌, ◌≤◌, [], length, IfOk, OnOk, OnErr, ◌≢◌};
ghost use Rattle.std.specs.List.{All, AllPairs};
ghost use Rattle.std.specs.Option.{option_map};
ghost use Rattle.whips_flow.specs.Painted.{with_row, painted_rows};
ghost use Rattle.whips_flow.specs.State.{new_table};
ghost use Rattle.whips_paint.specs.Table.{ViewTable, IsInOrder, with_rows, new_row, placed_row, ready_numbers, ready_rows, rows_left};

use crate::NoMemory;
use crate::closure::{closure_numbers, copy_rows, first_ready, remove_rows};
use crate::entry::entries_of;
use crate::row::Row;
use std::alloc::Global;
use std::marker::Model;

/// The numbered transactions that have come and haven't left, with one entry per view, and the
/// number of the last that came.
#[derive(Drop)]
pub struct Table {
    views: u32,
    rows: Vec<Row>,
    last_announced: u64,
}

impl Model for Table {
    ghost use Rattle.whips_paint.specs.Table.{ViewTable, table_of, IsInOrder};

    ghost Value = { ViewTable };

    ghost view = { λ t. table_of t.views t.rows.items t.last_announced };

    ghost invariant = { λ t. IsInOrder (table_of t.views t.rows.items t.last_announced) };
}

impl Table {
    /// A table of `views` views with no row. No transaction has come, so the last number is 0.
    pub fn new(alloc: Global, views: u32) -> Result<Table, NoMemory>
        ensures { IfOk result (λ t. t ≡ record { views = views; table = new_table }) }
    {
        Ok(Table {
            views,
            rows: Vec::new(alloc),
            last_announced: 0,
        })
    }

    /// The number of the last transaction that came, also where it has left; 0 before the first.
    pub fn told(&self) -> u64
        ensures last { result ≡ self.now.table.last_announced }
        ensures sound { IsInOrder self.now }
    {
        self.last_announced
    }

    /// The number of rows.
    pub fn len(&self) -> usize
        ensures { result ≡ length self.now.table.rows }
    {
        self.rows.len()
    }

    /// Takes a transaction into the table: its entry is white for each concerned view, and black
    /// for the others.
    pub fn add_row(
        &mut self,
        number: u64,
        source: u32,
        concerned: &Vec<u32>,
    ) -> Result<(), NoMemory>
        requires above { self.old.table.last_announced < number }
        requires some { 0 < length concerned.now.items }
        requires there { All (λ x. x < self.old.views) concerned.now.items }
        requires once { AllPairs (λ x y. x ≢ y) concerned.now.items }
        ensures ok { OnOk result (self.new ≡ record self.old {
          table = with_row
              (new_row self.old.views number source concerned.now.items)
              self.old.table;
        }) }
        ensures err { OnErr result (self.new ≡ self.old) }
    {
        self.add_row_at(number, source, 0, concerned)
    }

    /// The same for a transaction whose place in its source is known.
    pub fn add_row_at(
        &mut self,
        number: u64,
        source: u32,
        place: u64,
        concerned: &[u32],
    ) -> Result<(), NoMemory>
        requires above { self.old.table.last_announced < number }
        requires some { 0 < length concerned.now }
        requires there { All (λ x. x < self.old.views) concerned.now }
        requires once { AllPairs (λ x y. x ≢ y) concerned.now }
        ensures ok { OnOk result (self.new ≡ record self.old {
          table = with_row
              (placed_row self.old.views number source place concerned.now)
              self.old.table;
        }) }
        ensures err { OnErr result (self.new ≡ self.old) }
    {
        let entries = entries_of(*self.rows.allocator(), self.views, concerned)?;
        let row = Row::new(number, source, place, entries);
        self.rows.push(row)?;
        self.last_announced = number;
        Ok(())
    }

    /// Paints the list `upto` of a view: each white entry of the view in a row up to it becomes
    /// red.
    pub fn paint(&mut self, view: u32, upto: u64)
        requires announced { upto ≤ self.old.table.last_announced }
        requires there { view < self.old.views }
        ensures { self.new ≡ with_rows self.old (painted_rows view self.old.table.rows upto) }
    {
        for row in self.rows.iter_mut() {
            row.paint(view, upto);
        }
    }

    /// Takes the lowest ready row and all rows that go with it out of the table, and answers their
    /// numbers in order; `None` where no row is ready.
    pub fn take_ready(&mut self) -> Result<Option<Vec<u64>>, NoMemory>
        ensures taken { IfOk result (λ taken.
            option_map (λ v. v.items) taken ≡ ready_numbers self.old.table.rows) }
        ensures left { OnOk result (self.new ≡ with_rows self.old
            (rows_left (ready_numbers self.old.table.rows) self.old.table.rows)) }
        ensures err { OnErr result (self.new ≡ self.old) }
    {
        let alloc = *self.rows.allocator();
        let Some(place) = first_ready(alloc, &self.rows)? else {
            return Ok(None);
        };
        let numbers = closure_numbers(alloc, &self.rows, place)?;
        remove_rows(&mut self.rows, &numbers);
        Ok(Some(numbers))
    }

    /// The same, and answers the rows themselves, with the lists that cover them.
    pub fn take_ready_rows(&mut self) -> Result<Option<Vec<Row>>, NoMemory>
        ensures taken { IfOk result (λ taken.
            option_map (λ v. v.items) taken ≡ ready_rows self.old.table.rows) }
        ensures left { OnOk result (self.new ≡ with_rows self.old
            (rows_left (ready_numbers self.old.table.rows) self.old.table.rows)) }
        ensures err { OnErr result (self.new ≡ self.old) }
    {
        let alloc = *self.rows.allocator();
        let Some(place) = first_ready(alloc, &self.rows)? else {
            return Ok(None);
        };
        let numbers = closure_numbers(alloc, &self.rows, place)?;
        let copies = copy_rows(alloc, &self.rows, &numbers)?;
        remove_rows(&mut self.rows, &numbers);
        Ok(Some(copies))
    }
}
