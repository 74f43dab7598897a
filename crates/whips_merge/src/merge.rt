//! The merge.
ghost use Rattle.std.specs.Prelude.{◌≡◌, ◌≢◌, ◌<◌, true, None, [], ◌∷◌, ◌++◌, replicate, nat_lt, length, IfOk, OnOk, OnErr, IsErr};
ghost use Rattle.std.specs.List.{All, AllPairs};
ghost use Rattle.std.specs.Option.{option_copied};
ghost use Rattle.whips_lists.specs.Lists.{front};
ghost use Rattle.whips_flow.specs.State.{new_table as empty_table};
ghost use Rattle.whips_paint.specs.Table.{ready_numbers};
ghost use Rattle.whips_merge.specs.Merging.{new_merge, announced_row, after_rel, after_act, after_next, IsStoppedAfter};

use crate::form::{Holdings, settle};
use crate::lists::{ActionLists, Queue, Transaction};
use std::alloc::Global;
use std::collections::VecDeque;
use std::marker::Model;
use whips_actions::ActionList;
use whips_paint::Table;
use whips_rel::NoMemory;
use whips_setup::Setup;

/// The merge of several views. It holds each list until the rows that it covers have come, and makes a transaction of each
/// set of rows that have to change the views together.
#[derive(Drop)]
pub struct Merge {
    held: Holdings,
    is_stopped: bool,
}

impl Model for Merge {
    ghost use Rattle.std.specs.Prelude.{◌≡◌, false};
    ghost use Rattle.whips_merge.specs.Merging.{MergeState};
    ghost use Rattle.whips_merge.specs.Holding.{state_of, IsWhole};

    ghost Value = { MergeState };

    ghost view = { λ m. record (state_of m.held) { is_stopped = m.is_stopped } };

    ghost invariant = { λ m. m.is_stopped ≡ false → IsWhole m.held };
}

/// A queue for each view, with no number yet.
fn queues(alloc: Global, views: u32) -> Result<Vec<Queue>, NoMemory>
    ensures { IfOk result (λ q. q.items ≡ replicate views []) }
{
    let mut queues = Vec::with_capacity(alloc, views as usize)?;
    for view in 0..views {
        queues.push(Queue::new(alloc))?;
    }
    Ok(queues)
}

/// A list for each view, with no action list yet.
fn no_lists(alloc: Global, views: u32) -> Result<Vec<ActionLists>, NoMemory>
    ensures { IfOk result (λ l. l.items ≡ replicate views []) }
{
    let mut lists = Vec::with_capacity(alloc, views as usize)?;
    for view in 0..views {
        lists.push(ActionLists::new(alloc))?;
    }
    Ok(lists)
}

/// The table of the setup's views with no row.
fn new_table(alloc: Global, views: u32) -> Result<Table, NoMemory>
    ensures { IfOk result (λ t. t ≡ record { views = views; table = empty_table }) }
{
    match Table::new(alloc, views) {
        Ok(table) => Ok(table),
        Err(_) => Err(NoMemory),
    }
}

/// Takes a transaction into the table. It waits for a list, so still no row is ready.
fn add_row(
    table: &mut Table,
    number: u64,
    source: u32,
    place: u64,
    concerned: &[u32],
) -> Result<(), NoMemory>
    requires unready { ready_numbers table.old.table.rows ≡ None }
    requires above { table.old.table.last_announced < number }
    requires some { 0 < length concerned.now }
    requires there { All (λ x. x < table.old.views) concerned.now }
    requires once { AllPairs (λ x y. x ≢ y) concerned.now }
    ensures rows { OnOk result (table.new.table.rows ≡ table.old.table.rows
        ++ announced_row table.old.views number source place concerned.now ∷ []) }
    ensures unready { OnOk result (ready_numbers table.new.table.rows ≡ None) }
    ensures last { OnOk result (table.new.table.last_announced ≡ number) }
    ensures kept { OnOk result (table.new.views ≡ table.old.views) }
{
    match table.add_row_at(number, source, place, concerned) {
        Ok(()) => Ok(()),
        Err(_) => Err(NoMemory),
    }
}

impl Merge {
    /// A merge of the setup's views, to which nothing has come.
    pub fn new(alloc: Global, setup: &Setup) -> Result<Merge, NoMemory>
        ensures { IfOk result (λ m. m ≡ new_merge setup.now) }
    {
        let views = setup.views();
        let sources = setup.sources();
        Ok(Merge {
            held: Holdings {
                table: new_table(alloc, views)?,
                waiting: queues(alloc, views)?,
                lists: no_lists(alloc, views)?,
                cut: vec![in alloc; 0u64; sources as usize]?,
                sets: VecDeque::new(alloc),
            },
            is_stopped: false,
        })
    }

    /// Takes a transaction that is announced, with its number, its source and its place there, and the views that it
    /// concerns. After want of memory the merge is stopped, and what waits still waits.
    pub fn rel(
        &mut self,
        number: u64,
        source: u32,
        place: u64,
        concerned: &[u32],
    ) -> Result<(), NoMemory>
        requires above { self.old.merge.table.last_announced < number }
        requires some { 0 < length concerned.now }
        requires there { All (λ x. x < length self.old.lists) concerned.now }
        requires once { AllPairs (λ x y. x ≢ y) concerned.now }
        ensures taken { OnOk result (self.new ≡ after_rel
            (announced_row (length self.old.lists) number source place concerned.now) self.old) }
        ensures announced { OnOk result (self.new.merge.table.last_announced ≡ number) }
        ensures views { OnOk result (length self.new.lists ≡ length self.old.lists) }
        ensures err { OnErr result (IsStoppedAfter self.old self.new) }
        ensures stopped { self.old.is_stopped ≡ true → IsErr result }
    {
        if self.is_stopped {
            return Err(NoMemory);
        }
        self.is_stopped = true;
        add_row(&mut self.held.table, number, source, place, concerned)?;
        settle(&mut self.held)?;
        self.is_stopped = false;
        Ok(())
    }

    /// Takes the next list of a view. It is painted as soon as the last transaction that it covers is announced. After
    /// want of memory the merge is stopped, and what waits still waits.
    pub fn act(&mut self, list: ActionList) -> Result<(), NoMemory>
        requires { list.view < length self.old.lists }
        ensures taken { OnOk result (self.new ≡ after_act list self.old) }
        ensures announced { OnOk result
            (self.new.merge.table.last_announced ≡ self.old.merge.table.last_announced) }
        ensures views { OnOk result (length self.new.lists ≡ length self.old.lists) }
        ensures err { OnErr result (IsStoppedAfter self.old self.new) }
        ensures stopped { self.old.is_stopped ≡ true → IsErr result }
    {
        if self.is_stopped {
            return Err(NoMemory);
        }
        self.is_stopped = true;
        let view = list.view as usize;
        self.held.waiting[view].push(list.upto)?;
        self.held.lists[view].push(list)?;
        settle(&mut self.held)?;
        self.is_stopped = false;
        Ok(())
    }

    /// Whether a transaction waits.
    pub fn waits(&self) -> bool
        ensures { result ≡ nat_lt 0 (length self.now.transactions) }
    {
        !self.held.sets.is_empty()
    }

    /// The oldest transaction that waits, which goes on waiting; `None` exactly where none waits.
    pub fn first(&self) -> Option<&Transaction>
        ensures { option_copied result ≡ front self.now.transactions }
    {
        match self.held.sets.front() {
            Some(waiting) => Some(&waiting.transaction),
            None => None,
        }
    }

    /// Hands out the oldest transaction that waits; `None` exactly where none waits.
    pub fn next(&mut self) -> Option<Transaction>
        ensures next { result ≡ front self.old.transactions }
        ensures left { self.new ≡ after_next self.old }
    {
        match self.held.sets.pop_front() {
            Some(waiting) => Some(waiting.transaction),
            None => None,
        }
    }
}
