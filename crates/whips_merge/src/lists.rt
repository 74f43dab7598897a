//! Lists of numbers and of action lists, and what a merge hands out.
ghost use Rattle.std.specs.Prelude.{◌≡◌, ◌≤◌, [], ◌∷◌, ◌++◌, nat_le, true, OnOk, OnErr, IfSome, IfNone};
ghost use Rattle.whips_flow.specs.Settling.{due_lists, later_lists};

use std::alloc::Global;
use std::collections::VecDeque;
use std::marker::Model;
use whips_actions::ActionList;
use whips_rel::NoMemory;
use whips_setup::Cut;

/// Numbers, seen as their list.
#[derive(Drop)]
pub struct Numbers {
    items: Vec<u64>,
}

impl Model for Numbers {
    ghost use Rattle.std.specs.Prelude.{ℕ, List};

    ghost Value = { List ℕ };

    ghost view = { λ n. n.items.items };
}

impl Numbers {
    /// These numbers.
    pub fn of(items: Vec<u64>) -> Numbers
        ensures { result ≡ items.items }
    {
        Numbers { items }
    }

    /// The numbers as a slice.
    pub fn as_slice(&self) -> &[u64]
        ensures { result.now ≡ self.now }
    {
        &self.items
    }
}

/// Action lists, seen as their list.
#[derive(Drop)]
pub struct ActionLists {
    items: Vec<ActionList>,
}

impl Model for ActionLists {
    ghost use Rattle.std.specs.Prelude.{List};
    ghost use Rattle.whips_actions.specs.declared.action.ActionList.{ActionList};

    ghost Value = { List ActionList };

    ghost view = { λ l. l.items.items };
}

impl ActionLists {
    /// No list yet.
    pub fn new(alloc: Global) -> ActionLists
        ensures { result ≡ [] }
    {
        ActionLists {
            items: Vec::new(alloc),
        }
    }

    /// The lists as a slice.
    pub fn as_slice(&self) -> &[ActionList]
        ensures { result.now ≡ self.now }
    {
        &self.items
    }

    /// Puts the list at the end.
    pub fn push(&mut self, list: ActionList) -> Result<(), NoMemory>
        ensures ok { OnOk result (self.new ≡ self.old ++ list ∷ []) }
        ensures err { OnErr result (self.new ≡ self.old) }
    {
        self.items.push(list)?;
        Ok(())
    }

    /// Takes all lists out.
    pub(crate) fn take_all(&mut self) -> Vec<ActionList>
        ensures taken { result.items ≡ self.old }
        ensures empty { self.new ≡ [] }
    {
        let empty = Vec::new(*self.items.allocator());
        std::mem::replace(&mut self.items, empty)
    }
}

/// A transaction of the warehouse: rows of the painted table that change the views together.
#[derive(Drop)]
pub struct Transaction {
    /// The numbers of the rows, in order.
    pub rows: Numbers,
    /// The lists that were painted in these rows, in order of view, and those of a view as they came.
    pub lists: ActionLists,
    /// The cut after the transaction.
    pub cut: Cut,
}

/// Numbers of lists that wait for their rows, oldest first.
#[derive(Drop)]
pub(crate) struct Queue {
    items: VecDeque<u64>,
}

impl Model for Queue {
    ghost use Rattle.std.specs.Prelude.{ℕ, List};

    ghost Value = { List ℕ };

    ghost view = { λ q. q.items.items };
}

impl Queue {
    /// No number yet.
    pub(crate) fn new(alloc: Global) -> Queue
        ensures { result ≡ [] }
    {
        Queue {
            items: VecDeque::new(alloc),
        }
    }

    /// Puts the number at the end.
    pub(crate) fn push(&mut self, number: u64) -> Result<(), NoMemory>
        ensures ok { OnOk result (self.new ≡ self.old ++ number ∷ []) }
        ensures err { OnErr result (self.new ≡ self.old) }
    {
        self.items.push_back(number)?;
        Ok(())
    }

    /// Takes the oldest number out, where it is at most `last`.
    pub(crate) fn pop_due(&mut self, last: u64) -> Option<u64>
        ensures due { IfSome result (λ j. (self.old ≡ j ∷ self.new) × (nat_le j last ≡ true)) }
        ensures none { IfNone result ((due_lists last self.old ≡ [])
            × (later_lists last self.old ≡ self.old) × (self.new ≡ self.old)) }
    {
        match self.items.front() {
            Some(j) if *j <= last => self.items.pop_front(),
            _ => None,
        }
    }
}
