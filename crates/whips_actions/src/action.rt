//! What a manager has done to a view's rows.
ghost use Rattle.std.specs.Prelude.{◌≡◌, [], ◌∷◌, ◌++◌, length, slice_get, Some, OnOk, OnErr};

use std::alloc::Global;
use std::marker::Model;
use whips_rel::{NoMemory, Rows, Tuple};

/// One edit of a view's rows.
#[derive(Drop)]
pub enum Action {
    /// Each row goes that has this key of the relation at this part of the view.
    KeyDelete(u32, Tuple),
    /// Each of the rows comes whose key isn't there.
    Put(Rows),
}

/// Actions in the order in which they are done, seen as their list.
#[derive(Drop)]
pub struct Actions {
    items: Vec<Action>,
}

impl Model for Actions {
    ghost use Rattle.std.specs.Prelude.{List};
    ghost use Rattle.whips_actions.specs.declared.action.Action.{Action};

    ghost Value = { List Action };

    ghost view = { λ a. a.items.items };
}

impl Actions {
    /// No action yet.
    pub fn new(alloc: Global) -> Actions
        ensures { result ≡ [] }
    {
        Actions {
            items: Vec::new(alloc),
        }
    }

    /// These actions.
    pub fn of(items: Vec<Action>) -> Actions
        ensures { result ≡ items.items }
    {
        Actions { items }
    }

    /// The actions as a slice.
    pub fn as_slice(&self) -> &[Action]
        ensures { result.now ≡ self.now }
    {
        &self.items
    }

    /// The number of actions.
    pub fn len(&self) -> usize
        ensures { result ≡ length self.now }
    {
        self.items.len()
    }

    /// Puts the action at the end.
    pub fn push(&mut self, action: Action) -> Result<(), NoMemory>
        ensures ok { OnOk result (self.new ≡ self.old ++ action ∷ []) }
        ensures err { OnErr result (self.new ≡ self.old) }
    {
        self.items.push(action)?;
        Ok(())
    }

    /// Takes out all actions, in order.
    pub fn take(&mut self) -> Actions
        ensures taken { result ≡ self.old }
        ensures empty { self.new ≡ [] }
    {
        let empty = Vec::new(*self.items.allocator());
        Actions {
            items: std::mem::replace(&mut self.items, empty),
        }
    }
}

/// The actions of a view's manager since its last list, which take the view's rows from one state to a later one.
#[derive(Drop)]
pub struct ActionList {
    /// The number of the view.
    pub view: u32,
    /// The number of the last transaction whose work the list has.
    pub upto: u64,
    /// The actions, in order.
    pub actions: Actions,
}
