//! The manager of one view.
ghost use Rattle.std.specs.Prelude.{◌≡◌, ◌<◌, ◌↔◌, true, false, IsTrue, IfOk, IfSome, OnOk, OnErr};
ghost use Rattle.std.specs.List.{AllByRecursion};
ghost use Rattle.whips_states.specs.Concerns.{concerns};
ghost use Rattle.whips_view.specs.ViewDefs.{keyed};
ghost use Rattle.whips_actions.specs.Lists.{AreActionsOf};
ghost use Rattle.whips_managers.specs.Managers.{new_manager, without_list};
ghost use Rattle.whips_view.specs.Widths.{widths_of};
ghost use Rattle.whips_managers.specs.Messages.{is_open, HaveWidths};
ghost use Rattle.whips_strobe.specs.Strobes.{after_transaction, after_reply, asks_begun, asks_on, FitsManager};
ghost use Rattle.whips_strobe.specs.Outs.{list_by, IsSentAsk};

use crate::routed::RoutedView;
use crate::state::State;
use std::alloc::Global;
use std::marker::Model;
use whips_actions::ActionList;
use whips_query::{Ask, Reply};
use whips_rel::{NoMemory, Trans};
use whips_view::ViewDef;

/// What a manager hands out after a message.
#[derive(Drop)]
pub struct Out {
    /// What is asked, each beside the source that is asked.
    pub asks: Vec<(u32, Ask)>,
    /// The action list, exactly where no query is open.
    pub list: Option<ActionList>,
}

/// The manager of a joined view, after the Strobe algorithm. It keeps its view with the sources that its queries ask, the
/// view's number, the number of the last transaction taken, its action list and its open queries, and the mark that it is
/// stopped, and no base relation.
#[derive(Drop)]
pub struct Manager {
    view_number: u32,
    view: RoutedView,
    stopped: bool,
    state: State,
}

impl Model for Manager {
    ghost use Rattle.std.specs.Prelude.{◌≡◌, false};
    ghost use Rattle.whips_strobe.specs.Strobes.{ManagerData, IsStateOf};

    ghost Value = { ManagerData };

    ghost view = { λ m. record {
      number = m.view_number;
      view = m.view;
      stopped = m.stopped;
      state = m.state;
    } };

    ghost invariant = { λ m. m.stopped ≡ false → IsStateOf m.view m.state };
}

impl Manager {
    /// The manager of view number `x`, which has taken nothing yet.
    pub fn new(alloc: Global, x: u32, view: &ViewDef) -> Result<Manager, NoMemory>
        ensures { IfOk result (λ m. m ≡ record {
          number = x;
          view = view.now;
          stopped = false;
          state = new_manager 0;
        }) }
    {
        Ok(Manager {
            view_number: x,
            view: RoutedView::of(alloc, view.copy()?)?,
            stopped: false,
            state: State::new(alloc),
        })
    }

    /// Takes a transaction that concerns the view, with a number above that of the last one. Each key that it takes from
    /// the view goes to all open queries and into the action list. After that the tuples that it gives one part are
    /// together the seeds of one query, or are put at once where that part has no step. Each new query is asked at its
    /// first step, in the order of parts. The list leaves exactly where no query is open then. After want of memory the
    /// manager is stopped.
    pub fn update(&mut self, number: u64, t: &Trans) -> Result<Out, NoMemory>
        requires concerns { concerns self.old.view.parts t.now ≡ true }
        requires later { self.old.state.last < number }
        requires widths { HaveWidths (keyed self.old.view) (widths_of self.old.view) t.now }
        ensures state { OnOk result (self.new ≡ record self.old {
          state = without_list (after_transaction self.old number t.now);
        }) }
        ensures asks { IfOk result (λ out.
            out.asks.items ≡ asks_begun self.old (after_transaction self.old number t.now)) }
        ensures list { IfOk result (λ out.
            out.list ≡ list_by self.old.number (after_transaction self.old number t.now)) }
        ensures asked { IfOk result (λ out.
            AllByRecursion (IsSentAsk self.old.view) out.asks.items) }
        ensures actions { IfOk result (λ out.
            IfSome out.list (λ l. AreActionsOf self.old.view l.actions)) }
        ensures went_on { OnOk result (self.old.stopped ≡ false) }
        ensures stopped { OnErr result (self.new.stopped ≡ true) }
        ensures number { self.new.number ≡ self.old.number }
        ensures view { self.new.view ≡ self.old.view }
    {
        if self.stopped {
            return Err(NoMemory);
        }
        self.stopped = true;
        let first = self.state.open_queries();
        self.state.take_transaction(&self.view, number, t)?;
        let asks = self.state.asks_from(&self.view, self.view_number, first)?;
        let list = self.state.hand_out(self.view_number);
        self.stopped = false;
        Ok(Out { asks, list })
    }

    /// Takes a reply that fits. Before the last step of its origin the query asks the next source. At the last step the
    /// choices that have a pending key are struck, the rows of the others are put, and the query is closed. The list
    /// leaves exactly where no query is open then. After want of memory the manager is stopped.
    pub fn reply(&mut self, r: Reply) -> Result<Out, NoMemory>
        requires { FitsManager self.old r }
        ensures state { OnOk result (self.new ≡ record self.old {
          state = without_list (after_reply self.old r);
        }) }
        ensures asks { IfOk result (λ out. out.asks.items ≡ asks_on self.old r) }
        ensures list { IfOk result (λ out.
            out.list ≡ list_by self.old.number (after_reply self.old r)) }
        ensures asked { IfOk result (λ out.
            AllByRecursion (IsSentAsk self.old.view) out.asks.items) }
        ensures actions { IfOk result (λ out.
            IfSome out.list (λ l. AreActionsOf self.old.view l.actions)) }
        ensures went_on { OnOk result (self.old.stopped ≡ false) }
        ensures stopped { OnErr result (self.new.stopped ≡ true) }
        ensures number { self.new.number ≡ self.old.number }
        ensures view { self.new.view ≡ self.old.view }
    {
        if self.stopped {
            return Err(NoMemory);
        }
        self.stopped = true;
        let asks = self.state.take_reply(&self.view, r)?;
        let list = self.state.hand_out(self.view_number);
        self.stopped = false;
        Ok(Out { asks, list })
    }

    /// Whether the reply fits, which is what `reply` asks for. It compares each two partial choices of the reply.
    pub fn fits(&self, r: &Reply) -> bool
        ensures { IsTrue result ↔ FitsManager self.now r.now }
    {
        r.view == self.view_number && self.state.fits(&self.view, r)
    }

    /// Whether the query of this transaction and origin is open at this step.
    pub fn is_open(&self, update: u64, origin: u32, step: u32) -> bool
        ensures { result ≡ is_open self.now.state update origin step }
    {
        self.state.is_open(update, origin, step)
    }
}
