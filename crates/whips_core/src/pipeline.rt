//! The pipeline with its contents, an event at a time.
ghost use Rattle.std.specs.Prelude.{◌≡◌, ◌≢◌, ◌<◌, ◌%◌, ◌^◌, None, IfErr, true, length, slice_get, Some, is_some, OnOk, OnErr, IfOk, IfSome, ◌++◌, ◌∷◌, [], false};
ghost use Rattle.whips_lists.specs.Lists.{front, changed_at};
ghost use Rattle.whips_source.specs.Asks.{IsAskTo};
ghost use Rattle.whips_order.specs.Numbering.{counts_of};
ghost use Rattle.whips_merge.specs.declared.lists.Transaction.{Transaction};
ghost use Rattle.whips_actions.specs.declared.action.ActionList.{ActionList};
ghost use Rattle.whips_merge.specs.Merging.{after_rel, after_next};
ghost use Rattle.whips_contents.specs.Events.{row_announced};
ghost use Rattle.whips_store.specs.Stores.{changes_left};
ghost use Rattle.whips_store.specs.Calls.{AreNet, shortage, begun, changed_once};
ghost use Rattle.whips_contents.specs.Contents.{LoadedSource, LoadedManager, ManagerInput};
ghost use Rattle.whips_contents.specs.Events.{source_after_commit, source_after_oldest_ask, oldest_ask_to, after_forward, after_integrate, oldest_message, after_input, oldest_list, after_list, after_publish, after_announcement, is_enabled_loaded, is_full_for, begin_refusal, next_loaded};
ghost use Rattle.whips_core.specs.Groups.{event_of};
ghost use Rattle.whips_core.specs.Queues.{numbered_by};
ghost use Rattle.whips_core_laws.specs.Calls.{FitsInput, FitsRel, FitsBegin};
ghost use Rattle.whips_flow.specs.declared.event.Event.TheVariants.{Begin};
ghost use Rattle.whips_core.specs.Pipelines.{started};

use crate::changes::changes_by;
use crate::order::EventKind;
use crate::queues::{
    Announced, Input, ManagerQueues, Numbered, SourceQueues, announce, answer_at, ask_all,
    can_commit, commit_at, has_ask, has_input, has_list, has_message, manage_at, managers_of,
    pop_at, pop_list_at, send_all, send_at,
};
use std::alloc::Global;
use std::collections::VecDeque;
use std::marker::Model;
use whips_flow::Event;
use whips_merge::Merge;
use whips_order::{Forward, Integrator};
use whips_rel::NoMemory;
use whips_setup::{Cut, Setup};
use whips_source::Site;
use whips_store::{Store, StoreErr};

/// The pipeline with its contents.
#[derive(Drop)]
pub struct Pipeline<T: Site, S: Store> {
    pub(crate) sources: Vec<SourceQueues<T>>,
    pub(crate) numbering: Vec<Numbered>,
    pub(crate) managers: Vec<ManagerQueues>,
    pub(crate) announcements: VecDeque<Announced>,
    pub(crate) merge: Merge,
    pub(crate) store: S,
    pub(crate) earlier: Vec<Cut>,
    pub(crate) cut: Cut,
    pub(crate) target: Cut,
}

impl<T: Site, S: Store> Model for Pipeline<T, S> {
    ghost use Rattle.whips_contents.specs.Contents.{LoadedPipeline};

    ghost Value = { LoadedPipeline };

    ghost view = { λ c. record {
      sources = c.sources.items;
      numbering = c.numbering.items;
      managers = c.managers.items;
      announcements = c.announcements.items;
      merge = c.merge;
      store = S.state c.store;
      earlier_cuts = c.earlier.items;
      cut = c.cut;
      target_cut = c.target;
    } };
}

impl<T: Site + Drop, S: Store + Drop> Pipeline<T, S> {
    /// The pipeline of the setup before the first event, over these sources with their queues and this store.
    pub fn new(
        alloc: Global,
        setup: &Setup,
        sources: Vec<SourceQueues<T>>,
        store: S,
    ) -> Result<Pipeline<T, S>, NoMemory>
        ensures { IfOk result (λ p. p ≡ started setup.now sources.items (S.state store)) }
    {
        let managers = managers_of(alloc, setup)?;
        let merge = Merge::new(alloc, setup)?;
        let cut = Cut::of(vec![in alloc; 0u64; setup.sources() as usize]?);
        let target = cut.copy()?;
        Ok(Pipeline {
            sources,
            numbering: Vec::new(alloc),
            managers,
            announcements: VecDeque::new(alloc),
            merge,
            store,
            earlier: Vec::new(alloc),
            cut,
            target,
        })
    }
}

impl<T: Site, S: Store> Pipeline<T, S> {
    /// The source makes its next transaction and sends it.
    pub fn commit(&mut self, y: u32) -> Result<(), NoMemory>
        ensures { OnOk result (self.new
            ≡ record self.old { sources = changed_at y source_after_commit self.old.sources }) }
    {
        commit_at(&mut self.sources, y)
    }

    /// The source answers the oldest ask of the view.
    pub fn answer(&mut self, y: u32, x: u32) -> Result<(), NoMemory>
        requires some { (z : LoadedSource) → slice_get self.old.sources y ≡ Some z
            → is_some (oldest_ask_to x z) ≡ true }
        requires fits { (z : LoadedSource) → slice_get self.old.sources y ≡ Some z
            → IfSome (oldest_ask_to x z) (IsAskTo z.site.views z.site.source) }
        ensures { OnOk result (self.new
            ≡ record self.old {
              sources = changed_at y
                  (source_after_oldest_ask x) self.old.sources;
            }) }
    {
        answer_at(&mut self.sources, y, x)
    }

    /// Hands on what the integrator made of a message of the source.
    fn forward(&mut self, y: u32, forward: Forward) -> Result<(), NoMemory>
        ensures { OnOk result (self.new
            ≡ after_forward y forward
            (record self.old { numbering = numbered_by y forward self.old.numbering })) }
    {
        match forward {
            Forward::Numbered {
                number,
                place,
                update,
                concerned,
            } => {
                let n = Numbered {
                    number,
                    source: y,
                    place,
                };
                self.numbering.push(n.copy())?;
                send_all(&mut self.managers, &n, &update, concerned.as_slice())?;
                announce(&mut self.announcements, n, concerned)
            }
            Forward::Reply(reply) => {
                let view = reply.view;
                send_at(&mut self.managers, view, Input::Answered(reply))
            }
        }
    }

    /// The integrator takes the oldest message of the source.
    pub fn integrate(
        &mut self,
        setup: &Setup,
        integrator: &mut Integrator,
        y: u32,
    ) -> Result<(), NoMemory>
        requires there { y < setup.now.sources }
        requires enabled { is_some (oldest_message self.old y) ≡ true }
        requires counted { integrator.old ≡ counts_of setup.now.sources self.old.numbering }
        ensures ok { OnOk result (self.new
            ≡ after_integrate setup.now y (oldest_message self.old y) self.old) }
        ensures counted { OnOk result (integrator.new
            ≡ counts_of setup.now.sources self.new.numbering) }
    {
        let Some(message) = pop_at(&mut self.sources, y) else {
            return Ok(());
        };
        let forward = integrator.take(setup, y, message)?;
        self.forward(y, forward)
    }

    /// The manager of the view takes its oldest message.
    pub fn manage(&mut self, alloc: Global, x: u32) -> Result<(), NoMemory>
        requires fits { (m : LoadedManager) → slice_get self.old.managers x ≡ Some m
            → IfSome (front m.messages) (FitsInput m.manager) }
        ensures { OnOk result ((m : LoadedManager) (i : ManagerInput)
            → slice_get self.old.managers x ≡ Some m → front m.messages ≡ Some i → self.new
            ≡ after_input x m (Some i) self.old) }
    {
        let asks = manage_at(alloc, &mut self.managers, x)?;
        ask_all(&mut self.sources, x, asks)?;
        Ok(())
    }

    /// The merge takes the oldest announced transaction.
    pub fn rel(&mut self) -> Result<(), NoMemory>
        requires enabled { is_some (front self.old.announcements) ≡ true }
        requires fits { IfSome (front self.old.announcements) (FitsRel self.old.merge) }
        ensures { OnOk result (self.new
            ≡ after_announcement (front self.old.announcements) self.old) }
    {
        let Some(a) = self.announcements.pop_front() else {
            return Ok(());
        };
        rel_of(&mut self.merge, &a)?;
        Ok(())
    }

    /// The merge takes the oldest list of the view's manager.
    pub fn act(&mut self, x: u32) -> Result<(), NoMemory>
        requires enabled { is_some (oldest_list self.old x) ≡ true }
        requires fits { IfSome (oldest_list self.old x)
            (λ list. list.view < length self.old.merge.lists) }
        ensures { OnOk result ((list : ActionList) → oldest_list self.old x ≡ Some list → self.new
            ≡ after_list x (Some list) self.old) }
    {
        let Some(list) = pop_list_at(&mut self.managers, x) else {
            return Ok(());
        };
        self.merge.act(list)?;
        Ok(())
    }

    /// The writer begins the oldest transaction that waits. `Full` names the first view that needs more slots than it
    /// has. After a refusal all is as before.
    pub fn begin(&mut self, alloc: Global, setup: &Setup) -> Result<(), StoreErr>
        requires enabled { is_enabled_loaded self.old Begin ≡ true }
        requires fits { (t : Transaction) → front self.old.merge.transactions ≡ Some t
            → self.old.store.phase % 2 ≡ 0 → FitsBegin setup.now self.old t }
        ensures ok { OnOk result (self.new ≡ next_loaded setup.now self.old Begin) }
        ensures room { OnOk result (is_full_for setup.now self.old Begin ≡ false) }
        ensures full { IfErr result (λ e. e ≢ StoreErr.NoMemory
            → begin_refusal setup.now self.old ≡ Some e) }
        ensures err { OnErr result (self.new ≡ self.old) }
    {
        let Some(transaction) = self.merge.first() else {
            return Ok(());
        };
        let lists = transaction.lists.as_slice();
        let Ok(changes) = changes_by(alloc, setup, &self.store, lists) else {
            return Err(StoreErr::NoMemory);
        };
        self.store.begin(changes)?;
        if let Some(begun) = self.merge.next() {
            self.target = begun.cut;
        }
        Ok(())
    }

    /// The writer makes one change of a row.
    pub fn change(&mut self)
        requires { 0 < changes_left self.old.store }
        ensures { self.new ≡ record self.old { store = changed_once self.old.store } }
    {
        self.store.change_next();
    }

    /// The writer commits the transaction as the next version.
    pub fn publish(&mut self) -> Result<(), NoMemory>
        requires active { self.old.store.phase % 2 ≡ 1 }
        requires made { changes_left self.old.store ≡ 0 }
        ensures { OnOk result (self.new ≡ after_publish self.old) }
    {
        let next = self.target.copy()?;
        let old = std::mem::replace(&mut self.cut, next);
        self.earlier.push(old)?;
        self.store.publish();
        Ok(())
    }

    /// The store.
    pub fn store(&self) -> &S
        ensures { S.state result.now ≡ self.now.store }
    {
        &self.store
    }

    /// The cut of the current version.
    pub fn cut(&self) -> &Cut
        ensures { result.now ≡ self.now.cut }
    {
        &self.cut
    }

    /// The cuts of the versions before the current one, from version 0 on.
    pub fn earlier_cuts(&self) -> &[Cut]
        ensures { result.now ≡ self.now.earlier_cuts }
    {
        self.earlier.as_slice()
    }

    /// Hands back the sources with what is on its way at them, and the store.
    pub fn close(self) -> (Vec<SourceQueues<T>>, S)
        ensures sources { result.0.items ≡ self.sources }
        ensures store { S.state result.1 ≡ self.store }
    {
        let Pipeline { sources, store, .. } = self;
        (sources, store)
    }

    /// Whether the event of this kind at a place can be done now.
    pub(crate) fn enabled_at(&self, kind: EventKind, i: u32) -> bool
        ensures { result ≡ is_enabled_loaded self.now (event_of kind i) }
    {
        match kind {
            EventKind::Publish => self.store.phase() % 2 == 1 && self.store.left() == 0,
            EventKind::Change => self.store.left() > 0,
            EventKind::Begin => self.merge.waits() && self.store.phase() % 2 == 0,
            EventKind::Act => has_list(&self.managers, i),
            EventKind::Rel => self.announcements.front().is_some(),
            EventKind::Manage => has_input(&self.managers, i),
            EventKind::Integrate => has_message(&self.sources, i),
            EventKind::Answer(y) => has_ask(&self.sources, y, i),
            EventKind::Commit => can_commit(&self.sources, i),
        }
    }

    /// Whether the event can be done now.
    pub fn enabled(&self, e: &Event) -> bool
        ensures { result ≡ is_enabled_loaded self.now e.now }
    {
        match e {
            Event::Commit(y) => self.enabled_at(EventKind::Commit, *y),
            Event::Answer(y, x) => self.enabled_at(EventKind::Answer(*y), *x),
            Event::Integrate(y) => self.enabled_at(EventKind::Integrate, *y),
            Event::Manage(x) => self.enabled_at(EventKind::Manage, *x),
            Event::Rel => self.enabled_at(EventKind::Rel, 0),
            Event::Act(x) => self.enabled_at(EventKind::Act, *x),
            Event::Begin => self.enabled_at(EventKind::Begin, 0),
            Event::Change => self.enabled_at(EventKind::Change, 0),
            Event::Publish => self.enabled_at(EventKind::Publish, 0),
            Event::SessionOpen(_)
            | Event::SessionScan(_, _)
            | Event::SessionFetch(_, _)
            | Event::SessionClose(_) => false,
        }
    }
}

/// The merge takes the announced transaction.
fn rel_of(merge: &mut Merge, a: &Announced) -> Result<(), NoMemory>
    requires { FitsRel merge.old a.now }
    ensures { OnOk result (merge.new
        ≡ after_rel (row_announced (length merge.old.lists) a.now) merge.old) }
{
    merge.rel(
        a.transaction.number,
        a.transaction.source,
        a.transaction.place,
        a.concerned.as_slice(),
    )
}
