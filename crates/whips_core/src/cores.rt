//! The core: one event of the pipeline at a time, over the sites of a setup and a store.
ghost use Rattle.std.specs.Prelude.{◌≡◌, ◌≢◌, Some, IfErr, true, false, OnOk, OnErr, IfOk, find, filter, slice_get, length, if◌then◌else◌};
ghost use Rattle.whips_flow.specs.Facts.{Facts};
ghost use Rattle.whips_flow.specs.Progress.{pipeline_events};
ghost use Rattle.whips_flow.specs.declared.event.Event.TheVariants.{Commit, Answer, Integrate, Manage, Rel, Act, Begin, Change, Publish};
ghost use Rattle.whips_contents.specs.Contents.{start_loaded};
ghost use Rattle.whips_contents.specs.Events.{begin_refusal, is_enabled_loaded, is_full_for, next_loaded, step_loaded};
ghost use Rattle.whips_store.specs.First.{store_at_first};
ghost use Rattle.whips_core.specs.Pipelines.{started};
ghost use Rattle.whips_core.specs.Cores.{AreFresh, IsRun, done_by};
ghost use Rattle.whips_core.specs.declared.cores.CoreStep.TheVariants.{Skipped};

use crate::order::{EventGroup, count_of, first_of, groups_of, nth_of};
use crate::pipeline::Pipeline;
use crate::queues::SourceQueues;
use std::alloc::Global;
use std::marker::Model;
use whips_flow::Event;
use whips_order::Integrator;
use whips_rel::NoMemory;
use whips_setup::{Cut, Setup};
use whips_source::Site;
use whips_store::{Store, StoreErr};

/// What a step did.
#[derive(Clone, Copy, Debug, PartialEq, Eq)]
pub enum CoreStep {
    /// The event was done.
    Did,
    /// A version was committed.
    Published,
    /// The event can't be done now, and nothing changed.
    Skipped,
}

/// The pipeline over the sites of a setup and a store, an event at a time.
#[derive(Drop)]
pub struct Core<T: Site, S: Store> {
    alloc: Global,
    setup: Setup,
    integrator: Integrator,
    pipeline: Pipeline<T, S>,
    groups: Vec<EventGroup>,
    is_stopped: bool,
}

impl<T: Site, S: Store> Model for Core<T, S> {
    ghost use Rattle.std.specs.Prelude.{◌≡◌, false};
    ghost use Rattle.whips_core.specs.Cores.{CoreData, IsCore, AreInOrder};

    ghost Value = { CoreData };

    ghost view = { λ c. record { setup = c.setup; loaded = c.pipeline; stopped = c.is_stopped } };

    ghost invariant = { λ c. (c.is_stopped ≡ false → IsCore c.setup c.pipeline c.integrator)
        × AreInOrder c.setup c.groups.items };
}

impl<T: Site, S: Store> Core<T, S> {
    /// The source makes its next transaction. After want of memory the core is stopped.
    fn commit(&mut self, y: u32) -> Result<(), NoMemory>
        requires enabled { is_enabled_loaded self.old.loaded (Commit y) ≡ true }
        requires runs { self.old.stopped ≡ false }
        ensures ok { OnOk result (self.new
            ≡ record self.old { loaded = next_loaded self.old.setup self.old.loaded (Commit y) }) }
        ensures err { OnErr result (self.new.stopped ≡ true) }
    {
        self.is_stopped = true;
        self.pipeline.commit(y)?;
        self.is_stopped = false;
        Ok(())
    }

    /// The source answers the oldest ask of the view.
    fn answer(&mut self, y: u32, x: u32) -> Result<(), NoMemory>
        requires enabled { is_enabled_loaded self.old.loaded (Answer y x) ≡ true }
        requires runs { self.old.stopped ≡ false }
        ensures ok { OnOk result (self.new
            ≡ record self.old {
              loaded = next_loaded self.old.setup self.old.loaded
                  (Answer y x);
            }) }
        ensures err { OnErr result (self.new.stopped ≡ true) }
    {
        self.is_stopped = true;
        self.pipeline.answer(y, x)?;
        self.is_stopped = false;
        Ok(())
    }

    /// The integrator takes the oldest message of the source.
    fn integrate(&mut self, y: u32) -> Result<(), NoMemory>
        requires enabled { is_enabled_loaded self.old.loaded (Integrate y) ≡ true }
        requires runs { self.old.stopped ≡ false }
        ensures ok { OnOk result (self.new
            ≡ record self.old {
              loaded = next_loaded self.old.setup self.old.loaded
                  (Integrate y);
            }) }
        ensures err { OnErr result (self.new.stopped ≡ true) }
    {
        self.is_stopped = true;
        self.pipeline
            .integrate(&self.setup, &mut self.integrator, y)?;
        self.is_stopped = false;
        Ok(())
    }

    /// The manager of the view takes its oldest message.
    fn manage(&mut self, x: u32) -> Result<(), NoMemory>
        requires enabled { is_enabled_loaded self.old.loaded (Manage x) ≡ true }
        requires runs { self.old.stopped ≡ false }
        ensures ok { OnOk result (self.new
            ≡ record self.old { loaded = next_loaded self.old.setup self.old.loaded (Manage x) }) }
        ensures err { OnErr result (self.new.stopped ≡ true) }
    {
        self.is_stopped = true;
        self.pipeline.manage(self.alloc, x)?;
        self.is_stopped = false;
        Ok(())
    }

    /// The merge takes the oldest announced transaction.
    fn rel(&mut self) -> Result<(), NoMemory>
        requires enabled { is_enabled_loaded self.old.loaded Rel ≡ true }
        requires runs { self.old.stopped ≡ false }
        ensures ok { OnOk result (self.new
            ≡ record self.old { loaded = next_loaded self.old.setup self.old.loaded Rel }) }
        ensures err { OnErr result (self.new.stopped ≡ true) }
    {
        self.is_stopped = true;
        self.pipeline.rel()?;
        self.is_stopped = false;
        Ok(())
    }

    /// The merge takes the oldest list of the view's manager.
    fn act(&mut self, x: u32) -> Result<(), NoMemory>
        requires enabled { is_enabled_loaded self.old.loaded (Act x) ≡ true }
        requires runs { self.old.stopped ≡ false }
        ensures ok { OnOk result (self.new
            ≡ record self.old { loaded = next_loaded self.old.setup self.old.loaded (Act x) }) }
        ensures err { OnErr result (self.new.stopped ≡ true) }
    {
        self.is_stopped = true;
        self.pipeline.act(x)?;
        self.is_stopped = false;
        Ok(())
    }

    /// The writer commits the transaction as the next version.
    fn publish(&mut self) -> Result<(), NoMemory>
        requires enabled { is_enabled_loaded self.old.loaded Publish ≡ true }
        requires runs { self.old.stopped ≡ false }
        ensures ok { OnOk result (self.new
            ≡ record self.old { loaded = next_loaded self.old.setup self.old.loaded Publish }) }
        ensures err { OnErr result (self.new.stopped ≡ true) }
    {
        self.is_stopped = true;
        self.pipeline.publish()?;
        self.is_stopped = false;
        Ok(())
    }

    /// The writer begins the oldest transaction that waits. After `Full` the core is as before, and after want of
    /// memory it is stopped.
    fn begin(&mut self) -> Result<(), StoreErr>
        requires enabled { is_enabled_loaded self.old.loaded Begin ≡ true }
        requires runs { self.old.stopped ≡ false }
        ensures ok { OnOk result (self.new ≡ record self.old {
          loaded = next_loaded self.old.setup self.old.loaded Begin;
        }) }
        ensures room { OnOk result (is_full_for self.old.setup self.old.loaded Begin ≡ false) }
        ensures full { IfErr result (λ e. e ≢ StoreErr.NoMemory
            → begin_refusal self.old.setup self.old.loaded ≡ Some e) }
        ensures kept { IfErr result (λ e. e ≢ StoreErr.NoMemory → self.new ≡ self.old) }
        ensures err { IfErr result (λ e. e ≡ StoreErr.NoMemory → self.new.stopped ≡ true) }
    {
        match self.pipeline.begin(self.alloc, &self.setup) {
            Ok(()) => Ok(()),
            Err(StoreErr::NoMemory) => {
                self.is_stopped = true;
                Err(StoreErr::NoMemory)
            }
            Err(full) => Err(full),
        }
    }

    /// The writer makes one change of a row.
    fn change(&mut self)
        requires enabled { is_enabled_loaded self.old.loaded Change ≡ true }
        requires runs { self.old.stopped ≡ false }
        ensures { self.new
            ≡ record self.old { loaded = next_loaded self.old.setup self.old.loaded Change } }
    {
        self.pipeline.change();
    }

    /// Whether the event can be done now.
    pub fn enabled(&self, e: &Event) -> bool
        ensures { result ≡ is_enabled_loaded self.now.loaded e.now }
    {
        self.pipeline.enabled(e)
    }

    /// Does an event that can be done, other than a begin.
    fn next(&mut self, e: &Event) -> Result<CoreStep, NoMemory>
        requires enabled { is_enabled_loaded self.old.loaded e.now ≡ true }
        requires other { e.now ≢ Begin }
        requires runs { self.old.stopped ≡ false }
        ensures ok { OnOk result (self.new ≡ record self.old {
          loaded = next_loaded self.old.setup self.old.loaded e.now;
        }) }
        ensures room { OnOk result (is_full_for self.old.setup self.old.loaded e.now ≡ false) }
        ensures done { IfOk result (λ r. r ≡ done_by e.now) }
        ensures err { OnErr result (self.new.stopped ≡ true) }
        ensures change { OnErr result (e.now ≢ Change) }
    {
        match e {
            Event::Commit(y) => self.commit(*y)?,
            Event::Answer(y, x) => self.answer(*y, *x)?,
            Event::Integrate(y) => self.integrate(*y)?,
            Event::Manage(x) => self.manage(*x)?,
            Event::Rel => self.rel()?,
            Event::Act(x) => self.act(*x)?,
            Event::Change => self.change(),
            Event::Publish => {
                self.publish()?;
                return Ok(CoreStep::Published);
            }
            _ => return Ok(CoreStep::Skipped),
        }
        Ok(CoreStep::Did)
    }

    /// The first event that can be done: publish, change and begin, then the acts by view, rel, the managers by view, the
    /// integrator by source, the answers by source and view, and the commits by source. `None` exactly where none can.
    pub fn first(&self) -> Option<Event>
        ensures { (f : Facts) → length f.slots ≡ length self.now.setup.views
            → length f.transactions ≡ self.now.setup.sources
            → result ≡ find (is_enabled_loaded self.now.loaded) (pipeline_events f) }
    {
        first_of(&self.pipeline, &self.groups)
    }

    /// How many events can be done.
    pub fn enabled_count(&self) -> usize
        ensures { (f : Facts) → length f.slots ≡ length self.now.setup.views
            → length f.transactions ≡ self.now.setup.sources
            → result ≡ length (filter (is_enabled_loaded self.now.loaded) (pipeline_events f)) }
    {
        count_of(&self.pipeline, self.setup.views(), self.setup.sources())
    }

    /// The event at this place, from 0, among those that can be done, in the order of `first`.
    pub fn enabled_at(&self, place: usize) -> Option<Event>
        ensures { (f : Facts) → length f.slots ≡ length self.now.setup.views
            → length f.transactions ≡ self.now.setup.sources → result
            ≡ slice_get (filter (is_enabled_loaded self.now.loaded) (pipeline_events f)) place }
    {
        nth_of(&self.pipeline, &self.groups, place)
    }

    /// Does the event, where it can be done; otherwise nothing changes. `Full` comes exactly where the event is a begin
    /// that can be done and for which a view has too few slots, and then the core is as before. After want of memory the
    /// core is stopped, and answers it to each later step; a change wants none.
    pub fn step(&mut self, e: &Event) -> Result<CoreStep, StoreErr>
        ensures loaded { OnOk result (self.new ≡ record self.old {
          loaded = step_loaded self.old.setup self.old.loaded e.now;
        }) }
        ensures done { IfOk result (λ r. r
            ≡ if is_enabled_loaded self.old.loaded e.now then done_by e.now else Skipped) }
        ensures runs { OnOk result (self.old.stopped ≡ false) }
        ensures full { IfErr result (λ r. r ≢ StoreErr.NoMemory
            → (is_enabled_loaded self.old.loaded e.now ≡ true) × (e.now ≡ Begin)
            × (begin_refusal self.old.setup self.old.loaded ≡ Some r) × (self.new ≡ self.old)) }
        ensures room { OnOk result (is_enabled_loaded self.old.loaded e.now ≡ true
            → is_full_for self.old.setup self.old.loaded e.now ≡ false) }
        ensures err { IfErr result (λ r. r ≡ StoreErr.NoMemory → self.new.stopped ≡ true) }
        ensures change { OnErr result (e.now ≡ Change → self.old.stopped ≡ true) }
    {
        if self.is_stopped {
            return Err(StoreErr::NoMemory);
        }
        if !self.enabled(e) {
            return Ok(CoreStep::Skipped);
        }
        if let Event::Begin = e {
            self.begin()?;
            return Ok(CoreStep::Did);
        }
        match self.next(e) {
            Ok(step) => Ok(step),
            Err(_) => Err(StoreErr::NoMemory),
        }
    }

    /// The setup.
    pub fn setup(&self) -> &Setup
        ensures { result.now ≡ self.now.setup }
    {
        &self.setup
    }

    /// The store. Where the core isn't stopped, it has done what the machine does after some events of some workload of
    /// its setup: its numbers are the machine's state, and at each live version the slots show the views' values at
    /// that version's cut.
    pub fn store(&self) -> &S
        ensures store { S.state result.now ≡ self.now.loaded.store }
        ensures carries { self.now.stopped ≡ false → IsRun self.now.setup self.now.loaded }
    {
        self.pipeline.store()
    }

    /// The cut of the current version, with a count for each source.
    pub fn cut(&self) -> &Cut
        ensures cut { result.now ≡ self.now.loaded.cut }
        ensures long { self.now.stopped ≡ false → length result.now ≡ self.now.setup.sources }
    {
        self.pipeline.cut()
    }

    /// The cuts of the versions before the current one, from version 0 on.
    pub fn earlier_cuts(&self) -> &[Cut]
        ensures { result.now ≡ self.now.loaded.earlier_cuts }
    {
        self.pipeline.earlier_cuts()
    }

    /// Hands back the sources with what is on its way at them, and the store.
    pub fn close(self) -> (Vec<SourceQueues<T>>, S)
        ensures sources { result.0.items ≡ self.loaded.sources }
        ensures store { S.state result.1 ≡ self.loaded.store }
    {
        self.pipeline.close()
    }
}

impl<T: Site + Drop, S: Store + Drop> Core<T, S> {
    /// The core of a setup before the first event, over sources that are fresh and a store at version 0.
    pub fn new(
        alloc: Global,
        setup: Setup,
        sources: Vec<SourceQueues<T>>,
        store: S,
    ) -> Result<Core<T, S>, NoMemory>
        requires fresh { AreFresh setup sources.items }
        requires store { S.state store ≡ store_at_first setup }
        ensures { IfOk result (λ c. c ≡ record {
          setup = setup;
          loaded = started setup sources.items (S.state store);
          stopped = false;
        }) }
    {
        let integrator = Integrator::new(alloc, &setup)?;
        let _sound = setup.sources();
        let pipeline = Pipeline::new(alloc, &setup, sources, store)?;
        let groups = groups_of(alloc, setup.views(), setup.sources())?;
        Ok(Core {
            alloc,
            setup,
            integrator,
            pipeline,
            groups,
            is_stopped: false,
        })
    }
}
