//! The events of a run's plan: each listed one is done, or told as skipped, and each picked one is done.
ghost use Rattle.std.specs.Prelude.{◌≡◌, ◌<◌, ◌∷◌, ℕ, suc, true, false, List, length, if◌then◌else◌, OnOk, IfOk, IfErr};
ghost use Rattle.whips_flow.specs.Events.{is_pipeline_event};
ghost use Rattle.whips_runs.specs.Picks.{is_scan};
ghost use Rattle.whips_world.specs.Readers.{is_allowed_here};
ghost use Rattle.whips_world.specs.Runs.{Start, Left, events_left, turns_left, IsOnPlan, IsDue, IsTurned, IsBegun, IsPlayed, TellsPart};

use crate::events::do_event;
use crate::picks::pick;
use crate::readers::{
    Reader, close, closed_readers, fetch, is_closed_at, is_open_at, is_scanning_at, open, scan,
};
use std::alloc::Global;
use whips_core::Core;
use whips_flow::Event;
use whips_pick::Picker;
use whips_report::{Rec, RecordErr, RecordSink};
use whips_setup::Plan;
use whips_source::Site;
use whips_store::Store;

/// How many reader sessions a run has, and its plan.
#[derive(Clone, Copy)]
pub struct Schedule<'a> {
    /// How many sessions there are.
    pub sessions: usize,
    /// Which events are done first.
    pub plan: &'a Plan,
}

/// Whether the event can be done.
fn is_allowed<T: Site, S: Store>(core: &Core<T, S>, readers: &[Reader], e: &Event) -> bool
    ensures { result ≡ is_allowed_here core.now readers.now e.now }
{
    match e {
        Event::SessionOpen(s) => is_closed_at(readers, *s),
        Event::SessionScan(s, x) => is_open_at(readers, *s) && *x < core.setup().views(),
        Event::SessionFetch(s, n) => is_scanning_at(readers, *s) && *n > 0,
        Event::SessionClose(s) => is_open_at(readers, *s),
        _ => core.enabled(e),
    }
}

/// Does an event of a session that can be done, and tells what it brought.
fn do_session<T: Site, S: Store, K: RecordSink>(
    alloc: Global,
    core: &Core<T, S>,
    readers: &mut [Reader],
    e: Event,
    sink: &mut K,
) -> Result<(), RecordErr>
    ghost at: { Start K }
    requires allowed { is_allowed_here core.now readers.old e ≡ true }
    requires session { is_pipeline_event e ≡ false }
    requires due { (left : Left) × IsDue K.told at (record {
      core = core.now;
      readers = readers.old;
      sink = sink.old;
    }) e left }
    ensures ok { OnOk result ((left : Left) → IsDue K.told at (record {
      core = core.now;
      readers = readers.old;
      sink = sink.old;
    }) e left → IsOnPlan K.told at (record {
      core = core.now;
      readers = readers.new;
      sink = sink.new;
    }) left) }
    ensures memory { IfErr result (λ r. r ≡ RecordErr.NoMemory → TellsPart K.told at sink.new) }
    ensures failed { IfErr result (λ r. r ≡ RecordErr.Failed → TellsPart K.failed at sink.new) }
{
    match e {
        Event::SessionOpen(s) => open(core.store(), readers, s, sink),
        Event::SessionScan(s, x) => scan(alloc, core.store(), readers, (s, x)),
        Event::SessionFetch(s, n) => fetch(core.store(), readers, (s, n), sink),
        Event::SessionClose(s) => {
            close(readers, s);
            Ok(())
        }
        _ => unreachable!(),
    }
}

/// Does an event that can be done, and tells what it brought. It answers whether a view was full for it.
fn act<T: Site, S: Store, K: RecordSink>(
    alloc: Global,
    core: &mut Core<T, S>,
    readers: &mut [Reader],
    e: Event,
    sink: &mut K,
) -> Result<bool, RecordErr>
    ghost at: { Start K }
    requires allowed { is_allowed_here core.old readers.old e ≡ true }
    requires due { (left : Left) × IsDue K.told at (record {
      core = core.old;
      readers = readers.old;
      sink = sink.old;
    }) e left }
    ensures ok { IfOk result (λ full. (left : Left) → IsDue K.told at (record {
      core = core.old;
      readers = readers.old;
      sink = sink.old;
    }) e left → IsTurned K.told at (record {
      core = core.new;
      readers = readers.new;
      sink = sink.new;
    }) left full) }
    ensures memory { IfErr result (λ r. r ≡ RecordErr.NoMemory → TellsPart K.told at sink.new) }
    ensures failed { IfErr result (λ r. r ≡ RecordErr.Failed → TellsPart K.failed at sink.new) }
{
    if e.is_pipeline() {
        return do_event(alloc, core, &e, sink);
    }
    do_session(alloc, core, readers, e, sink)?;
    Ok(false)
}

/// The turn of an event at its place in the plan, from 1: it is done, or told as skipped. It answers whether a view was
/// full for it.
fn turn<T: Site, S: Store, K: RecordSink>(
    alloc: Global,
    core: &mut Core<T, S>,
    readers: &mut [Reader],
    entry: (u64, Event),
    sink: &mut K,
) -> Result<bool, RecordErr>
    ghost at: { Start K × ℕ × List Event }
    requires place { entry.0 ≡ at.1 }
    requires plan { IsOnPlan K.told at.0 (record {
      core = core.old;
      readers = readers.old;
      sink = sink.old;
    }) (events_left at.1 (entry.1 ∷ at.2)) }
    ensures ok { IfOk result (λ full. IsTurned K.told at.0 (record {
      core = core.new;
      readers = readers.new;
      sink = sink.new;
    }) (events_left (suc at.1) at.2) full) }
    ensures memory { IfErr result (λ r. r ≡ RecordErr.NoMemory → TellsPart K.told at.0 sink.new) }
    ensures failed { IfErr result (λ r. r ≡ RecordErr.Failed → TellsPart K.failed at.0 sink.new) }
{
    let (place, e) = entry;
    if !is_allowed(core, readers, &e) {
        sink.push(&Rec::Skip {
            at: place,
            event: e,
        })?;
        return Ok(false);
    }
    act(alloc, core, readers, e, sink)
}

/// Does these events, one after another. It answers whether a view was full for one, which ends the run.
fn play_listed<T: Site, S: Store, K: RecordSink>(
    alloc: Global,
    core: &mut Core<T, S>,
    readers: &mut [Reader],
    events: &[Event],
    sink: &mut K,
) -> Result<bool, RecordErr>
    ghost at: { Start K × List Event }
    requires events { events.now ≡ at.1 }
    requires plan { IsOnPlan K.told at.0 (record {
      core = core.old;
      readers = readers.old;
      sink = sink.old;
    }) (events_left 1 at.1) }
    ensures ok { IfOk result (λ full. IsPlayed K.told at.0 core.new sink.new full) }
    ensures memory { IfErr result (λ r. r ≡ RecordErr.NoMemory → TellsPart K.told at.0 sink.new) }
    ensures failed { IfErr result (λ r. r ≡ RecordErr.Failed → TellsPart K.failed at.0 sink.new) }
{
    for i in 0..events.len() {
        let entry = (i as u64 + 1, events[i]);
        if turn(alloc, core, readers, entry, sink)? {
            return Ok(true);
        }
    }
    Ok(false)
}

/// Whether the event begins a scan.
fn is_scan(e: &Event) -> bool
    ensures { result ≡ is_scan e.now }
{
    matches!(e, Event::SessionScan(_, _))
}

/// How many scans were begun, where so many were before the event.
fn scans_after(scans: u32, e: &Event) -> u32
    requires { scans < 4294967295 }
    ensures { result ≡ if is_scan e.now then suc scans else scans }
{
    if is_scan(e) { scans + 1 } else { scans }
}

/// Picks events from this start and does each, so many at most, until none can be picked. It answers whether a view was
/// full for one, which ends the run.
fn play_picked<T: Site, S: Store, K: RecordSink>(
    alloc: Global,
    core: &mut Core<T, S>,
    readers: &mut [Reader],
    turns: (u32, u32),
    sink: &mut K,
) -> Result<bool, RecordErr>
    ghost at: { Start K }
    requires sessions { length readers.old ≡ at.script.sessions }
    requires plan { IsOnPlan K.told at (record {
      core = core.old;
      readers = readers.old;
      sink = sink.old;
    }) (turns_left turns.1 turns.0 0) }
    ensures ok { IfOk result (λ full. IsPlayed K.told at core.new sink.new full) }
    ensures memory { IfErr result (λ r. r ≡ RecordErr.NoMemory → TellsPart K.told at sink.new) }
    ensures failed { IfErr result (λ r. r ≡ RecordErr.Failed → TellsPart K.failed at sink.new) }
{
    let (start, steps) = turns;
    let mut picker = Picker::new(start);
    let mut scans = 0;
    for i in 0..steps {
        let Some(e) = pick(core, readers, &mut picker, scans) else {
            return Ok(false);
        };
        scans = scans_after(scans, &e);
        if act(alloc, core, readers, e, sink)? {
            return Ok(true);
        }
    }
    Ok(false)
}

/// Does the events of the plan, one after another. It answers whether a view was full for one, which ends the run.
pub(crate) fn play<T: Site, S: Store, K: RecordSink>(
    alloc: Global,
    core: &mut Core<T, S>,
    schedule: &Schedule,
    sink: &mut K,
) -> Result<bool, RecordErr>
    ghost at: { Start K }
    requires { IsBegun K.told at core.old sink.old
        (schedule.now.sessions, schedule.now.plan.now) }
    ensures ok { IfOk result (λ full. IsPlayed K.told at core.new sink.new full) }
    ensures memory { IfErr result (λ r. r ≡ RecordErr.NoMemory → TellsPart K.told at sink.new) }
    ensures failed { IfErr result (λ r. r ≡ RecordErr.Failed → TellsPart K.failed at sink.new) }
{
    let mut readers = closed_readers(alloc, schedule.sessions, core.setup().views())?;
    match schedule.plan {
        Plan::Listed(events) => play_listed(alloc, core, &mut readers, events.as_slice(), sink),
        Plan::Picked { start, steps } => {
            play_picked(alloc, core, &mut readers, (*start, *steps), sink)
        }
    }
}
