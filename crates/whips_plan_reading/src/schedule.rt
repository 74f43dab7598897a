//! The schedule of a script.
ghost use Rattle.std.specs.Prelude.{◌≡◌, ◌≤◌, IfOk, map};
ghost use Rattle.serde_json.specs.View.{view};
ghost use Rattle.whips_reading.specs.Places.{path_steps};
ghost use Rattle.whips_reading.specs.Reading.{Answers, in_turn, within, number_within};
ghost use Rattle.whips_plan_reading.specs.Schedules.{event_added, is_scan, have_few_scans, events_in, listed_in, picked_in, has_member, is_listed, is_picked, schedule_in, schedule_of};

use crate::event::event_in;
use crate::names::Names;
use serde_json::Value;
use std::alloc::Global;
use whips_flow::Event;
use whips_reading::{
    Code, Member, ObjectForm, Path, ReadErr, elements, in_element, in_member, is_object_of,
    optional, read_number, read_text, refuse, required,
};
use whips_setup::{Events, Plan};

/// The most events of a schedule.
const MOST_EVENTS: usize = 65_536;

/// The most events of a schedule that begin a scan.
const MOST_SCANS: usize = 1000;

/// The greatest start of a picker.
const GREATEST_START: u64 = 4_294_967_295;

/// The most events that are picked.
const MOST_STEPS: u64 = 65_536;

/// Adds an event.
fn add_event(
    alloc: Global,
    names: &Names<'_>,
    events: &mut Vec<Event>,
    path: &Path<'_>,
    value: &Value,
) -> Result<(), ReadErr>
    ensures { Answers (λ _. events.new.items) result
        (event_added names.now events.old.items (path_steps path.now) (view value.now)) }
{
    let text = read_text(alloc, path, value)?;
    match event_in(names, text) {
        Some(event) => {
            events.push(event)?;
            Ok(())
        }
        None => Err(refuse(alloc, path, Code::BadEvent)),
    }
}

/// Whether the event begins a scan.
fn is_scan(event: Event) -> bool
    ensures { result ≡ is_scan event }
{
    matches!(event, Event::SessionScan(_, _))
}

/// Whether no more of the events begin a scan than may.
fn have_few_scans(events: &[Event]) -> bool
    ensures { result ≡ have_few_scans events.now }
{
    events.iter().filter(|event| is_scan(**event)).count() <= MOST_SCANS
}

/// Adds the events of a list.
fn add_events(
    alloc: Global,
    names: &Names<'_>,
    events: &mut Vec<Event>,
    path: &Path<'_>,
    items: &[Value],
) -> Result<(), ReadErr>
    ensures { Answers (λ _. events.new.items) result (in_turn (event_added names.now)
        (path_steps path.now) 0 events.old.items (map view items.now)) }
{
    for (i, item) in items.iter().enumerate() {
        add_event(alloc, names, events, &in_element(&*path, i), item)?;
    }
    Ok(())
}

/// The events of a list.
fn read_events(
    alloc: Global,
    names: &Names<'_>,
    path: &Path<'_>,
    value: &Value,
) -> Result<Vec<Event>, ReadErr>
    ensures { Answers (λ v. v.items) result
        (events_in names.now (path_steps path.now) (view value.now)) }
{
    let items = elements(alloc, path, value, 0, MOST_EVENTS)?;
    let mut events = Vec::new(alloc);
    add_events(alloc, names, &mut events, path, items)?;
    if have_few_scans(&events) {
        return Ok(events);
    }
    Err(refuse(alloc, path, Code::Limit))
}

/// The events of a schedule that lists them.
fn read_listed(
    alloc: Global,
    names: &Names<'_>,
    path: &Path<'_>,
    value: &Value,
) -> Result<Plan, ReadErr>
    ensures { Answers (λ p. p) result
        (listed_in names.now (path_steps path.now) (view value.now)) }
{
    let list = required(alloc, path, value, Member::Events)?;
    let events = read_events(alloc, names, &in_member(&*path, Member::Events), list)?;
    Ok(Plan::Listed(Events::of(events)))
}

/// The member's number, up to this one.
fn read_up_to(
    alloc: Global,
    path: &Path<'_>,
    value: &Value,
    member: Member,
    most: u64,
) -> Result<u64, ReadErr>
    ensures number { Answers (λ n. n) result
        (within member (number_within 0 most) (path_steps path.now) (view value.now)) }
    ensures limit { IfOk result (λ n. n ≤ most) }
{
    let number = required(alloc, path, value, member)?;
    read_number(alloc, &in_member(&*path, member), number, 0, most)
}

/// The start and the number of steps of a schedule whose events are picked.
fn read_picked(alloc: Global, path: &Path<'_>, value: &Value) -> Result<Plan, ReadErr>
    ensures { Answers (λ p. p) result (picked_in (path_steps path.now) (view value.now)) }
{
    let start = read_up_to(alloc, path, value, Member::Start, GREATEST_START)?;
    let steps = read_up_to(alloc, path, value, Member::Steps, MOST_STEPS)?;
    Ok(Plan::Picked {
        start: start as u32,
        steps: steps as u32,
    })
}

/// Whether the object has the member.
fn has_member(value: &Value, member: Member) -> bool
    ensures { result ≡ has_member member (view value.now) }
{
    optional(value, member).is_some()
}

/// Whether a schedule is an object with `events` alone.
fn is_listed_schedule(value: &Value) -> bool
    ensures { result ≡ is_listed (view value.now) }
{
    is_object_of(value, ObjectForm::Schedule) && has_member(value, Member::Events)
}

/// Whether a schedule is an object with `start` and `steps` alone.
fn is_picked_schedule(value: &Value) -> bool
    ensures { result ≡ is_picked (view value.now) }
{
    is_object_of(value, ObjectForm::PickedSchedule)
        && has_member(value, Member::Start)
        && has_member(value, Member::Steps)
}

/// A schedule, of one of its two forms.
fn read_form(
    alloc: Global,
    names: &Names<'_>,
    path: &Path<'_>,
    value: &Value,
) -> Result<Plan, ReadErr>
    ensures { Answers (λ p. p) result
        (schedule_in names.now (path_steps path.now) (view value.now)) }
{
    if is_listed_schedule(value) {
        return read_listed(alloc, names, path, value);
    }
    if is_picked_schedule(value) {
        return read_picked(alloc, path, value);
    }
    Err(refuse(alloc, path, Code::Shape))
}

/// The schedule of a document, which lists no event where the member is left out.
pub fn read_schedule(
    alloc: Global,
    names: &Names<'_>,
    path: &Path<'_>,
    document: &Value,
) -> Result<Plan, ReadErr>
    ensures { Answers (λ p. p) result
        (schedule_of names.now (path_steps path.now) (view document.now)) }
{
    match optional(document, Member::Schedule) {
        Some(schedule) => read_form(alloc, names, &in_member(path, Member::Schedule), schedule),
        None => Ok(Plan::Listed(Events::of(Vec::new(alloc)))),
    }
}
