//! The events of the pipeline by groups of one kind, in the order in which the drain looks for one that can be done.
ghost use Rattle.std.specs.Prelude.{◌≡◌, ◌+◌, ◌≤◌, ◌++◌, map, find, filter, slice_get, length, IfOk, OnOk, Some, MatchResult};
ghost use Rattle.whips_lists.specs.Lists.{places_from};
ghost use Rattle.whips_flow.specs.Facts.{Facts};
ghost use Rattle.whips_flow.specs.Progress.{pipeline_events};
ghost use Rattle.whips_contents.specs.Events.{is_enabled_loaded};
ghost use Rattle.whips_core.specs.Groups.{event_of, group_events, events_of, answers_of, first_groups};

use crate::pipeline::Pipeline;
use std::alloc::Global;
use whips_flow::Event;
use whips_rel::NoMemory;
use whips_source::Site;
use whips_store::Store;

/// A kind of events of the pipeline.
#[derive(Clone, Copy, Debug, PartialEq, Eq)]
pub(crate) enum EventKind {
    /// The writer commits.
    Publish,
    /// The writer changes a row.
    Change,
    /// The writer begins.
    Begin,
    /// The merge takes a list of a view's manager.
    Act,
    /// The merge takes an announced transaction.
    Rel,
    /// A view's manager takes a message.
    Manage,
    /// The integrator takes a message of a source.
    Integrate,
    /// This source answers an ask of a view.
    Answer(u32),
    /// A source makes a transaction.
    Commit,
}

/// Events of one kind, one for each place below a number: for each view, for each source, or one alone.
#[derive(Clone, Copy, Debug, PartialEq, Eq)]
pub(crate) struct EventGroup {
    /// Their kind.
    pub(crate) kind: EventKind,
    /// How many there are.
    pub(crate) count: u32,
}

/// Events of this kind for so many places.
fn group(kind: EventKind, count: u32) -> EventGroup
    ensures { result ≡ record { kind = kind; count = count } }
{
    EventGroup { kind, count }
}

/// Puts the answers of so many sources to so many views behind the groups.
fn push_answers(groups: &mut Vec<EventGroup>, sources: u32, views: u32) -> Result<(), NoMemory>
    ensures { OnOk result (groups.new.items
        ≡ groups.old.items ++ map (answers_of views) (places_from 0 sources)) }
{
    for y in 0..sources {
        groups.push(group(EventKind::Answer(y), views))?;
    }
    Ok(())
}

/// The groups before the answers of sources.
fn first_groups(alloc: Global, views: u32, sources: u32) -> Result<Vec<EventGroup>, NoMemory>
    ensures { IfOk result (λ groups. groups.items ≡ first_groups views sources) }
{
    let mut groups = Vec::new(alloc);
    groups.push(group(EventKind::Publish, 1))?;
    groups.push(group(EventKind::Change, 1))?;
    groups.push(group(EventKind::Begin, 1))?;
    groups.push(group(EventKind::Act, views))?;
    groups.push(group(EventKind::Rel, 1))?;
    groups.push(group(EventKind::Manage, views))?;
    groups.push(group(EventKind::Integrate, sources))?;
    Ok(groups)
}

/// The events of a pipeline with so many views and sources, in the order in which the drain looks for one that can
/// be done.
pub(crate) fn groups_of(
    alloc: Global,
    views: u32,
    sources: u32,
) -> Result<Vec<EventGroup>, NoMemory>
    requires { sources ≤ 8 }
    ensures events { IfOk result (λ groups. (f : Facts) → length f.slots ≡ views
        → length f.transactions ≡ sources → events_of groups.items ≡ pipeline_events f) }
    ensures few { IfOk result (λ groups. length groups.items ≤ 4096) }
{
    let mut groups = first_groups(alloc, views, sources)?;
    push_answers(&mut groups, sources, views)?;
    groups.push(group(EventKind::Commit, sources))?;
    Ok(groups)
}

/// The event of this kind at a place.
fn event_of(kind: EventKind, i: u32) -> Event
    ensures { result ≡ event_of kind i }
{
    match kind {
        EventKind::Publish => Event::Publish,
        EventKind::Change => Event::Change,
        EventKind::Begin => Event::Begin,
        EventKind::Act => Event::Act(i),
        EventKind::Rel => Event::Rel,
        EventKind::Manage => Event::Manage(i),
        EventKind::Integrate => Event::Integrate(i),
        EventKind::Answer(y) => Event::Answer(y, i),
        EventKind::Commit => Event::Commit(i),
    }
}

/// The first event of the group that can be done.
fn first_in<T: Site, S: Store>(pipeline: &Pipeline<T, S>, group: EventGroup) -> Option<Event>
    ensures { result ≡ find (is_enabled_loaded pipeline.now) (group_events group) }
{
    for i in 0..group.count {
        if pipeline.enabled_at(group.kind, i) {
            return Some(event_of(group.kind, i));
        }
    }
    None
}

/// The first of the events that can be done.
pub(crate) fn first_of<T: Site, S: Store>(
    pipeline: &Pipeline<T, S>,
    groups: &[EventGroup],
) -> Option<Event>
    ensures { result ≡ find (is_enabled_loaded pipeline.now) (events_of groups.now) }
{
    for group in groups {
        if let Some(e) = first_in(pipeline, *group) {
            return Some(e);
        }
    }
    None
}

/// How many events of the group can be done.
#[inline(always)]
fn count_in<T: Site, S: Store>(pipeline: &Pipeline<T, S>, group: EventGroup) -> usize
    ensures count { result
        ≡ length (filter (is_enabled_loaded pipeline.now) (group_events group)) }
    ensures few { result ≤ 4294967295 }
{
    let mut count = 0;
    for i in 0..group.count {
        if pipeline.enabled_at(group.kind, i) {
            count += 1;
        }
    }
    count
}

/// How many of the events before the answers of sources can be done.
#[inline(always)]
fn count_first<T: Site, S: Store>(pipeline: &Pipeline<T, S>, views: u32, sources: u32) -> usize
    ensures count { result ≡ length
        (filter (is_enabled_loaded pipeline.now) (events_of (first_groups views sources))) }
    ensures few { result ≤ 30064771065 }
{
    count_in(pipeline, group(EventKind::Publish, 1))
        + count_in(pipeline, group(EventKind::Change, 1))
        + count_in(pipeline, group(EventKind::Begin, 1))
        + count_in(pipeline, group(EventKind::Act, views))
        + count_in(pipeline, group(EventKind::Rel, 1))
        + count_in(pipeline, group(EventKind::Manage, views))
        + count_in(pipeline, group(EventKind::Integrate, sources))
}

/// How many answers of so many sources to so many views can be done.
fn count_answers<T: Site, S: Store>(pipeline: &Pipeline<T, S>, views: u32, sources: u32) -> usize
    requires { sources ≤ 8 }
    ensures count { result ≡ length (filter (is_enabled_loaded pipeline.now)
        (events_of (map (answers_of views) (places_from 0 sources)))) }
    ensures few { result ≤ 34359738360 }
{
    let mut count = 0;
    for y in 0..sources {
        count += count_in(pipeline, group(EventKind::Answer(y), views));
    }
    count
}

/// How many of the events of a pipeline with so many views and sources can be done. The kinds stand in its calls, so that
/// none is looked up for each event.
pub(crate) fn count_of<T: Site, S: Store>(
    pipeline: &Pipeline<T, S>,
    views: u32,
    sources: u32,
) -> usize
    requires { sources ≤ 8 }
    ensures { (f : Facts) → length f.slots ≡ views → length f.transactions ≡ sources
        → result ≡ length (filter (is_enabled_loaded pipeline.now) (pipeline_events f)) }
{
    count_first(pipeline, views, sources)
        + count_answers(pipeline, views, sources)
        + count_in(pipeline, group(EventKind::Commit, sources))
}

/// The event at this place, from 0, among the events of the group that can be done, or how many places behind them it is.
fn nth_in<T: Site, S: Store>(
    pipeline: &Pipeline<T, S>,
    group: EventGroup,
    place: usize,
) -> Result<Event, usize>
    ensures { MatchResult result
        (λ e. slice_get (filter (is_enabled_loaded pipeline.now) (group_events group)) place
        ≡ Some e)
        (λ left. left + length (filter (is_enabled_loaded pipeline.now) (group_events group))
        ≡ place) }
{
    let mut left = place;
    for i in 0..group.count {
        if pipeline.enabled_at(group.kind, i) {
            if left == 0 {
                return Ok(event_of(group.kind, i));
            }
            left -= 1;
        }
    }
    Err(left)
}

/// The event at this place, from 0, among the events that can be done.
pub(crate) fn nth_of<T: Site, S: Store>(
    pipeline: &Pipeline<T, S>,
    groups: &[EventGroup],
    place: usize,
) -> Option<Event>
    ensures { result
        ≡ slice_get (filter (is_enabled_loaded pipeline.now) (events_of groups.now)) place }
{
    let mut left = place;
    for group in groups {
        match nth_in(pipeline, *group, left) {
            Ok(e) => return Some(e),
            Err(behind) => left = behind,
        }
    }
    None
}
