//! Schedules.
ghost use Rattle.std.specs.Prelude.{◌≡◌, ◌∷◌, ◌++◌, IfOk, OnOk, string_bytes, map};
ghost use Rattle.serde_json.specs.Written.{compact_text};
ghost use Rattle.whips_setup.specs.declared.plan.Plan.TheVariants.{Listed};
ghost use Rattle.whips_reports.specs.Lines.{words, event_words};
ghost use Rattle.whips_script_writing.specs.Objects.{list_data, behind_commas};
ghost use Rattle.whips_script_writing.specs.Scripts.{event_data, picked_data, schedule_data};

use crate::labels::Labels;
use crate::text::{push_member, push_number, push_plain, push_quoted};
use std::alloc::{AllocError, Global};
use whips_reading::Member;
use whips_setup::{Event, Plan};

/// The words of an event.
fn push_words(text: &mut String, labels: &Labels<'_>, event: Event) -> Result<(), AllocError>
    ensures { OnOk result (string_bytes text.new
        ≡ string_bytes text.old ++ words (event_words labels.now event)) }
{
    match event {
        Event::Commit(y) => write!(text, "commit {}", labels.source(y)),
        Event::Answer(y, x) => write!(text, "answer {} {}", labels.source(y), labels.view(x)),
        Event::Integrate(y) => write!(text, "integrate {}", labels.source(y)),
        Event::Manage(x) => write!(text, "manage {}", labels.view(x)),
        Event::Rel => text.push_str("rel"),
        Event::Act(x) => write!(text, "act {}", labels.view(x)),
        Event::Begin => text.push_str("begin"),
        Event::Change => text.push_str("change"),
        Event::Publish => text.push_str("publish"),
        Event::SessionOpen(s) => write!(text, "open {}", labels.session(s)),
        Event::SessionScan(s, x) => write!(text, "scan {} {}", labels.session(s), labels.view(x)),
        Event::SessionFetch(s, n) => write!(text, "fetch {} {n}", labels.session(s)),
        Event::SessionClose(s) => write!(text, "close {}", labels.session(s)),
    }
}

fn event_text(alloc: Global, labels: &Labels<'_>, event: Event) -> Result<String, AllocError>
    ensures { IfOk result (λ s. string_bytes s ≡ words (event_words labels.now event)) }
{
    let mut text = String::new(alloc);
    push_words(&mut text, labels, event)?;
    Ok(text)
}

/// An event.
fn push_event(out: &mut String, labels: &Labels<'_>, event: Event) -> Result<(), AllocError>
    ensures { OnOk result (string_bytes out.new ≡ string_bytes out.old
        ++ compact_text (event_data labels.now event)) }
{
    let text = event_text(*out.allocator(), labels, event)?;
    push_quoted(out, text.as_str())
}

/// Events, each behind a comma.
fn push_events_behind(
    out: &mut String,
    labels: &Labels<'_>,
    events: &[Event],
) -> Result<(), AllocError>
    ensures { OnOk result (string_bytes out.new ≡ string_bytes out.old
        ++ behind_commas (map (event_data labels.now) events.now)) }
{
    for event in events {
        out.push(',')?;
        push_event(out, labels, *event)?;
    }
    Ok(())
}

/// A list of events: the first one, and the others.
fn push_some_events(
    out: &mut String,
    labels: &Labels<'_>,
    first: Event,
    rest: &[Event],
) -> Result<(), AllocError>
    ensures { OnOk result (string_bytes out.new ≡ string_bytes out.old ++ compact_text
        (list_data (event_data labels.now first ∷ map (event_data labels.now) rest.now))) }
{
    push_plain(out, "[")?;
    push_event(out, labels, first)?;
    push_events_behind(out, labels, rest)?;
    push_plain(out, "]")
}

/// A list of events.
fn push_events(out: &mut String, labels: &Labels<'_>, events: &[Event]) -> Result<(), AllocError>
    ensures { OnOk result (string_bytes out.new ≡ string_bytes out.old
        ++ compact_text (list_data (map (event_data labels.now) events.now))) }
{
    match events {
        [] => out.push_str("[]"),
        [first, rest @ ..] => push_some_events(out, labels, *first, rest),
    }
}

/// A schedule that lists events.
pub(crate) fn push_listed(
    out: &mut String,
    labels: &Labels<'_>,
    events: &[Event],
) -> Result<(), AllocError>
    ensures { OnOk result (string_bytes out.new ≡ string_bytes out.old
        ++ compact_text (schedule_data labels.now (Listed events.now))) }
{
    out.push('{')?;
    push_member(out, false, Member::Events)?;
    push_events(out, labels, events)?;
    out.push('}')
}

/// A schedule with a start and a number of steps.
fn push_picked(out: &mut String, start: u32, steps: u32) -> Result<(), AllocError>
    ensures { OnOk result (string_bytes out.new ≡ string_bytes out.old
        ++ compact_text (picked_data start steps)) }
{
    out.push('{')?;
    push_member(out, false, Member::Start)?;
    push_number(out, start as u64)?;
    push_member(out, true, Member::Steps)?;
    push_number(out, steps as u64)?;
    out.push('}')
}

/// A schedule.
pub(crate) fn push_plan(
    out: &mut String,
    labels: &Labels<'_>,
    plan: &Plan,
) -> Result<(), AllocError>
    ensures { OnOk result (string_bytes out.new ≡ string_bytes out.old
        ++ compact_text (schedule_data labels.now plan.now)) }
{
    match plan {
        Plan::Listed(events) => push_listed(out, labels, events.as_slice()),
        Plan::Picked { start, steps } => push_picked(out, *start, *steps),
    }
}
