//! Sessions and schedules: what is read, and each refusal.
use crate::refused::is_refused;
use serde_json::Value;
use std::alloc::Global;
use whips_flow::Event;
use whips_plan_reading::{PlanForm, read_plan};
use whips_reading::{Code, Path, ReadErr, Text, read_document};
use whips_setup::Plan;

/// A document whose sessions or schedule are refused.
struct Case {
    /// The document.
    text: &'static str,
    /// The code.
    code: Code,
    /// The place.
    place: &'static str,
}

/// The sources are `A` and `B`, and the view is `V`.
const REFUSED: &[Case] = &[
    Case {
        text: r#"{"sessions":{}}"#,
        code: Code::Shape,
        place: "sessions",
    },
    Case {
        text: r#"{"sessions":["a","b","c","d","e","f","g","h","i"]}"#,
        code: Code::Limit,
        place: "sessions",
    },
    Case {
        text: r#"{"sessions":["s",7]}"#,
        code: Code::Shape,
        place: "sessions[1]",
    },
    Case {
        text: r#"{"sessions":["7"]}"#,
        code: Code::Name,
        place: "sessions[0]",
    },
    Case {
        text: r#"{"sessions":["s","t","s",7]}"#,
        code: Code::Name,
        place: "sessions[2]",
    },
    Case {
        text: r#"{"sessions":["end"],"schedule":[]}"#,
        code: Code::Name,
        place: "sessions[0]",
    },
    Case {
        text: r#"{"schedule":[]}"#,
        code: Code::Shape,
        place: "schedule",
    },
    Case {
        text: r#"{"schedule":{}}"#,
        code: Code::Shape,
        place: "schedule",
    },
    Case {
        text: r#"{"schedule":{"events":[7],"start":0}}"#,
        code: Code::Shape,
        place: "schedule",
    },
    Case {
        text: r#"{"schedule":{"start":-1}}"#,
        code: Code::Shape,
        place: "schedule",
    },
    Case {
        text: r#"{"schedule":{"events":{}}}"#,
        code: Code::Shape,
        place: "schedule.events",
    },
    Case {
        text: r#"{"schedule":{"events":["rel",7]}}"#,
        code: Code::Shape,
        place: "schedule.events[1]",
    },
    Case {
        text: r#"{"schedule":{"events":["rel","relay"]}}"#,
        code: Code::BadEvent,
        place: "schedule.events[1]",
    },
    Case {
        text: r#"{"schedule":{"events":["commit V"]}}"#,
        code: Code::BadEvent,
        place: "schedule.events[0]",
    },
    Case {
        text: r#"{"schedule":{"events":["manage A"]}}"#,
        code: Code::BadEvent,
        place: "schedule.events[0]",
    },
    Case {
        text: r#"{"schedule":{"events":["open s"]}}"#,
        code: Code::BadEvent,
        place: "schedule.events[0]",
    },
    Case {
        text: r#"{"schedule":{"events":["answer A  V"]}}"#,
        code: Code::BadEvent,
        place: "schedule.events[0]",
    },
    Case {
        text: r#"{"sessions":["s"],"schedule":{"events":["fetch s 0"]}}"#,
        code: Code::BadEvent,
        place: "schedule.events[0]",
    },
    Case {
        text: r#"{"sessions":["s"],"schedule":{"events":["fetch s 65536","fetch s 65537"]}}"#,
        code: Code::BadEvent,
        place: "schedule.events[1]",
    },
    Case {
        text: r#"{"sessions":["s"],"schedule":{"events":["fetch s 064"]}}"#,
        code: Code::BadEvent,
        place: "schedule.events[0]",
    },
    Case {
        text: r#"{"schedule":{"start":"0","steps":0}}"#,
        code: Code::Shape,
        place: "schedule.start",
    },
    Case {
        text: r#"{"schedule":{"start":4294967296,"steps":"0"}}"#,
        code: Code::Limit,
        place: "schedule.start",
    },
    Case {
        text: r#"{"schedule":{"start":1e0,"steps":0}}"#,
        code: Code::Limit,
        place: "schedule.start",
    },
    Case {
        text: r#"{"schedule":{"start":0,"steps":[]}}"#,
        code: Code::Shape,
        place: "schedule.steps",
    },
    Case {
        text: r#"{"schedule":{"start":0,"steps":65537}}"#,
        code: Code::Limit,
        place: "schedule.steps",
    },
    Case {
        text: r#"{"schedule":{"start":0,"steps":-0}}"#,
        code: Code::Limit,
        place: "schedule.steps",
    },
];

/// What is read of the document, over two sources and a view.
fn plan_in(alloc: Global, document: &Value) -> Result<PlanForm, ReadErr> {
    let mut sources = Vec::new(alloc);
    sources.push(Text::of(alloc, "A")?)?;
    sources.push(Text::of(alloc, "B")?)?;
    let mut views = Vec::new(alloc);
    views.push(Text::of(alloc, "V")?)?;
    read_plan(alloc, &sources, &views, &Path::Document, document)
}

/// What is read of the text.
fn plan_of(alloc: Global, text: &str) -> Result<PlanForm, ReadErr> {
    let document = read_document(alloc, text.as_bytes())?;
    plan_in(alloc, &document)
}

/// Whether the document is refused so.
fn is_case(alloc: Global, case: &Case) -> bool {
    match plan_of(alloc, case.text) {
        Ok(_) => false,
        Err(error) => is_refused(alloc, &error, case.code, case.place),
    }
}

#[test]
fn refusals_of_plans(rt: HostRuntime) {
    for case in REFUSED {
        assert!(rt; is_case(rt.alloc(), case), "{}", case.text);
    }
}

/// Whether the plan has this session, and lists these events.
fn is_listed(form: &PlanForm, session: &str, listed: &[Event]) -> bool {
    let session_is = match form.sessions.as_slice() {
        [only] => only.as_str() == session,
        _ => false,
    };
    match &form.plan {
        Plan::Listed(events) => session_is & (events.as_slice() == listed),
        Plan::Picked { .. } => false,
    }
}

/// Whether the plan is picked so.
fn is_picked(form: &PlanForm, from: u32, count: u32) -> bool {
    match &form.plan {
        Plan::Listed(_) => false,
        Plan::Picked { start, steps } => (*start == from) & (*steps == count),
    }
}

#[test]
fn a_schedule_that_lists_events_is_read(rt: HostRuntime) {
    let text =
        r#"{"sessions":["s"],"schedule":{"events":["answer B V","scan s V","fetch s 65536"]}}"#;
    let listed = [
        Event::Answer(1, 0),
        Event::SessionScan(0, 0),
        Event::SessionFetch(0, 65_536),
    ];
    assert!(rt;
        match plan_of(rt.alloc(), text) {
            Ok(form) => is_listed(&form, "s", &listed),
            Err(_) => false,
        }
    );
}

#[test]
fn a_schedule_that_is_picked_is_read(rt: HostRuntime) {
    let text = r#"{"schedule":{"steps":65536,"start":4294967295}}"#;
    assert!(rt;
        match plan_of(rt.alloc(), text) {
            Ok(form) => is_picked(&form, 4_294_967_295, 65_536),
            Err(_) => false,
        }
    );
}

/// A document whose schedule opens a session, begins this many scans, and ends with the event `last`.
fn scans(alloc: Global, count: usize, last: &str) -> Result<String, ReadErr> {
    let mut text = String::from_str(alloc, r#"{"sessions":["s"],"schedule":{"events":["open s""#)?;
    for _ in 0..count {
        text.push_str(r#","scan s V""#)?;
    }
    text.push_str(last)?;
    text.push_str("]}}")?;
    Ok(text)
}

/// Whether this many scans with this last event are refused so.
fn are_scans_refused(alloc: Global, count: usize, last: &str, code: Code, place: &str) -> bool {
    match scans(alloc, count, last) {
        Ok(text) => match plan_of(alloc, text.as_str()) {
            Ok(_) => false,
            Err(error) => is_refused(alloc, &error, code, place),
        },
        Err(_) => false,
    }
}

#[test]
fn scans_are_counted_behind_the_events(rt: HostRuntime) {
    let alloc = rt.alloc();
    assert!(rt; are_scans_refused(alloc, 1001, "", Code::Limit, "schedule.events"));
    assert!(rt; are_scans_refused(alloc, 1001, ",7", Code::Shape, "schedule.events[1002]"));
    assert!(rt;
        are_scans_refused(
            alloc,
            1000,
            r#","rel ""#,
            Code::BadEvent,
            "schedule.events[1001]"
        )
    );
}
