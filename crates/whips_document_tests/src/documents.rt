//! Documents: what is read, and which refusal comes first.
use std::alloc::Global;
use whips_script_reading::{Code, ReadErr, Refusal, read_script};
use whips_setup::Plan;

/// A document that is refused.
struct Case {
    /// The document.
    text: &'static str,
    /// The code.
    code: Code,
    /// The place.
    place: &'static str,
}

const REFUSED: &[Case] = &[
    Case {
        text: r#"{"sources":[],"views":[]"#,
        code: Code::Syntax,
        place: "document",
    },
    Case {
        text: r#"{"sources":[],"views":[]}"#,
        code: Code::Shape,
        place: "sources",
    },
    // an unknown member comes before what is wrong in a known one
    Case {
        text: r#"{"sources":[],"views":[],"x":1}"#,
        code: Code::Shape,
        place: "document",
    },
    // versions come before sources
    Case {
        text: r#"{"sources":[],"views":[],"versions":5}"#,
        code: Code::Limit,
        place: "versions",
    },
    Case {
        text: r#"{"sources":[{"name":"A","relations":[{"name":"R","columns":[["a","number"],["b","text"]],"key":["a"],"rows":[[1,"x"]]}]}]}"#,
        code: Code::Shape,
        place: "views",
    },
    // all of a source comes before all views
    Case {
        text: r#"{"sources":[{"name":"A","relations":[{"name":"R","columns":[["a","number"],["b","text"]],"key":["a"],"rows":[[1,"x"]]}],"updates":[["insert","R",[1,"y"]]]}],"views":[{"name":"7"}]}"#,
        code: Code::Present,
        place: "sources[0].updates[0]",
    },
    // the second update of a transaction
    Case {
        text: r#"{"sources":[{"name":"A","relations":[{"name":"R","columns":[["a","number"]],"key":["a"]}],"updates":[["all",[["insert","R",[1]],["insert","R",[1]]]]]}],"views":[{"name":"V","relations":["R"],"out":["R.a"]}]}"#,
        code: Code::Present,
        place: "sources[0].updates[0][1][1]",
    },
    // two rows at first, and one slot: told at the end of the view, before the next view
    Case {
        text: r#"{"sources":[{"name":"A","relations":[{"name":"R","columns":[["a","number"]],"key":["a"],"rows":[[1],[2]]}]}],"views":[{"name":"V","relations":["R"],"out":["R.a"],"slots":1},{"name":"V"}]}"#,
        code: Code::Limit,
        place: "views[0].slots",
    },
    // a name of a view a second time, before what is missing of it
    Case {
        text: r#"{"sources":[{"name":"A","relations":[{"name":"R","columns":[["a","number"]],"key":["a"]}]}],"views":[{"name":"V","relations":["R"],"out":["R.a"]},{"name":"V"}]}"#,
        code: Code::Name,
        place: "views[1].name",
    },
    // the views come before the sessions
    Case {
        text: r#"{"sources":[{"name":"A","relations":[{"name":"R","columns":[["a","number"],["b","number"]],"key":["a"]}]}],"views":[{"name":"V","relations":["R"],"out":["R.b"]}],"sessions":["end"]}"#,
        code: Code::Key,
        place: "views[0].out",
    },
    Case {
        text: r#"{"sources":[{"name":"A","relations":[{"name":"R","columns":[["a","number"]],"key":["a"]}]}],"views":[{"name":"V","relations":["R"],"out":["R.a"]}],"sessions":["end"],"schedule":{"start":1,"steps":2}}"#,
        code: Code::Name,
        place: "sessions[0]",
    },
    // the start of a picked schedule comes before its number of steps
    Case {
        text: r#"{"sources":[{"name":"A","relations":[{"name":"R","columns":[["a","number"]],"key":["a"]}]}],"views":[{"name":"V","relations":["R"],"out":["R.a"]}],"schedule":{"start":4294967296,"steps":65537}}"#,
        code: Code::Limit,
        place: "schedule.start",
    },
    Case {
        text: r#"{"sources":[{"name":"A","relations":[{"name":"R","columns":[["a","number"]],"key":["a"]}]}],"views":[{"name":"V","relations":["R"],"out":["R.a"]}],"schedule":{"start":1,"steps":65537}}"#,
        code: Code::Limit,
        place: "schedule.steps",
    },
    Case {
        text: r#"{"sources":[{"name":"A","relations":[{"name":"R","columns":[["a","number"]],"key":["a"]}]}],"views":[{"name":"V","relations":["R"],"out":["R.a"]}],"schedule":{"start":1}}"#,
        code: Code::Shape,
        place: "schedule",
    },
];

/// Whether the place of the refusal is this text.
fn is_at(alloc: Global, refusal: &Refusal, place: &str) -> bool {
    match refusal.place_text(alloc) {
        Ok(text) => text.as_str() == place,
        Err(_) => false,
    }
}

/// Whether the document is refused as the case says.
fn is_refused(alloc: Global, case: &Case) -> bool {
    match read_script(alloc, case.text.as_bytes()) {
        Err(ReadErr::Refused(refusal)) => {
            (refusal.code() == case.code) & is_at(alloc, &refusal, case.place)
        }
        Err(ReadErr::NoMemory) | Ok(_) => false,
    }
}

#[test]
fn the_first_fault_is_told_at_its_place(rt: HostRuntime) {
    for case in REFUSED {
        assert!(rt; is_refused(rt.alloc(), case));
    }
}

/// A source with texts, an update, a view with a text condition, a session and two events.
const SHOP: &str =
    r#"{"versions":3,"sources":[{"name":"A","relations":[{"name":"R","columns":[["a","number"],["b","text"]],"key":["a"],"rows":[[1,"tea"],[2,"jam"]]}],"updates":[["delete","R",[1]]]}],"views":[{"name":"V","relations":["R"],"where":[["R.b","!=","milk"]],"out":["R.a","R.b"]}],"sessions":["s"],"schedule":{"events":["open s","rel"]}}"#;

/// Whether the plan lists this many events.
fn lists(plan: &Plan, count: usize) -> bool {
    match plan {
        Plan::Listed(events) => events.as_slice().len() == count,
        Plan::Picked { .. } => false,
    }
}

/// Whether the shop is read with its names, its texts in the order of their bytes, and its events.
fn is_read(alloc: Global) -> bool {
    match read_script(alloc, SHOP.as_bytes()) {
        Ok(script) => {
            let named = (script.sources().len() == 1)
                & (script.views().len() == 1)
                & (script.sessions().len() == 1);
            let parts = script.into_parts();
            named
                & (parts.texts.len() == 3)
                & (parts.texts.rank("milk") == 1)
                & (parts.setup.versions() == 3)
                & lists(&parts.plan, 2)
        }
        Err(_) => false,
    }
}

#[test]
fn a_document_is_read_with_its_texts(rt: HostRuntime) {
    assert!(rt; is_read(rt.alloc()));
}

/// A source, a view, and a schedule whose events are picked.
const PICKED: &str =
    r#"{"sources":[{"name":"A","relations":[{"name":"R","columns":[["a","number"]],"key":["a"]}]}],"views":[{"name":"V","relations":["R"],"out":["R.a"]}],"schedule":{"start":4294967295,"steps":65536}}"#;

/// Whether the document is read with its start and its number of steps.
fn is_picked(alloc: Global) -> bool {
    match read_script(alloc, PICKED.as_bytes()) {
        Ok(script) => {
            let parts = script.into_parts();
            match parts.plan {
                Plan::Picked { start, steps } => (start == 4_294_967_295) & (steps == 65_536),
                Plan::Listed(_) => false,
            }
        }
        Err(_) => false,
    }
}

#[test]
fn a_document_with_a_picked_schedule_is_read(rt: HostRuntime) {
    assert!(rt; is_picked(rt.alloc()));
}
