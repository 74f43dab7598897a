//! Texts that the program refuses, each with the whole text of its refusal.
use crate::run::{NOTHING, ends_as};
use crate::script::{script_and, script_with};
use std::alloc::Global;
use whips_rel::NoMemory;

/// Whether the program refuses the text so.
fn is_refused(alloc: Global, text: &[u8], wanted: &str) -> bool {
    matches!(
        ends_as(alloc, "run", text, NOTHING, (3, wanted.as_bytes())),
        Ok(true)
    )
}

/// Two sources without rows, a join of theirs and a session, around the updates of the first source.
fn join_with(alloc: Global, updates: &str, behind: &str) -> Result<String, NoMemory> {
    let mut text = String::from_str(
        alloc,
        r#"{"sources":[{"name":"A","relations":[{"name":"R","columns":[["a","number"],["b","number"]],"key":["a"]}],"updates":"#,
    )?;
    text.push_str(updates)?;
    text.push_str(
        r#"},{"name":"B","relations":[{"name":"S","columns":[["c","number"],["b","number"]],"key":["c"]}]}],"views":[{"name":"V","relations":["R","S"],"equal":[["R.b","S.b"]],"#,
    )?;
    text.push_str(behind)?;
    Ok(text)
}

/// Whether the join with these updates and this end is refused so.
fn is_join_refused(
    alloc: Global,
    updates: &str,
    behind: &str,
    wanted: &str,
) -> Result<bool, NoMemory> {
    let text = join_with(alloc, updates, behind)?;
    Ok(is_refused(alloc, text.as_bytes(), wanted))
}

/// Updates of the first source and the end of the text, with the refusal: each code once, and two faults of which the
/// first is told.
const JOINS: &[(&str, &str, &str)] = &[
    (
        "[]",
        r#""out":["R.a","S.c","R.b"]}],"sessions":["s"]"#,
        "refused Syntax document\n",
    ),
    (
        "[]",
        r#""out":["R.a","S.c","R.b"],"rows":[]}]}"#,
        "refused Shape views[0]\n",
    ),
    (
        "[]",
        r#""out":["R.a","S.c","R.b"],"slots":0}]}"#,
        "refused Limit views[0].slots\n",
    ),
    (
        "[]",
        r#""out":["R.a","S.c","R.b"]}],"sessions":["end"]}"#,
        "refused Name sessions[0]\n",
    ),
    (
        r#"[["insert","R",[1,5.0]]]"#,
        r#""out":["R.a","S.c","R.b"]}]}"#,
        "refused Value sources[0].updates[0][2][1]\n",
    ),
    (
        "[]",
        r#""out":["R.a","R.b"]}]}"#,
        "refused Key views[0].out\n",
    ),
    (
        r#"[["insert","R",[1,5]],["insert","R",[1,6]]]"#,
        r#""out":["R.a","S.c","R.b"]}]}"#,
        "refused Present sources[0].updates[1]\n",
    ),
    (
        r#"[["delete","R",[3]]]"#,
        r#""out":["R.a","S.c","R.b"]}]}"#,
        "refused Absent sources[0].updates[0]\n",
    ),
    (
        "[]",
        r#""out":["R.a","S.c","R.b"]}],"schedule":{"events":["manage X"]}}"#,
        "refused BadEvent schedule.events[0]\n",
    ),
    (
        "[]",
        r#""out":["R.a","S.c","R.b"]}],"schedule":{"start":1,"steps":65537}}"#,
        "refused Limit schedule.steps\n",
    ),
    (
        "[]",
        r#""out":["R.a","R.b"]}],"sessions":["end"]}"#,
        "refused Key views[0].out\n",
    ),
];

#[test]
fn each_code_is_told_with_its_place(rt: HostRuntime) {
    for (updates, behind, wanted) in JOINS {
        let refused = is_join_refused(rt.alloc(), updates, behind, wanted);
        assert!(rt; matches!(refused, Ok(true)), "{wanted}");
    }
}

/// Texts that aren't of the form of a document, with the refusal.
const DOCUMENTS: &[(&[u8], &str)] = &[
    (b"", "refused Syntax document\n"),
    (br#"{"sources":[{"name":"A"#, "refused Syntax document\n"),
    (b"\"\xff\"", "refused Syntax document\n"),
    (b"[]", "refused Shape document\n"),
    (b"{}", "refused Shape sources\n"),
    (br#"{"sources":[],"views":[]}"#, "refused Shape sources\n"),
    (
        br#"{"sources":[],"views":[],"x":1}"#,
        "refused Shape document\n",
    ),
    (
        br#"{"sources":[{"name":"A","relations":[{"name":"R","columns":[["a","number"]],"key":["a"]}]}],"views":[]}"#,
        "refused Shape views\n",
    ),
    (
        br#"{"sources":[{"name":"A","relations":[{"name":"P","columns":[["a","number"]],"key":["a"]}]},{"name":"B","relations":[{"name":"R","columns":[["a","number"],["b","number"]],"key":["a"]}]}],"views":[{"name":"V","relations":["R"],"out":["P.a"]}]}"#,
        "refused Name views[0].out[0]\n",
    ),
];

/// Whether as many brackets as are too deep are no JSON.
fn is_too_deep(alloc: Global) -> Result<bool, NoMemory> {
    let deep = vec![in alloc; b'['; 200]?;
    Ok(is_refused(alloc, &deep, "refused Syntax document\n"))
}

#[test]
fn what_is_no_document_is_refused(rt: HostRuntime) {
    for (text, wanted) in DOCUMENTS {
        assert!(rt; is_refused(rt.alloc(), text, wanted), "at {text:?}");
    }
    assert!(rt; matches!(is_too_deep(rt.alloc()), Ok(true)));
}

/// A script, of which no first part is a JSON text.
const SHORT: &[u8] =
    br#"{"sources":[{"name":"A","relations":[{"name":"R","columns":[["a","text"]],"key":["a"],"rows":[["\u00e9"]]}]}],"views":[{"name":"W","relations":["R"],"out":["R.a"]}]}"#;

#[test]
fn each_first_part_of_a_script_is_refused(rt: HostRuntime) {
    for end in 0..SHORT.len() {
        let part = &SHORT[..end];
        assert!(rt;
            is_refused(rt.alloc(), part, "refused Syntax document\n"),
            "at {end}"
        );
    }
}

/// Whether the script of one relation with these rows, updates and out columns is refused so.
fn is_case(alloc: Global, parts: (&str, &str, &str), wanted: &str) -> Result<bool, NoMemory> {
    let (rows, updates, out) = parts;
    let text = script_with(alloc, rows, updates, out)?;
    Ok(is_refused(alloc, text.as_bytes(), wanted))
}

/// Rows, updates and out columns of a view, with the refusal.
const PARTS: &[((&str, &str, &str), &str)] = &[
    (
        ("[[1,5],[1,6]]", "[]", r#"["R.a"]"#),
        "refused Key sources[0].relations[0].rows[1]\n",
    ),
    (
        ("[[1]]", "[]", r#"["R.a"]"#),
        "refused Shape sources[0].relations[0].rows[0]\n",
    ),
    (
        ("[[1,5,6]]", "[]", r#"["R.a"]"#),
        "refused Shape sources[0].relations[0].rows[0]\n",
    ),
    (
        ("[[1,1000000000000]]", "[]", r#"["R.a"]"#),
        "refused Value sources[0].relations[0].rows[0][1]\n",
    ),
    (
        ("[[1,-1]]", "[]", r#"["R.a"]"#),
        "refused Value sources[0].relations[0].rows[0][1]\n",
    ),
    (
        ("[[1,5.0]]", "[]", r#"["R.a"]"#),
        "refused Value sources[0].relations[0].rows[0][1]\n",
    ),
    (
        ("[[1,1e0]]", "[]", r#"["R.a"]"#),
        "refused Value sources[0].relations[0].rows[0][1]\n",
    ),
    (
        ("[[1,-0]]", "[]", r#"["R.a"]"#),
        "refused Value sources[0].relations[0].rows[0][1]\n",
    ),
    (
        (r#"[[1,"5"]]"#, "[]", r#"["R.a"]"#),
        "refused Value sources[0].relations[0].rows[0][1]\n",
    ),
    (
        ("{}", "[]", r#"["R.a"]"#),
        "refused Shape sources[0].relations[0].rows\n",
    ),
    (
        ("[[1,5]]", r#"[["insert","R",[1,6]]]"#, r#"["R.a"]"#),
        "refused Present sources[0].updates[0]\n",
    ),
    (
        (
            "[[1,5]]",
            r#"[["insert","R",[2,6]],["insert","R",[2,7]]]"#,
            r#"["R.a"]"#,
        ),
        "refused Present sources[0].updates[1]\n",
    ),
    (
        ("[[1,5]]", r#"[["delete","R",[2]]]"#, r#"["R.a"]"#),
        "refused Absent sources[0].updates[0]\n",
    ),
    (
        (
            "[[1,5]]",
            r#"[["delete","R",[1]],["delete","R",[1]]]"#,
            r#"["R.a"]"#,
        ),
        "refused Absent sources[0].updates[1]\n",
    ),
    (
        ("[[1,5]]", r#"[["delete","R",[1,5]]]"#, r#"["R.a"]"#),
        "refused Shape sources[0].updates[0][2]\n",
    ),
    (
        ("[[1,5]]", r#"[["insert","S",[2,6]]]"#, r#"["R.a"]"#),
        "refused Name sources[0].updates[0][1]\n",
    ),
    (
        ("[[1,5]]", r#"[["change","R",[1,6]]]"#, r#"["R.a"]"#),
        "refused Shape sources[0].updates[0][0]\n",
    ),
    (
        ("[[1,5]]", r#"[["all",[]]]"#, r#"["R.a"]"#),
        "refused Shape sources[0].updates[0][1]\n",
    ),
    (
        (
            "[[1,5]]",
            r#"[["all",[["all",[["delete","R",[1]]]]]]]"#,
            r#"["R.a"]"#,
        ),
        "refused Shape sources[0].updates[0][1][0]\n",
    ),
    (
        (
            "[]",
            r#"[["all",[["insert","R",[1,5]],["insert","R",[1,6]]]]]"#,
            r#"["R.a"]"#,
        ),
        "refused Present sources[0].updates[0][1][1]\n",
    ),
    (
        ("[[1,5]]", r#"[["all",["delete","R",[1]]]]"#, r#"["R.a"]"#),
        "refused Shape sources[0].updates[0][1][0]\n",
    ),
    (
        (
            "[[1,5]]",
            r#"[["both",[["delete","R",[1]]]]]"#,
            r#"["R.a"]"#,
        ),
        "refused Shape sources[0].updates[0]\n",
    ),
    (
        ("[[1,5]]", r#"["insert"]"#, r#"["R.a"]"#),
        "refused Shape sources[0].updates[0]\n",
    ),
    (("[[1,5]]", "[]", "[]"), "refused Shape views[0].out\n"),
    (
        ("[[1,5]]", "[]", r#"["R.b"]"#),
        "refused Key views[0].out\n",
    ),
    (
        ("[[1,5]]", "[]", r#"["R.a","R.c"]"#),
        "refused Name views[0].out[1]\n",
    ),
    (
        ("[[1,5]]", "[]", r#"["a"]"#),
        "refused Name views[0].out[0]\n",
    ),
    (
        ("[[1,5]]", "[]", r#"["R.a"],"slots":0"#),
        "refused Limit views[0].slots\n",
    ),
    (("[[1,5]]", "[]", "7"), "refused Shape views[0].out\n"),
];

#[test]
fn rows_updates_and_columns_with_a_fault_are_refused(rt: HostRuntime) {
    for (parts, wanted) in PARTS {
        let refused = is_case(rt.alloc(), *parts, wanted);
        let (rows, updates, out) = *parts;
        assert!(rt;
            matches!(refused, Ok(true)),
            "rows {rows}, updates {updates}, out {out}"
        );
    }
}

/// Whether the script with these members is refused so.
fn is_plan_refused(alloc: Global, members: &str, wanted: &str) -> Result<bool, NoMemory> {
    let text = script_and(alloc, members)?;
    Ok(is_refused(alloc, text.as_bytes(), wanted))
}

/// Versions, sessions and schedules, with the refusal.
const PLANS: &[(&str, &str)] = &[
    (r#""versions":1"#, "refused Limit versions\n"),
    (r#""versions":5"#, "refused Limit versions\n"),
    (r#""versions":2.0"#, "refused Limit versions\n"),
    (r#""versions":"3""#, "refused Shape versions\n"),
    (r#""sessions":["end"]"#, "refused Name sessions[0]\n"),
    (r#""sessions":["s","s"]"#, "refused Name sessions[1]\n"),
    (r#""sessions":["1s"]"#, "refused Name sessions[0]\n"),
    (
        r#""sessions":["a","b","c","d","e","f","g","h","i"]"#,
        "refused Limit sessions\n",
    ),
    (r#""sessions":null"#, "refused Shape sessions\n"),
    (r#""schedule":{}"#, "refused Shape schedule\n"),
    (r#""schedule":[]"#, "refused Shape schedule\n"),
    (
        r#""schedule":{"start":4294967296,"steps":2}"#,
        "refused Limit schedule.start\n",
    ),
    (
        r#""schedule":{"events":[],"start":1}"#,
        "refused Shape schedule\n",
    ),
    (
        r#""schedule":{"events":["commit B"]}"#,
        "refused BadEvent schedule.events[0]\n",
    ),
    (
        r#""schedule":{"events":["commit W"]}"#,
        "refused BadEvent schedule.events[0]\n",
    ),
    (
        r#""schedule":{"events":["open s"]}"#,
        "refused BadEvent schedule.events[0]\n",
    ),
    (
        r#""schedule":{"events":["stop"]}"#,
        "refused BadEvent schedule.events[0]\n",
    ),
    (
        r#""schedule":{"events":[""]}"#,
        "refused BadEvent schedule.events[0]\n",
    ),
    (
        r#""schedule":{"events":["rel "]}"#,
        "refused BadEvent schedule.events[0]\n",
    ),
    (
        r#""schedule":{"events":["commit  A"]}"#,
        "refused BadEvent schedule.events[0]\n",
    ),
    (
        r#""schedule":{"events":["answer A W W"]}"#,
        "refused BadEvent schedule.events[0]\n",
    ),
    (
        r#""schedule":{"events":["Rel"]}"#,
        "refused BadEvent schedule.events[0]\n",
    ),
    (
        r#""schedule":{"events":[7]}"#,
        "refused Shape schedule.events[0]\n",
    ),
    (
        r#""sessions":["s"],"schedule":{"events":["fetch s 0"]}"#,
        "refused BadEvent schedule.events[0]\n",
    ),
    (
        r#""sessions":["s"],"schedule":{"events":["fetch s 01"]}"#,
        "refused BadEvent schedule.events[0]\n",
    ),
    (
        r#""sessions":["s"],"schedule":{"events":["fetch s +1"]}"#,
        "refused BadEvent schedule.events[0]\n",
    ),
    (
        r#""sessions":["s"],"schedule":{"events":["fetch s 65537"]}"#,
        "refused BadEvent schedule.events[0]\n",
    ),
    (
        r#""sessions":["s"],"schedule":{"events":["fetch s 99999999999999999999"]}"#,
        "refused BadEvent schedule.events[0]\n",
    ),
];

#[test]
fn versions_sessions_and_schedules_with_a_fault_are_refused(rt: HostRuntime) {
    for (members, wanted) in PLANS {
        let refused = is_plan_refused(rt.alloc(), members, wanted);
        assert!(rt; matches!(refused, Ok(true)), "members {members}");
    }
}
