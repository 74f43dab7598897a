//! Whole runs on texts in memory.
use std::alloc::{AllocError, Global};
use whips_fixtures::texts;
use whips_io::{MemSink, MemSource};
use whips_rel::NoMemory;
use whips_run::run;

/// A relation with one row and a view of it.
const ONE_ROW: &[u8] =
    br#"{"sources":[{"name":"A","relations":[{"name":"R","columns":[["a","number"],["b","number"]],"key":["a"],"rows":[[1,5]]}]}],"views":[{"name":"W","relations":["R"],"out":["R.a","R.b"]}]}"#;

/// A source of the text in pieces of up to 100 bytes, whose call of this number fails.
fn input(alloc: Global, text: &[u8], failing: u64) -> Result<MemSource, NoMemory> {
    let fails = Vec::from_slice(alloc, &[failing])?;
    Ok(MemSource::new(Vec::from_slice(alloc, text)?, 100, fails))
}

/// A sink in pieces of up to 10 bytes, whose call of this number fails.
fn output(alloc: Global, failing: u64) -> Result<MemSink, NoMemory> {
    let fails = Vec::from_slice(alloc, &[failing])?;
    match MemSink::new(alloc, 10, fails) {
        Ok(sink) => Ok(sink),
        Err(_) => Err(NoMemory),
    }
}

/// What fails: the read and the write of these numbers, from 1.
#[derive(Clone, Copy)]
pub(crate) struct Failing {
    read: u64,
    write: u64,
}

/// Nothing fails.
pub(crate) const NOTHING: Failing = Failing { read: 0, write: 0 };

/// The status in which the words end on the text, and the sink with what was written.
pub(crate) fn run_on(
    alloc: Global,
    words: &[&str],
    text: &[u8],
    failing: Failing,
) -> Result<(u8, MemSink), NoMemory> {
    let words = texts(alloc, words)?;
    let mut input = input(alloc, text, failing.read)?;
    let mut output = output(alloc, failing.write)?;
    let ended = run(alloc, &words, &mut input, &mut output);
    Ok((ended.status, output))
}

/// Whether the word ends in this status on the text, and has written this.
pub(crate) fn ends_as(
    alloc: Global,
    word: &str,
    text: &[u8],
    failing: Failing,
    wanted: (u8, &[u8]),
) -> Result<bool, NoMemory> {
    let (status, output) = run_on(alloc, &[word], text, failing)?;
    Ok((status == wanted.0) & (output.written() == wanted.1))
}

/// A relation of three rows in the end, and a view of it.
const EDITED: &[u8] =
    br#"{"sources":[{"name":"A","relations":[{"name":"R","columns":[["a","number"],["b","number"]],"key":["a"],"rows":[[2,6],[1,5]]}],"updates":[["delete","R",[1]],["insert","R",[3,7]],["insert","R",[1,8]]]}],"views":[{"name":"W","relations":["R"],"out":["R.b","R.a"]}]}"#;

/// Two sources with a join and slots.
const JOINED: &[u8] =
    br#"{"sources":[{"name":"A","relations":[{"name":"R","columns":[["a","number"],["b","number"]],"key":["a"],"rows":[]}],"updates":[["insert","R",[1,5]]]},{"name":"B","relations":[{"name":"S","columns":[["c","number"],["b","number"]],"key":["c"],"rows":[]}],"updates":[["insert","S",[7,5]]]}],"views":[{"name":"V","relations":["R","S"],"equal":[["R.b","S.b"]],"out":["R.a","S.c","R.b"],"slots":4}],"sessions":[]}"#;

/// A row comes into a view whose two slots are taken, once another has gone.
const REUSED: &[u8] =
    br#"{"sources":[{"name":"A","relations":[{"name":"R","columns":[["a","number"],["b","number"]],"key":["a"],"rows":[[1,5],[2,5]]}],"updates":[["delete","R",[1]],["insert","R",[3,5]]]},{"name":"B","relations":[{"name":"S","columns":[["c","number"],["b","number"]],"key":["c"],"rows":[[7,5]]}],"updates":[]}],"views":[{"name":"V","relations":["R","S"],"equal":[["R.b","S.b"]],"out":["R.a","S.c","R.b"],"slots":2}],"sessions":[]}"#;

/// A third row comes into two views, of which the second has two slots.
const FULL_SECOND: &[u8] =
    br#"{"sources":[{"name":"A","relations":[{"name":"R","columns":[["a","number"],["b","number"]],"key":["a"],"rows":[[1,5],[2,5]]}],"updates":[["insert","R",[3,5]],["delete","R",[1]]]},{"name":"B","relations":[{"name":"S","columns":[["c","number"],["b","number"]],"key":["c"],"rows":[[7,5]]}],"updates":[]}],"views":[{"name":"U","relations":["R"],"out":["R.a","R.b"],"slots":8},{"name":"V","relations":["R","S"],"equal":[["R.b","S.b"]],"out":["R.a","S.c","R.b"],"slots":2}],"sessions":[]}"#;

/// A third row comes into two views, of which both have two slots.
const FULL_BOTH: &[u8] =
    br#"{"sources":[{"name":"A","relations":[{"name":"R","columns":[["a","number"],["b","number"]],"key":["a"],"rows":[[1,5],[2,5]]}],"updates":[["insert","R",[3,5]],["delete","R",[1]]]},{"name":"B","relations":[{"name":"S","columns":[["c","number"],["b","number"]],"key":["c"],"rows":[[7,5]]}],"updates":[]}],"views":[{"name":"U","relations":["R"],"out":["R.a","R.b"],"slots":2},{"name":"V","relations":["R","S"],"equal":[["R.b","S.b"]],"out":["R.a","S.c","R.b"],"slots":2}],"sessions":[]}"#;

/// Scripts, with the status and the report in which their runs end.
const REPORTS: &[(&[u8], u8, &[u8])] = &[
    (
        ONE_ROW,
        0,
        b"version 0 cut A=0 rows W=1\nfinal A=0\nview W rows 1\nrow [1,5]\n",
    ),
    (
        JOINED,
        0,
        b"version 0 cut A=0 B=0 rows V=0\nversion 1 cut A=1 B=0 rows V=0\nversion 2 cut A=1 B=1 rows V=1\nfinal A=1 B=1\nview V rows 1\nrow [1,7,5]\n",
    ),
    (
        EDITED,
        0,
        b"version 0 cut A=0 rows W=2\nversion 1 cut A=1 rows W=1\nversion 2 cut A=2 rows W=2\nversion 3 cut A=3 rows W=3\nfinal A=3\nview W rows 3\nrow [8,1]\nrow [6,2]\nrow [7,3]\n",
    ),
    (
        REUSED,
        0,
        b"version 0 cut A=0 B=0 rows V=2\nversion 1 cut A=1 B=0 rows V=1\nversion 2 cut A=2 B=0 rows V=2\nfinal A=2 B=0\nview V rows 2\nrow [2,7,5]\nrow [3,7,5]\n",
    ),
    (
        FULL_SECOND,
        7,
        b"version 0 cut A=0 B=0 rows U=2 V=2\nfull V need 3 slots 2\n",
    ),
    (
        FULL_BOTH,
        7,
        b"version 0 cut A=0 B=0 rows U=2 V=2\nfull U need 3 slots 2\n",
    ),
];

#[test]
fn reports_are_written(rt: HostRuntime) {
    for (text, status, wanted) in REPORTS {
        let ended = ends_as(rt.alloc(), "run", text, NOTHING, (*status, *wanted));
        assert!(rt; matches!(ended, Ok(true)), "at {text:?}");
    }
}

/// Whether a run on more bytes than are read ends as such.
fn is_too_long(alloc: Global) -> Result<bool, NoMemory> {
    let blanks = vec![in alloc; b' '; 16_777_217]?;
    ends_as(alloc, "run", &blanks, NOTHING, (8, b"too long\n"))
}

const NO_READ: Failing = Failing { read: 2, write: 0 };

const NO_WRITE: Failing = Failing { read: 0, write: 2 };

/// A word, a text, what fails, and the status and the text in which the run ends.
const FAULTS: &[(&str, &[u8], Failing, (u8, &[u8]))] = &[
    ("run", ONE_ROW, NO_READ, (4, b"read fault\n")),
    ("run", ONE_ROW, NO_WRITE, (5, b"version 0 ")),
    (
        "runs",
        ONE_ROW,
        NOTHING,
        (2, b"usage: whips run, check or make START SIZE\n"),
    ),
];

#[test]
fn the_outside_fails(rt: HostRuntime) {
    for (word, text, failing, wanted) in FAULTS {
        let ended = ends_as(rt.alloc(), word, text, *failing, *wanted);
        assert!(rt; matches!(ended, Ok(true)), "status {}", wanted.0);
    }
    assert!(rt; matches!(is_too_long(rt.alloc()), Ok(true)));
}

/// The script of one row with other rows and updates.
fn script_of(alloc: Global, rows: &str, updates: &str) -> Result<String, AllocError> {
    format!(in alloc;
        "{{\"sources\":[{{\"name\":\"A\",\"relations\":[{{\"name\":\"R\",\"columns\":[[\"a\",\"number\"],[\"b\",\"number\"]],\"key\":[\"a\"],\"rows\":{rows}}}],\"updates\":{updates}}}],\"views\":[{{\"name\":\"W\",\"relations\":[\"R\"],\"out\":[\"R.a\",\"R.b\"]}}]}}"
    )
}

/// The status in which a run on the script of one row with these rows and updates ends.
fn status_of(alloc: Global, rows: &str, updates: &str) -> Result<u8, NoMemory> {
    let text = script_of(alloc, rows, updates)?;
    let (status, _output) = run_on(alloc, &["run"], text.as_bytes(), NOTHING)?;
    Ok(status)
}

/// Rows and updates, with the status in which a run on them ends.
const ROWS: &[(&str, &str, u8)] = &[
    ("[[1,5]]", "[]", 0),
    ("[[1,999999999999]]", "[]", 0),
    ("[[1,1000000000000]]", "[]", 3),
    ("[[1,5.0]]", "[]", 3),
    ("[[1,-5]]", "[]", 3),
    ("[[1,5,6]]", "[]", 3),
    ("[[1,5],[1,6]]", "[]", 3),
    ("[[1,5]]", "[[\"insert\",\"R\",[1,6]]]", 3),
    ("[[1,5]]", "[[\"delete\",\"R\",[2]]]", 3),
    (
        "[[1,5]]",
        "[[\"delete\",\"R\",[1]],[\"insert\",\"R\",[1,6]]]",
        0,
    ),
];

#[test]
fn wrong_rows_and_updates_are_refused(rt: HostRuntime) {
    for (rows, updates, wanted) in ROWS {
        let status = status_of(rt.alloc(), rows, updates);
        assert!(rt; status == Ok(*wanted), "rows {rows}, updates {updates}");
    }
}
