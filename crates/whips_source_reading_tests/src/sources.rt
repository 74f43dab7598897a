//! Sources that are read, and sources that are refused.
use std::alloc::{AllocError, Global};
use whips_reading::{Code, Member, Path, ReadErr, in_member, read_document, required};
use whips_rel::{NoMemory, Relation, Trans, Update};
use whips_texts::collect_texts;
use whips_update_reading::{Sources, read_sources};

/// The sources of the document.
fn sources_in(alloc: Global, document: &str) -> Result<Sources, ReadErr> {
    let document = read_document(alloc, document.as_bytes())?;
    let texts = collect_texts(alloc, &document)?;
    let sources = required(alloc, &Path::Document, &document, Member::Sources)?;
    let place = in_member(&Path::Document, Member::Sources);
    read_sources(alloc, &texts, &place, sources)
}

/// A text that is refused by this code at this place.
type Case = (&'static str, Code, &'static str);

/// Whether the document is refused so.
fn is_refused(alloc: Global, document: &str, code: Code, place: &str) -> Result<bool, NoMemory> {
    match sources_in(alloc, document) {
        Err(ReadErr::Refused(refusal)) => {
            let found = refusal.place_text(alloc)?;
            Ok((refusal.code() == code) & (found.as_str() == place))
        }
        _ => Ok(false),
    }
}

/// The text between two others.
fn between(alloc: Global, before: &str, text: &str, after: &str) -> Result<String, AllocError> {
    let mut all = String::from_str(alloc, before)?;
    all.push_str(text)?;
    all.push_str(after)?;
    Ok(all)
}

/// How many of the cases, put between two texts, are refused as they say.
fn count_refused(
    alloc: Global,
    before: &str,
    cases: &[Case],
    after: &str,
) -> Result<usize, NoMemory> {
    let mut count: usize = 0;
    for (text, code, place) in cases {
        let document = between(alloc, before, text, after)?;
        if is_refused(alloc, document.as_str(), *code, place)? {
            count = count.saturating_add(1);
        }
    }
    Ok(count)
}

/// Documents.
const DOCUMENTS: &[Case] = &[
    ("{", Code::Syntax, "document"),
    (r#"{"sources":[1e]}"#, Code::Syntax, "document"),
    (r#"{"views":[]}"#, Code::Shape, "sources"),
    (r#"{"sources":3}"#, Code::Shape, "sources"),
    (r#"{"sources":[]}"#, Code::Shape, "sources"),
    (r#"{"sources":[1,2,3,4,5,6,7,8,9]}"#, Code::Limit, "sources"),
    (r#"{"sources":[3]}"#, Code::Shape, "sources[0]"),
    (
        r#"{"sources":[{"name":"A","relations":[],"rows":[]}]}"#,
        Code::Shape,
        "sources[0]",
    ),
    (
        r#"{"sources":[{"relations":[]}]}"#,
        Code::Shape,
        "sources[0].name",
    ),
    (
        r#"{"sources":[{"name":"A-B"}]}"#,
        Code::Name,
        "sources[0].name",
    ),
    (
        r#"{"sources":[{"name":"A"}]}"#,
        Code::Shape,
        "sources[0].relations",
    ),
    (
        r#"{"sources":[{"name":"A","relations":[]}]}"#,
        Code::Shape,
        "sources[0].relations",
    ),
    (
        r#"{"sources":[{"name":"A","relations":[1,2,3,4,5]}]}"#,
        Code::Limit,
        "sources[0].relations",
    ),
];

/// Relations of the first source.
const RELATIONS: &[Case] = &[
    ("3", Code::Shape, "sources[0].relations[0]"),
    (
        r#"{"name":"R","more":1}"#,
        Code::Shape,
        "sources[0].relations[0]",
    ),
    (
        r#"{"key":["a"]}"#,
        Code::Shape,
        "sources[0].relations[0].name",
    ),
    (r#"{"name":7}"#, Code::Shape, "sources[0].relations[0].name"),
    (r#"{"name":""}"#, Code::Name, "sources[0].relations[0].name"),
    (
        r#"{"name":"1R"}"#,
        Code::Name,
        "sources[0].relations[0].name",
    ),
    (
        r#"{"name":"R23456789012345678901234567890123"}"#,
        Code::Name,
        "sources[0].relations[0].name",
    ),
    (
        r#"{"name":"R"}"#,
        Code::Shape,
        "sources[0].relations[0].columns",
    ),
    (
        r#"{"name":"R","columns":[]}"#,
        Code::Shape,
        "sources[0].relations[0].columns",
    ),
    (
        r#"{"name":"R","columns":[1,2,3,4,5,6,7,8,9]}"#,
        Code::Limit,
        "sources[0].relations[0].columns",
    ),
    (
        r#"{"name":"R","columns":["a"]}"#,
        Code::Shape,
        "sources[0].relations[0].columns[0]",
    ),
    (
        r#"{"name":"R","columns":[["a"]]}"#,
        Code::Shape,
        "sources[0].relations[0].columns[0]",
    ),
    (
        r#"{"name":"R","columns":[[1,"number"]]}"#,
        Code::Shape,
        "sources[0].relations[0].columns[0][0]",
    ),
    (
        r#"{"name":"R","columns":[["_","numbers"]]}"#,
        Code::Name,
        "sources[0].relations[0].columns[0][0]",
    ),
    (
        r#"{"name":"R","columns":[["a","number"],["a","numbers"]]}"#,
        Code::Name,
        "sources[0].relations[0].columns[1][0]",
    ),
    (
        r#"{"name":"R","columns":[["a",1]]}"#,
        Code::Shape,
        "sources[0].relations[0].columns[0][1]",
    ),
    (
        r#"{"name":"R","columns":[["a","numbers"]]}"#,
        Code::Shape,
        "sources[0].relations[0].columns[0][1]",
    ),
    (
        r#"{"name":"R","columns":[["a","number"]]}"#,
        Code::Shape,
        "sources[0].relations[0].key",
    ),
    (
        r#"{"name":"R","columns":[["a","number"]],"key":[]}"#,
        Code::Shape,
        "sources[0].relations[0].key",
    ),
    (
        r#"{"name":"R","columns":[["a","number"]],"key":[1,2,3,4,5,6,7,8,9]}"#,
        Code::Limit,
        "sources[0].relations[0].key",
    ),
    (
        r#"{"name":"R","columns":[["a","number"]],"key":[0]}"#,
        Code::Shape,
        "sources[0].relations[0].key[0]",
    ),
    (
        r#"{"name":"R","columns":[["a","number"]],"key":["b"]}"#,
        Code::Name,
        "sources[0].relations[0].key[0]",
    ),
    (
        r#"{"name":"R","columns":[["a","number"]],"key":["a","a"]}"#,
        Code::Name,
        "sources[0].relations[0].key[1]",
    ),
];

/// What stands before the rows of a relation.
const BEFORE_ROWS: &str =
    r#"{"sources":[{"name":"A","relations":[{"name":"R","columns":[["a","number"],["b","text"]],"key":["a"],"rows":"#;

/// Rows of a relation with a number, which is the key, and a text.
const ROWS: &[Case] = &[
    ("3", Code::Shape, "sources[0].relations[0].rows"),
    ("[3]", Code::Shape, "sources[0].relations[0].rows[0]"),
    ("[[1]]", Code::Shape, "sources[0].relations[0].rows[0]"),
    (
        r#"[[1,"x",2]]"#,
        Code::Shape,
        "sources[0].relations[0].rows[0]",
    ),
    (
        r#"[["x","x"]]"#,
        Code::Value,
        "sources[0].relations[0].rows[0][0]",
    ),
    (
        r#"[[-1,"x"]]"#,
        Code::Value,
        "sources[0].relations[0].rows[0][0]",
    ),
    (
        r#"[[-0,"x"]]"#,
        Code::Value,
        "sources[0].relations[0].rows[0][0]",
    ),
    (
        r#"[[1.5,"x"]]"#,
        Code::Value,
        "sources[0].relations[0].rows[0][0]",
    ),
    (
        r#"[[1e0,"x"]]"#,
        Code::Value,
        "sources[0].relations[0].rows[0][0]",
    ),
    (
        r#"[[1000000000000,"x"]]"#,
        Code::Value,
        "sources[0].relations[0].rows[0][0]",
    ),
    (
        r#"[[1,"x"],[2,2]]"#,
        Code::Value,
        "sources[0].relations[0].rows[1][1]",
    ),
    (
        r#"[[1,"0123456789012345678901234567890123456789012345678901234567890123x"]]"#,
        Code::Value,
        "sources[0].relations[0].rows[0][1]",
    ),
    (
        r#"[[1,"x"],[2,"x"],[1,"y"]]"#,
        Code::Key,
        "sources[0].relations[0].rows[2]",
    ),
    (
        r#"[[1,"x"],[1,2]]"#,
        Code::Value,
        "sources[0].relations[0].rows[1][1]",
    ),
];

/// What stands before the updates of a source.
const BEFORE_UPDATES: &str =
    r#"{"sources":[{"name":"A","relations":[{"name":"R","columns":[["a","number"],["b","text"]],"key":["a"],"rows":[[1,"x"]]}],"updates":"#;

/// What stands behind them: a source whose relation they can't name, and whose name is its fault.
const AFTER_UPDATES: &str =
    r#"},{"name":"A","relations":[{"name":"S","columns":[["a","number"]],"key":["a"]}]}]}"#;

/// Updates of a source whose relation has a row with key 1.
const UPDATES: &[Case] = &[
    ("3", Code::Shape, "sources[0].updates"),
    ("[3]", Code::Shape, "sources[0].updates[0]"),
    ("[[]]", Code::Shape, "sources[0].updates[0]"),
    (r#"[["insert","R"]]"#, Code::Shape, "sources[0].updates[0]"),
    (
        r#"[["insert","R",[2,"x"],0]]"#,
        Code::Shape,
        "sources[0].updates[0]",
    ),
    (
        r#"[[0,"R",[2,"x"]]]"#,
        Code::Shape,
        "sources[0].updates[0][0]",
    ),
    (
        r#"[["replace","R",[2,"x"]]]"#,
        Code::Shape,
        "sources[0].updates[0][0]",
    ),
    (
        r#"[["all","R",[2,"x"]]]"#,
        Code::Shape,
        "sources[0].updates[0][0]",
    ),
    (
        r#"[["insert",0,[2,"x"]]]"#,
        Code::Shape,
        "sources[0].updates[0][1]",
    ),
    (
        r#"[["insert","T",[2,"x"]]]"#,
        Code::Name,
        "sources[0].updates[0][1]",
    ),
    (
        r#"[["insert","S",[2]]]"#,
        Code::Name,
        "sources[0].updates[0][1]",
    ),
    (
        r#"[["insert","R",2]]"#,
        Code::Shape,
        "sources[0].updates[0][2]",
    ),
    (
        r#"[["insert","R",[2]]]"#,
        Code::Shape,
        "sources[0].updates[0][2]",
    ),
    (
        r#"[["insert","R",[2,3]]]"#,
        Code::Value,
        "sources[0].updates[0][2][1]",
    ),
    (
        r#"[["insert","R",[1,3]]]"#,
        Code::Value,
        "sources[0].updates[0][2][1]",
    ),
    (
        r#"[["insert","R",[1,"y"]]]"#,
        Code::Present,
        "sources[0].updates[0]",
    ),
    (
        r#"[["insert","R",[2,"x"]],["insert","R",[2,"y"]]]"#,
        Code::Present,
        "sources[0].updates[1]",
    ),
    (
        r#"[["delete","R",[1,"x"]]]"#,
        Code::Shape,
        "sources[0].updates[0][2]",
    ),
    (
        r#"[["delete","R",["x"]]]"#,
        Code::Value,
        "sources[0].updates[0][2][0]",
    ),
    (
        r#"[["delete","R",[2]]]"#,
        Code::Absent,
        "sources[0].updates[0]",
    ),
    (
        r#"[["delete","R",[1]],["delete","R",[1]]]"#,
        Code::Absent,
        "sources[0].updates[1]",
    ),
    (r#"[["all",3]]"#, Code::Shape, "sources[0].updates[0][1]"),
    (r#"[["all",[]]]"#, Code::Shape, "sources[0].updates[0][1]"),
    (
        r#"[["all",[1,2,3,4,5,6,7,8,9,10,11,12,13,14,15,16,17]]]"#,
        Code::Limit,
        "sources[0].updates[0][1]",
    ),
    (
        r#"[["all",[["all",[]]]]]"#,
        Code::Shape,
        "sources[0].updates[0][1][0]",
    ),
    (
        r#"[["all",[["insert","R",[2,"x"]],["insert","R",[2,"y"]]]]]"#,
        Code::Present,
        "sources[0].updates[0][1][1]",
    ),
    (
        r#"[["all",[["delete","R",[1]],["insert","R",[1,"y"]]]],["delete","R",[2]]]"#,
        Code::Absent,
        "sources[0].updates[1]",
    ),
    ("[]", Code::Name, "sources[1].name"),
];

/// What stands before the second source.
const BEFORE_SECOND: &str =
    r#"{"sources":[{"name":"A","relations":[{"name":"R","columns":[["a","number"]],"key":["a"]}]},"#;

/// Second sources.
const SECOND: &[Case] = &[
    (r#"{"name":"A"}"#, Code::Name, "sources[1].name"),
    (
        r#"{"name":"B","relations":[{"name":"R"}]}"#,
        Code::Name,
        "sources[1].relations[0].name",
    ),
    (
        r#"{"name":"B","relations":[{"name":"S","columns":[["a","number"]],"key":["a"]},{"name":"S"}]}"#,
        Code::Name,
        "sources[1].relations[1].name",
    ),
    (
        r#"{"name":"B","relations":[{"name":"S","columns":[["a","number"]],"key":["a"]}],"updates":[["insert","R",[1]]]}"#,
        Code::Name,
        "sources[1].updates[0][1]",
    ),
];

/// Whether all the cases, put between two texts, are refused as they say.
fn are_refused(alloc: Global, before: &str, cases: &[Case], after: &str) -> bool {
    match count_refused(alloc, before, cases, after) {
        Ok(count) => count == cases.len(),
        Err(_) => false,
    }
}

#[test]
fn documents_are_refused(rt: HostRuntime) {
    assert!(rt; are_refused(rt.alloc(), "", DOCUMENTS, ""));
}

#[test]
fn relations_are_refused(rt: HostRuntime) {
    let before = r#"{"sources":[{"name":"A","relations":["#;
    assert!(rt; are_refused(rt.alloc(), before, RELATIONS, "]}]}"));
}

#[test]
fn rows_are_refused(rt: HostRuntime) {
    assert!(rt; are_refused(rt.alloc(), BEFORE_ROWS, ROWS, "}]}]}"));
}

#[test]
fn updates_are_refused(rt: HostRuntime) {
    assert!(rt; are_refused(rt.alloc(), BEFORE_UPDATES, UPDATES, AFTER_UPDATES));
}

#[test]
fn second_sources_are_refused(rt: HostRuntime) {
    assert!(rt; are_refused(rt.alloc(), BEFORE_SECOND, SECOND, "]}"));
}

/// Two sources. The texts in order are `a`, `b`, `c` and `d`.
const READ: &str = r#"{"sources":[
        {"name":"A","relations":[{"name":"R","columns":[["a","number"],["b","text"]],"key":["a"],"rows":[[2,"d"],[1,"b"]]}],
            "updates":[["insert","R",[7,"c"]],["all",[["delete","R",[2]],["insert","R",[2,"a"]]]]]},
        {"name":"B","relations":[{"name":"S","columns":[["b","text"]],"key":["b"],"rows":[["d"]]}],"updates":[["delete","S",["d"]]]}]}"#;

/// Whether the relation has this first row.
fn begins_with(relation: &Relation, row: &[u64]) -> bool {
    if relation.len() == 0 {
        return false;
    }
    relation.row(0).codes() == row
}

/// Whether the transaction is an insert into relation 0.
fn is_insert(transaction: &Trans, row: &[u64]) -> bool {
    match transaction.items.as_slice() {
        [Update::Insert(0, tuple)] => tuple.codes() == row,
        _ => false,
    }
}

/// Whether the transaction is a delete from relation 1.
fn is_delete(transaction: &Trans, row: &[u64]) -> bool {
    match transaction.items.as_slice() {
        [Update::Delete(1, tuple)] => tuple.codes() == row,
        _ => false,
    }
}

/// Whether the transaction deletes a row from relation 0 and inserts another.
fn is_change(transaction: &Trans, gone: &[u64], come: &[u64]) -> bool {
    match transaction.items.as_slice() {
        [Update::Delete(0, old), Update::Insert(0, new)] => {
            (old.codes() == gone) & (new.codes() == come)
        }
        _ => false,
    }
}

/// Whether the transactions are those of the two sources.
fn are_transactions(lists: &[Vec<Trans>]) -> bool {
    match lists {
        [first, second] => match (first.as_slice(), second.as_slice()) {
            ([insert, change], [delete]) => {
                is_insert(insert, &[7, 2])
                    & is_change(change, &[2, 3], &[2, 0])
                    & is_delete(delete, &[3])
            }
            _ => false,
        },
        _ => false,
    }
}

/// Whether these are the two sources.
fn are_two(sources: &Sources) -> bool {
    let lists = (sources.names.len() == 2) & (sources.homes.as_slice() == [0, 1].as_slice());
    let rows = match sources.relations.as_slice() {
        [r, s] => begins_with(r.relation(), &[1, 1]) & begins_with(s.relation(), &[3]),
        _ => false,
    };
    lists & rows & are_transactions(&sources.transactions)
}

#[test]
fn two_sources_are_read(rt: HostRuntime) {
    assert!(rt;
        match sources_in(rt.alloc(), READ) {
            Ok(sources) => are_two(&sources),
            Err(_) => false,
        }
    );
}
