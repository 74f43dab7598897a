//! Scripts that are checked: their canonical texts, and their refusals.
use crate::run::{NOTHING, ends_as};
use std::alloc::Global;
use whips_rel::NoMemory;

/// A script whose members are in another order than the canonical one, and of which some are left out.
const PLAIN: &[u8] =
    br#"{"views":[{"name":"W","relations":["R"],"out":["R.a","R.b"]}],"sources":[{"name":"A","relations":[{"name":"R","columns":[["a","number"],["b","number"]],"key":["a"],"rows":[[1,5]]}]}]}"#;

/// A script with texts, rows in another order than that of their keys, a transaction of one update and one of two, versions,
/// sessions and events, and blanks.
const WHOLE: &[u8] =
    br#"{ "versions": 3, "sessions": ["s"], "sources": [{"name":"A","relations":[{"name":"R","columns":[["a","text"],["b","number"]],"key":["a"],"rows":[["\u00e9",2],["b",1]]}],"updates":[["all",[["insert","R",["c",3]]]],["all",[["delete","R",["b"]],["insert","R",["b",4]]]]]}],"views":[{"name":"W","relations":["R"],"where":[["R.b","<",9]],"out":["R.b","R.a"],"slots":8}],"schedule":{"events":["open s","commit A","scan s W","fetch s 2","close s"]}}"#;

/// Texts, with their canonical texts.
const CHECKED: &[(&[u8], &[u8])] = &[
    (
        PLAIN,
        b"{\"schedule\":{\"events\":[]},\"sessions\":[],\"sources\":[{\"name\":\"A\",\"relations\":[{\"columns\":[[\"a\",\"number\"],[\"b\",\"number\"]],\"key\":[\"a\"],\"name\":\"R\",\"rows\":[[1,5]]}],\"updates\":[]}],\"views\":[{\"equal\":[],\"name\":\"W\",\"out\":[\"R.a\",\"R.b\"],\"relations\":[\"R\"],\"slots\":1024,\"where\":[]}]}\n",
    ),
    (
        WHOLE,
        b"{\"schedule\":{\"events\":[\"open s\",\"commit A\",\"scan s W\",\"fetch s 2\",\"close s\"]},\"sessions\":[\"s\"],\"sources\":[{\"name\":\"A\",\"relations\":[{\"columns\":[[\"a\",\"text\"],[\"b\",\"number\"]],\"key\":[\"a\"],\"name\":\"R\",\"rows\":[[\"b\",1],[\"\xc3\xa9\",2]]}],\"updates\":[[\"insert\",\"R\",[\"c\",3]],[\"all\",[[\"delete\",\"R\",[\"b\"]],[\"insert\",\"R\",[\"b\",4]]]]]}],\"versions\":3,\"views\":[{\"equal\":[],\"name\":\"W\",\"out\":[\"R.b\",\"R.a\"],\"relations\":[\"R\"],\"slots\":8,\"where\":[[\"R.b\",\"<\",9]]}]}\n",
    ),
];

/// Whether the text is checked as this one, and the checked text as itself.
fn is_checked_as(alloc: Global, text: &[u8], wanted: &[u8]) -> Result<bool, NoMemory> {
    let once = ends_as(alloc, "check", text, NOTHING, (0, wanted))?;
    let again = ends_as(alloc, "check", wanted, NOTHING, (0, wanted))?;
    Ok(once & again)
}

#[test]
fn the_canonical_text_of_a_script_is_written(rt: HostRuntime) {
    for (text, wanted) in CHECKED {
        let checked = is_checked_as(rt.alloc(), text, wanted);
        assert!(rt; matches!(checked, Ok(true)), "at {text:?}");
    }
}

/// What is refused where a first part of a script is checked.
const NO_DOCUMENT: (u8, &[u8]) = (3, b"refused Syntax document\n");

#[test]
fn each_first_part_of_a_checked_script_is_refused(rt: HostRuntime) {
    for end in 0..PLAIN.len() {
        let refused = ends_as(rt.alloc(), "check", &PLAIN[..end], NOTHING, NO_DOCUMENT);
        assert!(rt; matches!(refused, Ok(true)), "at {end}");
    }
}
