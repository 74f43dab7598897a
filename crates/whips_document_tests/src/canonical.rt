//! Canonical texts: what is written of a script, and that it is written of it again once it was read.
use std::alloc::Global;
use whips_canonical_scripts::write_script;
use whips_script_reading::read_script;

/// A document, and the canonical text of the script that it is.
struct Case {
    /// The document.
    text: &'static str,
    /// The canonical text.
    canonical: &'static str,
}

const WRITTEN: &[Case] = &[
    // all defaults
    Case {
        text: r#"{"sources":[{"name":"A","relations":[{"name":"R","columns":[["a","number"]],"key":["a"]}]}],"views":[{"name":"V","relations":["R"],"out":["R.a"]}]}"#,
        canonical: r#"{"schedule":{"events":[]},"sessions":[],"sources":[{"name":"A","relations":[{"columns":[["a","number"]],"key":["a"],"name":"R","rows":[]}],"updates":[]}],"views":[{"equal":[],"name":"V","out":["R.a"],"relations":["R"],"slots":1024,"where":[]}]}"#,
    },
    // rows in the order of their keys, texts, transactions of one and of two updates, the former also as a list, and a
    // delete by its key
    Case {
        text: r#"{"sources":[{"name":"A","relations":[{"name":"R","columns":[["n","number"],["t","text"]],"key":["t","n"],"rows":[[7,"pear"],[1,"pear"],[3,"ap\"ple"]]}],"updates":[["delete","R",["pear",1]],["all",[["insert","R",[2,"fig"]]]],["all",[["delete","R",["fig",2]],["insert","R",[9,"fig"]]]]]}],"versions":2,"views":[{"name":"V","relations":["R"],"out":["R.t","R.n"],"slots":5}]}"#,
        canonical: r#"{"schedule":{"events":[]},"sessions":[],"sources":[{"name":"A","relations":[{"columns":[["n","number"],["t","text"]],"key":["t","n"],"name":"R","rows":[[3,"ap\"ple"],[1,"pear"],[7,"pear"]]}],"updates":[["delete","R",["pear",1]],["insert","R",[2,"fig"]],["all",[["delete","R",["fig",2]],["insert","R",[9,"fig"]]]]]}],"views":[{"equal":[],"name":"V","out":["R.t","R.n"],"relations":["R"],"slots":5,"where":[]}]}"#,
    },
    // two sources, versions, sessions, a join with conditions, and events
    Case {
        text: r#"{"views":[{"name":"V","relations":["S","R"],"equal":[["R.b","S.b"]],"where":[["S.t","!=","x"],["R.a","<=",4],["R.b",">",0]],"out":["R.a","S.b","S.b"]},{"name":"W","relations":["R"],"out":["R.a"],"slots":7}],"versions":3,"sources":[{"name":"A","relations":[{"name":"R","columns":[["a","number"],["b","number"]],"key":["a"],"rows":[[1,5]]}],"updates":[["insert","R",[2,5]]]},{"name":"B","relations":[{"name":"S","columns":[["b","number"],["t","text"]],"key":["b"]},{"name":"T","columns":[["c","text"]],"key":["c"]}],"updates":[["insert","T",["z"]],["insert","S",[5,"y"]]]}],"sessions":["s","t"],"schedule":{"events":["commit A","integrate A","answer B V","manage V","rel","act W","begin","change","publish","open s","scan t W","fetch s 65536","close t"]}}"#,
        canonical: r#"{"schedule":{"events":["commit A","integrate A","answer B V","manage V","rel","act W","begin","change","publish","open s","scan t W","fetch s 65536","close t"]},"sessions":["s","t"],"sources":[{"name":"A","relations":[{"columns":[["a","number"],["b","number"]],"key":["a"],"name":"R","rows":[[1,5]]}],"updates":[["insert","R",[2,5]]]},{"name":"B","relations":[{"columns":[["b","number"],["t","text"]],"key":["b"],"name":"S","rows":[]},{"columns":[["c","text"]],"key":["c"],"name":"T","rows":[]}],"updates":[["insert","T",["z"]],["insert","S",[5,"y"]]]}],"versions":3,"views":[{"equal":[["R.b","S.b"]],"name":"V","out":["R.a","S.b","S.b"],"relations":["S","R"],"slots":1024,"where":[["S.t","!=","x"],["R.a","<=",4],["R.b",">",0]]},{"equal":[],"name":"W","out":["R.a"],"relations":["R"],"slots":7,"where":[]}]}"#,
    },
    // a schedule that picks events
    Case {
        text: r#"{"sources":[{"name":"A","relations":[{"name":"R","columns":[["a","number"]],"key":["a"]}]}],"schedule":{"steps":0,"start":4294967295},"views":[{"name":"V","relations":["R"],"out":["R.a"]}]}"#,
        canonical: r#"{"schedule":{"start":4294967295,"steps":0},"sessions":[],"sources":[{"name":"A","relations":[{"columns":[["a","number"]],"key":["a"],"name":"R","rows":[]}],"updates":[]}],"views":[{"equal":[],"name":"V","out":["R.a"],"relations":["R"],"slots":1024,"where":[]}]}"#,
    },
];

/// Whether the bytes are read as a script whose canonical text is this.
fn is_written_as(alloc: Global, bytes: &[u8], canonical: &[u8]) -> bool {
    match read_script(alloc, bytes) {
        Ok(script) => match write_script(alloc, &script) {
            Ok(text) => *text.as_slice() == *canonical,
            Err(_) => false,
        },
        Err(_) => false,
    }
}

#[test]
fn canonical_texts(rt: HostRuntime) {
    for case in WRITTEN {
        let canonical = case.canonical.as_bytes();
        let written = is_written_as(rt.alloc(), case.text.as_bytes(), canonical)
            & is_written_as(rt.alloc(), canonical, canonical);
        assert!(rt; written);
    }
}
