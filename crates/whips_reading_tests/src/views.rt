//! Views: what is read, and each refusal.
use crate::refused::is_refused;
use serde_json::Value;
use std::alloc::Global;
use whips_model::{Cmp, ColRef, Cond, Kind};
use whips_reading::{Code, Member, Path, ReadErr, Text, in_element, in_member, read_document};
use whips_relation_reading::{RelationForm, read_relations};
use whips_texts::{Dict, collect_texts};
use whips_view_reading::{Basis, ViewForm, read_view};

/// The relations of the script, the first at source 0 and the second at source 1.
const RELATIONS: &str =
    r#"[{"name":"R","columns":[["a","number"],["b","text"]],"key":["a"]},{"name":"S","columns":[["c","number"],["b","text"]],"key":["c"]}]"#;

/// A document that has the texts `jam` and `tea`.
const TEXTS: &str = r#"{"views":[{"where":[[0,0,"tea"],[0,0,"jam"]]}]}"#;

/// A view that is refused.
struct Case {
    /// The view.
    text: &'static str,
    /// The code.
    code: Code,
    /// The place.
    place: &'static str,
}

/// The view is the second of the script, after the view `W`.
const REFUSED: &[Case] = &[
    Case {
        text: r#"[]"#,
        code: Code::Shape,
        place: "views[1]",
    },
    Case {
        text: r#"{"name":"V","relations":["R"],"out":["R.a"],"x":1}"#,
        code: Code::Shape,
        place: "views[1]",
    },
    Case {
        text: r#"{"relations":["R"],"out":["R.a"]}"#,
        code: Code::Shape,
        place: "views[1].name",
    },
    Case {
        text: r#"{"name":7,"relations":["R"],"out":["R.a"]}"#,
        code: Code::Shape,
        place: "views[1].name",
    },
    Case {
        text: r#"{"name":"7","relations":["R"],"out":["R.a"]}"#,
        code: Code::Name,
        place: "views[1].name",
    },
    Case {
        text: r#"{"name":"W","relations":[],"out":["R.a"]}"#,
        code: Code::Name,
        place: "views[1].name",
    },
    Case {
        text: r#"{"name":"V","out":["R.a"]}"#,
        code: Code::Shape,
        place: "views[1].relations",
    },
    Case {
        text: r#"{"name":"V","relations":[],"out":["R.a"]}"#,
        code: Code::Shape,
        place: "views[1].relations",
    },
    Case {
        text: r#"{"name":"V","relations":[7,7,7,7,7],"out":["R.a"]}"#,
        code: Code::Limit,
        place: "views[1].relations",
    },
    Case {
        text: r#"{"name":"V","relations":["R",7],"out":["R.a"]}"#,
        code: Code::Shape,
        place: "views[1].relations[1]",
    },
    Case {
        text: r#"{"name":"V","relations":["R","T"],"out":["R.a"]}"#,
        code: Code::Name,
        place: "views[1].relations[1]",
    },
    Case {
        text: r#"{"name":"V","relations":["R","S","R",7],"out":[]}"#,
        code: Code::Name,
        place: "views[1].relations[2]",
    },
    Case {
        text: r#"{"name":"V","relations":["R"],"equal":{},"where":7}"#,
        code: Code::Shape,
        place: "views[1].equal",
    },
    Case {
        text: r#"{"name":"V","relations":["R"],"equal":[7,7,7,7,7,7,7,7,7,7,7,7,7,7,7,7,7]}"#,
        code: Code::Limit,
        place: "views[1].equal",
    },
    Case {
        text: r#"{"name":"V","relations":["R"],"equal":[["R.a"]]}"#,
        code: Code::Shape,
        place: "views[1].equal[0]",
    },
    Case {
        text: r#"{"name":"V","relations":["R"],"equal":[[7,"R.x"]]}"#,
        code: Code::Shape,
        place: "views[1].equal[0][0]",
    },
    Case {
        text: r#"{"name":"V","relations":["R"],"equal":[["R.a","R.a"],["R.b","R.x"]]}"#,
        code: Code::Name,
        place: "views[1].equal[1][1]",
    },
    Case {
        text: r#"{"name":"V","relations":["R"],"equal":[["R.b","S.b"]]}"#,
        code: Code::Name,
        place: "views[1].equal[0][1]",
    },
    Case {
        text: r#"{"name":"V","relations":["R","S"],"equal":[["R.b","S.c"]],"where":7}"#,
        code: Code::Value,
        place: "views[1].equal[0]",
    },
    Case {
        text: r#"{"name":"V","relations":["R"],"where":7}"#,
        code: Code::Shape,
        place: "views[1].where",
    },
    Case {
        text: r#"{"name":"V","relations":["R"],"where":[7,7,7,7,7,7,7,7,7,7,7,7,7,7,7,7,7]}"#,
        code: Code::Limit,
        place: "views[1].where",
    },
    Case {
        text: r#"{"name":"V","relations":["R"],"where":[["R.a","="]]}"#,
        code: Code::Shape,
        place: "views[1].where[0]",
    },
    Case {
        text: r#"{"name":"V","relations":["R"],"where":[["R.x","~",[]]]}"#,
        code: Code::Name,
        place: "views[1].where[0][0]",
    },
    Case {
        text: r#"{"name":"V","relations":["R"],"where":[["R.a","~",[]]]}"#,
        code: Code::Shape,
        place: "views[1].where[0][1]",
    },
    Case {
        text: r#"{"name":"V","relations":["R"],"where":[["R.a",7,1]]}"#,
        code: Code::Shape,
        place: "views[1].where[0][1]",
    },
    Case {
        text: r#"{"name":"V","relations":["R"],"where":[["R.a","=","jam"]]}"#,
        code: Code::Value,
        place: "views[1].where[0][2]",
    },
    Case {
        text: r#"{"name":"V","relations":["R"],"where":[["R.b","=","jam"],["R.b","=",7]]}"#,
        code: Code::Value,
        place: "views[1].where[1][2]",
    },
    Case {
        text: r#"{"name":"V","relations":["R"],"where":[["R.a","=",1000000000000]]}"#,
        code: Code::Value,
        place: "views[1].where[0][2]",
    },
    Case {
        text: r#"{"name":"V","relations":["R"],"where":[["R.a","=",[]]],"out":7}"#,
        code: Code::Value,
        place: "views[1].where[0][2]",
    },
    Case {
        text: r#"{"name":"V","relations":["R"]}"#,
        code: Code::Shape,
        place: "views[1].out",
    },
    Case {
        text: r#"{"name":"V","relations":["R"],"out":[]}"#,
        code: Code::Shape,
        place: "views[1].out",
    },
    Case {
        text: r#"{"name":"V","relations":["R"],"out":[7,7,7,7,7,7,7,7,7,7,7,7,7,7,7,7,7]}"#,
        code: Code::Limit,
        place: "views[1].out",
    },
    Case {
        text: r#"{"name":"V","relations":["R"],"out":["R.b",7]}"#,
        code: Code::Shape,
        place: "views[1].out[1]",
    },
    Case {
        text: r#"{"name":"V","relations":["R"],"out":["R.b","a"]}"#,
        code: Code::Name,
        place: "views[1].out[1]",
    },
    Case {
        text: r#"{"name":"V","relations":["R","S"],"out":["R.a","R.b"],"slots":0}"#,
        code: Code::Key,
        place: "views[1].out",
    },
    Case {
        text: r#"{"name":"V","relations":["R"],"out":["R.a"],"slots":"4"}"#,
        code: Code::Shape,
        place: "views[1].slots",
    },
    Case {
        text: r#"{"name":"V","relations":["R"],"out":["R.a"],"slots":0}"#,
        code: Code::Limit,
        place: "views[1].slots",
    },
    Case {
        text: r#"{"name":"V","relations":["R"],"out":["R.a"],"slots":4097}"#,
        code: Code::Limit,
        place: "views[1].slots",
    },
    Case {
        text: r#"{"name":"V","relations":["R"],"out":["R.a"],"slots":4.0}"#,
        code: Code::Limit,
        place: "views[1].slots",
    },
];

/// The view that the value is, over these relations.
fn view_over(
    alloc: Global,
    relations: &[RelationForm],
    texts: &Dict,
    value: &Value,
) -> Result<ViewForm, ReadErr> {
    if 32 < relations.len() {
        return Err(ReadErr::NoMemory);
    }
    let basis = Basis {
        relations,
        homes: &[0, 1],
        texts,
    };
    let mut taken = Vec::new(alloc);
    taken.push(Text::of(alloc, "W")?)?;
    let views = in_member(&Path::Document, Member::Views);
    read_view(alloc, &basis, &taken, &in_element(&views, 1), value)
}

/// The view that the value is, where these are the relations and the texts of the script.
fn view_in(
    alloc: Global,
    list: &Value,
    document: &Value,
    value: &Value,
) -> Result<ViewForm, ReadErr> {
    let texts = collect_texts(alloc, document)?;
    let mut relations = Vec::new(alloc);
    read_relations(alloc, &texts, &mut relations, &Path::Document, list)?;
    view_over(alloc, &relations, &texts, value)
}

/// The view that the text is.
fn view_of(alloc: Global, text: &str) -> Result<ViewForm, ReadErr> {
    let list = read_document(alloc, RELATIONS.as_bytes())?;
    let document = read_document(alloc, TEXTS.as_bytes())?;
    let value = read_document(alloc, text.as_bytes())?;
    view_in(alloc, &list, &document, &value)
}

/// Whether the view is refused so.
fn is_case(alloc: Global, case: &Case) -> bool {
    match view_of(alloc, case.text) {
        Ok(_) => false,
        Err(error) => is_refused(alloc, &error, case.code, case.place),
    }
}

#[test]
fn refusals_of_views(rt: HostRuntime) {
    for case in REFUSED {
        assert!(rt; is_case(rt.alloc(), case), "{}", case.text);
    }
}

/// Whether it joins `R.b` to `S.b`, where `S.b` is at most `tea` and `R.a` isn't 7.
fn is_join(view: &ViewForm) -> bool {
    let text = Cond {
        at: ColRef { part: 0, col: 1 },
        cmp: Cmp::Le,
        code: 1,
        kind: Kind::Text,
    };
    let number = Cond {
        at: ColRef { part: 1, col: 0 },
        cmp: Cmp::Ne,
        code: 7,
        kind: Kind::Number,
    };
    let join = (ColRef { part: 1, col: 1 }, ColRef { part: 0, col: 1 });
    let keys = [ColRef { part: 0, col: 0 }, ColRef { part: 1, col: 0 }];
    let lists = (view.parts.relations() == [1, 0].as_slice())
        & (view.parts.homes() == [1, 0].as_slice())
        & (view.parts.out() == keys.as_slice());
    lists
        & (view.name.as_str() == "V")
        & (view.slots == 1024)
        & (view.parts.equal() == [join].as_slice())
        & (view.parts.conds() == [text, number].as_slice())
}

#[test]
fn a_view_is_read(rt: HostRuntime) {
    let text =
        r#"{"name":"V","relations":["S","R"],"equal":[["R.b","S.b"]],"where":[["S.b","<=","tea"],["R.a","!=",7]],"out":["S.c","R.a"]}"#;
    assert!(rt;
        match view_of(rt.alloc(), text) {
            Ok(view) => is_join(&view),
            Err(_) => false,
        }
    );
}
