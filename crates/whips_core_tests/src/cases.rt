//! Scripts, events in an order, and what they are to bring.
use whips_core::CoreStep::{self, Did, Published, Skipped};
use whips_flow::Event::{
    self, Act, Answer, Begin, Change, Commit, Integrate, Manage, Publish, Rel,
};
use whips_store::StoreErr;

/// Events in an order, after which the first one that can be done is done until none is left.
pub struct Case {
    /// What happens.
    pub what: &'static str,
    /// The script.
    pub text: &'static [u8],
    /// The events, with what each is to do.
    pub events: &'static [(Event, CoreStep)],
    /// How the rest ends: with no event left, or with a view that has too few slots.
    pub ended: Result<bool, StoreErr>,
    /// The number of the last version.
    pub version: u64,
    /// Its cut.
    pub cut: &'static [u64],
    /// How many transactions each source has made.
    pub made: &'static [u64],
    /// The codes of the rows of each view at that version.
    pub rows: &'static [&'static [&'static [u64]]],
}

/// The numbers of the sources.
const A: u32 = 0;

const B: u32 = 1;

const C: u32 = 2;

/// The numbers of the views.
const V: u32 = 0;

const W: u32 = 1;

/// Each source inserts a row, and the two rows join.
const RACE: &[u8] =
    br#"{"sources":[{"name":"A","relations":[{"name":"R","columns":[["a","number"],["b","number"]],"key":["a"],"rows":[]}],"updates":[["insert","R",[1,5]]]},{"name":"B","relations":[{"name":"S","columns":[["c","number"],["b","number"]],"key":["c"],"rows":[]}],"updates":[["insert","S",[7,5]]]}],"views":[{"name":"V","relations":["R","S"],"equal":[["R.b","S.b"]],"out":["R.a","S.c","R.b"],"slots":4}]}"#;

/// A row comes at one source, and the row that it joins goes at the other.
const DELETED: &[u8] =
    br#"{"sources":[{"name":"A","relations":[{"name":"R","columns":[["a","number"],["b","number"]],"key":["a"],"rows":[]}],"updates":[["insert","R",[1,5]]]},{"name":"B","relations":[{"name":"S","columns":[["c","number"],["b","number"]],"key":["c"],"rows":[[7,5]]}],"updates":[["delete","S",[7]]]}],"views":[{"name":"V","relations":["R","S"],"equal":[["R.b","S.b"]],"out":["R.a","S.c","R.b"],"slots":4}]}"#;

/// The same with a third source, of which a row joins both.
const THREE: &[u8] =
    br#"{"sources":[{"name":"A","relations":[{"name":"R","columns":[["a","number"],["b","number"]],"key":["a"],"rows":[]}],"updates":[["insert","R",[1,5]]]},{"name":"B","relations":[{"name":"S","columns":[["c","number"],["b","number"]],"key":["c"],"rows":[[7,5]]}],"updates":[["delete","S",[7]]]},{"name":"C","relations":[{"name":"T","columns":[["d","number"],["b","number"]],"key":["d"],"rows":[[9,5]]}],"updates":[]}],"views":[{"name":"V","relations":["R","S","T"],"equal":[["R.b","S.b"],["S.b","T.b"]],"out":["R.a","S.c","T.d","R.b"],"slots":4}]}"#;

/// A key goes with a row that joins nothing, and comes again with one that joins.
const TWO_LIVES: &[u8] =
    br#"{"sources":[{"name":"A","relations":[{"name":"R","columns":[["a","number"],["b","number"]],"key":["a"],"rows":[]}],"updates":[["insert","R",[1,5]]]},{"name":"B","relations":[{"name":"S","columns":[["c","number"],["b","number"]],"key":["c"],"rows":[[7,6]]}],"updates":[["delete","S",[7]],["insert","S",[7,5]]]}],"views":[{"name":"V","relations":["R","S"],"equal":[["R.b","S.b"]],"out":["R.a","S.c","R.b"],"slots":4}]}"#;

/// One source changes a relation of a join and then one of a view of its own.
const ONE_SOURCE: &[u8] =
    br#"{"sources":[{"name":"A","relations":[{"name":"R","columns":[["a","number"],["b","number"]],"key":["a"],"rows":[]},{"name":"P","columns":[["p","number"],["q","number"]],"key":["p"],"rows":[]}],"updates":[["insert","R",[1,5]],["insert","P",[2,8]]]},{"name":"B","relations":[{"name":"S","columns":[["c","number"],["b","number"]],"key":["c"],"rows":[[7,5]]}],"updates":[]}],"views":[{"name":"V1","relations":["R","S"],"equal":[["R.b","S.b"]],"out":["R.a","S.c","R.b"],"slots":4},{"name":"V2","relations":["P"],"out":["P.p","P.q"],"slots":4}]}"#;

/// Another source changes the relation of a view of its own.
const OTHER_SOURCE: &[u8] =
    br#"{"sources":[{"name":"A","relations":[{"name":"R","columns":[["a","number"],["b","number"]],"key":["a"],"rows":[]}],"updates":[["insert","R",[1,5]]]},{"name":"B","relations":[{"name":"S","columns":[["c","number"],["b","number"]],"key":["c"],"rows":[[7,5]]},{"name":"P","columns":[["p","number"],["q","number"]],"key":["p"],"rows":[]}],"updates":[["insert","P",[2,8]]]}],"views":[{"name":"V1","relations":["R","S"],"equal":[["R.b","S.b"]],"out":["R.a","S.c","R.b"],"slots":4},{"name":"V2","relations":["P"],"out":["P.p","P.q"],"slots":4}]}"#;

/// A third row comes into a view of two slots, and then one goes.
const FULL: &[u8] =
    br#"{"sources":[{"name":"A","relations":[{"name":"R","columns":[["a","number"],["b","number"]],"key":["a"],"rows":[[1,5],[2,5]]}],"updates":[["insert","R",[3,5]],["delete","R",[1]]]},{"name":"B","relations":[{"name":"S","columns":[["c","number"],["b","number"]],"key":["c"],"rows":[[7,5]]}],"updates":[]}],"views":[{"name":"V","relations":["R","S"],"equal":[["R.b","S.b"]],"out":["R.a","S.c","R.b"],"slots":2}]}"#;

/// A row goes from a view of two slots, and then a third one comes.
const REUSED: &[u8] =
    br#"{"sources":[{"name":"A","relations":[{"name":"R","columns":[["a","number"],["b","number"]],"key":["a"],"rows":[[1,5],[2,5]]}],"updates":[["delete","R",[1]],["insert","R",[3,5]]]},{"name":"B","relations":[{"name":"S","columns":[["c","number"],["b","number"]],"key":["c"],"rows":[[7,5]]}],"updates":[]}],"views":[{"name":"V","relations":["R","S"],"equal":[["R.b","S.b"]],"out":["R.a","S.c","R.b"],"slots":2}]}"#;

/// Orders of events that are worked by hand.
pub const CASES: &[Case] = &[
    Case {
        what: "two insertions that race",
        text: RACE,
        events: &[
            (Commit(A), Did),
            (Integrate(A), Did),
            (Manage(V), Did),
            (Commit(B), Did),
            (Answer(B, V), Did),
            (Integrate(B), Did),
            (Manage(V), Did),
            (Integrate(B), Did),
            (Manage(V), Did),
        ],
        ended: Ok(true),
        version: 1,
        cut: &[1, 1],
        made: &[1, 1],
        rows: &[&[&[1, 7, 5]]],
    },
    Case {
        what: "an answer before the delete, and lists before their rows",
        text: DELETED,
        events: &[
            (Commit(A), Did),
            (Integrate(A), Did),
            (Manage(V), Did),
            (Answer(B, V), Did),
            (Commit(B), Did),
            (Integrate(B), Did),
            (Manage(V), Did),
            (Integrate(B), Did),
            (Manage(V), Did),
            (Act(V), Did),
            (Act(V), Did),
        ],
        ended: Ok(true),
        version: 2,
        cut: &[1, 1],
        made: &[1, 1],
        rows: &[&[]],
    },
    Case {
        what: "a delete while a later step is open",
        text: THREE,
        events: &[
            (Commit(A), Did),
            (Integrate(A), Did),
            (Manage(V), Did),
            (Answer(B, V), Did),
            (Integrate(B), Did),
            (Manage(V), Did),
            (Commit(B), Did),
            (Integrate(B), Did),
            (Manage(V), Did),
            (Answer(C, V), Did),
            (Integrate(C), Did),
            (Manage(V), Did),
        ],
        ended: Ok(true),
        version: 1,
        cut: &[1, 1, 0],
        made: &[1, 1, 0],
        rows: &[&[]],
    },
    Case {
        what: "a key with two lives",
        text: TWO_LIVES,
        events: &[
            (Commit(A), Did),
            (Integrate(A), Did),
            (Manage(V), Did),
            (Commit(B), Did),
            (Commit(B), Did),
            (Answer(B, V), Did),
            (Integrate(B), Did),
            (Manage(V), Did),
            (Integrate(B), Did),
            (Manage(V), Did),
            (Integrate(B), Did),
            (Manage(V), Did),
        ],
        ended: Ok(true),
        version: 1,
        cut: &[1, 2],
        made: &[1, 2],
        rows: &[&[&[1, 7, 5]]],
    },
    Case {
        what: "a source's second transaction, which waits",
        text: ONE_SOURCE,
        events: &[
            (Commit(A), Did),
            (Commit(A), Did),
            (Integrate(A), Did),
            (Integrate(A), Did),
            (Rel, Did),
            (Rel, Did),
            (Manage(W), Did),
            (Act(W), Did),
            (Begin, Skipped),
        ],
        ended: Ok(true),
        version: 2,
        cut: &[2, 0],
        made: &[2, 0],
        rows: &[&[&[1, 7, 5]], &[&[2, 8]]],
    },
    Case {
        what: "another source's transaction, which overtakes",
        text: OTHER_SOURCE,
        events: &[
            (Commit(A), Did),
            (Commit(B), Did),
            (Integrate(A), Did),
            (Integrate(B), Did),
            (Rel, Did),
            (Rel, Did),
            (Manage(W), Did),
            (Act(W), Did),
            (Begin, Did),
        ],
        ended: Ok(true),
        version: 2,
        cut: &[1, 1],
        made: &[1, 1],
        rows: &[&[&[1, 7, 5]], &[&[2, 8]]],
    },
    Case {
        what: "too few slots",
        text: FULL,
        events: &[
            (Commit(A), Did),
            (Commit(A), Did),
            (Integrate(A), Did),
            (Integrate(A), Did),
            (Manage(V), Did),
            (Manage(V), Did),
        ],
        ended: Err(StoreErr::Full {
            view: 0,
            need: 3,
            have: 2,
        }),
        version: 0,
        cut: &[0, 0],
        made: &[2, 0],
        rows: &[&[&[1, 7, 5], &[2, 7, 5]]],
    },
    Case {
        what: "a slot that is used again",
        text: REUSED,
        events: &[
            (Commit(A), Did),
            (Integrate(A), Did),
            (Rel, Did),
            (Manage(V), Did),
            (Act(V), Did),
            (Begin, Did),
            (Change, Did),
            (Publish, Published),
            (Commit(A), Did),
            (Integrate(A), Did),
            (Rel, Did),
            (Manage(V), Did),
            (Answer(B, V), Did),
            (Integrate(B), Did),
            (Manage(V), Did),
            (Act(V), Did),
            (Begin, Did),
        ],
        ended: Ok(true),
        version: 2,
        cut: &[2, 0],
        made: &[2, 0],
        rows: &[&[&[2, 7, 5], &[3, 7, 5]]],
    },
];
