//! Whole runs on scripts with texts, sessions, schedules, transactions of several updates and more versions, worked by
//! hand.
use crate::run::{NOTHING, ends_as};

/// A script, and how its run ends.
struct Case {
    /// What it shows.
    what: &'static str,
    /// The script.
    text: &'static [u8],
    /// The status.
    status: u8,
    /// All that is written.
    report: &'static [u8],
}

/// Scripts whose events are in an order that shows something.
const CASES: &[Case] = &[
    Case {
        what: "two insertions that race",
        text: br#"{"sources":[
            {"name":"A","relations":[{"name":"R","columns":[["a","number"],["b","number"]],"key":["a"]}],"updates":[["insert","R",[1,5]]]},
            {"name":"B","relations":[{"name":"S","columns":[["c","number"],["b","number"]],"key":["c"]}],"updates":[["insert","S",[7,5]]]}],
            "views":[{"name":"V","relations":["R","S"],"equal":[["R.b","S.b"]],"out":["R.a","S.c","R.b"],"slots":4}],
            "sessions":["s"],
            "schedule":{"events":["commit A","integrate A","manage V","commit B","answer B V","integrate B",
                "manage V","integrate B","manage V"]}}"#,
        status: 0,
        report: br#"version 0 cut A=0 B=0 rows V=0
version 1 cut A=1 B=1 rows V=1
final A=1 B=1
view V rows 1
row [1,7,5]
"#,
    },
    Case {
        what: "an answer before a deletion, and lists before their rows",
        text: br#"{"sources":[
            {"name":"A","relations":[{"name":"R","columns":[["a","number"],["b","number"]],"key":["a"]}],"updates":[["insert","R",[1,5]]]},
            {"name":"B","relations":[{"name":"S","columns":[["c","number"],["b","number"]],"key":["c"],"rows":[[7,5]]}],"updates":[["delete","S",[7]]]}],
            "views":[{"name":"V","relations":["R","S"],"equal":[["R.b","S.b"]],"out":["R.a","S.c","R.b"],"slots":4}],
            "sessions":["s"],
            "schedule":{"events":["commit A","integrate A","manage V","answer B V","commit B","integrate B",
                "manage V","integrate B","manage V","act V","act V"]}}"#,
        status: 0,
        report: br#"version 0 cut A=0 B=0 rows V=0
version 1 cut A=1 B=0 rows V=1
version 2 cut A=1 B=1 rows V=0
final A=1 B=1
view V rows 0
"#,
    },
    Case {
        what: "a deletion while a later step is open",
        text: br#"{"sources":[
            {"name":"A","relations":[{"name":"R","columns":[["a","number"],["b","number"]],"key":["a"]}],"updates":[["insert","R",[1,5]]]},
            {"name":"B","relations":[{"name":"S","columns":[["c","number"],["b","number"]],"key":["c"],"rows":[[7,5]]}],"updates":[["delete","S",[7]]]},
            {"name":"C","relations":[{"name":"T","columns":[["d","number"],["b","number"]],"key":["d"],"rows":[[9,5]]}]}],
            "views":[
                {"name":"V","relations":["R","S","T"],"equal":[["R.b","S.b"],["S.b","T.b"]],"out":["R.a","S.c","T.d","R.b"],"slots":4}],
            "sessions":["s"],
            "schedule":{"events":["commit A","integrate A","manage V","answer B V","integrate B","manage V",
                "commit B","integrate B","manage V","answer C V","integrate C","manage V"]}}"#,
        status: 0,
        report: br#"version 0 cut A=0 B=0 C=0 rows V=0
version 1 cut A=1 B=1 C=0 rows V=0
final A=1 B=1 C=0
view V rows 0
"#,
    },
    Case {
        what: "a key with two lives",
        text: br#"{"sources":[
            {"name":"A","relations":[{"name":"R","columns":[["a","number"],["b","number"]],"key":["a"]}],"updates":[["insert","R",[1,5]]]},
            {"name":"B","relations":[{"name":"S","columns":[["c","number"],["b","number"]],"key":["c"],"rows":[[7,6]]}],"updates":[["delete","S",[7]],["insert","S",[7,5]]]}],
            "views":[{"name":"V","relations":["R","S"],"equal":[["R.b","S.b"]],"out":["R.a","S.c","R.b"],"slots":4}],
            "sessions":["s"],
            "schedule":{"events":["commit A","integrate A","manage V","commit B","commit B","answer B V",
                "integrate B","manage V","integrate B","manage V","integrate B","manage V"]}}"#,
        status: 0,
        report: br#"version 0 cut A=0 B=0 rows V=0
version 1 cut A=1 B=2 rows V=1
final A=1 B=2
view V rows 1
row [1,7,5]
"#,
    },
    Case {
        what: "a second update of one source, which waits for the first",
        text: br#"{"sources":[
            {"name":"A","relations":[{"name":"R","columns":[["a","number"],["b","number"]],"key":["a"]},{"name":"P","columns":[["p","number"],["q","number"]],"key":["p"]}],"updates":[["insert","R",[1,5]],["insert","P",[2,8]]]},
            {"name":"B","relations":[{"name":"S","columns":[["c","number"],["b","number"]],"key":["c"],"rows":[[7,5]]}]}],
            "views":[
                {"name":"V1","relations":["R","S"],"equal":[["R.b","S.b"]],"out":["R.a","S.c","R.b"],"slots":4},
                {"name":"V2","relations":["P"],"out":["P.p","P.q"],"slots":4}],
            "sessions":["s"],
            "schedule":{"events":["commit A","commit A","integrate A","integrate A","rel","rel","manage V2",
                "act V2","begin"]}}"#,
        status: 0,
        report: br#"version 0 cut A=0 B=0 rows V1=0 V2=0
skip 9 begin
version 1 cut A=1 B=0 rows V1=1 V2=0
version 2 cut A=2 B=0 rows V1=1 V2=1
final A=2 B=0
view V1 rows 1
row [1,7,5]
view V2 rows 1
row [2,8]
"#,
    },
    Case {
        what: "an update of another source, which overtakes",
        text: br#"{"sources":[
            {"name":"A","relations":[{"name":"R","columns":[["a","number"],["b","number"]],"key":["a"]}],"updates":[["insert","R",[1,5]]]},
            {"name":"B","relations":[{"name":"S","columns":[["c","number"],["b","number"]],"key":["c"],"rows":[[7,5]]},{"name":"P","columns":[["p","number"],["q","number"]],"key":["p"]}],"updates":[["insert","P",[2,8]]]}],
            "views":[
                {"name":"V1","relations":["R","S"],"equal":[["R.b","S.b"]],"out":["R.a","S.c","R.b"],"slots":4},
                {"name":"V2","relations":["P"],"out":["P.p","P.q"],"slots":4}],
            "sessions":["s"],
            "schedule":{"events":["commit A","commit B","integrate A","integrate B","rel","rel","manage V2",
                "act V2","begin"]}}"#,
        status: 0,
        report: br#"version 0 cut A=0 B=0 rows V1=0 V2=0
version 1 cut A=0 B=1 rows V1=0 V2=1
version 2 cut A=1 B=1 rows V1=1 V2=1
final A=1 B=1
view V1 rows 1
row [1,7,5]
view V2 rows 1
row [2,8]
"#,
    },
    Case {
        what: "an update that concerns no view",
        text: br#"{"sources":[
            {"name":"A","relations":[{"name":"R","columns":[["a","number"],["b","number"]],"key":["a"]}],"updates":[["insert","R",[1,50]]]},
            {"name":"B","relations":[{"name":"S","columns":[["c","number"],["b","number"]],"key":["c"]}]}],
            "views":[
                {"name":"V","relations":["R","S"],"equal":[["R.b","S.b"]],"where":[["R.b","<",10]],"out":["R.a","S.c","R.b"],"slots":4}],
            "sessions":["s"]}"#,
        status: 0,
        report: br#"version 0 cut A=0 B=0 rows V=0
final A=1 B=0
view V rows 0
"#,
    },
    Case {
        what: "a session that reads its version across a publish, and expires at the next change",
        text: br#"{"sources":[
            {"name":"A","relations":[{"name":"R","columns":[["a","number"],["b","number"]],"key":["a"],"rows":[[1,5],[2,5]]}]},
            {"name":"B","relations":[{"name":"S","columns":[["c","number"],["b","number"]],"key":["c"]}],"updates":[["insert","S",[7,5]],["insert","S",[8,5]],["delete","S",[7]]]}],
            "views":[{"name":"V","relations":["R","S"],"equal":[["R.b","S.b"]],"out":["R.a","S.c","R.b"],"slots":8}],
            "sessions":["s"],
            "schedule":{"events":["commit B","integrate B","rel","manage V","answer A V","integrate A","manage V",
                "act V","begin","change","change","publish","open s","commit B","integrate B","rel","manage V",
                "answer A V","integrate A","manage V","act V","begin","change","scan s V","fetch s 8","change",
                "publish","scan s V","fetch s 8","commit B","integrate B","rel","manage V","act V","begin",
                "scan s V","fetch s 8"]}}"#,
        status: 0,
        report: br#"version 0 cut A=0 B=0 rows V=0
version 1 cut A=0 B=1 rows V=2
open s version 1 phase 2
read s V version 1 phase 3 rows 2
row [1,7,5]
row [2,7,5]
version 2 cut A=0 B=2 rows V=4
read s V version 1 phase 4 rows 2
row [1,7,5]
row [2,7,5]
expired s V version 1 phase 5
version 3 cut A=0 B=3 rows V=2
final A=0 B=3
view V rows 2
row [1,8,5]
row [2,8,5]
"#,
    },
    Case {
        what: "a session that is opened amid a transaction, and reads in pieces what was before it",
        text: br#"{"sources":[
            {"name":"A","relations":[{"name":"R","columns":[["a","number"],["b","number"]],"key":["a"],"rows":[[1,5],[2,5]]}]},
            {"name":"B","relations":[{"name":"S","columns":[["c","number"],["b","number"]],"key":["c"]}],"updates":[["insert","S",[7,5]],["insert","S",[8,5]],["delete","S",[7]]]}],
            "views":[{"name":"V","relations":["R","S"],"equal":[["R.b","S.b"]],"out":["R.a","S.c","R.b"],"slots":8}],
            "sessions":["s"],
            "schedule":{"events":["commit B","integrate B","rel","manage V","answer A V","integrate A","manage V",
                "act V","begin","open s","change","change","publish","scan s V","fetch s 3","fetch s 5"]}}"#,
        status: 0,
        report: br#"version 0 cut A=0 B=0 rows V=0
open s version 0 phase 1
version 1 cut A=0 B=1 rows V=2
more s V version 0 phase 2 slots 3
read s V version 0 phase 2 rows 0
version 2 cut A=0 B=2 rows V=4
version 3 cut A=0 B=3 rows V=2
final A=0 B=3
view V rows 2
row [1,8,5]
row [2,8,5]
"#,
    },
    Case {
        what: "a view with too few slots, which ends the run",
        text: br#"{"sources":[
            {"name":"A","relations":[{"name":"R","columns":[["a","number"],["b","number"]],"key":["a"],"rows":[[1,5],[2,5]]}],"updates":[["insert","R",[3,5]],["delete","R",[1]]]},
            {"name":"B","relations":[{"name":"S","columns":[["c","number"],["b","number"]],"key":["c"],"rows":[[7,5]]}]}],
            "views":[{"name":"V","relations":["R","S"],"equal":[["R.b","S.b"]],"out":["R.a","S.c","R.b"],"slots":2}],
            "sessions":["s"],
            "schedule":{"events":["commit A","commit A","integrate A","integrate A","manage V","manage V"]}}"#,
        status: 7,
        report: br#"version 0 cut A=0 B=0 rows V=2
full V need 3 slots 2
"#,
    },
    Case {
        what: "a slot that is used again, of a row that a session can't read any more",
        text: br#"{"sources":[
            {"name":"A","relations":[{"name":"R","columns":[["a","number"],["b","number"]],"key":["a"],"rows":[[1,5],[2,5]]}],"updates":[["delete","R",[1]],["insert","R",[3,5]]]},
            {"name":"B","relations":[{"name":"S","columns":[["c","number"],["b","number"]],"key":["c"],"rows":[[7,5]]}]}],
            "views":[{"name":"V","relations":["R","S"],"equal":[["R.b","S.b"]],"out":["R.a","S.c","R.b"],"slots":2}],
            "sessions":["s"],
            "schedule":{"events":["open s","commit A","integrate A","rel","manage V","act V","begin","change",
                "publish","commit A","integrate A","rel","manage V","answer B V","integrate B","manage V","act V",
                "begin","scan s V","fetch s 2"]}}"#,
        status: 0,
        report: br#"version 0 cut A=0 B=0 rows V=2
open s version 0 phase 0
version 1 cut A=1 B=0 rows V=1
expired s V version 0 phase 3
version 2 cut A=2 B=0 rows V=2
final A=2 B=0
view V rows 2
row [2,7,5]
row [3,7,5]
"#,
    },
    Case {
        what: "events that can't be done in their turn",
        text: br#"{"sources":[
            {"name":"A","relations":[{"name":"R","columns":[["a","number"],["b","number"]],"key":["a"]}]},
            {"name":"B","relations":[{"name":"S","columns":[["c","number"],["b","number"]],"key":["c"]}]}],
            "views":[{"name":"V","relations":["R","S"],"equal":[["R.b","S.b"]],"out":["R.a","S.c","R.b"],"slots":4}],
            "sessions":["s"],
            "schedule":{"events":["manage V","open s","open s","fetch s 4"]}}"#,
        status: 0,
        report: br#"version 0 cut A=0 B=0 rows V=0
skip 1 manage V
open s version 0 phase 0
skip 3 open s
skip 4 fetch s 4
final A=0 B=0
view V rows 0
"#,
    },
    Case {
        what: "a scan that is begun again, and what can't be done once it has ended",
        text: br#"{"sources":[
            {"name":"A","relations":[{"name":"R","columns":[["a","number"],["b","number"]],"key":["a"],"rows":[[1,5],[2,5]]}]},
            {"name":"B","relations":[{"name":"S","columns":[["c","number"],["b","number"]],"key":["c"]}],"updates":[["insert","S",[7,5]],["insert","S",[8,5]],["delete","S",[7]]]}],
            "views":[{"name":"V","relations":["R","S"],"equal":[["R.b","S.b"]],"out":["R.a","S.c","R.b"],"slots":8}],
            "sessions":["s"],
            "schedule":{"events":["open s","scan s V","fetch s 3","scan s V","fetch s 8","fetch s 1","close s",
                "close s"]}}"#,
        status: 0,
        report: br#"version 0 cut A=0 B=0 rows V=0
open s version 0 phase 0
more s V version 0 phase 0 slots 3
read s V version 0 phase 0 rows 0
skip 6 fetch s 1
skip 8 close s
version 1 cut A=0 B=1 rows V=2
version 2 cut A=0 B=2 rows V=4
version 3 cut A=0 B=3 rows V=2
final A=0 B=3
view V rows 2
row [1,8,5]
row [2,8,5]
"#,
    },
    Case {
        what: "two sessions that read two views, each at its own cut, one of them across a publish",
        text: br#"{"sources":[
            {"name":"A","relations":[{"name":"R","columns":[["a","number"],["b","number"]],"key":["a"],"rows":[[1,5]]}],"updates":[["insert","R",[2,6]],["delete","R",[1]]]}],
            "views":[{"name":"W","relations":["R"],"out":["R.a","R.b"],"slots":4},
                {"name":"X","relations":["R"],"where":[["R.b",">=",6]],"out":["R.a","R.b"],"slots":4}],
            "sessions":["s","t"],
            "schedule":{"events":["open s","commit A","integrate A","rel","manage W","manage X","act W","act X",
                "begin","change","scan s W","fetch s 2","open t","change","publish","fetch s 2","scan s X",
                "fetch s 4","close t","open t","scan t X","fetch t 4","scan t W","fetch t 4"]}}"#,
        status: 0,
        report: br#"version 0 cut A=0 rows W=1 X=0
open s version 0 phase 0
more s W version 0 phase 1 slots 2
open t version 0 phase 1
version 1 cut A=1 rows W=2 X=1
read s W version 0 phase 2 rows 1
row [1,5]
read s X version 0 phase 2 rows 0
open t version 1 phase 2
read t X version 1 phase 2 rows 1
row [2,6]
read t W version 1 phase 2 rows 2
row [1,5]
row [2,6]
version 2 cut A=2 rows W=1 X=1
final A=2
view W rows 1
row [2,6]
view X rows 1
row [2,6]
"#,
    },
    Case {
        what: "a scan that is dropped where its session is closed",
        text: br#"{"sources":[
            {"name":"A","relations":[{"name":"R","columns":[["a","number"],["b","number"]],"key":["a"],"rows":[[1,5]]}]}],
            "views":[{"name":"W","relations":["R"],"out":["R.a","R.b"],"slots":4}],
            "sessions":["s"],
            "schedule":{"events":["open s","scan s W","fetch s 1","close s","fetch s 1","scan s W","open s",
                "fetch s 1","scan s W","fetch s 65536"]}}"#,
        status: 0,
        report: br#"version 0 cut A=0 rows W=1
open s version 0 phase 0
more s W version 0 phase 0 slots 1
skip 5 fetch s 1
skip 6 scan s W
open s version 0 phase 0
skip 8 fetch s 1
read s W version 0 phase 0 rows 1
row [1,5]
final A=0
view W rows 1
row [1,5]
"#,
    },
    Case {
        what: "events of all kinds but one, each of which is skipped",
        text: br#"{"sources":[
            {"name":"A","relations":[{"name":"R","columns":[["a","number"],["b","number"]],"key":["a"],"rows":[[1,5]]}]}],
            "views":[{"name":"W","relations":["R"],"out":["R.a","R.b"],"slots":4}],
            "sessions":["s"],
            "schedule":{"events":["commit A","answer A W","integrate A","manage W","rel","act W","begin","change",
                "publish","scan s W","fetch s 65536","close s"]}}"#,
        status: 0,
        report: br#"version 0 cut A=0 rows W=1
skip 1 commit A
skip 2 answer A W
skip 3 integrate A
skip 4 manage W
skip 5 rel
skip 6 act W
skip 7 begin
skip 8 change
skip 9 publish
skip 10 scan s W
skip 11 fetch s 65536
skip 12 close s
final A=0
view W rows 1
row [1,5]
"#,
    },
    Case {
        what: "a listed event for which a view has too few slots, after which nothing is done",
        text: br#"{"sources":[
            {"name":"A","relations":[{"name":"R","columns":[["a","number"],["b","number"]],"key":["a"],"rows":[[1,5],[2,5]]}],"updates":[["insert","R",[3,5]]]}],
            "views":[{"name":"W","relations":["R"],"out":["R.a","R.b"],"slots":2}],
            "sessions":["s"],
            "schedule":{"events":["open s","commit A","integrate A","rel","manage W","act W","begin","open s"]}}"#,
        status: 7,
        report: br#"version 0 cut A=0 rows W=2
open s version 0 phase 0
full W need 3 slots 2
"#,
    },
    Case {
        what: "a transaction that changes a row's join",
        text: br#"{"sources":[
            {"name":"A","relations":[{"name":"R","columns":[["a","number"],["b","number"]],"key":["a"],"rows":[[1,6]]}],"updates":[["all",[["delete","R",[1]],["insert","R",[1,5]]]]]},
            {"name":"B","relations":[{"name":"S","columns":[["c","number"],["b","number"]],"key":["c"],"rows":[[7,5]]}]}],
            "views":[{"name":"V","relations":["R","S"],"equal":[["R.b","S.b"]],"out":["R.a","S.c","R.b"],"slots":4}],
            "sessions":["s"]}"#,
        status: 0,
        report: br#"version 0 cut A=0 B=0 rows V=0
version 1 cut A=1 B=0 rows V=1
final A=1 B=0
view V rows 1
row [1,7,5]
"#,
    },
    Case {
        what: "a transaction of two updates that comes while a query is open",
        text: br#"{"sources":[
            {"name":"A","relations":[{"name":"R","columns":[["a","number"],["b","number"]],"key":["a"]}],"updates":[["insert","R",[1,5]]]},
            {"name":"B","relations":[{"name":"S","columns":[["c","number"],["b","number"]],"key":["c"],"rows":[[7,5]]}],"updates":[["all",[["delete","S",[7]],["insert","S",[8,5]]]]]}],
            "views":[{"name":"V","relations":["R","S"],"equal":[["R.b","S.b"]],"out":["R.a","S.c","R.b"],"slots":4}],
            "sessions":["s"],
            "schedule":{"events":["commit A","integrate A","manage V","commit B","answer B V","integrate B",
                "manage V","integrate B","manage V"]}}"#,
        status: 0,
        report: br#"version 0 cut A=0 B=0 rows V=0
version 1 cut A=1 B=1 rows V=1
final A=1 B=1
view V rows 1
row [1,8,5]
"#,
    },
    Case {
        what: "a slot that three versions keep from being used again",
        text: br#"{"versions":3,"sources":[
            {"name":"A","relations":[{"name":"R","columns":[["a","number"],["b","number"]],"key":["a"],"rows":[[1,5],[2,5]]}],"updates":[["delete","R",[1]],["insert","R",[3,5]]]},
            {"name":"B","relations":[{"name":"S","columns":[["c","number"],["b","number"]],"key":["c"],"rows":[[7,5]]}]}],
            "views":[{"name":"V","relations":["R","S"],"equal":[["R.b","S.b"]],"out":["R.a","S.c","R.b"],"slots":2}],
            "sessions":["s"],
            "schedule":{"events":["open s","commit A","integrate A","rel","manage V","act V","begin","change",
                "publish","commit A","integrate A","rel","manage V","answer B V","integrate B","manage V","act V",
                "begin","scan s V","fetch s 2"]}}"#,
        status: 7,
        report: br#"version 0 cut A=0 B=0 rows V=2
open s version 0 phase 0
version 1 cut A=1 B=0 rows V=1
full V need 3 slots 2
"#,
    },
    Case {
        what: "a session that reads the second version before the one in work",
        text: br#"{"versions":3,"sources":[
            {"name":"A","relations":[{"name":"R","columns":[["a","number"],["b","number"]],"key":["a"],"rows":[[1,5],[2,5]]}],"updates":[["delete","R",[1]],["insert","R",[3,5]]]},
            {"name":"B","relations":[{"name":"S","columns":[["c","number"],["b","number"]],"key":["c"],"rows":[[7,5]]}]}],
            "views":[{"name":"V","relations":["R","S"],"equal":[["R.b","S.b"]],"out":["R.a","S.c","R.b"],"slots":3}],
            "sessions":["s"],
            "schedule":{"events":["open s","commit A","integrate A","rel","manage V","act V","begin","change",
                "publish","commit A","integrate A","rel","manage V","answer B V","integrate B","manage V","act V",
                "begin","scan s V","fetch s 3"]}}"#,
        status: 0,
        report: br#"version 0 cut A=0 B=0 rows V=2
open s version 0 phase 0
version 1 cut A=1 B=0 rows V=1
read s V version 0 phase 3 rows 2
row [1,7,5]
row [2,7,5]
version 2 cut A=2 B=0 rows V=2
final A=2 B=0
view V rows 2
row [2,7,5]
row [3,7,5]
"#,
    },
    Case {
        what: "a shop with texts in its keys, rows and joins",
        text: br#"{"sources":[
            {"name":"sales","relations":[
                {"name":"customers","columns":[["id","number"],["name","text"]],"key":["id"],"rows":[[1,"Ada"],[2,"Ben"]]},
                {"name":"orders","columns":[["no","number"],["cust","number"],["item","text"],["qty","number"]],"key":["no"],
                    "rows":[[10,1,"tea",3],[11,2,"jam",1]]}],
                "updates":[["insert","orders",[12,1,"jam",6]],["delete","orders",[11]]]},
            {"name":"stock","relations":[
                {"name":"items","columns":[["item","text"],["bin","number"]],"key":["item"],"rows":[["jam",4],["tea",2]]},
                {"name":"prices","columns":[["item","text"],["cents","number"]],"key":["item"],"rows":[["jam",350],["tea",420]]}],
                "updates":[["delete","items",["tea"]],["insert","items",["tea",9]]]}],
            "views":[
                {"name":"ship","relations":["orders","items"],"equal":[["orders.item","items.item"]],
                    "out":["orders.no","items.item","items.bin","orders.qty"]},
                {"name":"bill","relations":["customers","orders","prices"],
                    "equal":[["customers.id","orders.cust"],["orders.item","prices.item"]],
                    "out":["customers.id","customers.name","orders.no","prices.item","prices.cents","orders.qty"]},
                {"name":"bulk","relations":["orders"],"where":[["orders.qty",">=",3]],
                    "out":["orders.no","orders.item","orders.qty"]}]}"#,
        status: 0,
        report: br#"version 0 cut sales=0 stock=0 rows ship=2 bill=2 bulk=1
version 1 cut sales=1 stock=0 rows ship=3 bill=3 bulk=2
version 2 cut sales=2 stock=0 rows ship=2 bill=2 bulk=2
version 3 cut sales=2 stock=1 rows ship=1 bill=2 bulk=2
version 4 cut sales=2 stock=2 rows ship=2 bill=2 bulk=2
final sales=2 stock=2
view ship rows 2
row [10,"tea",9,3]
row [12,"jam",4,6]
view bill rows 2
row [1,"Ada",10,"tea",420,3]
row [1,"Ada",12,"jam",350,6]
view bulk rows 2
row [10,"tea",3]
row [12,"jam",6]
"#,
    },
    Case {
        what: "texts that are printed as JSON strings, in the order of their bytes",
        text: br#"{"sources":[
            {"name":"A","relations":[{"name":"R","columns":[["b","text"],["n","number"]],"key":["b"],
                "rows":[["tea",1],["\u00e9",2],["say \"hi\"\n",3]]}],
                "updates":[["insert","R",["Zoe",4]],["delete","R",["\u00e9"]]]}],
            "views":[{"name":"V","relations":["R"],"where":[["R.b","!=","tea"]],"out":["R.n","R.b"],"slots":8}],
            "sessions":["s"],
            "schedule":{"events":["commit A","open s","scan s V","fetch s 8"]}}"#,
        status: 0,
        report: b"version 0 cut A=0 rows V=2
open s version 0 phase 0
read s V version 0 phase 0 rows 2
row [3,\"say \\\"hi\\\"\\n\"]
row [2,\"\xc3\xa9\"]
version 1 cut A=1 rows V=3
version 2 cut A=2 rows V=2
final A=2
view V rows 2
row [4,\"Zoe\"]
row [3,\"say \\\"hi\\\"\\n\"]
",
    },
];

#[test]
fn schedules_are_run(rt: HostRuntime) {
    for case in CASES {
        let wanted = (case.status, case.report);
        let ended = ends_as(rt.alloc(), "run", case.text, NOTHING, wanted);
        assert!(rt; matches!(ended, Ok(true)), "{}", case.what);
    }
}
