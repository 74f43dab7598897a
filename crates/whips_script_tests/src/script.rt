//! Scripts that are read.
use std::alloc::{AllocError, Global};
use whips_flow::Event;
use whips_rel::{Trans, Update};
use whips_script_reading::{ScriptParts, Text, read_script};
use whips_setup::Plan;

/// A script of one relation with a view of it, around these rows, updates and out columns.
pub(crate) fn script_with(
    alloc: Global,
    rows: &str,
    updates: &str,
    out: &str,
) -> Result<String, AllocError> {
    let mut text = String::from_str(
        alloc,
        r#"{"sources":[{"name":"A","relations":[{"name":"R","columns":[["a","number"],["b","number"]],"key":["a"],"rows":"#,
    )?;
    text.push_str(rows)?;
    text.push_str(r#"}],"updates":"#)?;
    text.push_str(updates)?;
    text.push_str(r#"}],"views":[{"name":"W","relations":["R"],"out":"#)?;
    text.push_str(out)?;
    text.push_str("}]}")?;
    Ok(text)
}

/// Whether the transaction is an insert of the row into relation 0.
fn is_insert(transaction: &Trans, row: &[u64]) -> bool {
    match transaction.items.as_slice() {
        [Update::Insert(0, tuple)] => tuple.codes() == row,
        _ => false,
    }
}

/// Whether the transaction is a delete of the row from relation 0.
fn is_delete(transaction: &Trans, row: &[u64]) -> bool {
    match transaction.items.as_slice() {
        [Update::Delete(0, tuple)] => tuple.codes() == row,
        _ => false,
    }
}

/// Whether the one source deletes a row, whole though its key alone was said, and inserts two.
fn are_three(lists: &[Vec<Trans>]) -> bool {
    match lists {
        [list] => match list.as_slice() {
            [first, second, third] => {
                is_delete(first, &[1, 5]) & is_insert(second, &[3, 7]) & is_insert(third, &[1, 8])
            }
            _ => false,
        },
        _ => false,
    }
}

/// Whether the parts have this many sources and views.
fn have_numbers(parts: &ScriptParts, sources: u32, views: u32) -> bool {
    (parts.setup.sources() == sources)
        & (parts.sources.len() == sources as usize)
        & (parts.setup.views() == views)
        & (parts.views.len() == views as usize)
}

/// Whether the bytes are a script of one source with those transactions and one view.
fn is_read(alloc: Global, bytes: &[u8]) -> bool {
    match read_script(alloc, bytes) {
        Ok(script) => {
            let parts = script.into_parts();
            have_numbers(&parts, 1, 1) & are_three(&parts.work.parts())
        }
        Err(_) => false,
    }
}

fn has_three_transactions(alloc: Global) -> Result<bool, AllocError> {
    let text = script_with(
        alloc,
        "[[2,6],[1,5]]",
        r#"[["delete","R",[1]],["insert","R",[3,7]],["insert","R",[1,8]]]"#,
        r#"["R.b","R.a"]"#,
    )?;
    Ok(is_read(alloc, text.as_bytes()))
}

#[test]
fn a_script_is_read(rt: HostRuntime) {
    assert!(rt; matches!(has_three_transactions(rt.alloc()), Ok(true)));
}

/// Two sources, of which the second has no updates, and two views.
const TWO: &[u8] = br#"{"sources":[
    {"name":"A","relations":[{"name":"R","columns":[["a","number"]],"key":["a"],"rows":[[1]]}],
        "updates":[["insert","R",[2]],["delete","R",[1]]]},
    {"name":"B","relations":[{"name":"S","columns":[["b","number"]],"key":["b"],"rows":[]}],
        "updates":[]}],
    "views":[{"name":"V","relations":["S"],"out":["S.b"]},
        {"name":"W","relations":["R","S"],"out":["R.a","S.b"]}]}"#;

/// Whether these are the two names, in this order.
fn are_named(names: &[Text], first: &str, second: &str) -> bool {
    match names {
        [one, other] => (one.as_str() == first) & (other.as_str() == second),
        _ => false,
    }
}

/// Whether there are two sources, with this many transactions.
fn have_lengths(lists: &[Vec<Trans>], first: usize, second: usize) -> bool {
    match lists {
        [one, other] => (one.len() == first) & (other.len() == second),
        _ => false,
    }
}

/// Whether the bytes are a script whose parts are those of `TWO`.
fn are_both_read(alloc: Global, bytes: &[u8]) -> bool {
    match read_script(alloc, bytes) {
        Ok(script) => {
            let parts = script.into_parts();
            have_numbers(&parts, 2, 2)
                & are_named(&parts.sources, "A", "B")
                & are_named(&parts.views, "V", "W")
                & have_lengths(&parts.work.parts(), 2, 0)
        }
        Err(_) => false,
    }
}

#[test]
fn sources_and_views_keep_their_order(rt: HostRuntime) {
    assert!(rt; are_both_read(rt.alloc(), TWO));
}

/// A script of one source and one view, with these members behind.
pub(crate) fn script_and(alloc: Global, members: &str) -> Result<String, AllocError> {
    let mut text = String::from_str(
        alloc,
        r#"{"sources":[{"name":"A","relations":[{"name":"R","columns":[["a","number"]],"key":["a"]}]}],"views":[{"name":"W","relations":["R"],"out":["R.a"]}],"#,
    )?;
    text.push_str(members)?;
    text.push_str("}")?;
    Ok(text)
}

/// Whether the events are one of each kind, in the order of the script below.
fn are_all_kinds(events: &[Event]) -> bool {
    let wanted = [
        Event::Commit(0),
        Event::Answer(0, 0),
        Event::Integrate(0),
        Event::Manage(0),
        Event::Rel,
        Event::Act(0),
        Event::Begin,
        Event::Change,
        Event::Publish,
        Event::SessionOpen(1),
        Event::SessionScan(0, 0),
        Event::SessionFetch(1, 65_536),
        Event::SessionClose(0),
    ];
    events == wanted.as_slice()
}

/// Whether the plan lists an event of each kind.
fn lists_all_kinds(plan: &Plan) -> bool {
    match plan {
        Plan::Listed(events) => are_all_kinds(events.as_slice()),
        Plan::Picked { .. } => false,
    }
}

/// Whether the bytes are a script of two sessions with an event of each kind.
fn is_planned(alloc: Global, bytes: &[u8]) -> bool {
    match read_script(alloc, bytes) {
        Ok(script) => {
            let parts = script.into_parts();
            are_named(&parts.sessions, "s", "end2") & lists_all_kinds(&parts.plan)
        }
        Err(_) => false,
    }
}

fn has_all_kinds(alloc: Global) -> Result<bool, AllocError> {
    let text = script_and(
        alloc,
        r#""sessions":["s","end2"],"schedule":{"events":["commit A","answer A W","integrate A","manage W","rel","act W","begin","change","publish","open end2","scan s W","fetch end2 65536","close s"]}"#,
    )?;
    Ok(is_planned(alloc, text.as_bytes()))
}

#[test]
fn sessions_and_events_are_read(rt: HostRuntime) {
    assert!(rt; matches!(has_all_kinds(rt.alloc()), Ok(true)));
}
