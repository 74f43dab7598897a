//! A session that reads a view in two fetches, between which a version is committed.
ghost use Rattle.std.specs.Prelude.{◌≡◌, ◌<◌, ◌≤◌, ◌%◌, length, [], IfOk};
ghost use Rattle.whips_store.specs.Stores.{view_in, changes_left};
ghost use Rattle.whips_session_laws.specs.Readers.{IsReader};

use crate::start::store;
use crate::transactions::{begin, change_all};
use std::alloc::Global;
use whips_plain::Plain;
use whips_rel::NoMemory;
use whips_row_buf::RowBuf;
use whips_session::{Fetched, Session};
use whips_session_laws::{fetch_from, start_from};
use whips_setup::SetupErr;
use whips_store::Store;

/// An empty buffer for the first view.
fn buffer<S: Store>(alloc: Global, store: &S) -> Result<RowBuf, NoMemory>
    requires { 0 < length (S.state store.now).views }
    ensures columns { IfOk result (λ b. b.columns ≡ (view_in (S.state store.now) 0).columns) }
    ensures room { IfOk result (λ b. b.room ≡ length (view_in (S.state store.now) 0).records) }
{
    let slots = store.slots(0);
    RowBuf::make(alloc, store.current(0).schema(), slots)
}

/// Begins a scan of the first view.
fn scan_first<S: Store>(session: &mut Session, store: &S, buf: &mut RowBuf)
    requires view { 0 < length (S.state store.now).views }
    requires reader { IsReader (S.state store.now) session.old buf.old }
    requires columns { buf.old.columns ≡ (view_in (S.state store.now) 0).columns }
    requires room { length (view_in (S.state store.now) 0).records ≤ buf.old.room }
    ensures { IsReader (S.state store.now) session.new buf.new }
{
    session.scan(0, buf);
}

/// A fetch, where a scan goes on.
fn fetch_open<S: Store>(
    session: &mut Session,
    store: &S,
    n: u32,
    buf: &mut RowBuf,
) -> Option<(Fetched, u64)>
    requires { IsReader (S.state store.now) session.old buf.old }
    ensures { IsReader (S.state store.now) session.new buf.new }
{
    match session.scanning() {
        Some(_) => Some(fetch_from(session, store, n, buf)),
        None => None,
    }
}

/// Commits the version that was written, beside a session.
fn publish_beside<S: Store>(store: &mut S, session: &Session, buf: &RowBuf)
    requires active { (S.state store.old).phase % 2 ≡ 1 }
    requires made { changes_left (S.state store.old) ≡ 0 }
    requires reader { IsReader (S.state store.old) session.now buf.now }
    ensures { IsReader (S.state store.new) session.now buf.now }
{
    store.publish();
}

/// What two fetches of the first view answer, between which the version that was written is
/// committed.
fn fetch_across<S: Store>(store: &mut S, buf: &mut RowBuf) -> [Option<(Fetched, u64)>; 2]
    requires view { 0 < length (S.state store.old).views }
    requires columns { buf.old.columns ≡ (view_in (S.state store.old) 0).columns }
    requires room { length (view_in (S.state store.old) 0).records ≤ buf.old.room }
    requires active { (S.state store.old).phase % 2 ≡ 1 }
    requires made { changes_left (S.state store.old) ≡ 0 }
{
    let (mut session, _) = start_from(store);
    scan_first(&mut session, store, buf);
    let before = fetch_open(&mut session, store, 1, buf);
    publish_beside(store, &session, buf);
    let after = fetch_open(&mut session, store, 9, buf);
    session.close();
    [before, after]
}

/// Whether these are the buffer's rows.
fn has_pairs(buf: &RowBuf, pairs: &[[u64; 2]]) -> bool {
    let mut same = buf.len() as usize == pairs.len();
    for i in 0..buf.len() {
        same &= match pairs.get(i as usize) {
            Some(pair) => buf.row(i) == pair.as_slice(),
            None => false,
        };
    }
    same
}

/// Whether a session that started before reads the rows of its version.
fn reads_across(alloc: Global, store: &mut Plain) -> Result<bool, NoMemory> {
    if begin(alloc, store, &[(1, None), (3, Some(5))], &[])?.is_err() {
        return Err(NoMemory);
    }
    change_all(store);
    if store.views() == 0 || store.phase() % 2 == 0 || store.left() > 0 {
        return Err(NoMemory);
    }
    let mut buf = buffer(alloc, store)?;
    let answers = fetch_across(store, &mut buf);
    let answered = answers == [Some((Fetched::More, 1)), Some((Fetched::Done, 2))];
    Ok(answered & has_pairs(&buf, &[[1, 5], [2, 5]]))
}

fn session_reads_across(alloc: Global) -> Result<bool, SetupErr> {
    let mut store = store(alloc, &[4, 3], 2)?;
    Ok(reads_across(alloc, &mut store)?)
}

#[test]
fn a_session_reads_its_version_across_a_commit(rt: HostRuntime) {
    assert!(rt; matches!(session_reads_across(rt.alloc()), Ok(true)));
}
