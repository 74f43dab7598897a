//! The readers of a run: its sessions, each with the buffer of its scan.
ghost use Rattle.std.specs.Prelude.{true, ◌≡◌, ◌<◌, ◌&&◌, [], ◌∷◌, map, nat_lt, length, replicate, slice_get, is_some, Some, None, IsSome, OnOk, IfOk, IfErr};
ghost use Rattle.std.specs.List.{AllByRecursion};
ghost use Rattle.whips_lists.specs.Lists.{changed_at};
ghost use Rattle.whips_row_buf.specs.Buffers.{Buffer};
ghost use Rattle.whips_runs.specs.Sessions.{slots_of, is_not_open, is_open, scan_of};
ghost use Rattle.whips_flow.specs.Facts.{Facts};
ghost use Rattle.whips_reports.specs.Reported.{Reported};
ghost use Rattle.whips_store.specs.Stores.{view_in};
ghost use Rattle.whips_session.specs.Sessions.{scan_in, scan_after, session_fetched, answer_of, IsVisit};
ghost use Rattle.whips_session_laws.specs.Readers.{slots_in, IsReader, HasFetched};
ghost use Rattle.whips_world.specs.Readers.{closed_reader, session_of, FitsView, IsReaderIn, opened_session, open_line, fetch_line, HasBegunScan, HasFetchedFrom, ChangedAt};

use std::alloc::Global;
use std::marker::Model;
use whips_rel::NoMemory;
use whips_report::{Rec, RecordErr, RecordSink};
use whips_row_buf::RowBuf;
use whips_session::{Fetched, Session};
use whips_session_laws::{fetch_from, start_from};
use whips_store::Store;

/// A reader of a run: its session, while it is open, and for each view the buffer of its last scan of the view.
#[derive(Drop)]
pub(crate) struct Reader {
    session: Option<Session>,
    buffers: Vec<Option<RowBuf>>,
}

impl Model for Reader {
    ghost use Rattle.whips_world.specs.Readers.{ReaderData};

    ghost Value = { ReaderData };

    ghost view = { λ r. record { session = r.session; buffers = r.buffers.items } };
}

/// No buffer for each of so many views.
fn no_buffers(alloc: Global, views: u32) -> Result<Vec<Option<RowBuf>>, NoMemory>
    ensures { IfOk result (λ buffers. buffers.items ≡ replicate views None) }
{
    let mut buffers = Vec::with_capacity(alloc, views as usize)?;
    for _ in 0..views {
        buffers.push(None)?;
    }
    Ok(buffers)
}

/// A reader without an open session.
fn closed_reader(alloc: Global, views: u32) -> Result<Reader, NoMemory>
    ensures { IfOk result (λ reader. reader ≡ closed_reader views) }
{
    Ok(Reader {
        session: None,
        buffers: no_buffers(alloc, views)?,
    })
}

/// So many readers of so many views, none of which has an open session.
pub(crate) fn closed_readers(
    alloc: Global,
    count: usize,
    views: u32,
) -> Result<Vec<Reader>, NoMemory>
    ensures { IfOk result (λ readers. readers.items ≡ replicate count (closed_reader views)) }
{
    let mut readers = Vec::with_capacity(alloc, count)?;
    for _ in 0..count {
        readers.push(closed_reader(alloc, views)?)?;
    }
    Ok(readers)
}

/// Whether the session is there and isn't open.
pub(crate) fn is_closed_at(readers: &[Reader], s: u32) -> bool
    ensures { result ≡ is_not_open (slice_get (map session_of readers.now) s) }
{
    match readers.get(s as usize) {
        Some(reader) => reader.session.is_none(),
        None => false,
    }
}

/// Whether the session is open.
pub(crate) fn is_open_at(readers: &[Reader], s: u32) -> bool
    ensures { result ≡ is_open (slice_get (map session_of readers.now) s) }
{
    match readers.get(s as usize) {
        Some(reader) => reader.session.is_some(),
        None => false,
    }
}

/// Whether the session is open and scans a view.
pub(crate) fn is_scanning_at(readers: &[Reader], s: u32) -> bool
    ensures { result ≡ is_some (scan_of (slice_get (map session_of readers.now) s)) }
{
    match readers.get(s as usize) {
        Some(reader) => match &reader.session {
            Some(session) => session.scanning().is_some(),
            None => false,
        },
        None => false,
    }
}

/// Opens the session at the current version of the store, and tells so.
pub(crate) fn open<S: Store, K: RecordSink>(
    store: &S,
    readers: &mut [Reader],
    s: u32,
    sink: &mut K,
) -> Result<(), RecordErr>
    requires there { s < length readers.old }
    ensures readers { OnOk result (readers.new ≡ changed_at s
        (λ r. record r { session = Some (opened_session (S.state store.now)) }) readers.old) }
    ensures told { OnOk result (K.told sink.old sink.new (open_line s (S.state store.now) ∷ [])) }
    ensures memory { IfErr result (λ e. e ≡ RecordErr.NoMemory → K.told sink.old sink.new []) }
    ensures failed { IfErr result (λ e. e ≡ RecordErr.Failed
        → K.failed sink.old sink.new (open_line s (S.state store.now) ∷ [])) }
{
    let (session, phase) = start_from(store);
    let v = session.version();
    let reader = &mut readers[s as usize];
    reader.session = Some(session);
    sink.push(&Rec::Opened { s, v, phase })
}

/// Begins a scan of view `x` with the buffer of its last scan, or with a new one.
fn scan_with<S: Store>(
    alloc: Global,
    store: &S,
    session: &mut Session,
    place: &mut Option<RowBuf>,
    x: u32,
) -> Result<(), NoMemory>
    requires view { x < length (S.state store.now).views }
    requires fits { (b : Buffer) → place.old ≡ Some b → FitsView (S.state store.now) x b }
    ensures session { OnOk result (session.new ≡ record session.old { scan = Some (x, 0) }) }
    ensures buffer { OnOk result ((b : Buffer) × (place.new ≡ Some b)
        × FitsView (S.state store.now) x b × (b.rows ≡ [])) }
{
    if let Some(buffer) = place {
        session.scan(x, buffer);
        return Ok(());
    }
    let mut buffer = RowBuf::make(alloc, store.current(x).schema(), store.slots(x))?;
    session.scan(x, &mut buffer);
    *place = Some(buffer);
    Ok(())
}

/// Begins a scan of view `x` by the reader, whose session is open.
fn scan_by<S: Store>(alloc: Global, store: &S, reader: &mut Reader, x: u32) -> Result<(), NoMemory>
    requires open { IsSome reader.old.session }
    requires view { x < length (S.state store.now).views }
    requires reads { IsReaderIn (S.state store.now) reader.old }
    ensures { OnOk result (HasBegunScan (S.state store.now) x reader.old reader.new) }
{
    let Some(session) = &mut reader.session else {
        unreachable!()
    };
    scan_with(alloc, store, session, &mut reader.buffers[x as usize], x)
}

/// Begins a scan by the session, which is open: of this session, of this view.
pub(crate) fn scan<S: Store>(
    alloc: Global,
    store: &S,
    readers: &mut [Reader],
    at: (u32, u32),
) -> Result<(), RecordErr>
    requires open { is_open (slice_get (map session_of readers.old) at.0) ≡ true }
    requires view { at.1 < length (S.state store.now).views }
    requires reads { AllByRecursion (IsReaderIn (S.state store.now)) readers.old }
    ensures ok { OnOk result (ChangedAt at.0 (HasBegunScan (S.state store.now) at.1)
        readers.old readers.new) }
    ensures memory { IfErr result (λ e. e ≡ RecordErr.NoMemory) }
{
    scan_by(alloc, store, &mut readers[at.0 as usize], at.1)?;
    Ok(())
}

/// Fetches so many slots of the session's scan, and tells what it came to: of this session, so many slots.
fn fetch_with<S: Store, K: RecordSink>(
    store: &S,
    session: &mut Session,
    buffer: &mut RowBuf,
    at: (u32, u32),
    sink: &mut K,
) -> Result<(), RecordErr>
    requires scan { IsSome session.old.scan }
    requires reader { IsReader (S.state store.now) session.old buffer.old }
    ensures session { session.new
        ≡ session_fetched (slots_in (S.state store.now) (scan_in session.old))
        at.1 (S.state store.now).phase session.old }
    ensures did { HasFetched (S.state store.now) session.old session.new
        (answer_of (slots_in (S.state store.now) (scan_in session.old))
        at.1 (S.state store.now).phase session.old) (S.state store.now).phase buffer.new }
    ensures kept { (buffer.new.columns ≡ buffer.old.columns) × (buffer.new.room ≡ buffer.old.room) }
    ensures visit { (f : Facts) → f.versions ≡ session.old.versions
        → slots_of f (scan_in session.old) ≡ slots_in (S.state store.now) (scan_in session.old)
        → IsVisit f at.1 (S.state store.now).phase session.old session.new
        (answer_of (slots_in (S.state store.now) (scan_in session.old))
        at.1 (S.state store.now).phase session.old) }
    ensures told { OnOk result (K.told sink.old sink.new
        (fetch_line (S.state store.now).phase at.0
        (scan_after (slots_in (S.state store.now) (scan_in session.old)) at.1
        (scan_in session.old))
        (answer_of (slots_in (S.state store.now) (scan_in session.old))
        at.1 (S.state store.now).phase session.old) buffer.new ∷ [])) }
    ensures memory { IfErr result (λ e. e ≡ RecordErr.NoMemory → K.told sink.old sink.new []) }
    ensures failed { IfErr result (λ e. e ≡ RecordErr.Failed → K.failed sink.old sink.new
        (fetch_line (S.state store.now).phase at.0
        (scan_after (slots_in (S.state store.now) (scan_in session.old)) at.1
        (scan_in session.old))
        (answer_of (slots_in (S.state store.now) (scan_in session.old))
        at.1 (S.state store.now).phase session.old) buffer.new ∷ [])) }
{
    let (s, n) = at;
    let v = session.version();
    let x = match session.scanning() {
        Some((x, _)) => x,
        None => unreachable!(),
    };
    let (fetched, phase) = fetch_from(session, store, n, buffer);
    let rec = match fetched {
        Fetched::More => Rec::More {
            s,
            x,
            v,
            phase,
            slots: match session.scanning() {
                Some((_, next)) => next,
                None => 0,
            },
        },
        Fetched::Done => Rec::Read {
            s,
            x,
            v,
            phase,
            rows: buffer,
        },
        Fetched::Expired { v, phase } => Rec::Expired { s, x, v, phase },
    };
    sink.push(&rec)
}

/// Fetches by the reader, which scans a view, and tells what it came to: of this session, so many slots.
fn fetch_by<S: Store, K: RecordSink>(
    store: &S,
    reader: &mut Reader,
    at: (u32, u32),
    sink: &mut K,
) -> Result<(), RecordErr>
    requires scans { is_some (scan_of (Some (session_of reader.old))) ≡ true }
    requires reads { IsReaderIn (S.state store.now) reader.old }
    ensures told { OnOk result ((line : Reported)
        × HasFetchedFrom (S.state store.now) at.0 at.1 reader.old reader.new line
        × K.told sink.old sink.new (line ∷ [])) }
    ensures memory { IfErr result (λ e. e ≡ RecordErr.NoMemory → K.told sink.old sink.new []) }
    ensures failed { IfErr result (λ e. e ≡ RecordErr.Failed → (line : Reported)
        × HasFetchedFrom (S.state store.now) at.0 at.1 reader.old reader.new line
        × K.failed sink.old sink.new (line ∷ [])) }
{
    let Some(session) = &mut reader.session else {
        unreachable!()
    };
    let x = match session.scanning() {
        Some((x, _)) => x,
        None => unreachable!(),
    };
    match &mut reader.buffers[x as usize] {
        Some(buffer) => fetch_with(store, session, buffer, at, sink),
        None => unreachable!(),
    }
}

/// Fetches by the session, which scans a view, and tells what it came to: of this session, so many slots.
pub(crate) fn fetch<S: Store, K: RecordSink>(
    store: &S,
    readers: &mut [Reader],
    at: (u32, u32),
    sink: &mut K,
) -> Result<(), RecordErr>
    requires scans { is_some (scan_of (slice_get (map session_of readers.old) at.0)) ≡ true }
    requires reads { AllByRecursion (IsReaderIn (S.state store.now)) readers.old }
    ensures told { OnOk result ((line : Reported) × ChangedAt at.0 (λ r t.
        HasFetchedFrom (S.state store.now) at.0 at.1 r t line) readers.old readers.new
        × K.told sink.old sink.new (line ∷ [])) }
    ensures memory { IfErr result (λ e. e ≡ RecordErr.NoMemory → K.told sink.old sink.new []) }
    ensures failed { IfErr result (λ e. e ≡ RecordErr.Failed → (line : Reported)
        × ChangedAt at.0 (λ r t. HasFetchedFrom (S.state store.now) at.0 at.1 r t line)
        readers.old readers.new × K.failed sink.old sink.new (line ∷ [])) }
{
    fetch_by(store, &mut readers[at.0 as usize], at, sink)
}

/// Closes the session.
pub(crate) fn close(readers: &mut [Reader], s: u32)
    requires there { s < length readers.old }
    ensures { readers.new ≡ changed_at s (λ r. record r { session = None }) readers.old }
{
    let reader = &mut readers[s as usize];
    reader.session = None;
}
