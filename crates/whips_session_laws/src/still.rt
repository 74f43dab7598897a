//! Sessions that read from a store that stands still during a call.
ghost use Rattle.std.specs.Prelude.{◌≡◌, ℕ, ◌/◌, List, None, IsSome};
ghost use Rattle.whips_model.specs.Tuples.{Codes};
ghost use Rattle.whips_flow.specs.Facts.{Facts};
ghost use Rattle.whips_row_buf.specs.Buffers.{Buffer};
ghost use Rattle.whips_runs.specs.Sessions.{open_at, slots_of};
ghost use Rattle.whips_store.specs.Sound.{IsSoundStore};
ghost use Rattle.whips_session.specs.Sessions.{scan_in, state_of, session_fetched, answer_of, IsVisit};
ghost use Rattle.whips_faithful_laws.specs.Faithful.{IsFaithful};
ghost use Rattle.whips_session_laws.specs.Readers.{slots_in, IsReader};

use whips_row_buf::RowBuf;
use whips_session::{Fetched, Session};
use whips_store::{PlainLook, Store};

/// A session at the version that is current in the store, with the store's phase.
pub fn start_from<S: Store>(store: &S) -> (Session, u64)
    ensures phase { result.1 ≡ (S.state store.now).phase }
    ensures session { result.0 ≡ record {
      versions = (S.state store.now).versions;
      version =
          (S.state store.now).phase / 2;
      scan = None;
    } }
    ensures state { state_of result.0 ≡ open_at ((S.state store.now).phase / 2) }
    ensures reader { (b : Buffer) → IsReader (S.state store.now) result.0 b }
{
    let _sound = store.phase();
    Session::start(&mut PlainLook::over(store), store.versions())
}

/// A fetch of the session from the store, which hands back the store's phase.
///
/// Where the scan is done, the buffer has the view's values at the session's version, whatever calls
/// of the store were made since the session opened.
pub fn fetch_from<S: Store>(
    session: &mut Session,
    store: &S,
    n: u32,
    buf: &mut RowBuf,
) -> (Fetched, u64)
    requires scan { IsSome session.old.scan }
    requires reader { IsReader (S.state store.now) session.old buf.old }
    ensures phase { result.1 ≡ (S.state store.now).phase }
    ensures session { session.new
        ≡ session_fetched (slots_in (S.state store.now) (scan_in session.old))
        n result.1 session.old }
    ensures answer { result.0
        ≡ answer_of (slots_in (S.state store.now) (scan_in session.old)) n result.1 session.old }
    ensures visit { (f : Facts) → f.versions ≡ session.old.versions
        → slots_of f (scan_in session.old) ≡ slots_in (S.state store.now) (scan_in session.old)
        → IsVisit f n result.1 session.old session.new result.0 }
    ensures kept { (buf.new.columns ≡ buf.old.columns) × (buf.new.room ≡ buf.old.room) }
    ensures reader { IsReader (S.state store.now) session.new buf.new }
    ensures values { result.0 ≡ Fetched.Done → (values : ℕ → ℕ → List Codes)
        → IsFaithful values (S.state store.now)
        → buf.new.rows ≡ values (scan_in session.old).view session.old.version }
{
    let slots = match session.scanning() {
        Some((x, _)) => store.slots(x),
        None => unreachable!(),
    };
    session.fetch(&mut PlainLook::over(store), n, slots, buf)
}
