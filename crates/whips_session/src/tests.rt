//! Sessions over a view of three slots, each of which shows its number and the version.
ghost use Rattle.std.specs.Prelude.{◌≡◌, ◌≤◌, [], ◌∷◌, IfOk, IsSome};
ghost use Rattle.std.proofs.Common.{sym, ◌∙◌};
ghost use Rattle.whips_model.specs.declared.Kind.TheVariants.{Number};
ghost use Rattle.whips_vnl.specs.Records.{seen_row};
ghost use Rattle.whips_session.specs.Sessions.{scan_in, IsScanBuffer};

use crate::{Fetched, Session};
use std::alloc::Global;
use std::test::Fail;
use whips_rel::{Kind, Kinds, NoMemory, Places, Schema};
use whips_row_buf::RowBuf;
use whips_store::Look;
use whips_vnl::Shown;

/// A look at a phase.
#[derive(Drop)]
struct At {
    phase: u64,
}

impl Look for At {
    type Base = u64;

    ghost base = { λ l. l.phase };

    ghost log = { λ l. [] };

    ghost versions = { λ p. 2 };

    ghost slots = { λ p x. 3 };

    ghost columns = { λ p x. record { kinds = Number ∷ Number ∷ []; key = 0 ∷ [] } };

    ghost phase_says = { λ p log at phase next. (phase ≡ p) × (next ≡ at) };

    ghost row_says = { λ p log at x i v seen next. (seen ≡ seen_row (i ∷ v ∷ [])) × (next ≡ at) };

    fn phase(&mut self) -> u64 {
        self.phase
    }

    fn row(&mut self, x: u32, i: u32, v: u64, into: &mut RowBuf) -> Shown {
        into.put(&[u64::from(i), v]);
        Shown::Row
    }

    ghost phase_stays = { λ p log more at phase next h. h };

    ghost row_stays = { λ p log more at x i v seen next h. h };

    ghost phase_is_determined = { λ p log at a b next after h g. (h.0 ∙ sym g.0, h.1 ∙ sym g.1) };

    ghost row_is_determined = { λ p log at x i v seen other next after h g.
        (h.0 ∙ sym g.0, h.1 ∙ sym g.1) };
}

/// An empty buffer for three rows.
fn three(alloc: Global) -> Result<RowBuf, NoMemory>
    ensures { IfOk result (λ b. b ≡ record {
      columns = record { kinds = Number ∷ Number ∷ []; key = 0 ∷ [] };
      rows = [];
      room = 3;
    }) }
{
    let kinds = Kinds::of(vec![in alloc; Kind::Number, Kind::Number]?);
    let key = Places::of(vec![in alloc; 0u32]?);
    RowBuf::make(alloc, &Schema::make(kinds, key), 3)
}

/// A fetch of two slots at the phase, where a scan goes on.
fn fetch_at(session: &mut Session, phase: u64, buf: &mut RowBuf) -> Option<(Fetched, u64)>
    requires versions { session.old.versions ≡ 2 }
    requires columns { buf.old.columns ≡ record { kinds = Number ∷ Number ∷ []; key = 0 ∷ [] } }
    requires buffer { IsSome session.old.scan
        → IsScanBuffer buf.old.columns 3 (scan_in session.old).slot buf.old }
    ensures versions { session.new.versions ≡ 2 }
    ensures kept { (buf.new.columns ≡ buf.old.columns) × (buf.new.room ≡ buf.old.room) }
    ensures buffer { IsSome session.new.scan
        → IsScanBuffer buf.new.columns 3 (scan_in session.new).slot buf.new }
{
    match session.scanning() {
        Some(_) => Some(session.fetch(&mut At { phase }, 2, 3, buf)),
        None => None,
    }
}

/// Whether the buffer's last row is this, and how many there are.
fn ends_with(buf: &RowBuf, count: u32, row: &[u64]) -> bool {
    buf.len() == count && count > 0 && buf.row(count - 1) == row
}

/// Whether a session at version 1 reads the view in two fetches.
fn is_read_in_two(buf: &mut RowBuf) -> bool
    requires columns { buf.old.columns ≡ record { kinds = Number ∷ Number ∷ []; key = 0 ∷ [] } }
    requires room { 3 ≤ buf.old.room }
{
    let (mut session, phase) = Session::start(&mut At { phase: 3 }, 2);
    session.scan(0, buf);
    let first = fetch_at(&mut session, 3, buf) == Some((Fetched::More, 3));
    let between = session.scanning() == Some((0, 2));
    let second = fetch_at(&mut session, 4, buf) == Some((Fetched::Done, 4));
    let ended = session.scanning().is_none();
    let started = (session.version() == 1) & (phase == 3);
    session.close();
    started & first & between & second & ended & ends_with(buf, 3, &[2, 1])
}

/// Whether a session at version 1 has expired at phase 5, and its next scan begins at the first slot
/// with an empty buffer.
fn is_expired_at_five(buf: &mut RowBuf) -> bool
    requires columns { buf.old.columns ≡ record { kinds = Number ∷ Number ∷ []; key = 0 ∷ [] } }
    requires room { 3 ≤ buf.old.room }
{
    let (mut session, _) = Session::start(&mut At { phase: 2 }, 2);
    session.scan(0, buf);
    let fetched = fetch_at(&mut session, 5, buf) == Some((Fetched::Expired { v: 1, phase: 5 }, 5));
    let ended = session.scanning().is_none();
    session.scan(2, buf);
    let again = (session.scanning() == Some((2, 0))) & (buf.len() == 0);
    session.close();
    fetched & ended & again
}

#[test]
fn reads_a_view_in_two_fetches(rt: HostRuntime) -> Result<(), Fail> {
    let mut buf = three(rt.alloc())?;
    assert!(rt; is_read_in_two(&mut buf));
    Ok(())
}

#[test]
fn expires_and_scans_again(rt: HostRuntime) -> Result<(), Fail> {
    let mut buf = three(rt.alloc())?;
    assert!(rt; is_expired_at_five(&mut buf));
    Ok(())
}
