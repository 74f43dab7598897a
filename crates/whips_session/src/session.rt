//! A reader's session.
ghost use Rattle.std.specs.Prelude.{◌≡◌, ℕ, ◌/◌, ◌≤◌, ◌↔◌, [], None, Some, IsSome};
ghost use Rattle.whips_flow.specs.Facts.{Facts};
ghost use Rattle.whips_flow.specs.Staleness.{IsStale};
ghost use Rattle.whips_runs.specs.Sessions.{open_at, slots_of, with_new_scan};
ghost use Rattle.whips_store.specs.Reads.{PhaseSaid};
ghost use Rattle.whips_session.specs.Sessions.{scan_from, scan_in, state_of, IsScanBuffer, scan_after, answer_after, scan_left, session_fetched, answer_of, IsVisit};
ghost use Rattle.whips_session.specs.Reads.{RowsSaid, FetchSaid};

use std::marker::Model;
use whips_row_buf::RowBuf;
use whips_store::Look;
use whips_vnl::stale;

/// What a fetch came to.
#[derive(Clone, Copy, Debug, PartialEq, Eq)]
pub enum Fetched {
    /// Slots remain.
    More,
    /// All slots were visited, and the buffer has the view's rows.
    Done,
    /// The session's version may not be read any more.
    Expired {
        /// The version.
        v: u64,
        /// The phase at which it had expired.
        phase: u64,
    },
}

/// A reader's session, as in 2VNL 1997, that may scan a view in several fetches.
///
/// It is seen as the number of versions that stay readable, its version, and where a scan goes on
/// its view and next slot.
#[derive(Drop)]
pub struct Session {
    versions: u32,
    version: u64,
    scan: Option<(u32, u32)>,
}

impl Model for Session {
    ghost use Rattle.std.specs.Prelude.{◌≤◌};
    ghost use Rattle.whips_session.specs.Sessions.{OpenSession};

    ghost Value = { OpenSession };

    ghost view = { λ s. record { versions = s.versions; version = s.version; scan = s.scan } };

    ghost invariant = { λ s. (2 ≤ s.versions) × (s.versions ≤ 4) };
}

impl Session {
    /// A session at the version that is current, with the phase that says so. `n` versions stay
    /// readable.
    pub fn start<L: Look>(look: &mut L, n: u32) -> (Session, u64)
        requires least { 2 ≤ n }
        requires most { n ≤ 4 }
        requires versions { n ≡ L.versions (L.base look.old) }
        ensures base { L.base look.new ≡ L.base look.old }
        ensures said { PhaseSaid L.phase_says (L.base look.old)
            (L.log look.old) (L.log look.new) result.1 }
        ensures session { result.0
            ≡ record { versions = n; version = result.1 / 2; scan = None } }
        ensures state { state_of result.0 ≡ open_at (result.1 / 2) }
    {
        let phase = look.phase();
        let session = Session {
            versions: n,
            version: phase / 2,
            scan: None,
        };
        (session, phase)
    }

    /// The session's version.
    pub fn version(&self) -> u64
        ensures { result ≡ self.now.version }
    {
        self.version
    }

    /// The view and the next slot of the scan that goes on.
    pub fn scanning(&self) -> Option<(u32, u32)>
        ensures { result ≡ self.now.scan }
    {
        self.scan
    }

    /// Begins a scan of view `x` at its first slot, with an empty buffer. An earlier scan is dropped.
    pub fn scan(&mut self, x: u32, buf: &mut RowBuf)
        ensures session { self.new ≡ record self.old { scan = Some (x, 0) } }
        ensures state { state_of self.new ≡ with_new_scan x (state_of self.old) }
        ensures buffer { buf.new ≡ record buf.old { rows = [] } }
    {
        buf.clear();
        self.scan = Some((x, 0));
    }

    /// Visits the next `n` slots of the scan's view, which has so many `slots`, or all that remain;
    /// then loads the phase, and hands it back.
    ///
    /// Whether the session is stale at that phase decides about `Expired`, which ends the scan.
    /// Otherwise `Done` ends it once all slots were visited.
    pub fn fetch<L: Look>(
        &mut self,
        look: &mut L,
        n: u32,
        slots: u32,
        buf: &mut RowBuf,
    ) -> (Fetched, u64)
        requires scan { IsSome self.old.scan }
        requires versions { self.old.versions ≡ L.versions (L.base look.old) }
        requires slots { slots ≡ L.slots (L.base look.old) (scan_in self.old).view }
        requires buffer { IsScanBuffer (L.columns (L.base look.old) (scan_in self.old).view)
            slots (scan_in self.old).slot buf.old }
        ensures base { L.base look.new ≡ L.base look.old }
        // each slot was looked at once, and then the phase was loaded
        ensures said { FetchSaid L.phase_says L.row_says (L.base look.old)
            (L.log look.old) (L.log look.new)
            (scan_in self.old) (scan_after slots n (scan_in self.old)).slot
            buf.old buf.new result.1 }
        ensures session { self.new ≡ session_fetched slots n result.1 self.old }
        ensures answer { result.0 ≡ answer_of slots n result.1 self.old }
        ensures expired { (result.0 ≡ Fetched.Expired self.old.version result.1)
            ↔ IsStale self.old.versions self.old.version result.1 }
        ensures kept { (buf.new.columns ≡ buf.old.columns) × (buf.new.room ≡ buf.old.room) }
        // the buffer is the next fetch's
        ensures buffer { IsSome self.new.scan
            → IsScanBuffer (L.columns (L.base look.old) (scan_in self.old).view)
            slots (scan_in self.new).slot buf.new }
        ensures visit { (f : Facts) → f.versions ≡ self.old.versions
            → slots_of f (scan_in self.old) ≡ slots
            → IsVisit f n result.1 self.old self.new result.0 }
    {
        let place = match self.scanning() {
            Some(place) => place,
            None => unreachable!(),
        };
        let to = place.1.saturating_add(n).min(slots);
        self.visit(look, place, to, buf);
        let phase = look.phase();
        (self.end_visit((place.0, to), slots, phase), phase)
    }

    /// Ends the session.
    pub fn close(self) {}

    /// Looks at the slots of a view from a place up to `to`, at each once and in order.
    fn visit<L: Look>(&self, look: &mut L, place: (u32, u32), to: u32, buf: &mut RowBuf)
        requires slots { to ≤ L.slots (L.base look.old) place.0 }
        requires buffer { IsScanBuffer (L.columns (L.base look.old) place.0) to place.1 buf.old }
        ensures base { L.base look.new ≡ L.base look.old }
        ensures rows { RowsSaid L.row_says (L.base look.old) (L.log look.old) (L.log look.new)
            (scan_from self.now.version place) to buf.old buf.new }
    {
        let v = self.version();
        for i in place.1..to {
            let _shown = look.row(place.0, i, v, buf);
        }
    }

    /// The answer of a fetch whose visit ended at this place and this phase.
    fn end_visit(&mut self, place: (u32, u32), slots: u32, phase: u64) -> Fetched
        ensures session { self.new ≡ record self.old {
          scan = scan_left self.old.versions slots phase (scan_from self.old.version place);
        } }
        ensures answer { result
            ≡ answer_after self.old.versions slots phase (scan_from self.old.version place) }
    {
        self.scan = None;
        if stale(self.version, phase, self.versions) {
            return Fetched::Expired {
                v: self.version,
                phase,
            };
        }
        if place.1 < slots {
            self.scan = Some(place);
            return Fetched::More;
        }
        Fetched::Done
    }
}
