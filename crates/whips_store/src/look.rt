//! A reader's side of a store.
ghost use Rattle.std.specs.Prelude.{◌≡◌, ◌<◌, ℕ, [], length};
ghost use Rattle.whips_model.specs.Tuples.{Columns};
ghost use Rattle.whips_vnl.specs.Records.{Seen, shown_of};
ghost use Rattle.whips_store.specs.Stores.{view_in, with_seen};
ghost use Rattle.whips_store.specs.Reads.{Log, PhaseSays, RowSays, PhaseSaid, RowSaid, PhaseStays, RowStays, PhaseIsDetermined, RowIsDetermined, still_phase_says, still_row_says, still_phase_stays, still_row_stays, still_phase_is_determined, still_row_is_determined};

use crate::Store;
use whips_row_buf::RowBuf;
use whips_vnl::Shown;

/// A reader's side of a store.
///
/// Its ghost members are `base`, which no call changes and which has the number of versions that
/// stay readable and the slots and the columns of each view, and `log`, to which calls only append. `phase_says` and `row_says` read a log from a
/// place on: the answer of a call, and the place after its entries.
pub trait Look {
    /// What the calls read.
    type Base;

    ghost base: { Self → Self.Base };

    ghost log: { Self → Log };

    ghost versions: { Self.Base → ℕ };

    ghost slots: { Self.Base → ℕ → ℕ };

    ghost columns: { Self.Base → ℕ → Columns };

    ghost phase_says: { PhaseSays Self.Base };

    ghost row_says: { RowSays Self.Base };

    /// The store's phase.
    fn phase(&mut self) -> u64
        ensures base { base self.new ≡ base self.old }
        ensures said { PhaseSaid phase_says (base self.old) (log self.old) (log self.new) result };

    /// What slot `i` of the view shows at version `v`. A row is put into `into`; otherwise `into`
    /// stays as it was.
    fn row(&mut self, x: u32, i: u32, v: u64, into: &mut RowBuf) -> Shown
        requires slot { i < slots (base self.old) x }
        requires columns { into.old.columns ≡ columns (base self.old) x }
        requires room { length into.old.rows < into.old.room }
        ensures base { base self.new ≡ base self.old }
        ensures said { (seen : Seen) × (result ≡ shown_of seen)
            × (into.new ≡ with_seen seen into.old)
            × RowSaid row_says (base self.old) (log self.old) (log self.new) x i v seen };

    ghost phase_stays: { PhaseStays phase_says };

    ghost row_stays: { RowStays row_says };

    ghost phase_is_determined: { PhaseIsDetermined phase_says };

    ghost row_is_determined: { RowIsDetermined row_says };
}

/// A look at a store that stands still meanwhile. Its log stays empty.
#[derive(Drop)]
pub struct PlainLook<'a, S: Store> {
    store: &'a S,
}

impl<'a, S: Store> PlainLook<'a, S> {
    /// A look at the store.
    pub fn over(store: &'a S) -> PlainLook<'a, S>
        ensures { result.store.now ≡ store.now }
    {
        PlainLook { store }
    }
}

impl<'a, S: Store> Look for PlainLook<'a, S> {
    type Base = S;

    ghost base = { λ l. l.store.now };

    ghost log = { λ l. [] };

    ghost versions = { λ s. (S.state s).versions };

    ghost slots = { λ s x. length (view_in (S.state s) x).records };

    ghost columns = { λ s x. (view_in (S.state s) x).columns };

    ghost phase_says = { λ s. still_phase_says (S.state s) };

    ghost row_says = { λ s. still_row_says (S.state s) };

    fn phase(&mut self) -> u64 {
        self.store.phase()
    }

    fn row(&mut self, x: u32, i: u32, v: u64, into: &mut RowBuf) -> Shown {
        self.store.look(x, i, v, into)
    }

    ghost phase_stays = { λ s. still_phase_stays (S.state s) };

    ghost row_stays = { λ s. still_row_stays (S.state s) };

    ghost phase_is_determined = { λ s. still_phase_is_determined (S.state s) };

    ghost row_is_determined = { λ s. still_row_is_determined (S.state s) };
}
