//! The writer's side of a store.
ghost use Rattle.std.specs.Prelude.{◌≡◌, ◌≢◌, ◌<◌, ◌+◌, ◌*◌, ◌%◌, ◌^◌, length, None, Some, IfErr, OnOk, OnErr};
ghost use Rattle.whips_vnl.specs.Records.{shown_of};
ghost use Rattle.whips_store.specs.Stores.{StoreState, view_in, changes_left, seen_in, with_seen};
ghost use Rattle.whips_store.specs.Calls.{AreNet, shortage, begun, changed_once, published};
ghost use Rattle.whips_store.specs.Sound.{IsSoundStore};

use crate::{Changes, StoreErr};
use whips_rel::Rows;
use whips_row_buf::RowBuf;
use whips_vnl::Shown;

/// A store of versioned rows, with one slot for all versions of a row.
///
/// Its ghost members are `state`, what it keeps as data, and `sign`, which tells stores of one kind
/// apart and which no call changes. Only `begin` takes memory.
pub trait Store {
    /// What tells stores of this kind apart.
    type Sign;

    ghost sign: { Self → Self.Sign };

    ghost state: { Self → StoreState };

    /// Twice the committed version, and 1 more while maintenance is active. What every store keeps
    /// is said here.
    fn phase(&self) -> u64
        ensures phase { result ≡ (state self.now).phase }
        ensures sound { IsSoundStore (state self.now) };

    /// The number of versions that stay readable, 2 to 4.
    fn versions(&self) -> u32
        ensures { result ≡ (state self.now).versions };

    /// The number of views.
    fn views(&self) -> u32
        ensures { result ≡ length (state self.now).views };

    /// The number of slots of the view.
    fn slots(&self, x: u32) -> u32
        requires { x < length (state self.now).views }
        ensures { result ≡ length (view_in (state self.now) x).records };

    /// The rows of the view at the committed version.
    fn current(&self, x: u32) -> &Rows
        requires { x < length (state self.now).views }
        ensures { result.now ≡ record {
          columns = (view_in (state self.now) x).columns;
          rows =
              (view_in (state self.now) x).current;
        } };

    /// The number of changes that are still to be made.
    fn left(&self) -> u64
        ensures { result ≡ changes_left (state self.now) };

    /// What slot `i` of the view shows at version `v`. A row is put into `into`; where nothing is
    /// shown, or that version isn't kept any more, `into` stays as it was.
    fn look(&self, x: u32, i: u32, v: u64, into: &mut RowBuf) -> Shown
        requires view { x < length (state self.now).views }
        requires slot { i < length (view_in (state self.now) x).records }
        requires columns { into.old.columns ≡ (view_in (state self.now) x).columns }
        requires room { length into.old.rows < into.old.room }
        ensures shown { result ≡ shown_of (seen_in (state self.now) x i v) }
        ensures row { into.new ≡ with_seen (seen_in (state self.now) x i v) into.old };

    /// Begins the transaction of these changes, which takes all the memory that it needs.
    ///
    /// `Full` names the first view that needs more slots than it has, for the keys of its rows at
    /// the versions in use and afterwards together. After a refusal the store is as before.
    fn begin(&mut self, changes: Changes) -> Result<(), StoreErr>
        requires quiet { (state self.old).phase % 2 ≡ 0 }
        requires phase { (state self.old).phase < 2 ^ 62 }
        requires net { AreNet (state self.old).views changes }
        ensures ok { OnOk result ((shortage (state self.old) changes ≡ None)
            × (state self.new ≡ begun changes (state self.old))) }
        ensures full { IfErr result (λ e. e ≢ StoreErr.NoMemory
            → shortage (state self.old) changes ≡ Some e) }
        ensures err { OnErr result (state self.new ≡ state self.old) }
        ensures sign { sign self.new ≡ sign self.old };

    /// Makes the first of the changes that are left, in the slot that shows its key at a version in
    /// use, or for a new key in the first free slot.
    fn change_next(&mut self)
        requires { 0 < changes_left (state self.old) }
        ensures changed { state self.new ≡ changed_once (state self.old) }
        ensures sign { sign self.new ≡ sign self.old };

    /// Commits the version that was written.
    fn publish(&mut self)
        requires active { (state self.old).phase % 2 ≡ 1 }
        requires made { changes_left (state self.old) ≡ 0 }
        ensures published { state self.new ≡ published (state self.old) }
        ensures sign { sign self.new ≡ sign self.old };
}
