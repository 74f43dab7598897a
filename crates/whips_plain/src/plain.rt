//! The plain store.
ghost use Rattle.std.specs.Prelude.{◌≡◌, ◌/◌, IfOk, MatchOption};
ghost use Rattle.whips_store.specs.Sound.{IsSoundStore};
ghost use Rattle.whips_store.specs.First.{store_at_first};
ghost use Rattle.whips_store.specs.Stores.{changes_left};
ghost use Rattle.whips_plain.specs.Plain.{IsFirstLeft};

use crate::first::first_views;
use crate::views::{
    change_first, check_views, count_changes, first_left, publish_views, put_changes,
};
use std::alloc::Global;
use std::marker::Model;
use whips_plain_store::PlainView;
use whips_rel::{Change, NoMemory, Rows};
use whips_row_buf::RowBuf;
use whips_setup::Setup;
use whips_store::{Changes, Store, StoreErr};
use whips_vnl::Shown;

/// A store in plain memory: its phase, how many versions stay readable, its views, and how many
/// changes are left in all of them.
#[derive(Drop)]
pub struct Plain {
    phase: u64,
    versions: u32,
    views: Vec<PlainView>,
    left: u64,
}

impl Model for Plain {
    ghost use Rattle.std.specs.Prelude.{None};
    ghost use Rattle.whips_store.specs.Stores.{StoreState};
    ghost use Rattle.whips_plain.specs.Plain.{IsPlain};

    ghost Value = { StoreState };

    ghost view = { λ p. record {
      versions = p.versions;
      phase = p.phase;
      views = p.views.items;
      past = None;
    } };

    ghost invariant = { λ p. IsPlain p.left (record {
      versions = p.versions;
      phase = p.phase;
      views
          = p.views.items;
      past = None;
    }) };
}

impl Plain {
    /// The store at version 0 of the setup: each view has its value on the initial relations, with
    /// the slots that the setup gives it.
    pub fn make(alloc: Global, setup: &Setup) -> Result<Plain, NoMemory>
        ensures made { IfOk result (λ p. p ≡ store_at_first setup.now) }
        ensures sound { IfOk result (λ p. IsSoundStore p) }
    {
        let _setup = setup.sources();
        let views = first_views(alloc, setup)?;
        Ok(Plain {
            phase: 0,
            versions: setup.versions(),
            views,
            left: 0,
        })
    }

    /// The change that `change_next` will make: the number of its view, the slot in which it will be made, and the
    /// change. None is left where none is told.
    pub fn next_change(&self) -> Option<(u32, u32, &Change)>
        ensures { MatchOption result (changes_left self.now ≡ 0)
            (λ next. IsFirstLeft self.now.versions (self.now.phase / 2) self.now.views
            next.0 next.1 next.2.now) }
    {
        let (x, slot, change) = first_left(&self.views, self.phase, self.versions)?;
        Some((x as u32, slot as u32, change))
    }
}

/// The sign is empty, and what the rows were at each version isn't told. A count of changes that no
/// `u64` has is refused as `NoMemory`.
impl Store for Plain {
    type Sign = ();

    ghost sign = { λ p. tt };

    ghost state = { λ p. p };

    fn phase(&self) -> u64 {
        self.phase
    }

    fn versions(&self) -> u32 {
        self.versions
    }

    fn views(&self) -> u32 {
        self.views.len() as u32
    }

    fn slots(&self, x: u32) -> u32 {
        self.views[x as usize].slots() as u32
    }

    fn current(&self, x: u32) -> &Rows {
        self.views[x as usize].current()
    }

    fn left(&self) -> u64 {
        self.left
    }

    fn look(&self, x: u32, i: u32, v: u64, into: &mut RowBuf) -> Shown {
        self.views[x as usize].look(i as usize, v, self.versions, into)
    }

    fn begin(&mut self, changes: Changes) -> Result<(), StoreErr> {
        check_views(&mut self.views, &changes.views, self.phase, self.versions)?;
        match count_changes(&changes.views) {
            Some(left) => {
                put_changes(&mut self.views, changes);
                self.left = left;
                self.phase += 1;
                Ok(())
            }
            None => Err(StoreErr::NoMemory),
        }
    }

    fn change_next(&mut self) {
        change_first(&mut self.views, self.phase, self.versions);
        self.left -= 1;
    }

    fn publish(&mut self) {
        publish_views(&mut self.views);
        self.phase += 1;
    }
}
