//! The store.
ghost use Rattle.std.specs.Prelude.{◌≡◌, ◌<◌, [], IfOk};
ghost use Rattle.whips_store.specs.Stores.{changes_left};
ghost use Rattle.whips_store.specs.First.{store_at_first};
ghost use Rattle.whips_slot_words.specs.StoreLaws.{shape_of};
ghost use Rattle.whips_slots.specs.Boards.{first_words};
ghost use Rattle.whips_board_store.specs.Stores.{told, CarriesTold, IsKept, StoresNext};

use crate::board_words::BoardWords;
use crate::changes::store_change;
use std::alloc::Global;
use std::marker::Model;
use whips_board::{Board, Pen};
use whips_plain::Plain;
use whips_rel::{NoMemory, Rows};
use whips_row_buf::RowBuf;
use whips_setup::Setup;
use whips_slots::{Gate, SlotLaw, layout};
use whips_store::{Changes, Store, StoreErr};
use whips_vnl::Shown;

/// A store whose words stand on a board, beside a store in plain memory that keeps the same.
///
/// Contracts see the setup, which board it is, all stores that were made on it, and what it keeps. The history of these
/// stores is lawful, and the words after it are those of the store.
#[derive(Drop)]
pub struct BoardStore<'b, G: Gate> {
    setup: &'b Setup,
    words: BoardWords<'b, G>,
    plain: Plain,
}

impl<'b, G: Gate> Model for BoardStore<'b, G> {
    ghost use Rattle.whips_board_store.specs.Stores.{BoardState, told, IsKept};

    ghost Value = { BoardState };

    ghost view = { λ s. record {
      setup = s.setup.now;
      board = s.words.board;
      history = s.words.history;
      state = told s.setup.now s.words.history s.plain;
    } };

    ghost invariant = { λ s. IsKept s.setup.now s.words.board s.words.history s.plain };
}

impl<'b, G: Gate> BoardStore<'b, G> {
    /// The store at version 0 of the setup, over its board, on which nothing was stored yet.
    pub fn over(
        alloc: Global,
        setup: &'b Setup,
        board: &'b Board<SlotLaw>,
        pen: Pen<SlotLaw>,
        gate: &'b G,
    ) -> Result<BoardStore<'b, G>, NoMemory>
        requires law { board.now.law ≡ shape_of setup.now }
        requires first { board.now.first ≡ first_words setup.now }
        requires pen { pen ≡ record { board = board.now; history = [] } }
        ensures { IfOk result (λ s. s ≡ record {
          setup = setup.now;
          board = board.now;
          history = [];
          state = told setup.now [] (store_at_first setup.now);
        }) }
    {
        let _sound = setup.sources();
        let plain = Plain::make(alloc, setup)?;
        let words = layout(alloc, setup)?;
        Ok(BoardStore {
            setup,
            words: BoardWords::over(board, pen, gate, words),
            plain,
        })
    }

    /// The pen, with its whole history. It carries the store: it is lawful, the words after it are those of the store, and
    /// after each of its prefixes the rows picked at a version that is live there are those told.
    pub fn close(self) -> Pen<SlotLaw>
        ensures pen { result ≡ record { board = self.entry.board; history = self.entry.history } }
        ensures carried { CarriesTold self.entry.setup result.history self.entry.state }
    {
        let BoardStore {
            setup: _,
            words,
            plain: _,
        } = self;
        words.close()
    }
}

/// Stores the change that the plain store will make next, in its slot.
fn store_next<G: Gate>(words: &mut BoardWords<G>, setup: &Setup, plain: &Plain)
    requires kept { IsKept setup.now words.old.board words.old.history plain.now }
    requires some { 0 < changes_left plain.now }
    ensures { StoresNext (shape_of setup.now) plain.now words.old words.new }
{
    if let Some((x, i, change)) = plain.next_change() {
        store_change(words, setup, x, i, change);
    }
}

/// The sign is the setup and the board. What the rows were at each version is told: what the words on the board showed
/// once that version was committed.
impl<'b, G: Gate> Store for BoardStore<'b, G> {
    type Sign = (Setup, Board<SlotLaw>);

    ghost sign = { λ s. (s.setup, s.board) };

    ghost state = { λ s. s.state };

    fn phase(&self) -> u64 {
        self.plain.phase()
    }

    fn versions(&self) -> u32 {
        self.plain.versions()
    }

    fn views(&self) -> u32 {
        self.plain.views()
    }

    fn slots(&self, x: u32) -> u32 {
        self.plain.slots(x)
    }

    fn current(&self, x: u32) -> &Rows {
        self.plain.current(x)
    }

    fn left(&self) -> u64 {
        self.plain.left()
    }

    fn look(&self, x: u32, i: u32, v: u64, into: &mut RowBuf) -> Shown {
        self.plain.look(x, i, v, into)
    }

    fn begin(&mut self, changes: Changes) -> Result<(), StoreErr> {
        self.plain.begin(changes)?;
        self.words.store(0, self.plain.phase());
        Ok(())
    }

    fn change_next(&mut self) {
        store_next(&mut self.words, self.setup, &self.plain);
        self.plain.change_next();
    }

    fn publish(&mut self) {
        self.plain.publish();
        self.words.store(0, self.plain.phase());
    }
}
