//! The one pen of a board.
ghost use Rattle.std.specs.Prelude.{◌≡◌, ◌<◌, [], ◌∷◌, ◌++◌, length};
ghost use Rattle.whips_board.specs.History.{words_after, IsLawful};

use crate::board::Board;
use crate::law::Law;
use crate::note::Note;
use crate::rule::{NoteSplit, Stored, Token};
use std::marker::Model;
use std::snapshot::Snapshot;

/// It stores words on its board, one at a time. Contracts see the board and the history, which is the list of all its
/// stores, each a place and a value. A board has one pen, and the pen's history is lawful.
#[derive(Drop)]
pub struct Pen<L: Law> {
    pub(crate) token: Token<L>,
    pub(crate) board: Snapshot<Board<L>>,
}

impl<L: Law> Model for Pen<L> {
    ghost use Rattle.std.specs.Prelude.{◌≡◌, []};
    ghost use Rattle.whips_board.specs.Seats.{PenState};
    ghost use Rattle.whips_board.specs.History.{IsLawful};
    ghost use Rattle.whips_board.specs.Rule.{origin_of, history_of};
    ghost use Rattle.whips_board.specs.declared.view.View.TheVariants.{Pen as PenView};

    ghost Value = { PenState L };

    ghost view = { λ pen. record { board = pen.board.value; history = history_of pen.token.me.0 } };

    ghost invariant = { λ pen.
        (pen.token.table_id ≡ pen.board.value.table)
        × (pen.token.me ≡ (PenView (origin_of pen.board.value) (history_of pen.token.me.0) [], []))
        × IsLawful
        (L.allows pen.board.value.law) pen.board.value.first (history_of pen.token.me.0) };
}

impl<L: Law> Pen<L> {
    /// Stores a value at a place. It takes no lock and no memory.
    pub fn store(&mut self, board: &Board<L>, i: u32, v: u64)
        requires board { self.old.board ≡ board.now }
        requires place { i < length board.now.first }
        requires allowed { L.allows
            board.now.law (words_after board.now.first self.old.history) i v }
        ensures stored { self.new ≡ record self.old { history = self.old.history ++ (i, v) ∷ [] } }
        ensures lawful { IsLawful (L.allows board.now.law) board.now.first self.new.history }
    {
        board
            .words
            .shared
            .store::<Stored>(&mut self.token, i as usize, v);
    }

    /// A note of all that was stored so far.
    pub fn note(&mut self, board: &Board<L>) -> Note<L>
        requires { self.old.board ≡ board.now }
        ensures same { self.new ≡ self.old }
        ensures note { result ≡ record { board = board.now; history = self.old.history } }
        ensures lawful { IsLawful (L.allows board.now.law) board.now.first self.old.history }
    {
        Note {
            token: board.words.shared.split_seat::<NoteSplit>(&mut self.token),
            board: Snapshot::of(board),
        }
    }
}
