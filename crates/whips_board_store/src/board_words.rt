//! A board's pen, with a copy of the board's words.
ghost use Rattle.std.specs.Prelude.{◌≡◌, ◌<◌, [], ◌∷◌, ◌++◌, length, slice_index};
ghost use Rattle.whips_slot_words.specs.Stores.{IsAllowed};
ghost use Rattle.whips_board_store.specs.Words.{words_now};

use std::marker::Model;
use whips_board::{Board, Pen};
use whips_slots::{Gate, Moment, SlotLaw};

/// A board's pen, a copy of the board's words, and the gate that is called after each store. Contracts see the pen.
#[derive(Drop)]
pub(crate) struct BoardWords<'b, G: Gate> {
    board: &'b Board<SlotLaw>,
    pen: Pen<SlotLaw>,
    gate: &'b G,
    words: Vec<u64>,
}

impl<'b, G: Gate> Model for BoardWords<'b, G> {
    ghost use Rattle.std.specs.Prelude.{◌≡◌};
    ghost use Rattle.whips_board.specs.Seats.{PenState};
    ghost use Rattle.whips_slot_words.specs.Words.{Shape};
    ghost use Rattle.whips_board_store.specs.Words.{words_now};

    ghost Value = { PenState Shape };

    ghost view = { λ w. w.pen };

    ghost invariant = { λ w. (w.pen.board ≡ w.board.now) × (w.words.items ≡ words_now w.pen) };
}

impl<'b, G: Gate> BoardWords<'b, G> {
    /// The board, on which nothing was stored yet, with these words.
    pub(crate) fn over(
        board: &'b Board<SlotLaw>,
        pen: Pen<SlotLaw>,
        gate: &'b G,
        words: Vec<u64>,
    ) -> BoardWords<'b, G>
        requires pen { pen ≡ record { board = board.now; history = [] } }
        requires words { words.items ≡ board.now.first }
        ensures { result ≡ pen }
    {
        BoardWords {
            board,
            pen,
            gate,
            words,
        }
    }

    /// The word at the place.
    pub(crate) fn word(&self, place: u32) -> u64
        requires { place < length self.now.board.first }
        ensures { result ≡ slice_index (words_now self.now) place }
    {
        self.words[place as usize]
    }

    /// Stores the value at the place.
    pub(crate) fn store(&mut self, place: u32, value: u64)
        requires place { place < length self.old.board.first }
        requires allowed { IsAllowed self.old.board.law (words_now self.old) place value }
        ensures { self.new ≡ record self.old { history = self.old.history ++ (place, value) ∷ [] } }
    {
        self.pen.store(self.board, place, value);
        self.words[place as usize] = value;
        self.gate.at(Moment::Stored { place, value });
    }

    /// The pen, with its whole history.
    pub(crate) fn close(self) -> Pen<SlotLaw>
        ensures { result ≡ self.entry }
    {
        let BoardWords {
            board: _,
            pen,
            gate: _,
            words: _,
        } = self;
        pen
    }
}
