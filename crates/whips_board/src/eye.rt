//! An eye loads words, and learns notes.
ghost use Rattle.std.specs.Prelude.{◌≡◌, ◌<◌, [], ◌∷◌, ◌++◌, length, List, ℕ, Contains};
ghost use Rattle.whips_board.specs.History.{IsExplained, IsWordAfterNote};
ghost use Rattle.whips_board.specs.declared.view.Entry.TheVariants.{Loaded, Learnt};

use crate::board::Board;
use crate::law::Law;
use crate::note::Note;
use crate::rule::{EyeSplit, LoadedByEye, NoteJoin, Token};
use std::marker::Model;
use std::snapshot::Snapshot;

/// It loads words of its board, one at a time. Contracts see the board and the log, which is the list of its loads and
/// of the notes that it learnt.
#[derive(Drop)]
pub struct Eye<L: Law> {
    pub(crate) token: Token<L>,
    pub(crate) board: Snapshot<Board<L>>,
}

impl<L: Law> Model for Eye<L> {
    ghost use Rattle.std.specs.Prelude.{◌≡◌, []};
    ghost use Rattle.whips_board.specs.Seats.{EyeState};
    ghost use Rattle.whips_board.specs.Rule.{origin_of, log_of};
    ghost use Rattle.whips_board.specs.declared.view.View.TheVariants.{Eye as EyeView};

    ghost Value = { EyeState L };

    ghost view = { λ eye. record { board = eye.board.value; log = log_of eye.token.me.0 } };

    ghost invariant = { λ eye.
        (eye.token.table_id ≡ eye.board.value.table)
        × (eye.token.me ≡ (EyeView (origin_of eye.board.value) (log_of eye.token.me.0), [])) };
}

impl<L: Law> Eye<L> {
    /// Loads the word at a place. It takes no lock and no memory.
    pub fn load(&mut self, board: &Board<L>, i: u32) -> u64
        requires board { self.old.board ≡ board.now }
        requires place { i < length board.now.first }
        ensures logged { self.new ≡ record self.old { log = self.old.log ++ Loaded i result ∷ [] } }
        ensures explained { IsExplained (L.allows board.now.law) board.now.first self.new.log }

        // It is the word after at least each note that was learnt before.
        ensures after_notes { (note : List (ℕ × ℕ)) → Contains self.old.log (Learnt note)
            → IsWordAfterNote (L.allows board.now.law) board.now.first note i result }
    {
        board
            .words
            .shared
            .load::<LoadedByEye>(&mut self.token, i as usize)
    }

    /// Learns a note. A later load is the word after at least the note's history.
    pub fn learn(&mut self, board: &Board<L>, note: Note<L>)
        requires board { self.old.board ≡ board.now }
        requires note { note.board ≡ board.now }
        ensures { self.new ≡ record self.old { log = self.old.log ++ Learnt note.history ∷ [] } }
    {
        board
            .words
            .shared
            .join_seat::<NoteJoin>(&mut self.token, note.token);
    }

    /// Another eye, which has seen as much.
    pub fn split(&mut self, board: &Board<L>) -> Eye<L>
        requires { self.old.board ≡ board.now }
        ensures same { self.new ≡ self.old }
        ensures split { result ≡ self.old }
    {
        Eye {
            token: board.words.shared.split_seat::<EyeSplit>(&mut self.token),
            board: Snapshot::of(board),
        }
    }
}
