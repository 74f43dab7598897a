//! What the pen had stored at some moment.
use crate::board::Board;
use crate::law::Law;
use crate::rule::Token;
use std::marker::Model;
use std::snapshot::Snapshot;

/// The pen's history at some moment, for one eye to learn. Contracts see the board and that history.
#[derive(Drop)]
pub struct Note<L: Law> {
    pub(crate) token: Token<L>,
    pub(crate) board: Snapshot<Board<L>>,
}

impl<L: Law> Model for Note<L> {
    ghost use Rattle.std.specs.Prelude.{◌≡◌, []};
    ghost use Rattle.whips_board.specs.Seats.{NoteState};
    ghost use Rattle.whips_board.specs.Rule.{origin_of, history_of};
    ghost use Rattle.whips_board.specs.declared.view.View.TheVariants.{Note as NoteView};

    ghost Value = { NoteState L };

    ghost view = { λ note. record {
      board = note.board.value;
      history = history_of note.token.me.0;
    } };

    ghost invariant = { λ note.
        (note.token.table_id ≡ note.board.value.table)
        × (note.token.me
        ≡ (NoteView (origin_of note.board.value) (history_of note.token.me.0), [])) };
}
