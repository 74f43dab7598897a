//! The words, and how they are made.
ghost use Rattle.std.specs.Prelude.{◌≡◌, ◌<◌, [], vec_len, IfOk};

use crate::eye::Eye;
use crate::law::Law;
use crate::memory::NoMemory;
use crate::pen::Pen;
use crate::rule::{FirstEyeSplit, Words};
use crate::view::{FirstWords, Origin};
use std::marker::Model;
use std::snapshot::Snapshot;

/// Words that one pen stores and many eyes load. Contracts see which board it is, its law and its first words, none of
/// which ever changes.
#[derive(Drop)]
pub struct Board<L: Law> {
    pub(crate) words: Words<L>,
}

impl<L: Law> Model for Board<L> {
    ghost use Rattle.std.specs.Prelude.{◌≡◌, ◌<◌, length};
    ghost use Rattle.whips_board.specs.Seats.{BoardId};

    ghost Value = { BoardId L };

    ghost view = { λ board. record {
      table = board.words.shared.table_id;
      law = board.words.shared.key.law;
      first = board.words.shared.key.first;
    } };

    ghost invariant = { λ board.
        (board.words.shared.table_id.words ≡ length board.words.shared.key.first)
        × (0 < length board.words.shared.key.first) };
}

impl<L: Law> Board<L> {
    /// A board with these words, its pen and a first eye.
    pub fn make(law: L, words: &Vec<u64>) -> Result<(Board<L>, Pen<L>, Eye<L>), NoMemory>
        requires { 0 < vec_len words.now }
        ensures board { IfOk result (λ made.
            (made.0.law ≡ law) × (made.0.first ≡ words.now.items)) }
        ensures pen { IfOk result (λ made. made.1 ≡ record { board = made.0; history = [] }) }
        ensures eye { IfOk result (λ made. made.2 ≡ record { board = made.0; log = [] }) }
    {
        let origin = Origin {
            law,
            first: FirstWords::of(words),
        };
        let (words, mut token) = Words::of_words(*words.allocator(), words, &origin)?;
        let board = Board { words };
        let eye = Eye {
            token: board.words.shared.split_seat::<FirstEyeSplit>(&mut token),
            board: Snapshot::of(&board),
        };
        let pen = Pen {
            token,
            board: Snapshot::of(&board),
        };
        Ok((board, pen, eye))
    }
}
