//! The end of a board.
ghost use Rattle.std.specs.Prelude.{◌≡◌, ◌≤◌, [], All, IfOk, OnOk, length, map, vec_capacity};
ghost use Rattle.whips_board.specs.History.{words_after, IsLawful, Explains};
ghost use Rattle.whips_board.specs.Rule.{origin_of, history_of, logs_of};
ghost use Rattle.whips_board.specs.declared.view.View.TheVariants.{Pen as PenView};

use crate::board::Board;
use crate::eye::Eye;
use crate::law::Law;
use crate::memory::NoMemory;
use crate::pen::Pen;
use crate::rule::{EyeJoin, LoadedAtClose, Token};

/// Ends a board, once its pen and its eyes are in one thread again. It gives the words, which are those after the pen's
/// history, and that history explains the log of each eye. With no memory for the words the board is gone.
pub fn close<L: Law>(board: Board<L>, pen: Pen<L>, eyes: Vec<Eye<L>>) -> Result<Vec<u64>, NoMemory>
    requires pen { pen.board ≡ board }
    requires eyes { All (λ eye. eye.board ≡ board) eyes.items }
    ensures words { IfOk result (λ words. words.items ≡ words_after board.first pen.history) }
    ensures explained { OnOk result
        (All (λ eye. Explains board.first pen.history eye.log) eyes.items) }
    ensures lawful { IsLawful (L.allows board.law) board.first pen.history }
{
    let mut words = Vec::with_capacity(*eyes.allocator(), board.words.word_count())?;
    let mut token = join_eyes(&board, pen, eyes);
    read_all(&board, &mut token, &mut words);
    Ok(words)
}

// The pen's token, once it knows what each eye did.
fn join_eyes<L: Law>(board: &Board<L>, pen: Pen<L>, eyes: Vec<Eye<L>>) -> Token<L>
    requires pen { pen.board ≡ board.now }
    requires eyes { All (λ eye. eye.board ≡ board.now) eyes.items }
    ensures table { result.table_id ≡ board.now.table }
    ensures logs { result.me
        ≡ (PenView (origin_of board.now) pen.history (map (λ eye. eye.log) eyes.items), []) }
{
    let Pen {
        mut token,
        board: _,
    } = pen;
    for eye in eyes {
        board
            .words
            .shared
            .join_seat::<EyeJoin>(&mut token, eye.token);
    }
    token
}

// Loads each word, with the pen's token.
fn read_all<L: Law>(board: &Board<L>, token: &mut Token<L>, words: &mut Vec<u64>)
    requires table { token.old.table_id ≡ board.now.table }
    requires pen { token.old.me
        ≡ (PenView (origin_of board.now) (history_of token.old.me.0) (logs_of token.old.me.0), []) }
    requires empty { words.old.items ≡ [] }
    requires room { length board.now.first ≤ vec_capacity words.old }
    ensures words { words.new.items ≡ words_after board.now.first (history_of token.old.me.0) }
    ensures explained { All
        (Explains board.now.first (history_of token.old.me.0))
        (logs_of token.old.me.0) }
{
    for i in 0..board.words.word_count() {
        words.push_reserved(board.words.shared.load::<LoadedAtClose>(token, i));
    }
}
