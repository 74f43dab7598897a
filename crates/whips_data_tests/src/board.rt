//! Boards, alone and between threads.
ghost use Rattle.std.specs.Prelude.{◌≡◌, ◌<◌, [], ◌∷◌, length, IfOk};

use std::alloc::{AllocError, Global};
use std::thread::{Threads, join};
use whips_board::{Board, Eye, Law, NoMemory, Note, Pen, close};

// Each store makes a word larger.
#[derive(Drop)]
struct Rising;

impl Law for Rising {
    ghost use Rattle.std.specs.Prelude.{◌<◌, slice_index};

    ghost allows = { λ law words place value. slice_index words place < value };
}

/// A board of these words, with its pen and its first eye.
fn board(
    alloc: Global,
    words: &[u64],
) -> Result<(Board<Rising>, Pen<Rising>, Eye<Rising>), NoMemory>
    requires { 0 < length words.now }
    ensures board { IfOk result (λ made. made.0.first ≡ words.now) }
    ensures pen { IfOk result (λ made. made.1 ≡ record { board = made.0; history = [] }) }
    ensures eye { IfOk result (λ made. made.2 ≡ record { board = made.0; log = [] }) }
{
    let words = Vec::from_slice(alloc, words)?;
    Board::make(Rising, &words)
}

/// The words of a board at its end, which had one eye.
fn words_of_one(
    alloc: Global,
    board: Board<Rising>,
    pen: Pen<Rising>,
    eye: Eye<Rising>,
) -> Result<Vec<u64>, NoMemory>
    requires pen { pen.board ≡ board }
    requires eye { eye.board ≡ board }
{
    let eyes = match vec![in alloc; eye] {
        Ok(eyes) => eyes,
        Err(error) => return Err(AllocError::from(error).into()),
    };
    close(board, pen, eyes)
}

/// The words of a board at its end, which had two eyes.
fn words_of_two(
    alloc: Global,
    board: Board<Rising>,
    pen: Pen<Rising>,
    first: Eye<Rising>,
    second: Eye<Rising>,
) -> Result<Vec<u64>, NoMemory>
    requires pen { pen.board ≡ board }
    requires first { first.board ≡ board }
    requires second { second.board ≡ board }
{
    let eyes = match vec![in alloc; first, second] {
        Ok(eyes) => eyes,
        Err(error) => return Err(AllocError::from(error).into()),
    };
    close(board, pen, eyes)
}

/// What the eye loads once it learnt a note of the store of 1.
fn noted(board: &Board<Rising>, pen: &mut Pen<Rising>, eye: &mut Eye<Rising>) -> u64
    requires first { board.now.first ≡ 0 ∷ [] }
    requires pen { pen.old ≡ record { board = board.now; history = [] } }
    requires eye { eye.old ≡ record { board = board.now; log = [] } }
    ensures pen { pen.new.board ≡ board.now }
    ensures eye { eye.new.board ≡ board.now }
{
    pen.store(board, 0, 1);
    let note = pen.note(board);
    eye.learn(board, note);
    eye.load(board, 0)
}

fn is_noted(alloc: Global) -> Result<bool, NoMemory> {
    let (board, mut pen, mut eye) = board(alloc, &[0])?;
    let word = noted(&board, &mut pen, &mut eye);
    let words = words_of_one(alloc, board, pen, eye)?;
    Ok((word == 1) & (words.as_slice() == [1].as_slice()))
}

#[test]
fn a_note_brings_a_store(rt: HostRuntime) {
    assert!(rt; matches!(is_noted(rt.alloc()), Ok(true)));
}

/// What an eye loads that was split off before the store of 8: that word, and the other.
fn seen_by_second(
    board: &Board<Rising>,
    pen: &mut Pen<Rising>,
    second: &mut Eye<Rising>,
) -> (u64, u64)
    requires first { board.now.first ≡ 3 ∷ 5 ∷ [] }
    requires pen { pen.old ≡ record { board = board.now; history = [] } }
    requires eye { second.old.board ≡ board.now }
    ensures pen { pen.new.board ≡ board.now }
    ensures eye { second.new.board ≡ board.now }
{
    pen.store(board, 1, 8);
    let note = pen.note(board);
    second.learn(board, note);
    (second.load(board, 1), second.load(board, 0))
}

fn is_seen_by_both(alloc: Global) -> Result<bool, NoMemory> {
    let (board, mut pen, mut first) = board(alloc, &[3, 5])?;
    let before = first.load(&board, 1);
    let mut second = first.split(&board);
    let seen = seen_by_second(&board, &mut pen, &mut second);
    let words = words_of_two(alloc, board, pen, first, second)?;
    Ok((before == 5) & (seen == (8, 3)) & (words.as_slice() == [3, 8].as_slice()))
}

#[test]
fn eyes_split(rt: HostRuntime) {
    assert!(rt; matches!(is_seen_by_both(rt.alloc()), Ok(true)));
}

/// The pen stores 1 and gives a note of it.
fn first_note(board: &Board<Rising>, pen: &mut Pen<Rising>) -> Note<Rising>
    requires first { board.now.first ≡ 0 ∷ [] }
    requires pen { pen.old ≡ record { board = board.now; history = [] } }
    ensures pen { pen.new ≡ record { board = board.now; history = (0, 1) ∷ [] } }
    ensures note { result.board ≡ board.now }
{
    pen.store(board, 0, 1);
    pen.note(board)
}

fn is_loaded<R: Threads + Sync>(rt: &R, alloc: Global) -> Result<bool, NoMemory> {
    let (board, mut pen, eye) = board(alloc, &[0])?;
    let note = first_note(&board, &mut pen);
    let (pen, (eye, word)) = store_and_load(rt, &board, pen, eye, note);
    let words = words_of_one(alloc, board, pen, eye)?;
    Ok(((word == 1) | (word == 2)) & (words.as_slice() == [2].as_slice()))
}

#[test]
fn threads_store_and_load(rt: HostRuntime) {
    assert!(rt; matches!(is_loaded(&rt, rt.alloc()), Ok(true)));
}

// One thread stores, and another loads.
fn store_and_load<R: Threads + Sync>(
    rt: &R,
    board: &Board<Rising>,
    pen: Pen<Rising>,
    eye: Eye<Rising>,
    note: Note<Rising>,
) -> (Pen<Rising>, (Eye<Rising>, u64))
    requires first { board.now.first ≡ 0 ∷ [] }
    requires pen { pen ≡ record { board = board.now; history = (0, 1) ∷ [] } }
    requires eye { eye.board ≡ board.now }
    requires note { note.board ≡ board.now }
    ensures pen { result.0.board ≡ board.now }
    ensures eye { result.1.0.board ≡ board.now }
{
    join(
        rt,
        move || -> Pen<Rising>
            requires { (board.now.first ≡ 0 ∷ [])
                × (pen ≡ record { board = board.now; history = (0, 1) ∷ [] }) }
            ensures { result.board ≡ board.entry.now }
        { store_two(board, pen) },
        move || -> (Eye<Rising>, u64)
            requires { (board.now.first ≡ 0 ∷ []) × (eye.board ≡ board.now)
                × (note.board ≡ board.now) }
            ensures { result.0.board ≡ board.entry.now }
        { learn_and_load(board, eye, note) },
    )
}

fn store_two(board: &Board<Rising>, mut pen: Pen<Rising>) -> Pen<Rising>
    requires { (board.now.first ≡ 0 ∷ [])
        × (pen ≡ record { board = board.now; history = (0, 1) ∷ [] }) }
    ensures { result.board ≡ board.now }
{
    pen.store(board, 0, 2);
    pen
}

fn learn_and_load(
    board: &Board<Rising>,
    mut eye: Eye<Rising>,
    note: Note<Rising>,
) -> (Eye<Rising>, u64)
    requires { (board.now.first ≡ 0 ∷ []) × (eye.board ≡ board.now) × (note.board ≡ board.now) }
    ensures { result.0.board ≡ board.now }
{
    eye.learn(board, note);
    let word = eye.load(board, 0);
    (eye, word)
}
