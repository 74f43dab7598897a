//! What the seats of a board know. Of all these a running program makes an `Origin` alone, while it makes a board.
ghost use Rattle.std.specs.Prelude.{◌≡◌};

use std::collections::LinkedList;
use std::marker::Model;
use std::snapshot::Snapshot;

/// What an eye did.
pub enum Entry {
    /// It loaded the word at a place: the place, and the word.
    Loaded(u32, u64),
    /// It learnt a note with this history.
    Learnt(LinkedList<(u32, u64)>),
}

/// The words that a board was made with, for clauses alone. It has no bytes.
#[derive(Drop)]
pub struct FirstWords {
    items: Snapshot<Vec<u64>>,
}

impl Model for FirstWords {
    ghost use Rattle.std.specs.Prelude.{ℕ, List};

    ghost Value = { List ℕ };

    ghost view = { λ words. words.items.value.items };
}

impl FirstWords {
    /// These words.
    pub fn of(words: &Vec<u64>) -> FirstWords
        ensures { result ≡ words.now.items }
    {
        FirstWords {
            items: Snapshot::of(words),
        }
    }
}

/// What a board was made with: its law and its first words.
#[derive(Drop)]
pub struct Origin<L> {
    /// The law of its stores.
    pub law: L,
    /// The words before any store.
    pub first: FirstWords,
}

/// What a seat knows. A history is a list of stores, each a place and a value.
pub enum View<L> {
    /// The pen: all its stores, and the logs of the eyes that were joined to it.
    Pen(Origin<L>, LinkedList<(u32, u64)>, LinkedList<LinkedList<Entry>>),
    /// An eye: what it did.
    Eye(Origin<L>, LinkedList<Entry>),
    /// A note: the pen's stores when it was made.
    Note(Origin<L>, LinkedList<(u32, u64)>),
    /// A seat that was joined to another.
    Spent,
}
