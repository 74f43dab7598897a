//! What an integrator takes and what it hands on.

use whips_query::Reply;
use whips_rel::{Places, Trans};

/// What a source sends.
#[derive(Drop)]
pub enum Message {
    /// A transaction that it has made.
    Update(Trans),
    /// Its reply to a manager's ask.
    Reply(Reply),
}

/// What the integrator hands on.
#[derive(Drop)]
pub enum Forward {
    /// A transaction of a source.
    Numbered {
        /// Its number among the transactions of all sources, from 1.
        number: u64,
        /// Its place among the transactions of its source, from 1.
        place: u64,
        /// The transaction.
        update: Trans,
        /// The numbers of the views that it concerns, in order.
        concerned: Places,
    },
    /// A reply to a manager's ask.
    Reply(Reply),
}
