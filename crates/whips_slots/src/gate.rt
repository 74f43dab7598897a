//! What is called at each store, and before and after each read.

/// Where a program is.
#[derive(Clone, Copy, Debug, PartialEq, Eq)]
pub enum Moment {
    /// A word was stored.
    Stored {
        /// Its place on the board.
        place: u32,
        /// The word.
        value: u64,
    },
    /// A session is about to read.
    Asking {
        /// The session's number.
        session: u32,
    },
    /// A session has read.
    Answered {
        /// The session's number.
        session: u32,
        /// The phase that it loaded last.
        phase: u64,
    },
}

/// It is called at each moment, from any thread. It may wait, and promises nothing.
pub trait Gate {
    /// Called at this moment.
    fn at(&self, moment: Moment);
}

/// It does nothing.
#[derive(Drop)]
pub struct Pass;

impl Gate for Pass {
    fn at(&self, _moment: Moment) {}
}
