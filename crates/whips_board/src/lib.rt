//! A board of words that one pen writes and many eyes read, with no lock.
//!
//! The pen stores single words and the eyes load single words, each in one atomic step. There is one history of
//! stores, the pen's, and it explains whatever any eye has loaded. A note takes the pen's history so far to an eye,
//! which from then on sees nothing older.
#![tactic(auto)]

mod board;
mod closing;
mod eye;
mod law;
mod memory;
mod note;
mod pen;
mod rule;
mod view;

pub use board::Board;
pub use closing::close;
pub use eye::Eye;
pub use law::Law;
pub use memory::NoMemory;
pub use note::Note;
pub use pen::Pen;
