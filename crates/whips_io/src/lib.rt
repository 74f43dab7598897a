//! Bytes in and out.
//!
//! A [`Source`] gives bytes and a [`Sink`] takes them. Each counts its faults, so that whoever is
//! told of a failure can be shown that the outside failed. [`read_all`] reads a whole input up to
//! a limit, and [`write_all`] writes a whole text. [`MemSource`] and [`MemSink`] stand in memory,
//! with faults on chosen calls; [`StdSource`] and [`StdSink`] adapt a stream of the system.
#![tactic(auto)]

mod memory;
mod outside;
mod stream;
mod whole;

pub use memory::{MemSink, MemSource, SINK_ROOM};
pub use outside::{Failed, NoMemory, Sink, Source};
pub use stream::{StdSink, StdSource};
pub use whole::{ReadErr, WriteFault, read_all, write_all};
