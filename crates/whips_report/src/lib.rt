//! The records of a run as code, their lines, and sinks of records.
//!
//! A [`Rec`] is one record with the rows that it reports. [`push_lines`] writes its lines into a text. A
//! [`RecordSink`] is told one record after another; [`LineSink`] is one that writes their lines to an output.
#![tactic(auto)]

mod labels;
mod lines;
mod rec;
mod rows;
mod sink;
mod words;
mod writer;

pub use labels::Labels;
pub use lines::push_lines;
pub use rec::{Rec, cut_counts};
pub use sink::{RecordErr, RecordSink};
pub use words::push_counts;
pub use writer::LineSink;
