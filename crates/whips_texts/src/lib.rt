//! The texts of a document, and the codes of its values.
//!
//! The code of a number is the number. The code of a text is the number of the document's texts before it, so that the
//! order of codes is the order of bytes.
#![tactic(auto)]

mod collect;
mod dict;
mod value;

pub use collect::collect_texts;
pub use dict::Dict;
pub use value::read_value;
