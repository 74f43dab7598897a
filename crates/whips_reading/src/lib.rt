//! Reading a JSON document part by part: each part is read as something, or refused by a code and its exact place.
//!
//! A definition of what a part is read as goes through the part in the order of the format and stops at the first
//! fault. The code of a part follows its definition, and one clause ties the two together.
#![tactic(auto)]

mod json;
mod place;
mod text;

pub use json::{
    ObjectForm, elements, elements_of, is_object_of, is_text, list_of, object, optional, pair,
    read_document, read_number, required, triple,
};
pub use place::{
    Code, Member, Path, ReadErr, Refusal, Step, in_element, in_member, refuse, refuse_document,
};
pub use text::{Text, read_fresh_name, read_named, read_text};
