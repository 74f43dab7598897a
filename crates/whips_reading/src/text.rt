//! Texts and names.
ghost use Rattle.std.specs.Prelude.{◌≡◌, ◌==◌, ◌<◌, IfOk, IfSome, Some, None, map, length};
ghost use Rattle.std.specs.List.{list_all, list_any};
ghost use Rattle.std.specs.Str.{bytes_eq};
ghost use Rattle.serde_json.specs.View.{view};
ghost use Rattle.whips_reading.specs.Places.{path_steps};
ghost use Rattle.whips_reading.specs.Reading.{Answers};
ghost use Rattle.whips_reading.specs.Names.{is_letter, is_name_byte, is_name, place_of, is_among, text_in, fresh_name, named};

use crate::place::{Code, Path, ReadErr, refuse};
use serde_json::Value;
use std::alloc::Global;
use std::marker::Model;
use whips_rel::NoMemory;

/// An owned text, seen as its bytes.
#[derive(Drop)]
pub struct Text {
    text: String,
}

impl Model for Text {
    ghost use Rattle.std.specs.Prelude.{ℕ, List, string_bytes};

    ghost Value = { List ℕ };

    ghost view = { λ t. string_bytes t.text };
}

impl Text {
    /// The text as a `&str`.
    pub fn as_str(&self) -> &str
        ensures { result.now ≡ self.now }
    {
        self.text.as_str()
    }

    /// A text of these bytes.
    pub fn of(alloc: Global, text: &str) -> Result<Text, NoMemory>
        ensures { IfOk result (λ t. t ≡ text.now) }
    {
        Ok(Text {
            text: String::from_str(alloc, text)?,
        })
    }
}

fn is_letter(c: u8) -> bool
    ensures { result ≡ is_letter c }
{
    (b'A' <= c && c <= b'Z') || (b'a' <= c && c <= b'z')
}

fn is_name_byte(c: u8) -> bool
    ensures { result ≡ is_name_byte c }
{
    is_letter(c) || (b'0' <= c && c <= b'9') || c == b'_'
}

fn are_name_bytes(bytes: &[u8]) -> bool
    ensures { result ≡ list_all is_name_byte bytes.now }
{
    match bytes {
        [] => true,
        [first, rest @ ..] => is_name_byte(*first) && are_name_bytes(rest),
    }
}

/// Whether the bytes are a name: 1 to 32 letters, digits or underscores, the first a letter.
fn is_name(bytes: &[u8]) -> bool
    ensures { result ≡ is_name bytes.now }
{
    match bytes {
        [] => false,
        [first, rest @ ..] => { is_letter(*first) && rest.len() < 32 && are_name_bytes(rest) }
    }
}

/// Whether the text is one of these.
fn is_among(texts: &[Text], text: &str) -> bool
    ensures { result ≡ is_among texts.now text.now }
{
    match texts {
        [] => false,
        [first, rest @ ..] => first.as_str() == text || is_among(rest, text),
    }
}

/// The place of the text among these names.
fn place_of(names: &[Text], text: &str) -> Option<usize>
    ensures place { result ≡ place_of names.now text.now }
    ensures there { IfSome result (λ i. i < length names.now) }
{
    match names {
        [] => None,
        [first, rest @ ..] => {
            if first.as_str() == text {
                return Some(0);
            }
            match place_of(rest, text) {
                None => None,
                Some(place) => Some(place + 1),
            }
        }
    }
}

/// A text.
pub fn read_text<'a>(alloc: Global, path: &Path<'_>, value: &'a Value) -> Result<&'a str, ReadErr>
    ensures { Answers (λ t. t.now) result (text_in (path_steps path.now) (view value.now)) }
{
    match value.as_str() {
        Some(text) => Ok(text),
        None => Err(refuse(alloc, path, Code::Shape)),
    }
}

/// A name that isn't one of these.
pub fn read_fresh_name<'a>(
    alloc: Global,
    taken: &[Text],
    path: &Path<'_>,
    value: &'a Value,
) -> Result<&'a str, ReadErr>
    ensures { Answers (λ t. t.now) result
        (fresh_name taken.now (path_steps path.now) (view value.now)) }
{
    let text = read_text(alloc, path, value)?;
    if is_name(text.as_bytes()) && !is_among(taken, text) {
        return Ok(text);
    }
    Err(refuse(alloc, path, Code::Name))
}

/// The place of the name among these.
pub fn read_named(
    alloc: Global,
    names: &[Text],
    path: &Path<'_>,
    value: &Value,
) -> Result<usize, ReadErr>
    ensures place { Answers (λ i. i) result
        (named names.now (path_steps path.now) (view value.now)) }
    ensures there { IfOk result (λ i. i < length names.now) }
{
    let text = read_text(alloc, path, value)?;
    match place_of(names, text) {
        Some(place) => Ok(place),
        None => Err(refuse(alloc, path, Code::Name)),
    }
}
