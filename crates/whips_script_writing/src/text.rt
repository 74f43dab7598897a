//! Texts, numbers, lists of texts and names of members in JSON.
ghost use Rattle.std.specs.Prelude.{◌≡◌, ◌∷◌, ◌++◌, [], false, IfOk, OnOk, string_bytes, decimal, map};
ghost use Rattle.serde_json.specs.Data.{string};
ghost use Rattle.serde_json.specs.View.{items_of};
ghost use Rattle.serde_json.specs.Written.{compact_text, comma_if, items_text};
ghost use Rattle.json.specs.Print.{quoted};
ghost use Rattle.whips_reading.specs.Places.{member_name};
ghost use Rattle.whips_script_writing.specs.Objects.{text_list};

use itoa::Buffer;
use serde_json::Value;
use std::alloc::{AllocError, Global};
use whips_reading::{Member, Text};

/// A text as JSON.
fn text_json(alloc: Global, text: &str) -> Result<String, AllocError>
    ensures { IfOk result (λ json. string_bytes json ≡ compact_text (string text.now)) }
{
    let value = Value::String(String::from_str(alloc, text)?);
    let json = value.to_string(alloc)?;
    Ok(json)
}

/// A text as JSON.
pub(crate) fn push_quoted(out: &mut String, text: &str) -> Result<(), AllocError>
    ensures { OnOk result (string_bytes out.new ≡ string_bytes out.old ++ quoted text.now) }
{
    let json = text_json(*out.allocator(), text)?;
    out.push_str(json.as_str())
}

/// A number in decimal.
pub(crate) fn push_number(out: &mut String, n: u64) -> Result<(), AllocError>
    ensures { OnOk result (string_bytes out.new ≡ string_bytes out.old ++ decimal n) }
{
    out.push_str(Buffer::new().format(n))
}

/// A text as it is.
pub(crate) fn push_plain(out: &mut String, text: &str) -> Result<(), AllocError>
    ensures { OnOk result (string_bytes out.new ≡ string_bytes out.old ++ text.now) }
{
    out.push_str(text)
}

/// A comma, where something stands before.
pub(crate) fn push_comma(out: &mut String, later: bool) -> Result<(), AllocError>
    ensures { OnOk result (string_bytes out.new ≡ string_bytes out.old ++ comma_if later) }
{
    if later { out.push(',') } else { Ok(()) }
}

/// The name of a member, behind a comma where something stands before, and a colon.
pub(crate) fn push_member(out: &mut String, later: bool, member: Member) -> Result<(), AllocError>
    ensures { OnOk result (string_bytes out.new ≡ string_bytes out.old
        ++ (comma_if later ++ (quoted (member_name member) ++ 58 ∷ []))) }
{
    push_comma(out, later)?;
    push_quoted(out, member.name())?;
    out.push(':')
}

/// Texts, behind a comma where something stands before, and the end of their list.
fn push_texts_from(out: &mut String, texts: &[Text], later: bool) -> Result<(), AllocError>
    ensures { OnOk result (string_bytes out.new ≡ string_bytes out.old
        ++ items_text later (items_of (map string texts.now))) }
{
    match texts {
        [] => out.push(']'),
        [first, rest @ ..] => {
            push_comma(out, later)?;
            push_quoted(out, first.as_str())?;
            push_texts_from(out, rest, true)
        }
    }
}

/// A list of texts.
pub(crate) fn push_texts(out: &mut String, texts: &[Text]) -> Result<(), AllocError>
    ensures { OnOk result (string_bytes out.new ≡ string_bytes out.old
        ++ compact_text (text_list texts.now)) }
{
    out.push('[')?;
    push_texts_from(out, texts, false)
}

/// A list of two texts.
pub(crate) fn push_pair(out: &mut String, first: &str, second: &str) -> Result<(), AllocError>
    ensures { OnOk result (string_bytes out.new ≡ string_bytes out.old
        ++ compact_text (text_list (first.now ∷ second.now ∷ []))) }
{
    out.push('[')?;
    push_quoted(out, first)?;
    out.push(',')?;
    push_quoted(out, second)?;
    out.push(']')
}
