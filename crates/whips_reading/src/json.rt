//! The document, the members of objects, and the elements of lists.
ghost use Rattle.std.specs.Prelude.{◌≡◌, ◌≤◌, IfOk, map, length, string_bytes, Some, None};
ghost use Rattle.std.specs.Option.{option_map};
ghost use Rattle.std.specs.List.{list_all};
ghost use Rattle.std.specs.BTreeMap.{keys};
ghost use Rattle.serde_json.specs.View.{view};
ghost use Rattle.serde_json.specs.Find.{get};
ghost use Rattle.whips_reading.specs.Json.{is_object_of, is_text};
ghost use Rattle.whips_reading.specs.Members.{is_member_of};
ghost use Rattle.whips_reading.specs.Places.{path_steps, member_name};
ghost use Rattle.whips_reading.specs.Reading.{Answers, document, elements_of, required, listed, elements, pair, triple, number_within, object};

use crate::place::{Code, Member, Path, ReadErr, Step, refuse, refuse_document};
use serde_json::Value;
use serde_json::value::Map;
use std::alloc::Global;

/// The objects of a script.
#[derive(Clone, Copy, Debug, PartialEq, Eq)]
pub enum ObjectForm {
    /// The whole script.
    Document,
    /// A source.
    Source,
    /// A relation of a source.
    Relation,
    /// A view.
    View,
    /// A schedule that lists its events.
    Schedule,
    /// A schedule that is picked.
    PickedSchedule,
}

/// Whether an object of this form may have a member with this name.
fn is_member_of(form: ObjectForm, name: &str) -> bool
    ensures { result ≡ is_member_of form name.now }
{
    match form {
        ObjectForm::Document => matches!(
            name,
            "versions" | "sources" | "views" | "sessions" | "schedule"
        ),
        ObjectForm::Source => matches!(name, "name" | "relations" | "updates"),
        ObjectForm::Relation => matches!(name, "name" | "columns" | "key" | "rows"),
        ObjectForm::View => matches!(
            name,
            "name" | "relations" | "equal" | "where" | "out" | "slots"
        ),
        ObjectForm::Schedule => matches!(name, "events"),
        ObjectForm::PickedSchedule => matches!(name, "start" | "steps"),
    }
}

/// Whether each of the members is one that an object of this form may have.
fn has_only_members(members: &Map<String, Value>, form: ObjectForm) -> bool
    ensures { result ≡ list_all (λ name. is_member_of form (string_bytes name)) (keys members.now) }
{
    members.keys().all(|name| is_member_of(form, name.as_str()))
}

/// Whether the value is an object that has only members of this form.
pub fn is_object_of(value: &Value, form: ObjectForm) -> bool
    ensures { result ≡ is_object_of (is_member_of form) (view value.now) }
{
    match value.as_object() {
        Some(members) => has_only_members(members, form),
        None => false,
    }
}

/// Reads the bytes as a value. They are refused where they have no reading as JSON.
pub fn read_document(alloc: Global, bytes: &[u8]) -> Result<Value, ReadErr>
    ensures { Answers view result (document bytes.now) }
{
    match Value::from_slice(alloc, bytes) {
        Ok(value) => Ok(value),
        Err(error) => {
            if error.is_memory() {
                return Err(ReadErr::NoMemory);
            }
            Err(refuse_document(alloc, Code::Syntax))
        }
    }
}

/// The value is an object that has only members of this form.
pub fn object(
    alloc: Global,
    form: ObjectForm,
    path: &Path<'_>,
    value: &Value,
) -> Result<(), ReadErr>
    ensures { Answers (λ u. u) result (object form (path_steps path.now) (view value.now)) }
{
    if is_object_of(value, form) {
        return Ok(());
    }
    Err(refuse(alloc, path, Code::Shape))
}

/// The member of an object. It is refused where it is missing.
pub fn required<'a>(
    alloc: Global,
    path: &Path<'_>,
    value: &'a Value,
    member: Member,
) -> Result<&'a Value, ReadErr>
    ensures { Answers (λ v. view v.now) result
        (required member (path_steps path.now) (view value.now)) }
{
    match value.get(member.name()) {
        Some(found) => Ok(found),
        None => Err(refuse(alloc, &Path::In(path, Step::Member(member)), Code::Shape)),
    }
}

/// The member of an object, where it isn't left out.
pub fn optional<'a>(value: &'a Value, member: Member) -> Option<&'a Value>
    ensures { option_map (λ v. view v.now) result ≡ get (member_name member) (view value.now) }
{
    value.get(member.name())
}

/// The elements of what is a list.
pub fn elements_of<'a>(value: &'a Value) -> Option<&'a [Value]>
    ensures { option_map (λ vs. map view vs.now) result ≡ elements_of (view value.now) }
{
    match value.as_array() {
        Some(items) => Some(items.as_slice()),
        None => None,
    }
}

/// The elements of a list.
pub fn list_of<'a>(alloc: Global, path: &Path<'_>, value: &'a Value) -> Result<&'a [Value], ReadErr>
    ensures { Answers (λ vs. map view vs.now) result
        (listed (path_steps path.now) (view value.now)) }
{
    match elements_of(value) {
        Some(items) => Ok(items),
        None => Err(refuse(alloc, path, Code::Shape)),
    }
}

/// The elements of a list that has `least` to `most` of them.
pub fn elements<'a>(
    alloc: Global,
    path: &Path<'_>,
    value: &'a Value,
    least: usize,
    most: usize,
) -> Result<&'a [Value], ReadErr>
    ensures read { Answers (λ vs. map view vs.now) result
        (elements least most (path_steps path.now) (view value.now)) }
    ensures few { IfOk result (λ vs. length vs.now ≤ most) }
{
    let items = list_of(alloc, path, value)?;
    if items.len() < least {
        return Err(refuse(alloc, path, Code::Shape));
    }
    if most < items.len() {
        return Err(refuse(alloc, path, Code::Limit));
    }
    Ok(items)
}

/// The two elements of a list of two.
pub fn pair<'a>(
    alloc: Global,
    path: &Path<'_>,
    value: &'a Value,
) -> Result<(&'a Value, &'a Value), ReadErr>
    ensures { Answers (λ p. (view p.0.now, view p.1.now)) result
        (pair (path_steps path.now) (view value.now)) }
{
    match list_of(alloc, path, value)? {
        [first, second] => Ok((first, second)),
        _ => Err(refuse(alloc, path, Code::Shape)),
    }
}

/// The three elements of a list of three.
pub fn triple<'a>(
    alloc: Global,
    path: &Path<'_>,
    value: &'a Value,
) -> Result<(&'a Value, &'a Value, &'a Value), ReadErr>
    ensures { Answers (λ p. (view p.0.now, view p.1.now, view p.2.now)) result
        (triple (path_steps path.now) (view value.now)) }
{
    match list_of(alloc, path, value)? {
        [first, second, third] => Ok((first, second, third)),
        _ => Err(refuse(alloc, path, Code::Shape)),
    }
}

/// A number from `least` to `most`.
pub fn read_number(
    alloc: Global,
    path: &Path<'_>,
    value: &Value,
    least: u64,
    most: u64,
) -> Result<u64, ReadErr>
    ensures read { Answers (λ n. n) result
        (number_within least most (path_steps path.now) (view value.now)) }
    ensures range { IfOk result (λ n. (least ≤ n) × (n ≤ most)) }
{
    let Some(number) = value.as_number() else {
        return Err(refuse(alloc, path, Code::Shape));
    };
    match number.as_u64() {
        Some(found) => {
            if least <= found && found <= most {
                return Ok(found);
            }
            Err(refuse(alloc, path, Code::Limit))
        }
        None => Err(refuse(alloc, path, Code::Limit)),
    }
}

/// Whether the value is this text.
pub fn is_text(value: &Value, text: &str) -> bool
    ensures { result ≡ is_text text.now (view value.now) }
{
    match value.as_str() {
        Some(found) => found == text,
        None => false,
    }
}
