//! The key of a relation.
ghost use Rattle.std.specs.Prelude.{◌≡◌, ◌≤◌, ◌<◌, ◌==◌, IfOk, OnOk, length, []};
ghost use Rattle.std.specs.List.{list_any, AllByRecursion};
ghost use Rattle.serde_json.specs.View.{view};
ghost use Rattle.whips_reading.specs.Places.{path_steps};
ghost use Rattle.whips_reading.specs.Reading.{Answers};
ghost use Rattle.whips_relation_reading.specs.Columns.{key_column_added, key_in};

use serde_json::Value;
use std::alloc::Global;
use whips_reading::{Code, Path, ReadErr, Text, elements, in_element, read_named, refuse};

/// Whether the number is one of these.
fn is_place_among(places: &[u32], place: u32) -> bool
    ensures { result ≡ list_any (λ p. p == place) places.now }
{
    places.iter().any(|other| *other == place)
}

/// Adds a key column, one of these names.
fn read_key_column(
    alloc: Global,
    names: &[Text],
    key: &mut Vec<u32>,
    path: &Path<'_>,
    value: &Value,
) -> Result<(), ReadErr>
    requires { length names.now ≤ 8 }
    ensures key { Answers (λ _. key.new.items) result
        (key_column_added names.now key.old.items (path_steps path.now) (view value.now)) }
    ensures there { AllByRecursion (λ c. c < length names.now) key.old.items
        → OnOk result (AllByRecursion (λ c. c < length names.now) key.new.items) }
{
    let column = read_named(alloc, names, path, value)? as u32;
    if is_place_among(key, column) {
        return Err(refuse(alloc, path, Code::Name));
    }
    key.push(column)?;
    Ok(())
}

/// Adds the key columns.
fn add_key(
    alloc: Global,
    names: &[Text],
    key: &mut Vec<u32>,
    path: &Path<'_>,
    value: &Value,
) -> Result<(), ReadErr>
    requires few { length names.now ≤ 8 }
    requires first { key.old.items ≡ [] }
    ensures key { Answers (λ _. key.new.items) result
        (key_in names.now (path_steps path.now) (view value.now)) }
    ensures there { OnOk result (AllByRecursion (λ c. c < length names.now) key.new.items) }
{
    let items = elements(alloc, path, value, 1, 8)?;
    for (i, item) in items.iter().enumerate() {
        read_key_column(alloc, names, key, &in_element(&*path, i), item)?;
    }
    Ok(())
}

/// 1 to 8 key columns, which are some of these.
pub(crate) fn read_key(
    alloc: Global,
    names: &[Text],
    path: &Path<'_>,
    value: &Value,
) -> Result<Vec<u32>, ReadErr>
    requires { length names.now ≤ 8 }
    ensures key { Answers (λ k. k.items) result
        (key_in names.now (path_steps path.now) (view value.now)) }
    ensures there { IfOk result (λ k. AllByRecursion (λ c. c < length names.now) k.items) }
{
    let mut key = Vec::new(alloc);
    add_key(alloc, names, &mut key, path, value)?;
    Ok(key)
}
