//! The relations of a view, and their sources.
ghost use Rattle.std.specs.Prelude.{◌≡◌, ◌==◌, ◌+◌, ◌≤◌, ◌<◌, ◌^◌, [], IfOk, OnOk, map, length};
ghost use Rattle.std.specs.List.{list_any};
ghost use Rattle.serde_json.specs.View.{view};
ghost use Rattle.whips_reading.specs.Places.{path_steps};
ghost use Rattle.whips_reading.specs.Reading.{Answers, in_turn};
ghost use Rattle.whips_relation_reading.specs.Relations.{relation_names};
ghost use Rattle.whips_view_reading.specs.Views.{relation_added, relations_in, homes_of};

use serde_json::Value;
use std::alloc::Global;
use whips_reading::{Code, Path, ReadErr, elements, in_element, refuse};
use whips_rel::NoMemory;
use whips_relation_reading::{RelationForm, read_relation_name};

/// Whether the number is one of these.
fn is_among(numbers: &[u32], number: u32) -> bool
    ensures { result ≡ list_any (λ n. n == number) numbers.now }
{
    match numbers {
        [] => false,
        [first, rest @ ..] => *first == number || is_among(rest, number),
    }
}

/// Adds a relation that the view hasn't yet.
fn add_relation(
    alloc: Global,
    relations: &[RelationForm],
    numbers: &mut Vec<u32>,
    path: &Path<'_>,
    value: &Value,
) -> Result<(), ReadErr>
    requires { length relations.now ≤ 32 }
    ensures made { Answers (λ _. numbers.new.items) result (relation_added
        (relation_names relations.now) numbers.old.items (path_steps path.now) (view value.now)) }
    ensures count { OnOk result (length numbers.new.items ≡ length numbers.old.items + 1) }
{
    let number = read_relation_name(alloc, relations, path, value)? as u32;
    if is_among(numbers, number) {
        return Err(refuse(alloc, path, Code::Name));
    }
    numbers.push(number)?;
    Ok(())
}

/// Adds relations, of which the first is element number `i` of the list.
fn add_relations_from(
    relations: &[RelationForm],
    numbers: &mut Vec<u32>,
    path: &Path<'_>,
    i: usize,
    items: &[Value],
) -> Result<(), ReadErr>
    requires few { length relations.now ≤ 32 }
    requires end { i + length items.now < 2 ^ 64 }
    ensures made { Answers (λ _. numbers.new.items) result (in_turn (relation_added
        (relation_names relations.now)) (path_steps path.now) i numbers.old.items
        (map view items.now)) }
    ensures count { OnOk result (length numbers.new.items
        ≡ length numbers.old.items + length items.now) }
{
    match items {
        [] => Ok(()),
        [item, rest @ ..] => {
            add_relation(
                *numbers.allocator(),
                relations,
                numbers,
                &in_element(&*path, i),
                item,
            )?;
            add_relations_from(relations, numbers, &*path, i + 1, rest)
        }
    }
}

/// Adds 1 to 4 relations.
fn add_relations(
    alloc: Global,
    relations: &[RelationForm],
    numbers: &mut Vec<u32>,
    path: &Path<'_>,
    value: &Value,
) -> Result<(), ReadErr>
    requires few { length relations.now ≤ 32 }
    requires none { numbers.old.items ≡ [] }
    ensures made { Answers (λ _. numbers.new.items) result
        (relations_in (relation_names relations.now) (path_steps path.now) (view value.now)) }
    ensures count { OnOk result (length numbers.new.items ≤ 4) }
{
    let items = elements(alloc, path, value, 1, 4)?;
    add_relations_from(relations, numbers, path, 0, items)
}

/// The numbers of the 1 to 4 relations that a view names.
pub(crate) fn read_relations(
    alloc: Global,
    relations: &[RelationForm],
    path: &Path<'_>,
    value: &Value,
) -> Result<Vec<u32>, ReadErr>
    requires { length relations.now ≤ 32 }
    ensures made { Answers (λ n. n.items) result
        (relations_in (relation_names relations.now) (path_steps path.now) (view value.now)) }
    ensures count { IfOk result (λ n. length n.items ≤ 4) }
{
    let mut numbers = Vec::new(alloc);
    add_relations(alloc, relations, &mut numbers, path, value)?;
    Ok(numbers)
}

/// The source of each of these relations.
pub(crate) fn homes_of(alloc: Global, homes: &[u32], numbers: &[u32]) -> Result<Vec<u32>, NoMemory>
    ensures { IfOk result (λ v. v.items ≡ homes_of homes.now numbers.now) }
{
    let mut found = Vec::new(alloc);
    for number in numbers {
        found.push(match homes.get(*number as usize) {
            Some(home) => *home,
            None => 0,
        })?;
    }
    Ok(found)
}
