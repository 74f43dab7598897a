//! Rows that updates put in and take out.
ghost use Rattle.std.specs.Prelude.{◌≡◌, IfOk};
ghost use Rattle.serde_json.specs.View.{view};
ghost use Rattle.whips_states.specs.States.{with_row, without_row};
ghost use Rattle.whips_reading.specs.Places.{path_steps, in_element};
ghost use Rattle.whips_reading.specs.Reading.{Answers};
ghost use Rattle.whips_relation_reading.specs.Rows.{kind_at, values as values_in};
ghost use Rattle.whips_update_reading.specs.Updates.{key_kinds, row_inserted, row_deleted};

use serde_json::Value;
use std::alloc::Global;
use whips_model::Kind;
use whips_reading::{Code, Path, ReadErr, in_element, refuse};
use whips_rel::{DeleteErr, InsertErr, NoMemory, Relation, Tuple};
use whips_relation_reading::read_values;
use whips_texts::Dict;

/// The kind of a column of these.
fn kind_at(kinds: &[Kind], column: u32) -> Kind
    ensures { result ≡ kind_at kinds.now column }
{
    kinds.get(column as usize).copied().unwrap_or(Kind::Number)
}

/// The kinds of the key columns.
fn key_kinds(alloc: Global, kinds: &[Kind], key: &[u32]) -> Result<Vec<Kind>, NoMemory>
    ensures { IfOk result (λ v. v.items ≡ key_kinds kinds.now key.now) }
{
    let mut found = Vec::with_capacity(alloc, key.len())?;
    for column in key {
        found.push(kind_at(kinds, *column))?;
    }
    Ok(found)
}

/// Puts in a row whose key isn't there yet, and gives it.
pub(crate) fn insert_row(
    alloc: Global,
    texts: &Dict,
    relation: &mut Relation,
    path: &Path<'_>,
    values: &Value,
) -> Result<Tuple, ReadErr>
    ensures row { Answers (λ t. t) result
        (row_inserted texts.now relation.old (path_steps path.now) (view values.now)) }
    ensures made { IfOk result (λ t. relation.new ≡ with_row t relation.old) }
{
    let place = in_element(&*path, 2);
    let row = read_values(alloc, texts, relation.schema().kinds(), &place, values)?;
    let copy = row.copy()?;
    match relation.insert(row) {
        Ok(()) => Ok(copy),
        Err(InsertErr::Present(_)) => Err(refuse(alloc, path, Code::Present)),
        Err(InsertErr::NoMemory(_)) => Err(ReadErr::NoMemory),
    }
}

/// The key of the row that a delete takes out.
fn read_key(
    alloc: Global,
    texts: &Dict,
    relation: &Relation,
    path: &Path<'_>,
    values: &Value,
) -> Result<Tuple, ReadErr>
    ensures { Answers (λ k. k) result
        (values_in texts.now (key_kinds relation.now.columns.kinds relation.now.columns.key)
        (in_element (path_steps path.now) 2) (view values.now)) }
{
    let kinds = key_kinds(alloc, relation.schema().kinds(), relation.schema().key())?;
    read_values(alloc, texts, &kinds, &in_element(&*path, 2), values)
}

/// Takes out the row with a key, and gives it.
pub(crate) fn delete_row(
    alloc: Global,
    texts: &Dict,
    relation: &mut Relation,
    path: &Path<'_>,
    values: &Value,
) -> Result<Tuple, ReadErr>
    ensures row { Answers (λ t. t) result
        (row_deleted texts.now relation.old (path_steps path.now) (view values.now)) }
    ensures made { IfOk result (λ t. relation.new ≡ without_row t relation.old) }
{
    let key = read_key(alloc, texts, relation, path, values)?;
    match relation.delete(&key) {
        Ok(row) => Ok(row),
        Err(DeleteErr::Absent) => Err(refuse(alloc, path, Code::Absent)),
        Err(DeleteErr::NoMemory) => Err(ReadErr::NoMemory),
    }
}
