//! Lists of values, and rows.
ghost use Rattle.std.specs.Prelude.{◌≡◌, IfOk, length};
ghost use Rattle.serde_json.specs.View.{view};
ghost use Rattle.whips_reading.specs.Places.{path_steps};
ghost use Rattle.whips_reading.specs.Reading.{Answers};
ghost use Rattle.whips_relation_reading.specs.Rows.{values, row_added, rows_in};

use serde_json::Value;
use std::alloc::Global;
use whips_model::Kind;
use whips_reading::{Code, Path, ReadErr, elements, in_element, list_of, refuse};
use whips_rel::{InsertErr, Relation, Tuple, TupleBuilder};
use whips_texts::{Dict, read_value};

/// A list with a value for each of these kinds, as its codes.
pub fn read_values(
    alloc: Global,
    texts: &Dict,
    kinds: &[Kind],
    path: &Path<'_>,
    value: &Value,
) -> Result<Tuple, ReadErr>
    ensures codes { Answers (λ t. t) result
        (values texts.now kinds.now (path_steps path.now) (view value.now)) }
    ensures width { IfOk result (λ t. length t ≡ length kinds.now) }
{
    let items = list_of(alloc, path, value)?;
    if items.len() != kinds.len() {
        return Err(refuse(alloc, path, Code::Shape));
    }
    let mut codes = TupleBuilder::new(alloc);
    for (i, item) in items.iter().enumerate() {
        codes.push(read_value(alloc, texts, kinds[i], &in_element(&*path, i), item)?)?;
    }
    Ok(codes.finish()?)
}

/// Adds a row whose key isn't there yet.
fn read_row(
    alloc: Global,
    texts: &Dict,
    relation: &mut Relation,
    path: &Path<'_>,
    value: &Value,
) -> Result<(), ReadErr>
    ensures { Answers (λ _. relation.new) result
        (row_added texts.now relation.old (path_steps path.now) (view value.now)) }
{
    let row = read_values(alloc, texts, relation.schema().kinds(), path, value)?;
    match relation.insert(row) {
        Ok(()) => Ok(()),
        Err(InsertErr::Present(_)) => Err(refuse(alloc, path, Code::Key)),
        Err(InsertErr::NoMemory(_)) => Err(ReadErr::NoMemory),
    }
}

/// Adds up to 4,096 rows.
pub(crate) fn read_rows(
    alloc: Global,
    texts: &Dict,
    relation: &mut Relation,
    path: &Path<'_>,
    value: &Value,
) -> Result<(), ReadErr>
    ensures { Answers (λ _. relation.new) result
        (rows_in texts.now relation.old (path_steps path.now) (view value.now)) }
{
    let items = elements(alloc, path, value, 0, 4096)?;
    for (i, item) in items.iter().enumerate() {
        read_row(alloc, texts, relation, &in_element(&*path, i), item)?;
    }
    Ok(())
}
