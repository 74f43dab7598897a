//! The columns of a relation.
ghost use Rattle.std.specs.Prelude.{◌≡◌, ◌≤◌, ◌+◌, IfOk, OnOk, length};
ghost use Rattle.serde_json.specs.View.{view};
ghost use Rattle.whips_reading.specs.Places.{path_steps};
ghost use Rattle.whips_reading.specs.Reading.{Answers};
ghost use Rattle.whips_relation_reading.specs.Columns.{kind_in, with_column, column_added, columns_in, no_columns};

use serde_json::Value;
use std::alloc::Global;
use std::marker::Model;
use whips_model::Kind;
use whips_reading::{
    Code, Path, ReadErr, Text, elements, in_element, pair, read_fresh_name, read_text, refuse,
};
use whips_rel::NoMemory;

/// Columns: their names, and the kind of each.
#[derive(Drop)]
pub(crate) struct NamedColumns {
    pub(crate) names: Vec<Text>,
    pub(crate) kinds: Vec<Kind>,
}

impl Model for NamedColumns {
    ghost use Rattle.whips_relation_reading.specs.Columns.{NamedColumns as ColumnsData};

    ghost Value = { ColumnsData };

    ghost view = { λ c. record { names = c.names.items; kinds = c.kinds.items } };
}

impl NamedColumns {
    /// Adds a column.
    fn push(&mut self, alloc: Global, name: &str, kind: Kind) -> Result<(), NoMemory>
        ensures { OnOk result (self.new ≡ with_column self.old name.now kind) }
    {
        self.names.push(Text::of(alloc, name)?)?;
        self.kinds.push(kind)?;
        Ok(())
    }
}

/// The kind of a column.
fn read_kind(alloc: Global, path: &Path<'_>, value: &Value) -> Result<Kind, ReadErr>
    ensures { Answers (λ k. k) result (kind_in (path_steps path.now) (view value.now)) }
{
    let text = read_text(alloc, path, value)?;
    if text == "number" {
        return Ok(Kind::Number);
    }
    if text == "text" {
        return Ok(Kind::Text);
    }
    Err(refuse(alloc, path, Code::Shape))
}

/// Adds a column, a pair of a new name and a kind.
fn read_column(
    alloc: Global,
    columns: &mut NamedColumns,
    path: &Path<'_>,
    value: &Value,
) -> Result<(), ReadErr>
    ensures columns { Answers (λ _. columns.new) result
        (column_added columns.old (path_steps path.now) (view value.now)) }
    ensures names { OnOk result (length columns.new.names ≡ length columns.old.names + 1) }
    ensures kinds { OnOk result (length columns.new.kinds ≡ length columns.old.kinds + 1) }
{
    let (name, kind) = pair(alloc, path, value)?;
    let name = read_fresh_name(alloc, &columns.names, &in_element(&*path, 0), name)?;
    let kind = read_kind(alloc, &in_element(&*path, 1), kind)?;
    columns.push(alloc, name, kind)?;
    Ok(())
}

/// Adds the columns.
fn add_columns(
    alloc: Global,
    columns: &mut NamedColumns,
    path: &Path<'_>,
    value: &Value,
) -> Result<(), ReadErr>
    requires { columns.old ≡ no_columns }
    ensures columns { Answers (λ _. columns.new) result
        (columns_in (path_steps path.now) (view value.now)) }
    ensures few { OnOk result (length columns.new.names ≤ 8) }
    ensures kinds { OnOk result (length columns.new.kinds ≡ length columns.new.names) }
{
    let items = elements(alloc, path, value, 1, 8)?;
    for (i, item) in items.iter().enumerate() {
        read_column(alloc, columns, &in_element(&*path, i), item)?;
    }
    Ok(())
}

/// 1 to 8 columns.
pub(crate) fn read_columns(
    alloc: Global,
    path: &Path<'_>,
    value: &Value,
) -> Result<NamedColumns, ReadErr>
    ensures columns { Answers (λ c. c) result
        (columns_in (path_steps path.now) (view value.now)) }
    ensures few { IfOk result (λ c. length c.names ≤ 8) }
    ensures kinds { IfOk result (λ c. length c.kinds ≡ length c.names) }
{
    let mut columns = NamedColumns {
        names: Vec::new(alloc),
        kinds: Vec::new(alloc),
    };
    add_columns(alloc, &mut columns, path, value)?;
    Ok(columns)
}
