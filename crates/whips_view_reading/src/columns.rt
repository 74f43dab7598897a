//! The columns of a view's relations.
ghost use Rattle.std.specs.Prelude.{◌≡◌, ◌++◌, ◌+◌, ◌≤◌, suc, OnOk, IfOk, Some, length, slice_get, string_bytes};
ghost use Rattle.std.specs.Option.{option_copied};
ghost use Rattle.std.specs.Str.{bytes_eq};
ghost use Rattle.serde_json.specs.View.{view};
ghost use Rattle.whips_reading.specs.Places.{path_steps};
ghost use Rattle.whips_reading.specs.Reading.{Answers};
ghost use Rattle.whips_view_reading.specs.Columns.{qualified, view_column, columns_from, columns_at, view_columns, column_of, column_named};

use serde_json::Value;
use std::alloc::Global;
use std::marker::Model;
use whips_model::{ColRef, Kind};
use whips_reading::{Code, Path, ReadErr, Text, read_text, refuse};
use whips_rel::NoMemory;
use whips_relation_reading::RelationForm;

/// A column of a view's relations.
#[derive(Drop)]
pub(crate) struct ViewColumn {
    name: String,
    at: ColRef,
    kind: Kind,
}

impl Model for ViewColumn {
    ghost use Rattle.std.specs.Prelude.{string_bytes};
    ghost use Rattle.whips_view_reading.specs.Columns.{ViewColumn as ColumnData};

    ghost Value = { ColumnData };

    ghost view = { λ c. record { name = string_bytes c.name; at = c.at; kind = c.kind } };
}

/// The name of a column with its relation's, as `relation.column`.
fn qualified(alloc: Global, relation: &str, column: &str) -> Result<String, NoMemory>
    ensures { IfOk result (λ s. string_bytes s ≡ qualified relation.now column.now) }
{
    let mut name = String::from_str(alloc, relation)?;
    name.push('.')?;
    name.push_str(column)?;
    Ok(name)
}

impl ViewColumn {
    /// The column `name` of the relation, at this place.
    fn make(
        alloc: Global,
        relation: &str,
        at: ColRef,
        name: &str,
        kind: Kind,
    ) -> Result<ViewColumn, NoMemory>
        ensures { IfOk result (λ c. c ≡ view_column relation.now at.part at.col name.now kind) }
    {
        let name = qualified(alloc, relation, name)?;
        Ok(ViewColumn { name, at, kind })
    }

    /// Its place.
    pub(crate) fn at(&self) -> ColRef
        ensures { result ≡ self.now.at }
    {
        self.at
    }

    /// Its kind.
    pub(crate) fn kind(&self) -> Kind
        ensures { result ≡ self.now.kind }
    {
        self.kind
    }

    /// Whether it has this name.
    fn is_named(&self, text: &str) -> bool
        ensures { result ≡ bytes_eq self.now.name text.now }
    {
        self.name.as_str() == text
    }
}

/// The place of the next column. There is no memory for more columns than a `u32` counts.
fn next_column(at: ColRef) -> Result<ColRef, NoMemory>
    ensures { IfOk result (λ c. c ≡ record at { col = suc at.col }) }
{
    match at.col.checked_add(1) {
        Some(col) => Ok(ColRef { part: at.part, col }),
        None => Err(NoMemory),
    }
}

/// Adds the columns of the relation with these names and kinds, of which the first is at this place.
fn add_columns_from(
    columns: &mut Vec<ViewColumn>,
    relation: &str,
    at: ColRef,
    names: &[Text],
    kinds: &[Kind],
) -> Result<(), NoMemory>
    ensures { OnOk result (columns.new.items ≡ columns.old.items
        ++ columns_from relation.now at.part at.col names.now kinds.now) }
{
    match names {
        [] => Ok(()),
        [name, names @ ..] => match kinds {
            [] => Ok(()),
            [kind, kinds @ ..] => {
                let alloc = *columns.allocator();
                columns.push(ViewColumn::make(alloc, relation, at, name.as_str(), *kind)?)?;
                add_columns_from(columns, relation, next_column(at)?, names, kinds)
            }
        },
    }
}

/// Adds the columns of a relation at this part of a view.
fn add_columns(
    columns: &mut Vec<ViewColumn>,
    part: u32,
    relation: &RelationForm,
) -> Result<(), NoMemory>
    ensures { OnOk result (columns.new.items ≡ columns.old.items
        ++ columns_at part (Some relation.now)) }
{
    let first = ColRef { part, col: 0 };
    let kinds = relation.relation.schema().kinds();
    add_columns_from(
        columns,
        relation.name.as_str(),
        first,
        &relation.columns,
        kinds,
    )
}

/// Adds the columns of the relation with this number.
fn add_columns_of(
    columns: &mut Vec<ViewColumn>,
    relations: &[RelationForm],
    part: u32,
    number: u32,
) -> Result<(), NoMemory>
    ensures { OnOk result (columns.new.items ≡ columns.old.items
        ++ columns_at part (slice_get relations.now number)) }
{
    match relations.get(number as usize) {
        Some(relation) => add_columns(columns, part, relation),
        None => Ok(()),
    }
}

/// Adds the columns of these relations, of which the first is at this part of a view.
fn add_view_columns(
    columns: &mut Vec<ViewColumn>,
    relations: &[RelationForm],
    part: u32,
    numbers: &[u32],
) -> Result<(), NoMemory>
    requires { part + length numbers.now ≤ 4 }
    ensures { OnOk result (columns.new.items ≡ columns.old.items
        ++ view_columns relations.now part numbers.now) }
{
    match numbers {
        [] => Ok(()),
        [number, rest @ ..] => {
            add_columns_of(columns, relations, part, *number)?;
            add_view_columns(columns, relations, part + 1, rest)
        }
    }
}

/// The columns of these relations of a script in a view over them.
pub(crate) fn view_columns(
    alloc: Global,
    relations: &[RelationForm],
    numbers: &[u32],
) -> Result<Vec<ViewColumn>, NoMemory>
    requires { length numbers.now ≤ 4 }
    ensures { IfOk result (λ v. v.items ≡ view_columns relations.now 0 numbers.now) }
{
    let mut columns = Vec::new(alloc);
    add_view_columns(&mut columns, relations, 0, numbers)?;
    Ok(columns)
}

/// The column with this name.
fn column_of<'a>(columns: &'a [ViewColumn], text: &str) -> Option<&'a ViewColumn>
    ensures { option_copied result ≡ column_of columns.now text.now }
{
    match columns {
        [] => None,
        [first, rest @ ..] => {
            if first.is_named(text) {
                return Some(first);
            }
            column_of(rest, text)
        }
    }
}

/// The column that the value names.
pub(crate) fn read_column<'a>(
    alloc: Global,
    columns: &'a [ViewColumn],
    path: &Path<'_>,
    value: &Value,
) -> Result<&'a ViewColumn, ReadErr>
    ensures { Answers (λ c. c.now) result
        (column_named columns.now (path_steps path.now) (view value.now)) }
{
    let text = read_text(alloc, path, value)?;
    match column_of(columns, text) {
        Some(column) => Ok(column),
        None => Err(refuse(alloc, path, Code::Name)),
    }
}
