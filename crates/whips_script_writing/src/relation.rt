//! Relations with their initial rows.
ghost use Rattle.std.specs.Prelude.{◌≡◌, ◌∷◌, ◌++◌, OnOk, Some, string_bytes, map};
ghost use Rattle.serde_json.specs.Data.{string};
ghost use Rattle.serde_json.specs.View.{items_of};
ghost use Rattle.serde_json.specs.Written.{compact_text, items_text};
ghost use Rattle.whips_reports.specs.Lines.{name_at, value_data, row_data};
ghost use Rattle.whips_script_writing.specs.Objects.{list_data, text_list, behind_commas};
ghost use Rattle.whips_script_writing.specs.Relations.{values_data, kind_text, columns_data, rows_data, relation_data};

use crate::labels::{Labels, name_at};
use crate::text::{push_comma, push_member, push_number, push_pair, push_plain, push_quoted};
use std::alloc::AllocError;
use whips_reading::{Member, Text};
use whips_rel::{Kind, Tuple};
use whips_relation_reading::RelationForm;

/// A value of this kind: a number is its code, and a text is the one with this code.
pub(crate) fn push_value(
    out: &mut String,
    labels: &Labels<'_>,
    code: u64,
    kind: Kind,
) -> Result<(), AllocError>
    ensures { OnOk result (string_bytes out.new ≡ string_bytes out.old
        ++ compact_text (value_data labels.now code (Some kind))) }
{
    match kind {
        Kind::Number => push_number(out, code),
        Kind::Text => push_quoted(out, labels.text(code)),
    }
}

/// Values of these kinds, behind a comma where something stands before, and the end of their list.
fn push_values_from(
    out: &mut String,
    labels: &Labels<'_>,
    kinds: &[Kind],
    codes: &[u64],
    later: bool,
) -> Result<(), AllocError>
    ensures { OnOk result (string_bytes out.new ≡ string_bytes out.old
        ++ items_text later (items_of (row_data labels.now (map (λ k. Some k) kinds.now) codes.now))) }
{
    match kinds {
        [] => out.push(']'),
        [kind, kinds @ ..] => match codes {
            [] => out.push(']'),
            [code, codes @ ..] => {
                push_comma(out, later)?;
                push_value(out, labels, *code, *kind)?;
                push_values_from(out, labels, kinds, codes, true)
            }
        },
    }
}

/// A list of values of these kinds.
pub(crate) fn push_values(
    out: &mut String,
    labels: &Labels<'_>,
    kinds: &[Kind],
    codes: &[u64],
) -> Result<(), AllocError>
    ensures { OnOk result (string_bytes out.new ≡ string_bytes out.old
        ++ compact_text (values_data labels.now kinds.now codes.now)) }
{
    out.push('[')?;
    push_values_from(out, labels, kinds, codes, false)
}

/// A row.
fn push_row(
    out: &mut String,
    labels: &Labels<'_>,
    kinds: &[Kind],
    row: &Tuple,
) -> Result<(), AllocError>
    ensures { OnOk result (string_bytes out.new ≡ string_bytes out.old
        ++ compact_text (values_data labels.now kinds.now row.now)) }
{
    push_values(out, labels, kinds, row.codes())
}

/// Rows, each behind a comma.
fn push_rows_behind(
    out: &mut String,
    labels: &Labels<'_>,
    kinds: &[Kind],
    rows: &[Tuple],
) -> Result<(), AllocError>
    ensures { OnOk result (string_bytes out.new ≡ string_bytes out.old
        ++ behind_commas (rows_data labels.now kinds.now rows.now)) }
{
    for row in rows {
        out.push(',')?;
        push_row(out, labels, kinds, row)?;
    }
    Ok(())
}

/// A list of rows: the first one, and the others.
fn push_some_rows(
    out: &mut String,
    labels: &Labels<'_>,
    kinds: &[Kind],
    first: &Tuple,
    rest: &[Tuple],
) -> Result<(), AllocError>
    ensures { OnOk result (string_bytes out.new ≡ string_bytes out.old ++ compact_text
        (list_data (values_data labels.now kinds.now first.now ∷ rows_data labels.now kinds.now rest.now))) }
{
    push_plain(out, "[")?;
    push_row(out, labels, kinds, first)?;
    push_rows_behind(out, labels, kinds, rest)?;
    push_plain(out, "]")
}

/// A list of rows.
fn push_rows(
    out: &mut String,
    labels: &Labels<'_>,
    kinds: &[Kind],
    rows: &[Tuple],
) -> Result<(), AllocError>
    ensures { OnOk result (string_bytes out.new ≡ string_bytes out.old
        ++ compact_text (list_data (rows_data labels.now kinds.now rows.now))) }
{
    match rows {
        [] => out.push_str("[]"),
        [first, rest @ ..] => push_some_rows(out, labels, kinds, first, rest),
    }
}

/// The initial rows of a relation.
fn push_initial(
    out: &mut String,
    labels: &Labels<'_>,
    form: &RelationForm,
) -> Result<(), AllocError>
    ensures { OnOk result (string_bytes out.new ≡ string_bytes out.old ++ compact_text
        (list_data (rows_data labels.now form.now.table.columns.kinds form.now.table.rows))) }
{
    let relation = form.relation();
    let rows = match relation.tuples() {
        Ok(rows) => rows,
        Err(_) => return Err(AllocError),
    };
    push_rows(out, labels, relation.schema().kinds(), rows.as_slice())
}

fn kind_text(kind: Kind) -> &'static str
    ensures { result.now ≡ kind_text kind }
{
    match kind {
        Kind::Number => "number",
        Kind::Text => "text",
    }
}

/// Columns, behind a comma where something stands before, and the end of their list.
fn push_columns_from(
    out: &mut String,
    names: &[Text],
    kinds: &[Kind],
    later: bool,
) -> Result<(), AllocError>
    ensures { OnOk result (string_bytes out.new ≡ string_bytes out.old
        ++ items_text later (items_of (columns_data names.now kinds.now))) }
{
    match names {
        [] => out.push(']'),
        [name, names @ ..] => match kinds {
            [] => out.push(']'),
            [kind, kinds @ ..] => {
                push_comma(out, later)?;
                push_pair(out, name.as_str(), kind_text(*kind))?;
                push_columns_from(out, names, kinds, true)
            }
        },
    }
}

/// Names at places, behind a comma where something stands before, and the end of their list.
fn push_names_from(
    out: &mut String,
    columns: &[Text],
    key: &[u32],
    later: bool,
) -> Result<(), AllocError>
    ensures { OnOk result (string_bytes out.new ≡ string_bytes out.old
        ++ items_text later (items_of (map string (map (name_at columns.now) key.now)))) }
{
    match key {
        [] => out.push(']'),
        [column, key @ ..] => {
            push_comma(out, later)?;
            push_quoted(out, name_at(columns, *column))?;
            push_names_from(out, columns, key, true)
        }
    }
}

/// The names of these columns or of these relations, as a list.
pub(crate) fn push_names_at(
    out: &mut String,
    names: &[Text],
    places: &[u32],
) -> Result<(), AllocError>
    ensures { OnOk result (string_bytes out.new ≡ string_bytes out.old
        ++ compact_text (text_list (map (name_at names.now) places.now))) }
{
    out.push('[')?;
    push_names_from(out, names, places, false)
}

/// The columns of a relation.
fn push_columns(out: &mut String, form: &RelationForm) -> Result<(), AllocError>
    ensures { OnOk result (string_bytes out.new ≡ string_bytes out.old ++ compact_text
        (list_data (columns_data form.now.columns form.now.table.columns.kinds))) }
{
    out.push('[')?;
    push_columns_from(out, form.columns(), form.relation().schema().kinds(), false)
}

/// The key of a relation.
fn push_key(out: &mut String, form: &RelationForm) -> Result<(), AllocError>
    ensures { OnOk result (string_bytes out.new ≡ string_bytes out.old ++ compact_text
        (text_list (map (name_at form.now.columns) form.now.table.columns.key))) }
{
    push_names_at(out, form.columns(), form.relation().schema().key())
}

/// The name of a relation.
fn push_name(out: &mut String, form: &RelationForm) -> Result<(), AllocError>
    ensures { OnOk result (string_bytes out.new ≡ string_bytes out.old
        ++ compact_text (string form.now.name)) }
{
    push_quoted(out, form.name().as_str())
}

/// A relation with its initial rows.
pub(crate) fn push_relation(
    out: &mut String,
    labels: &Labels<'_>,
    form: &RelationForm,
) -> Result<(), AllocError>
    ensures { OnOk result (string_bytes out.new ≡ string_bytes out.old
        ++ compact_text (relation_data labels.now form.now)) }
{
    push_plain(out, "{")?;
    push_member(out, false, Member::Columns)?;
    push_columns(out, form)?;
    push_member(out, true, Member::Key)?;
    push_key(out, form)?;
    push_member(out, true, Member::Name)?;
    push_name(out, form)?;
    push_member(out, true, Member::Rows)?;
    push_initial(out, labels, form)?;
    push_plain(out, "}")
}
