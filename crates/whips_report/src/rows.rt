//! The lines of rows.
ghost use Rattle.std.specs.Prelude.{◌≡◌, ◌∷◌, ◌++◌, [], IfOk, OnOk, string_bytes, slice_get, Some};
ghost use Rattle.serde_json.specs.Data.{string};
ghost use Rattle.serde_json.specs.Written.{compact_text, comma_if};
ghost use Rattle.whips_reports.specs.Lines.{value_data};
ghost use Rattle.whips_report.specs.Texts.{row_kinds, rows_text};

use crate::Labels;
use itoa::Buffer;
use serde_json::Value;
use std::alloc::{AllocError, Global};
use whips_rel::{Kind, Rows, Tuple};
use whips_row_buf::RowBuf;
use whips_setup::Setup;

/// The kinds of the columns of a view's rows. A view that isn't there has none.
pub(crate) fn row_kinds(setup: &Setup, x: u32) -> &[Kind]
    ensures { result.now ≡ row_kinds (slice_get setup.now.views x) }
{
    if x < setup.views() {
        setup.view(x).schema().kinds()
    } else {
        &[]
    }
}

/// A text as JSON.
fn text_json(alloc: Global, text: &str) -> Result<String, AllocError>
    ensures { IfOk result (λ json. string_bytes json ≡ compact_text (string text.now)) }
{
    let value = Value::String(String::from_str(alloc, text)?);
    let json = value.to_string(alloc)?;
    Ok(json)
}

/// A code as JSON: a number is its own code, and a text is the one with this code.
fn push_code(text: &mut String, code: u64, kind: Kind, labels: &Labels) -> Result<(), AllocError>
    ensures { OnOk result (string_bytes text.new
        ≡ string_bytes text.old ++ compact_text (value_data labels.now code (Some kind))) }
{
    match kind {
        Kind::Number => text.push_str(Buffer::new().format(code)),
        Kind::Text => {
            let json = text_json(*text.allocator(), labels.text(code))?;
            text.push_str(json.as_str())
        }
    }
}

/// A comma, where something stands before.
fn push_comma(text: &mut String, later: bool) -> Result<(), AllocError>
    ensures { OnOk result (string_bytes text.new ≡ string_bytes text.old ++ comma_if later) }
{
    if later { text.push(',') } else { Ok(()) }
}

/// The line of a row. A row of numbers takes no memory but that of the text.
fn push_row(
    text: &mut String,
    row: &[u64],
    kinds: &[Kind],
    labels: &Labels,
) -> Result<(), AllocError>
    ensures { OnOk result (string_bytes text.new
        ≡ string_bytes text.old ++ rows_text labels.now kinds.now (row.now ∷ [])) }
{
    text.push_str("row [")?;
    let mut later = false;
    for (code, kind) in row.iter().zip(kinds) {
        push_comma(text, later)?;
        push_code(text, *code, *kind, labels)?;
        later = true;
    }
    text.push_str("]\n")
}

/// The lines of the rows of a chunk.
fn push_tuples(
    text: &mut String,
    rows: &[Tuple],
    kinds: &[Kind],
    labels: &Labels,
) -> Result<(), AllocError>
    ensures { OnOk result (string_bytes text.new
        ≡ string_bytes text.old ++ rows_text labels.now kinds.now rows.now) }
{
    for row in rows {
        push_row(text, row.codes(), kinds, labels)?;
    }
    Ok(())
}

/// The lines of the rows of a view.
pub(crate) fn push_view_rows(
    text: &mut String,
    rows: &Rows,
    kinds: &[Kind],
    labels: &Labels,
) -> Result<(), AllocError>
    ensures { OnOk result (string_bytes text.new
        ≡ string_bytes text.old ++ rows_text labels.now kinds.now rows.now.rows) }
{
    for chunk in rows.chunks() {
        push_tuples(text, chunk.rows(), kinds, labels)?;
    }
    Ok(())
}

/// The lines of the rows that were read.
pub(crate) fn push_read_rows(
    text: &mut String,
    rows: &RowBuf,
    kinds: &[Kind],
    labels: &Labels,
) -> Result<(), AllocError>
    ensures { OnOk result (string_bytes text.new
        ≡ string_bytes text.old ++ rows_text labels.now kinds.now rows.now.rows) }
{
    for i in 0..rows.len() {
        push_row(text, rows.row(i), kinds, labels)?;
    }
    Ok(())
}
