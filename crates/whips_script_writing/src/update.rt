//! Updates and transactions.
ghost use Rattle.std.specs.Prelude.{◌≡◌, ◌∷◌, ◌++◌, [], OnOk, Some, string_bytes, map, codes};
ghost use Rattle.json.specs.Print.{quoted};
ghost use Rattle.serde_json.specs.View.{items_of};
ghost use Rattle.serde_json.specs.Written.{compact_text, items_text};
ghost use Rattle.whips_model.specs.Tuples.{at_columns};
ghost use Rattle.whips_reports.specs.Lines.{row_data};
ghost use Rattle.whips_relation_reading.specs.Rows.{kind_at};
ghost use Rattle.whips_update_reading.specs.Updates.{key_kinds};
ghost use Rattle.whips_script_writing.specs.Objects.{list_data, behind_commas};
ghost use Rattle.whips_script_writing.specs.Relations.{change_data, update_in, update_data, all_data, transaction_data};

use crate::labels::Labels;
use crate::relation::{push_value, push_values};
use crate::text::{push_comma, push_plain, push_quoted};
use std::alloc::AllocError;
use whips_rel::{Kind, Trans, Tuple, Update};
use whips_relation_reading::RelationForm;

/// The kind of a column.
fn kind_at(kinds: &[Kind], column: u32) -> Kind
    ensures { result ≡ kind_at kinds.now column }
{
    match kinds.get(column as usize) {
        Some(kind) => *kind,
        None => Kind::Number,
    }
}

/// A row with the kinds of its columns.
#[derive(Drop)]
struct KindedRow<'a> {
    kinds: &'a [Kind],
    row: &'a Tuple,
}

/// The values of a row at key columns, behind a comma where something stands before, and the end of their list.
fn push_key_from(
    out: &mut String,
    labels: &Labels<'_>,
    row: &KindedRow<'_>,
    key: &[u32],
    later: bool,
) -> Result<(), AllocError>
    ensures { OnOk result (string_bytes out.new ≡ string_bytes out.old
        ++ items_text later (items_of (row_data labels.now
        (map (λ k. Some k) (key_kinds row.now.kinds.now key.now)) (at_columns key.now row.now.row.now)))) }
{
    match key {
        [] => out.push(']'),
        [column, key @ ..] => {
            push_comma(out, later)?;
            let kind = kind_at(row.kinds, *column);
            push_value(out, labels, row.row.code_in(*column), kind)?;
            push_key_from(out, labels, row, key, true)
        }
    }
}

/// What an update does and the name of its relation, before its values.
fn push_target(out: &mut String, word: &str, name: &str) -> Result<(), AllocError>
    ensures { OnOk result (string_bytes out.new ≡ string_bytes out.old
        ++ 91 ∷ (quoted word.now ++ 44 ∷ (quoted name.now ++ 44 ∷ []))) }
{
    out.push('[')?;
    push_quoted(out, word)?;
    out.push(',')?;
    push_quoted(out, name)?;
    out.push(',')
}

/// An insert into the relation.
fn push_insert(
    out: &mut String,
    labels: &Labels<'_>,
    form: &RelationForm,
    row: &Tuple,
) -> Result<(), AllocError>
    ensures { OnOk result (string_bytes out.new ≡ string_bytes out.old
        ++ compact_text (change_data labels.now (codes "insert") form.now.name
        form.now.table.columns.kinds row.now)) }
{
    push_target(out, "insert", form.name().as_str())?;
    push_values(out, labels, form.relation().schema().kinds(), row.codes())?;
    out.push(']')
}

/// A delete of the row with this row's key.
fn push_delete(
    out: &mut String,
    labels: &Labels<'_>,
    form: &RelationForm,
    row: &Tuple,
) -> Result<(), AllocError>
    ensures { OnOk result (string_bytes out.new ≡ string_bytes out.old
        ++ compact_text (change_data labels.now (codes "delete") form.now.name
        (key_kinds form.now.table.columns.kinds form.now.table.columns.key)
        (at_columns form.now.table.columns.key row.now))) }
{
    let schema = form.relation().schema();
    push_target(out, "delete", form.name().as_str())?;
    out.push('[')?;
    let kinds = schema.kinds();
    push_key_from(out, labels, &KindedRow { kinds, row }, schema.key(), false)?;
    out.push(']')
}

/// An update of one of these relations.
fn push_update(
    out: &mut String,
    labels: &Labels<'_>,
    relations: &[RelationForm],
    update: &Update,
) -> Result<(), AllocError>
    ensures { OnOk result (string_bytes out.new ≡ string_bytes out.old
        ++ compact_text (update_data labels.now relations.now update.now)) }
{
    match relations.get(update.relation() as usize) {
        Some(form) => push_update_of(out, labels, form, update),
        None => out.push_str("null"),
    }
}

/// An update of the relation.
fn push_update_of(
    out: &mut String,
    labels: &Labels<'_>,
    form: &RelationForm,
    update: &Update,
) -> Result<(), AllocError>
    ensures { OnOk result (string_bytes out.new ≡ string_bytes out.old
        ++ compact_text (update_in labels.now (Some form.now) update.now)) }
{
    match update {
        Update::Insert(_, row) => push_insert(out, labels, form, row),
        Update::Delete(_, row) => push_delete(out, labels, form, row),
    }
}

/// Updates, behind a comma where something stands before, and the end of their list.
fn push_updates_from(
    out: &mut String,
    labels: &Labels<'_>,
    relations: &[RelationForm],
    updates: &[Update],
    later: bool,
) -> Result<(), AllocError>
    ensures { OnOk result (string_bytes out.new ≡ string_bytes out.old
        ++ items_text later (items_of (map (update_data labels.now relations.now) updates.now))) }
{
    match updates {
        [] => out.push(']'),
        [first, rest @ ..] => {
            push_comma(out, later)?;
            push_update(out, labels, relations, first)?;
            push_updates_from(out, labels, relations, rest, true)
        }
    }
}

/// A transaction of another number of updates than one.
fn push_all(
    out: &mut String,
    labels: &Labels<'_>,
    relations: &[RelationForm],
    updates: &[Update],
) -> Result<(), AllocError>
    ensures { OnOk result (string_bytes out.new ≡ string_bytes out.old
        ++ compact_text (all_data labels.now relations.now updates.now)) }
{
    out.push('[')?;
    push_quoted(out, "all")?;
    out.push_str(",[")?;
    push_updates_from(out, labels, relations, updates, false)?;
    out.push(']')
}

/// A transaction: one of one update is that update.
fn push_transaction(
    out: &mut String,
    labels: &Labels<'_>,
    relations: &[RelationForm],
    updates: &[Update],
) -> Result<(), AllocError>
    ensures { OnOk result (string_bytes out.new ≡ string_bytes out.old
        ++ compact_text (transaction_data labels.now relations.now updates.now)) }
{
    match updates {
        [update] => push_update(out, labels, relations, update),
        _ => push_all(out, labels, relations, updates),
    }
}

/// A source's transaction.
fn push_trans(
    out: &mut String,
    labels: &Labels<'_>,
    relations: &[RelationForm],
    transaction: &Trans,
) -> Result<(), AllocError>
    ensures { OnOk result (string_bytes out.new ≡ string_bytes out.old
        ++ compact_text (transaction_data labels.now relations.now transaction.now)) }
{
    push_transaction(out, labels, relations, &transaction.items)
}

/// Transactions, each behind a comma.
fn push_transactions_behind(
    out: &mut String,
    labels: &Labels<'_>,
    relations: &[RelationForm],
    work: &[Trans],
) -> Result<(), AllocError>
    ensures { OnOk result (string_bytes out.new ≡ string_bytes out.old
        ++ behind_commas (map (transaction_data labels.now relations.now) work.now)) }
{
    for transaction in work {
        out.push(',')?;
        push_trans(out, labels, relations, transaction)?;
    }
    Ok(())
}

/// A list of transactions: the first one, and the others.
fn push_some_transactions(
    out: &mut String,
    labels: &Labels<'_>,
    relations: &[RelationForm],
    first: &Trans,
    rest: &[Trans],
) -> Result<(), AllocError>
    ensures { OnOk result (string_bytes out.new ≡ string_bytes out.old ++ compact_text
        (list_data (transaction_data labels.now relations.now first.now
        ∷ map (transaction_data labels.now relations.now) rest.now))) }
{
    push_plain(out, "[")?;
    push_trans(out, labels, relations, first)?;
    push_transactions_behind(out, labels, relations, rest)?;
    push_plain(out, "]")
}

/// A list of transactions.
pub(crate) fn push_transactions(
    out: &mut String,
    labels: &Labels<'_>,
    relations: &[RelationForm],
    work: &[Trans],
) -> Result<(), AllocError>
    ensures { OnOk result (string_bytes out.new ≡ string_bytes out.old
        ++ compact_text (list_data (map (transaction_data labels.now relations.now) work.now))) }
{
    match work {
        [] => out.push_str("[]"),
        [first, rest @ ..] => push_some_transactions(out, labels, relations, first, rest),
    }
}
