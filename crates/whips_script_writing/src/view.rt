//! Views.
ghost use Rattle.std.specs.Prelude.{◌≡◌, ◌++◌, [], ◌∷◌, IfOk, OnOk, Some, string_bytes, map, option_and_then, slice_get};
ghost use Rattle.std.specs.Option.{option_copied};
ghost use Rattle.json.specs.Print.{quoted};
ghost use Rattle.serde_json.specs.Data.{string};
ghost use Rattle.serde_json.specs.View.{items_of};
ghost use Rattle.serde_json.specs.Written.{compact_text, items_text};
ghost use Rattle.whips_reports.specs.Lines.{name_at};
ghost use Rattle.whips_relation_reading.specs.Relations.{relation_names};
ghost use Rattle.whips_script_writing.specs.Objects.{list_data, text_list};
ghost use Rattle.whips_script_writing.specs.Views.{comparison_text, column_in, column_text, equality_data, condition_data, view_data};

use crate::labels::{Labels, name_at};
use crate::relation::push_value;
use crate::text::{push_comma, push_member, push_number, push_plain, push_quoted};
use std::alloc::{AllocError, Global};
use whips_model::{Cmp, ColRef, Cond};
use whips_reading::Member;
use whips_relation_reading::RelationForm;
use whips_view::ViewDef;

/// The relations of a script, and the numbers of those of a view.
#[derive(Drop)]
struct Columns<'a> {
    relations: &'a [RelationForm],
    numbers: &'a [u32],
}

fn comparison_text(cmp: Cmp) -> &'static str
    ensures { result.now ≡ comparison_text cmp }
{
    match cmp {
        Cmp::Eq => "=",
        Cmp::Ne => "!=",
        Cmp::Lt => "<",
        Cmp::Le => "<=",
        Cmp::Gt => ">",
        Cmp::Ge => ">=",
    }
}

/// The relation of a part of the view.
fn relation_at<'a>(columns: &Columns<'a>, part: u32) -> Option<&'a RelationForm>
    ensures { option_copied result ≡ option_and_then (slice_get columns.now.relations.now)
        (slice_get columns.now.numbers.now part) }
{
    match columns.numbers.get(part as usize) {
        Some(number) => columns.relations.get(*number as usize),
        None => None,
    }
}

/// The name of a column with its relation's.
fn qualified(alloc: Global, form: &RelationForm, col: u32) -> Result<String, AllocError>
    ensures { IfOk result (λ s. string_bytes s ≡ column_in (Some form.now) col) }
{
    let mut name = String::from_str(alloc, form.name().as_str())?;
    name.push('.')?;
    name.push_str(name_at(form.columns(), col))?;
    Ok(name)
}

fn column_text(alloc: Global, columns: &Columns<'_>, at: ColRef) -> Result<String, AllocError>
    ensures { IfOk result (λ s. string_bytes s
        ≡ column_text columns.now.relations.now columns.now.numbers.now at) }
{
    match relation_at(columns, at.part) {
        Some(form) => qualified(alloc, form, at.col),
        None => Ok(String::new(alloc)),
    }
}

/// The name of a column.
fn push_column(out: &mut String, columns: &Columns<'_>, at: ColRef) -> Result<(), AllocError>
    ensures { OnOk result (string_bytes out.new ≡ string_bytes out.old ++ compact_text
        (string (column_text columns.now.relations.now columns.now.numbers.now at))) }
{
    let name = column_text(*out.allocator(), columns, at)?;
    push_quoted(out, name.as_str())
}

/// Columns, behind a comma where something stands before, and the end of their list.
fn push_columns_from(
    out: &mut String,
    columns: &Columns<'_>,
    list: &[ColRef],
    later: bool,
) -> Result<(), AllocError>
    ensures { OnOk result (string_bytes out.new ≡ string_bytes out.old
        ++ items_text later (items_of (map string
        (map (column_text columns.now.relations.now columns.now.numbers.now) list.now)))) }
{
    match list {
        [] => out.push(']'),
        [first, rest @ ..] => {
            push_comma(out, later)?;
            push_column(out, columns, *first)?;
            push_columns_from(out, columns, rest, true)
        }
    }
}

/// Equalities, behind a comma where something stands before, and the end of their list.
fn push_equal_from(
    out: &mut String,
    columns: &Columns<'_>,
    list: &[(ColRef, ColRef)],
    later: bool,
) -> Result<(), AllocError>
    ensures { OnOk result (string_bytes out.new ≡ string_bytes out.old
        ++ items_text later (items_of
        (map (equality_data columns.now.relations.now columns.now.numbers.now) list.now))) }
{
    match list {
        [] => out.push(']'),
        [(left, right), rest @ ..] => {
            push_comma(out, later)?;
            out.push('[')?;
            push_column(out, columns, *left)?;
            out.push(',')?;
            push_column(out, columns, *right)?;
            out.push(']')?;
            push_equal_from(out, columns, rest, true)
        }
    }
}

/// The column of a condition and its comparison, before its constant.
fn push_test(out: &mut String, columns: &Columns<'_>, cond: Cond) -> Result<(), AllocError>
    ensures { OnOk result (string_bytes out.new ≡ string_bytes out.old
        ++ 91 ∷ (quoted (column_text columns.now.relations.now columns.now.numbers.now cond.at)
        ++ 44 ∷ (quoted (comparison_text cond.cmp) ++ 44 ∷ []))) }
{
    out.push('[')?;
    push_column(out, columns, cond.at)?;
    out.push(',')?;
    push_quoted(out, comparison_text(cond.cmp))?;
    out.push(',')
}

/// A condition.
fn push_condition(
    out: &mut String,
    labels: &Labels<'_>,
    columns: &Columns<'_>,
    cond: Cond,
) -> Result<(), AllocError>
    ensures { OnOk result (string_bytes out.new ≡ string_bytes out.old ++ compact_text
        (condition_data labels.now columns.now.relations.now columns.now.numbers.now cond)) }
{
    push_test(out, columns, cond)?;
    push_value(out, labels, cond.code, cond.kind)?;
    out.push(']')
}

/// Conditions, behind a comma where something stands before, and the end of their list.
fn push_conditions_from(
    out: &mut String,
    labels: &Labels<'_>,
    columns: &Columns<'_>,
    list: &[Cond],
    later: bool,
) -> Result<(), AllocError>
    ensures { OnOk result (string_bytes out.new ≡ string_bytes out.old
        ++ items_text later (items_of (map
        (condition_data labels.now columns.now.relations.now columns.now.numbers.now) list.now))) }
{
    match list {
        [] => out.push(']'),
        [first, rest @ ..] => {
            push_comma(out, later)?;
            push_condition(out, labels, columns, *first)?;
            push_conditions_from(out, labels, columns, rest, true)
        }
    }
}

/// The names of relations, behind a comma where something stands before, and the end of their list.
fn push_relations_from(
    out: &mut String,
    relations: &[RelationForm],
    numbers: &[u32],
    later: bool,
) -> Result<(), AllocError>
    ensures { OnOk result (string_bytes out.new ≡ string_bytes out.old ++ items_text later
        (items_of (map string (map (name_at (relation_names relations.now)) numbers.now)))) }
{
    match numbers {
        [] => out.push(']'),
        [first, rest @ ..] => {
            push_comma(out, later)?;
            push_quoted(out, relation_name(relations, *first))?;
            push_relations_from(out, relations, rest, true)
        }
    }
}

/// The name of the relation, or no text where it isn't there.
fn relation_name(relations: &[RelationForm], number: u32) -> &str
    ensures { result.now ≡ name_at (relation_names relations.now) number }
{
    match relations.get(number as usize) {
        Some(form) => form.name().as_str(),
        None => "",
    }
}

/// A view over relations of a script, with its name and its slots.
#[derive(Drop)]
pub(crate) struct NamedView<'a> {
    pub(crate) relations: &'a [RelationForm],
    pub(crate) name: &'a str,
    pub(crate) view: &'a ViewDef,
    pub(crate) slots: u32,
}

/// The relations of a script, and the numbers of those of the view.
fn columns_of<'a>(form: &NamedView<'a>) -> Columns<'a>
    ensures relations { result.relations.now ≡ form.now.relations.now }
    ensures numbers { result.numbers.now ≡ form.now.view.now.parts.relations }
{
    Columns {
        relations: form.relations,
        numbers: form.view.parts().relations(),
    }
}

/// The out columns of a view.
fn push_out(out: &mut String, form: &NamedView<'_>) -> Result<(), AllocError>
    ensures { OnOk result (string_bytes out.new ≡ string_bytes out.old ++ compact_text (text_list
        (map (column_text form.now.relations.now form.now.view.now.parts.relations)
        form.now.view.now.parts.out))) }
{
    out.push('[')?;
    push_columns_from(out, &columns_of(form), form.view.parts().out(), false)
}

/// The equalities of a view.
fn push_equal(out: &mut String, form: &NamedView<'_>) -> Result<(), AllocError>
    ensures { OnOk result (string_bytes out.new ≡ string_bytes out.old ++ compact_text (list_data
        (map (equality_data form.now.relations.now form.now.view.now.parts.relations)
        form.now.view.now.parts.equal))) }
{
    out.push('[')?;
    push_equal_from(out, &columns_of(form), form.view.parts().equal(), false)
}

/// The conditions of a view.
fn push_conditions(
    out: &mut String,
    labels: &Labels<'_>,
    form: &NamedView<'_>,
) -> Result<(), AllocError>
    ensures { OnOk result (string_bytes out.new ≡ string_bytes out.old ++ compact_text (list_data (map
        (condition_data labels.now form.now.relations.now form.now.view.now.parts.relations)
        form.now.view.now.parts.conds))) }
{
    out.push('[')?;
    push_conditions_from(
        out,
        labels,
        &columns_of(form),
        form.view.parts().conds(),
        false,
    )
}

/// The names of the relations of a view.
fn push_relations(out: &mut String, form: &NamedView<'_>) -> Result<(), AllocError>
    ensures { OnOk result (string_bytes out.new ≡ string_bytes out.old ++ compact_text (text_list
        (map (name_at (relation_names form.now.relations.now)) form.now.view.now.parts.relations))) }
{
    out.push('[')?;
    push_relations_from(out, form.relations, form.view.parts().relations(), false)
}

/// A view with its name and its slots.
pub(crate) fn push_view(
    out: &mut String,
    labels: &Labels<'_>,
    form: &NamedView<'_>,
) -> Result<(), AllocError>
    ensures { OnOk result (string_bytes out.new ≡ string_bytes out.old ++ compact_text (view_data
        labels.now form.now.relations.now form.now.name.now form.now.view.now form.now.slots)) }
{
    push_plain(out, "{")?;
    push_member(out, false, Member::Equal)?;
    push_equal(out, form)?;
    push_member(out, true, Member::Name)?;
    push_quoted(out, form.name)?;
    push_member(out, true, Member::Out)?;
    push_out(out, form)?;
    push_member(out, true, Member::Relations)?;
    push_relations(out, form)?;
    push_member(out, true, Member::Slots)?;
    push_number(out, form.slots as u64)?;
    push_member(out, true, Member::Where)?;
    push_conditions(out, labels, form)?;
    push_plain(out, "}")
}
