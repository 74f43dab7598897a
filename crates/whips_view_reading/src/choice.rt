//! The equalities, conditions and out columns of a view.
ghost use Rattle.std.specs.Prelude.{◌≡◌, [], ◌+◌, ◌<◌, ◌^◌, map, length};
ghost use Rattle.serde_json.specs.View.{view};
ghost use Rattle.whips_reading.specs.declared.place.Member.TheVariants as member;
ghost use Rattle.whips_reading.specs.Places.{path_steps};
ghost use Rattle.whips_reading.specs.Reading.{Answers, in_turn, within, within_or};
ghost use Rattle.whips_view.specs.Refusals.{is_same_kind};
ghost use Rattle.whips_view_reading.specs.Choices.{equality_added, comparison_of, comparison_in, condition_added, out_added, equalities_in, conditions_in, out_in, choice_in};

use crate::columns::{ViewColumn, read_column};
use serde_json::Value;
use std::alloc::Global;
use std::marker::Model;
use whips_model::{Cmp, ColRef, Cond, Kind};
use whips_reading::{
    Code, Member, Path, ReadErr, elements, in_element, in_member, optional, pair, read_text,
    refuse, required, triple,
};
use whips_texts::{Dict, read_value};

/// What a view's equalities, conditions and out columns are read over.
#[derive(Drop)]
pub(crate) struct Scope<'a> {
    /// The columns of the view's relations.
    pub(crate) columns: &'a [ViewColumn],
    /// The texts of the script.
    pub(crate) texts: &'a Dict,
}

impl<'a> Model for Scope<'a> {
    ghost use Rattle.whips_view_reading.specs.Choices.{Scope as ScopeData};

    ghost Value = { ScopeData };

    ghost view = { λ s. record { columns = s.columns.now; texts = s.texts.now } };
}

/// What a view's rows must meet, and what of them is shown.
#[derive(Drop)]
pub(crate) struct Choice {
    pub equal: Vec<(ColRef, ColRef)>,
    pub conds: Vec<Cond>,
    pub out: Vec<ColRef>,
}

impl Model for Choice {
    ghost use Rattle.whips_view_reading.specs.Choices.{Choice as ChoiceData};

    ghost Value = { ChoiceData };

    ghost view = { λ c. record {
      equal = c.equal.items;
      conds = c.conds.items;
      out = c.out.items;
    } };
}

fn is_same_kind(left: Kind, right: Kind) -> bool
    ensures { result ≡ is_same_kind left right }
{
    match left {
        Kind::Number => match right {
            Kind::Number => true,
            Kind::Text => false,
        },
        Kind::Text => match right {
            Kind::Number => false,
            Kind::Text => true,
        },
    }
}

/// Adds an equality, a pair of columns of one kind.
fn read_equality(
    alloc: Global,
    columns: &[ViewColumn],
    equal: &mut Vec<(ColRef, ColRef)>,
    path: &Path<'_>,
    value: &Value,
) -> Result<(), ReadErr>
    ensures { Answers (λ _. equal.new.items) result (equality_added columns.now
        equal.old.items (path_steps path.now) (view value.now)) }
{
    let (left, right) = pair(alloc, path, value)?;
    let left = read_column(alloc, columns, &in_element(&*path, 0), left)?;
    let right = read_column(alloc, columns, &in_element(&*path, 1), right)?;
    if !is_same_kind(left.kind(), right.kind()) {
        return Err(refuse(alloc, path, Code::Value));
    }
    equal.push((left.at(), right.at()))?;
    Ok(())
}

/// The comparison that the text is.
fn comparison_of(text: &str) -> Option<Cmp>
    ensures { result ≡ comparison_of text.now }
{
    match text {
        "=" => Some(Cmp::Eq),
        "!=" => Some(Cmp::Ne),
        "<" => Some(Cmp::Lt),
        "<=" => Some(Cmp::Le),
        ">" => Some(Cmp::Gt),
        ">=" => Some(Cmp::Ge),
        _ => None,
    }
}

/// A comparison.
fn read_comparison(alloc: Global, path: &Path<'_>, value: &Value) -> Result<Cmp, ReadErr>
    ensures { Answers (λ c. c) result (comparison_in (path_steps path.now) (view value.now)) }
{
    let text = read_text(alloc, path, value)?;
    match comparison_of(text) {
        Some(cmp) => Ok(cmp),
        None => Err(refuse(alloc, path, Code::Shape)),
    }
}

/// Adds a condition: a column, a comparison, and a value of the column's kind.
fn read_condition(
    alloc: Global,
    scope: &Scope<'_>,
    conds: &mut Vec<Cond>,
    path: &Path<'_>,
    value: &Value,
) -> Result<(), ReadErr>
    ensures { Answers (λ _. conds.new.items) result (condition_added scope.now.columns
        scope.now.texts conds.old.items (path_steps path.now) (view value.now)) }
{
    let (column, comparison, value) = triple(alloc, path, value)?;
    let column = read_column(alloc, scope.columns, &in_element(&*path, 0), column)?;
    let cmp = read_comparison(alloc, &in_element(&*path, 1), comparison)?;
    let code = read_value(
        alloc,
        scope.texts,
        column.kind(),
        &in_element(&*path, 2),
        value,
    )?;
    conds.push(Cond {
        at: column.at(),
        cmp,
        code,
        kind: column.kind(),
    })?;
    Ok(())
}

/// Adds an out column.
fn read_out_column(
    alloc: Global,
    columns: &[ViewColumn],
    out: &mut Vec<ColRef>,
    path: &Path<'_>,
    value: &Value,
) -> Result<(), ReadErr>
    ensures { Answers (λ _. out.new.items) result (out_added columns.now
        out.old.items (path_steps path.now) (view value.now)) }
{
    let column = read_column(alloc, columns, path, value)?;
    out.push(column.at())?;
    Ok(())
}

/// Adds the equalities.
fn read_equalities(
    alloc: Global,
    columns: &[ViewColumn],
    equal: &mut Vec<(ColRef, ColRef)>,
    path: &Path<'_>,
    value: &Value,
) -> Result<(), ReadErr>
    requires { equal.old.items ≡ [] }
    ensures { Answers (λ _. equal.new.items) result
        (equalities_in columns.now (path_steps path.now) (view value.now)) }
{
    let items = elements(alloc, path, value, 0, 16)?;
    read_equalities_from(columns, equal, path, 0, items)
}

/// Adds equalities, of which the first is element number `i` of the list.
fn read_equalities_from(
    columns: &[ViewColumn],
    equal: &mut Vec<(ColRef, ColRef)>,
    path: &Path<'_>,
    i: usize,
    items: &[Value],
) -> Result<(), ReadErr>
    requires end { i + length items.now < 2 ^ 64 }
    ensures made { Answers (λ _. equal.new.items) result (in_turn (equality_added columns.now)
        (path_steps path.now) i equal.old.items (map view items.now)) }
{
    match items {
        [] => Ok(()),
        [item, rest @ ..] => {
            read_equality(
                *equal.allocator(),
                columns,
                equal,
                &in_element(&*path, i),
                item,
            )?;
            read_equalities_from(columns, equal, &*path, i + 1, rest)
        }
    }
}

/// Adds the conditions.
fn read_conditions(
    alloc: Global,
    scope: &Scope<'_>,
    conds: &mut Vec<Cond>,
    path: &Path<'_>,
    value: &Value,
) -> Result<(), ReadErr>
    requires { conds.old.items ≡ [] }
    ensures { Answers (λ _. conds.new.items) result (conditions_in scope.now.columns
        scope.now.texts (path_steps path.now) (view value.now)) }
{
    let items = elements(alloc, path, value, 0, 16)?;
    read_conditions_from(scope, conds, path, 0, items)
}

/// Adds conditions, of which the first is element number `i` of the list.
fn read_conditions_from(
    scope: &Scope<'_>,
    conds: &mut Vec<Cond>,
    path: &Path<'_>,
    i: usize,
    items: &[Value],
) -> Result<(), ReadErr>
    requires end { i + length items.now < 2 ^ 64 }
    ensures made { Answers (λ _. conds.new.items) result (in_turn
        (condition_added scope.now.columns scope.now.texts) (path_steps path.now) i
        conds.old.items (map view items.now)) }
{
    match items {
        [] => Ok(()),
        [item, rest @ ..] => {
            read_condition(
                *conds.allocator(),
                scope,
                conds,
                &in_element(&*path, i),
                item,
            )?;
            read_conditions_from(scope, conds, &*path, i + 1, rest)
        }
    }
}

/// Adds the out columns.
fn read_out(
    alloc: Global,
    columns: &[ViewColumn],
    out: &mut Vec<ColRef>,
    path: &Path<'_>,
    value: &Value,
) -> Result<(), ReadErr>
    requires { out.old.items ≡ [] }
    ensures { Answers (λ _. out.new.items) result
        (out_in columns.now (path_steps path.now) (view value.now)) }
{
    let items = elements(alloc, path, value, 1, 16)?;
    read_out_from(columns, out, path, 0, items)
}

/// Adds out columns, of which the first is element number `i` of the list.
fn read_out_from(
    columns: &[ViewColumn],
    out: &mut Vec<ColRef>,
    path: &Path<'_>,
    i: usize,
    items: &[Value],
) -> Result<(), ReadErr>
    requires end { i + length items.now < 2 ^ 64 }
    ensures made { Answers (λ _. out.new.items) result (in_turn (out_added columns.now)
        (path_steps path.now) i out.old.items (map view items.now)) }
{
    match items {
        [] => Ok(()),
        [item, rest @ ..] => {
            read_out_column(*out.allocator(), columns, out, &in_element(&*path, i), item)?;
            read_out_from(columns, out, &*path, i + 1, rest)
        }
    }
}

/// Adds the equalities, of which there are none where the member is left out.
fn read_equal_member(
    alloc: Global,
    columns: &[ViewColumn],
    equal: &mut Vec<(ColRef, ColRef)>,
    path: &Path<'_>,
    value: &Value,
) -> Result<(), ReadErr>
    requires { equal.old.items ≡ [] }
    ensures { Answers (λ _. equal.new.items) result (within_or [] member.Equal
        (equalities_in columns.now) (path_steps path.now) (view value.now)) }
{
    match optional(value, Member::Equal) {
        Some(list) => read_equalities(
            alloc,
            columns,
            equal,
            &in_member(&*path, Member::Equal),
            list,
        ),
        None => Ok(()),
    }
}

/// Adds the conditions, of which there are none where the member is left out.
fn read_where_member(
    alloc: Global,
    scope: &Scope<'_>,
    conds: &mut Vec<Cond>,
    path: &Path<'_>,
    value: &Value,
) -> Result<(), ReadErr>
    requires { conds.old.items ≡ [] }
    ensures { Answers (λ _. conds.new.items) result (within_or [] member.Where
        (conditions_in scope.now.columns scope.now.texts) (path_steps path.now)
        (view value.now)) }
{
    match optional(value, Member::Where) {
        Some(list) => read_conditions(alloc, scope, conds, &in_member(&*path, Member::Where), list),
        None => Ok(()),
    }
}

/// Adds the equalities, conditions and out columns of a view.
fn add_choice(
    alloc: Global,
    scope: &Scope<'_>,
    choice: &mut Choice,
    path: &Path<'_>,
    value: &Value,
) -> Result<(), ReadErr>
    requires equal { choice.old.equal ≡ [] }
    requires conds { choice.old.conds ≡ [] }
    requires out { choice.old.out ≡ [] }
    ensures { Answers (λ _. choice.new) result (choice_in scope.now.columns scope.now.texts
        (path_steps path.now) (view value.now)) }
{
    read_equal_member(alloc, scope.columns, &mut choice.equal, path, value)?;
    read_where_member(alloc, scope, &mut choice.conds, path, value)?;
    let out = required(alloc, path, value, Member::Out)?;
    read_out(
        alloc,
        scope.columns,
        &mut choice.out,
        &in_member(&*path, Member::Out),
        out,
    )
}

/// The equalities, conditions and out columns of a view whose relations have these columns.
pub(crate) fn read_choice(
    alloc: Global,
    columns: &[ViewColumn],
    texts: &Dict,
    path: &Path<'_>,
    value: &Value,
) -> Result<Choice, ReadErr>
    ensures { Answers (λ c. c) result
        (choice_in columns.now texts.now (path_steps path.now) (view value.now)) }
{
    let scope = Scope { columns, texts };
    let mut choice = Choice {
        equal: Vec::new(alloc),
        conds: Vec::new(alloc),
        out: Vec::new(alloc),
    };
    add_choice(alloc, &scope, &mut choice, path, value)?;
    Ok(choice)
}
