//! A view with its name and its slots.
ghost use Rattle.std.specs.Prelude.{◌≡◌, ◌≤◌, IfOk, length};
ghost use Rattle.serde_json.specs.View.{view};
ghost use Rattle.whips_reading.specs.declared.place.Member.TheVariants as member;
ghost use Rattle.whips_reading.specs.Places.{path_steps};
ghost use Rattle.whips_reading.specs.Reading.{Answers, within, within_or, number_within};
ghost use Rattle.whips_reading.specs.Names.{fresh_name};
ghost use Rattle.whips_view_reading.specs.Views.{with_keys, keyed_choice, parts_with, default_slots, named_view, numbers_in, parts_in, view_in};

use crate::choice::{Choice, read_choice};
use crate::columns::view_columns;
use crate::keys::are_keys_out;
use crate::relations::{homes_of, read_relations};
use serde_json::Value;
use std::alloc::Global;
use std::marker::Model;
use whips_reading::{
    Code, Member, ObjectForm, Path, ReadErr, Text, in_member, object, optional, read_fresh_name,
    read_number, refuse, required,
};
use whips_rel::{NoMemory, Places};
use whips_relation_reading::RelationForm;
use whips_texts::Dict;
use whips_value::{Conds, Equalities, Outs, ViewParts};

/// The slots of a view where the script doesn't say.
const DEFAULT_SLOTS: u32 = 1024;

/// The most slots of a view.
const MOST_SLOTS: u64 = 4096;

/// What views are read over.
#[derive(Drop)]
pub struct Basis<'a> {
    /// The relations of the script.
    pub relations: &'a [RelationForm],
    /// The source of each relation.
    pub homes: &'a [u32],
    /// The texts of the script.
    pub texts: &'a Dict,
}

impl<'a> Model for Basis<'a> {
    ghost use Rattle.whips_view_reading.specs.Views.{Basis as BasisData};

    ghost Value = { BasisData };

    ghost view = { λ b. record {
      relations = b.relations.now;
      homes = b.homes.now;
      texts = b.texts.now;
    } };
}

/// A view with its name and its slots.
#[derive(Drop)]
pub struct ViewForm {
    /// The view's name.
    pub name: Text,
    /// What the view is made of.
    pub parts: ViewParts,
    /// The number of slots for its versions.
    pub slots: u32,
}

impl Model for ViewForm {
    ghost use Rattle.whips_view_reading.specs.Views.{ViewForm as ViewData};

    ghost Value = { ViewData };

    ghost view = { λ v. record { name = v.name; parts = v.parts; slots = v.slots } };
}

/// The choice, where the keys of these relations are among its out columns.
fn with_keys(
    alloc: Global,
    relations: &[RelationForm],
    numbers: &[u32],
    path: &Path<'_>,
    choice: Choice,
) -> Result<Choice, ReadErr>
    requires { length numbers.now ≤ 4 }
    ensures { Answers (λ c. c) result
        (with_keys relations.now numbers.now (path_steps path.now) choice) }
{
    if are_keys_out(&choice.out, relations, 0, numbers) {
        return Ok(choice);
    }
    Err(refuse(alloc, &in_member(path, Member::Out), Code::Key))
}

/// The equalities, conditions and out columns of a view over these relations.
fn read_keyed_choice(
    alloc: Global,
    basis: &Basis<'_>,
    numbers: &[u32],
    path: &Path<'_>,
    value: &Value,
) -> Result<Choice, ReadErr>
    requires { length numbers.now ≤ 4 }
    ensures { Answers (λ c. c) result (keyed_choice basis.now numbers.now
        (path_steps path.now) (view value.now)) }
{
    let columns = view_columns(alloc, basis.relations, numbers)?;
    let choice = read_choice(alloc, &columns, basis.texts, &*path, value)?;
    with_keys(alloc, basis.relations, numbers, &*path, choice)
}

/// The parts of a view over these relations, with this choice.
fn make_parts(
    alloc: Global,
    basis: &Basis<'_>,
    numbers: Vec<u32>,
    choice: Choice,
) -> Result<ViewParts, NoMemory>
    ensures { IfOk result (λ p. p ≡ parts_with basis.now numbers.items choice) }
{
    let at = homes_of(alloc, basis.homes, &numbers)?;
    let Choice { equal, conds, out } = choice;
    Ok(ViewParts {
        relations: Places::of(numbers),
        homes: Places::of(at),
        equal: Equalities::of(equal),
        conds: Conds::of(conds),
        out: Outs::of(out),
    })
}

/// The relations of a view.
fn read_relations_member(
    alloc: Global,
    basis: &Basis<'_>,
    path: &Path<'_>,
    value: &Value,
) -> Result<Vec<u32>, ReadErr>
    requires { length basis.now.relations ≤ 32 }
    ensures made { Answers (λ n. n.items) result
        (numbers_in basis.now (path_steps path.now) (view value.now)) }
    ensures count { IfOk result (λ n. length n.items ≤ 4) }
{
    let list = required(alloc, path, value, Member::Relations)?;
    read_relations(
        alloc,
        basis.relations,
        &in_member(&*path, Member::Relations),
        list,
    )
}

/// The parts of a view.
fn read_parts(
    alloc: Global,
    basis: &Basis<'_>,
    path: &Path<'_>,
    value: &Value,
) -> Result<ViewParts, ReadErr>
    requires { length basis.now.relations ≤ 32 }
    ensures { Answers (λ p. p) result
        (parts_in basis.now (path_steps path.now) (view value.now)) }
{
    let numbers = read_relations_member(alloc, basis, &*path, value)?;
    let choice = read_keyed_choice(alloc, basis, &numbers, &*path, value)?;
    Ok(make_parts(alloc, basis, numbers, choice)?)
}

/// The name of a view, which isn't one of these.
fn read_name(alloc: Global, taken: &[Text], path: &Path<'_>, value: &Value) -> Result<Text, ReadErr>
    ensures { Answers (λ t. t) result
        (named_view taken.now (path_steps path.now) (view value.now)) }
{
    object(alloc, ObjectForm::View, path, value)?;
    let name = required(alloc, path, value, Member::Name)?;
    let name = read_fresh_name(alloc, taken, &in_member(&*path, Member::Name), name)?;
    Ok(Text::of(alloc, name)?)
}

/// The slots of a view.
fn read_slots(alloc: Global, path: &Path<'_>, value: &Value) -> Result<u32, ReadErr>
    ensures { Answers (λ n. n) result (within_or default_slots member.Slots (number_within 1 4096)
        (path_steps path.now) (view value.now)) }
{
    match optional(value, Member::Slots) {
        Some(slots) => {
            let place = in_member(path, Member::Slots);
            Ok(read_number(alloc, &place, slots, 1, MOST_SLOTS)? as u32)
        }
        None => Ok(DEFAULT_SLOTS),
    }
}

/// A view whose name isn't one of these.
pub fn read_view(
    alloc: Global,
    basis: &Basis<'_>,
    taken: &[Text],
    path: &Path<'_>,
    value: &Value,
) -> Result<ViewForm, ReadErr>
    requires { length basis.now.relations ≤ 32 }
    ensures { Answers (λ v. v) result
        (view_in basis.now taken.now (path_steps path.now) (view value.now)) }
{
    let name = read_name(alloc, taken, &*path, value)?;
    let parts = read_parts(alloc, basis, &*path, value)?;
    let slots = read_slots(alloc, &*path, value)?;
    Ok(ViewForm { name, parts, slots })
}
