//! The views of a script.
ghost use Rattle.std.specs.Prelude.{◌≡◌, ◌≢◌, ◌⊎◌, ◌+◌, ◌<◌, ◌≤◌, ◌^◌, [], IfOk, OnOk, map, length};
ghost use Rattle.serde_json.specs.View.{view};
ghost use Rattle.whips_view.specs.ViewDefs.{HasBases};
ghost use Rattle.whips_reading.specs.Places.{path_steps};
ghost use Rattle.whips_reading.specs.Reading.{Answers, Refuses, in_turn};
ghost use Rattle.whips_relation_reading.specs.Relations.{RelationForm as RelationData};
ghost use Rattle.whips_script_reading.specs.Views.{no_views, tables_of, schemas_of, view_over, slots_suffice, with_view, view_added, views_in};

use serde_json::Value;
use std::alloc::Global;
use std::marker::Model;
use whips_reading::{Code, Member, Path, ReadErr, Text, elements, in_element, in_member, refuse};
use whips_rel::{NoMemory, Relation, Schema};
use whips_relation_reading::RelationForm;
use whips_view::{Db, ViewDef, ViewErr};
use whips_view_reading::{Basis, ViewForm, read_view};

/// Views with their names and the slots of each.
#[derive(Drop)]
pub(crate) struct Views {
    pub(crate) names: Vec<Text>,
    pub(crate) views: Vec<ViewDef>,
    pub(crate) slots: Vec<u32>,
}

impl Model for Views {
    ghost use Rattle.whips_script_reading.specs.Views.{Views as ViewsData};

    ghost Value = { ViewsData };

    ghost view = { λ v. record {
      names = v.names.items;
      views = v.views.items;
      slots = v.slots.items;
    } };
}

impl Views {
    /// No view yet.
    fn new(alloc: Global) -> Views
        ensures { result ≡ no_views }
    {
        Views {
            names: Vec::new(alloc),
            views: Vec::new(alloc),
            slots: Vec::new(alloc),
        }
    }

    /// Puts a view at the end.
    fn add(&mut self, name: Text, view: ViewDef, slots: u32) -> Result<(), NoMemory>
        ensures { OnOk result (self.new ≡ with_view self.old name view slots) }
    {
        self.names.push(name)?;
        self.views.push(view)?;
        self.slots.push(slots)?;
        Ok(())
    }
}

/// The relations with their initial rows.
pub(crate) fn tables_of(
    alloc: Global,
    relations: &[RelationForm],
) -> Result<Vec<Relation>, NoMemory>
    ensures { IfOk result (λ tables. tables.items ≡ tables_of relations.now) }
{
    let mut tables = Vec::with_capacity(alloc, relations.len())?;
    for relation in relations {
        tables.push(relation.relation().copy()?)?;
    }
    Ok(tables)
}

/// The columns of the relations.
pub(crate) fn schemas_of(alloc: Global, relations: &[RelationForm]) -> Result<Vec<Schema>, NoMemory>
    ensures { IfOk result (λ schemas. schemas.items ≡ schemas_of relations.now) }
{
    let mut schemas = Vec::with_capacity(alloc, relations.len())?;
    for relation in relations {
        schemas.push(relation.relation().schema().copy()?)?;
    }
    Ok(schemas)
}

/// What becomes of the refusal of a view's definition.
fn refuse_view(alloc: Global, path: &Path<'_>, error: ViewErr) -> ReadErr
    ensures { ((error ≡ ViewErr.NoMemory) × (result ≡ ReadErr.NoMemory))
        ⊎ ((error ≢ ViewErr.NoMemory) × Refuses result Code.Unbuilt (path_steps path.now)) }
{
    match error {
        ViewErr::NoMemory => ReadErr::NoMemory,
        _ => refuse(alloc, path, Code::Unbuilt),
    }
}

/// What the views of a script are made over.
#[derive(Drop)]
pub(crate) struct Ground<'a> {
    alloc: Global,
    basis: &'a Basis<'a>,
    schemas: Vec<Schema>,
    initial: Db,
}

impl<'a> Model for Ground<'a> {
    ghost use Rattle.std.specs.Prelude.{◌≡◌};
    ghost use Rattle.whips_view_reading.specs.Views.{Basis};
    ghost use Rattle.whips_script_reading.specs.Views.{tables_of, schemas_of};

    ghost Value = { Basis };

    ghost view = { λ g. g.basis.now };

    ghost invariant = { λ g. (g.schemas.items ≡ schemas_of g.basis.now.relations)
        × (g.initial ≡ tables_of g.basis.now.relations) };
}

impl<'a> Ground<'a> {
    /// What views over these relations are made over.
    pub(crate) fn of(alloc: Global, basis: &'a Basis<'a>) -> Result<Ground<'a>, NoMemory>
        ensures { IfOk result (λ g. g ≡ basis.now) }
    {
        let schemas = schemas_of(alloc, basis.relations)?;
        let initial = Db::of(tables_of(alloc, basis.relations)?);
        Ok(Ground {
            alloc,
            basis,
            schemas,
            initial,
        })
    }

    /// The view of these parts.
    fn define(&self, parts: whips_view::ViewParts, path: &Path<'_>) -> Result<ViewDef, ReadErr>
        ensures { Answers (λ v. v) result
            (view_over self.now.relations parts (path_steps path.now)) }
    {
        match ViewDef::make(self.alloc, &self.schemas, parts) {
            Ok(view) => Ok(view),
            Err(error) => Err(refuse_view(self.alloc, path, error)),
        }
    }

    /// Tries the slots of a view.
    fn check_slots(&self, view: &ViewDef, slots: u32, path: &Path<'_>) -> Result<(), ReadErr>
        requires { HasBases view.now (tables_of self.now.relations) }
        ensures { Answers (λ t. t) result
            (slots_suffice self.now.relations view.now slots (path_steps path.now)) }
    {
        if view.value(&self.initial)?.len() <= slots as usize {
            return Ok(());
        }
        Err(refuse(self.alloc, &in_member(&*path, Member::Slots), Code::Limit))
    }

    /// Adds a view.
    fn add_view(&self, views: &mut Views, path: &Path<'_>, value: &Value) -> Result<(), ReadErr>
        requires { length self.now.relations ≤ 32 }
        ensures made { Answers (λ _. views.new) result
            (view_added self.now views.old (path_steps path.now) (view value.now)) }
        ensures count { OnOk result (length views.new.names ≡ length views.old.names + 1) }
    {
        let ViewForm { name, parts, slots } = read_view(
            self.alloc,
            self.basis,
            &views.names,
            &*path,
            value,
        )?;
        let view = self.define(parts, &*path)?;
        self.check_slots(&view, slots, &*path)?;
        views.add(name, view, slots)?;
        Ok(())
    }

    /// Adds views, of which the first is element number `i` of the list.
    fn add_views_from(
        &self,
        views: &mut Views,
        path: &Path<'_>,
        i: usize,
        items: &[Value],
    ) -> Result<(), ReadErr>
        requires few { length self.now.relations ≤ 32 }
        requires end { i + length items.now < 2 ^ 64 }
        ensures made { Answers (λ _. views.new) result (in_turn (view_added self.now)
            (path_steps path.now) i views.old (map view items.now)) }
        ensures count { OnOk result (length views.new.names
            ≡ length views.old.names + length items.now) }
    {
        match items {
            [] => Ok(()),
            [item, rest @ ..] => {
                self.add_view(views, &in_element(&*path, i), item)?;
                self.add_views_from(views, &*path, i + 1, rest)
            }
        }
    }

    /// The 1 to 8 views of a list.
    pub(crate) fn read_views(&self, path: &Path<'_>, value: &Value) -> Result<Views, ReadErr>
        requires { length self.now.relations ≤ 32 }
        ensures made { Answers (λ v. v) result
            (views_in self.now (path_steps path.now) (view value.now)) }
        ensures few { IfOk result (λ v. length v.names ≤ 8) }
    {
        let items = elements(self.alloc, path, value, 1, 8)?;
        let mut views = Views::new(self.alloc);
        self.add_views_from(&mut views, &*path, 0, items)?;
        Ok(views)
    }
}
