//! A view, and its making.
ghost use Rattle.std.specs.Prelude.{◌≡◌, ◌≢◌, ◌<◌, ◌≤◌, ◌+◌, ◌^◌, ◌++◌, length, map, slice_get, slice_index_or, IfOk, IfErr, OnOk, None, Some};
ghost use Rattle.std.specs.Option.{unwrap_or};
ghost use Rattle.whips_model.specs.declared.Kind.TheVariants.{Number};
ghost use Rattle.whips_choices.specs.Places.{place_of, joined, key_places_from};
ghost use Rattle.whips_view.specs.ViewDefs.{view_of, kind_of, no_columns, row_columns, IsWellFormed, HasBases};
ghost use Rattle.whips_model.specs.Relation.{value_of};
ghost use Rattle.whips_view.specs.Refusals.{relation_refusal, refusal_in, refusal_of, limit_refusal, twice_refusal};

use crate::checks::{
    check_conds, check_equal, check_keys, check_lists, check_out, join_one_kind, kind_at,
    test_own_kind,
};
use crate::{Db, ViewErr, ViewParts};
use std::alloc::Global;
use std::marker::Model;
use whips_model::{ColRef, Kind};
use whips_rel::{Kinds, NoMemory, Places, Relation, Rows, Schema};
use whips_value::value_rows;

/// A view over several relations, seen as its parts and the columns of its relations.
#[derive(Drop)]
pub struct ViewDef {
    parts: ViewParts,
    bases: Vec<Schema>,
    schema: Schema,
}

impl Model for ViewDef {
    ghost use Rattle.std.specs.Prelude.{◌≡◌};
    ghost use Rattle.whips_view.specs.ViewDefs.{View, row_columns, IsWellFormed};

    ghost Value = { View };

    ghost view = { λ v. record { parts = v.parts; bases = v.bases.items } };

    ghost invariant = { λ v. IsWellFormed (record { parts = v.parts; bases = v.bases.items })
        × (v.schema ≡ row_columns (record { parts = v.parts; bases = v.bases.items })) };
}

impl ViewDef {
    /// The view of these parts over relations of these schemas, by number. A refusal is the first that holds, in the
    /// order of `ViewErr`, and within one kind at the first place, in the order of relations, equalities (each left
    /// column before the right one), conditions and out columns, and for keys in the order of relations and of their
    /// keys. Want of memory may come at any point.
    pub fn make(alloc: Global, schemas: &Vec<Schema>, parts: ViewParts) -> Result<ViewDef, ViewErr>
        ensures made { IfOk result (λ v. (v ≡ view_of schemas.now.items parts)
            × (refusal_of schemas.now.items parts ≡ None)) }
        ensures refused { IfErr result (λ e. e ≢ ViewErr.NoMemory
            → refusal_of schemas.now.items parts ≡ Some e) }
    {
        check_lists(schemas, &parts)?;
        let bases = bases_of(alloc, schemas, parts.relations())?;
        ViewDef::over(alloc, bases, parts)
    }

    /// The view of these parts over relations of these schemas, in view order.
    fn over(alloc: Global, bases: Vec<Schema>, parts: ViewParts) -> Result<ViewDef, ViewErr>
        requires limits { limit_refusal parts ≡ None }
        requires once { twice_refusal parts.relations ≡ None }
        requires bases { length bases.items ≡ length parts.relations }
        ensures made { IfOk result (λ v. (v ≡ record { parts = parts; bases = bases.items })
            × (refusal_in (record { parts = parts; bases = bases.items }) ≡ None)) }
        ensures refused { IfErr result (λ e. e ≢ ViewErr.NoMemory
            → refusal_in (record { parts = parts; bases = bases.items }) ≡ Some e) }
    {
        check_columns(&bases, &parts)?;
        let schema = row_schema(alloc, &bases, &parts)?;
        Ok(ViewDef {
            parts,
            bases,
            schema,
        })
    }

    /// The columns of the rows: the kinds of the out columns, and as their key the key columns of each relation in view
    /// order, each at its first place among the out columns.
    pub fn schema(&self) -> &Schema
        ensures { result.now ≡ row_columns self.now }
    {
        &self.schema
    }

    /// The parts that the view was made of. They passed all checks.
    pub fn parts(&self) -> &ViewParts
        ensures parts { result.now ≡ self.now.parts }
        ensures sound { IsWellFormed self.now }
    {
        &self.parts
    }

    /// The schema of the relation at this part.
    pub fn base(&self, part: u32) -> &Schema
        requires { part < length self.now.bases }
        ensures { slice_get self.now.bases part ≡ Some result.now }
    {
        &self.bases[part as usize]
    }

    /// The allocator of the view's lists.
    pub(crate) fn alloc(&self) -> Global {
        *self.bases.allocator()
    }

    /// The number of relations.
    pub(crate) fn width(&self) -> u32
        ensures { result ≡ length self.now.bases }
    {
        self.parts().relations().len() as u32
    }

    /// The view's value on all relations by number: the row of each choice of one tuple per relation that meets all
    /// equalities and conditions, in the order of the rows' keys.
    pub fn value(&self, db: &Db) -> Result<Rows, NoMemory>
        requires { HasBases self.now db.now }
        ensures { IfOk result (λ rows. rows
            ≡ record { columns = row_columns self.now; rows = value_of self.now.parts db.now }) }
    {
        let rows = value_rows(self.alloc(), self.parts(), db.relations())?;
        Relation::from_rows(self.schema().copy()?, rows)
    }

    /// The same view again.
    pub fn copy(&self) -> Result<ViewDef, NoMemory>
        ensures { IfOk result (λ v. v ≡ self.now) }
    {
        let mut bases = Vec::with_capacity(*self.bases.allocator(), self.bases.len())?;
        for base in &self.bases {
            bases.push(base.copy()?)?;
        }
        Ok(ViewDef {
            parts: self.parts.copy()?,
            bases,
            schema: self.schema.copy()?,
        })
    }
}

/// The schema of each relation.
fn bases_of(
    alloc: Global,
    schemas: &Vec<Schema>,
    relations: &[u32],
) -> Result<Vec<Schema>, NoMemory>
    requires { relation_refusal (length schemas.now.items) relations.now ≡ None }
    ensures bases { IfOk result (λ b. b.items ≡ map
        (λ r. slice_index_or schemas.now.items r no_columns) relations.now) }
    ensures length { IfOk result (λ b. length b.items ≡ length relations.now) }
{
    let mut bases = Vec::new(alloc);
    add_bases(schemas, relations, &mut bases)?;
    Ok(bases)
}

/// Adds the schema of each relation.
fn add_bases(
    schemas: &Vec<Schema>,
    relations: &[u32],
    bases: &mut Vec<Schema>,
) -> Result<(), NoMemory>
    requires { relation_refusal (length schemas.now.items) relations.now ≡ None }
    ensures { OnOk result (bases.new.items ≡ bases.old.items
        ++ map (λ r. slice_index_or schemas.now.items r no_columns) relations.now) }
{
    match relations {
        [] => Ok(()),
        [relation, relations @ ..] => {
            bases.push(schemas[*relation as usize].copy()?)?;
            add_bases(schemas, relations, bases)
        }
    }
}

/// That all columns are there, that kinds agree, and that no key column is missing from the rows.
fn check_columns(bases: &[Schema], parts: &ViewParts) -> Result<(), ViewErr>
    requires { limit_refusal parts.now ≡ None }
    ensures ok { OnOk result (refusal_in (record { parts = parts.now; bases = bases.now }) ≡ None) }
    ensures refused { IfErr result (λ e. refusal_in
        (record { parts = parts.now; bases = bases.now }) ≡ Some e) }
{
    check_equal(bases, parts.equal())?;
    check_conds(bases, parts.conds())?;
    check_out(bases, parts.out())?;
    if !(join_one_kind(bases, parts.equal()) && test_own_kind(bases, parts.conds())) {
        return Err(ViewErr::Kinds);
    }
    check_keys(parts.out(), 0, parts.relations(), bases)
}

/// The first place of the column among the out columns.
fn place_in(out: &[ColRef], part: u32, column: u32) -> u32
    requires { length out.now ≤ 16 }
    ensures place { result ≡ place_of out.now part column }
    ensures bound { result ≤ length out.now }
{
    match out {
        [] => 0,
        [at, out @ ..] => {
            if at.part == part && at.col == column {
                0
            } else {
                1 + place_in(out, part, column)
            }
        }
    }
}

/// Adds the places of the key columns of the parts from this one on.
fn add_places(
    out: &[ColRef],
    part: u32,
    bases: &[Schema],
    places: &mut Vec<u32>,
) -> Result<(), NoMemory>
    requires out { length out.now ≤ 16 }
    requires parts { part + length bases.now < 2 ^ 32 }
    ensures { OnOk result (places.new.items ≡ places.old.items
        ++ joined (key_places_from out.now part (map (λ b. b.key) bases.now))) }
{
    match bases {
        [] => Ok(()),
        [base, bases @ ..] => {
            for column in base.key() {
                places.push(place_in(out, part, *column))?;
            }
            add_places(out, part + 1, bases, places)
        }
    }
}

/// The kinds of these columns.
fn kinds_of(alloc: Global, bases: &[Schema], out: &[ColRef]) -> Result<Vec<Kind>, NoMemory>
    ensures { IfOk result (λ kinds. kinds.items
        ≡ map (λ at. unwrap_or (kind_of bases.now at) Number) out.now) }
{
    let mut kinds = Vec::new(alloc);
    for at in out {
        kinds.push(kind_at(bases, *at).unwrap_or(Kind::Number))?;
    }
    Ok(kinds)
}

/// The schema of the rows.
fn row_schema(alloc: Global, bases: &[Schema], parts: &ViewParts) -> Result<Schema, NoMemory>
    requires limits { limit_refusal parts.now ≡ None }
    requires bases { length bases.now ≡ length parts.now.relations }
    requires checked { refusal_in (record { parts = parts.now; bases = bases.now }) ≡ None }
    ensures { IfOk result (λ s. s ≡ row_columns (record { parts = parts.now; bases = bases.now })) }
{
    let kinds = kinds_of(alloc, bases, parts.out())?;
    let mut places = Vec::new(alloc);
    add_places(parts.out(), 0, bases, &mut places)?;
    Ok(Schema::make(Kinds::of(kinds), Places::of(places)))
}
