//! The setup. Two sources have a relation each, and each of two views is over both relations.
ghost use Rattle.std.specs.Prelude.{◌≡◌, length, IfOk};

use crate::stop::Stop;
use std::alloc::Global;
use whips_rel::{Kind, Kinds, NoMemory, Places, Relation, Schema};
use whips_setup::Setup;
use whips_view::{ColRef, Conds, Equalities, Outs, ViewDef, ViewErr, ViewParts};

/// One number column, which is the key.
fn keys(alloc: Global) -> Result<Schema, NoMemory> {
    let kinds = Kinds::of(vec![in alloc; Kind::Number]?);
    Ok(Schema::make(kinds, Places::of(vec![in alloc; 0u32]?)))
}

/// Each row of the one relation beside each row of the other one.
fn both_parts(alloc: Global) -> Result<ViewParts, NoMemory> {
    let first = ColRef { part: 0, col: 0 };
    let second = ColRef { part: 1, col: 0 };
    Ok(ViewParts {
        relations: Places::of(vec![in alloc; 0u32, 1u32]?),
        homes: Places::of(vec![in alloc; 0u32, 1u32]?),
        equal: Equalities::of(Vec::new(alloc)),
        conds: Conds::of(Vec::new(alloc)),
        out: Outs::of(vec![in alloc; first, second]?),
    })
}

fn both(alloc: Global, schemas: &Vec<Schema>) -> Result<ViewDef, Stop> {
    match ViewDef::make(alloc, schemas, both_parts(alloc)?) {
        Ok(view) => Ok(view),
        Err(ViewErr::NoMemory) => Err(Stop::NoMemory),
        Err(_) => Err(Stop::Refused),
    }
}

fn two_views(alloc: Global, schemas: &Vec<Schema>) -> Result<Vec<ViewDef>, Stop>
    ensures { IfOk result (λ views. length views.items ≡ 2) }
{
    let left = both(alloc, schemas)?;
    let right = both(alloc, schemas)?;
    Ok(vec![in alloc; left, right]?)
}

fn two_relations(alloc: Global) -> Result<Vec<Relation>, NoMemory> {
    let left = Relation::new(alloc, keys(alloc)?)?;
    let right = Relation::new(alloc, keys(alloc)?)?;
    Ok(vec![in alloc; left, right]?)
}

/// The setup of both sources and both views.
pub fn setup(alloc: Global) -> Result<Setup, Stop>
    ensures { IfOk result (λ setup. length setup.views ≡ 2) }
{
    let left = keys(alloc)?;
    let right = keys(alloc)?;
    let schemas = vec![in alloc; left, right]?;
    let views = two_views(alloc, &schemas)?;
    let relations = two_relations(alloc)?;
    let homes = vec![in alloc; 0u32, 1u32]?;
    let slots = vec![in alloc; 4u32, 4u32]?;
    Ok(Setup::make(schemas, homes, relations, views, slots, 2)?)
}
