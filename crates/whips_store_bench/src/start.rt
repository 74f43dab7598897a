//! The store at version 0.
ghost use Rattle.std.specs.Prelude.{◌≡◌, [], ◌∷◌, IfOk};

use crate::rows::{pair_schema, put};
use crate::stop::Stop;
use std::alloc::Global;
use whips_plain::Plain;
use whips_rel::{NoMemory, Places, Relation, Schema};
use whips_setup::Setup;
use whips_view::{ColRef, Conds, Equalities, Outs, ViewDef, ViewParts};

/// The pairs of this many keys from 0 on, each with its key as its code, or with code 0.
fn first_pairs(alloc: Global, count: u32, is_code: bool) -> Result<Relation, Stop> {
    let mut pairs = Relation::new(alloc, pair_schema(alloc)?)?;
    for key in 0..count {
        let code = if is_code { 0 } else { u64::from(key) };
        put(alloc, &mut pairs, u64::from(key), code)?;
    }
    Ok(pairs)
}

/// The parts of the view: each key of the first relation with the key of the second that it names, and its code.
fn parts(alloc: Global) -> Result<ViewParts, NoMemory> {
    let first = ColRef { part: 0, col: 0 };
    let named = ColRef { part: 0, col: 1 };
    let second = ColRef { part: 1, col: 0 };
    let code = ColRef { part: 1, col: 1 };
    Ok(ViewParts {
        relations: Places::of(vec![in alloc; 0u32, 1u32]?),
        homes: Places::of(vec![in alloc; 0u32, 0u32]?),
        equal: Equalities::of(vec![in alloc; (named, second)]?),
        conds: Conds::of(Vec::new(alloc)),
        out: Outs::of(vec![in alloc; first, second, code]?),
    })
}

/// The list of one item.
pub fn one<T: Drop>(alloc: Global, item: T) -> Result<Vec<T>, NoMemory>
    ensures { IfOk result (λ v. v.items ≡ item ∷ []) }
{
    let mut items = Vec::new(alloc);
    if items.push(item).is_err() {
        return Err(NoMemory);
    }
    Ok(items)
}

/// The list of two items.
fn two<T: Drop>(alloc: Global, first: T, second: T) -> Result<Vec<T>, NoMemory> {
    let mut items = one(alloc, first)?;
    if items.push(second).is_err() {
        return Err(NoMemory);
    }
    Ok(items)
}

/// The view over two relations of these schemas.
fn view(alloc: Global, schemas: &Vec<Schema>) -> Result<ViewDef, Stop> {
    Ok(ViewDef::make(alloc, schemas, parts(alloc)?)?)
}

/// One source with these two relations, and the view over them, with so many slots.
fn setup(alloc: Global, initial: Vec<Relation>, slots: u32) -> Result<Setup, Stop> {
    let schemas = two(alloc, pair_schema(alloc)?, pair_schema(alloc)?)?;
    let views = one(alloc, view(alloc, &schemas)?)?;
    let homes = two(alloc, 0u32, 0u32)?;
    let slots = one(alloc, slots)?;
    Ok(Setup::make(schemas, homes, initial, views, slots, 1)?)
}

/// The store of one view, with this many slots and a row for each but one of them.
pub fn first_store(alloc: Global, slots: u32) -> Result<Plain, Stop> {
    let rows = slots.saturating_sub(1);
    let first = first_pairs(alloc, rows, false)?;
    let second = first_pairs(alloc, rows, true)?;
    let setup = setup(alloc, two(alloc, first, second)?, slots)?;
    Ok(Plain::make(alloc, &setup)?)
}
