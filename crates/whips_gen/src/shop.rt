//! The shop of made scripts, as a setup.
ghost use Rattle.std.specs.Prelude.{◌≡◌, [], ◌∷◌, IfOk};
ghost use Rattle.whips_model.specs.Tuples.{AreColumns};
ghost use Rattle.whips_view.specs.ViewDefs.{view_of};
ghost use Rattle.whips_gen.specs.Shop.{column, order_columns, item_columns, shop_columns, shop_tables, lines_parts, big_parts, shop};

use std::alloc::Global;
use whips_rel::{Kind, Kinds, NoMemory, Places, Relation, Schema};
use whips_setup::{Setup, SetupErr};
use whips_view::{Cmp, ColRef, Cond, Conds, Equalities, Outs, ViewDef, ViewErr, ViewParts};

/// The source of each relation: orders are at the first, items at the second.
const HOMES: [u32; 2] = [0, 1];

/// How many slots each view has.
const SLOTS: [u32; 2] = [128, 128];

/// Number columns, of which the first is the key.
fn schema(alloc: Global, kinds: &[Kind]) -> Result<Schema, NoMemory>
    requires { AreColumns kinds.now (0 ∷ []) }
    ensures { IfOk result (λ s. s ≡ record { kinds = kinds.now; key = 0 ∷ [] }) }
{
    let kinds = Kinds::of(Vec::from_slice(alloc, kinds)?);
    Ok(Schema::make(kinds, Places::of(Vec::from_slice(alloc, &[0])?)))
}

/// Number, item and quantity of an order.
pub(crate) fn order_schema(alloc: Global) -> Result<Schema, NoMemory>
    ensures { IfOk result (λ s. s ≡ order_columns) }
{
    schema(alloc, &[Kind::Number, Kind::Number, Kind::Number])
}

/// An item and its bin.
pub(crate) fn item_schema(alloc: Global) -> Result<Schema, NoMemory>
    ensures { IfOk result (λ s. s ≡ item_columns) }
{
    schema(alloc, &[Kind::Number, Kind::Number])
}

/// The schemas of orders and items.
fn schemas(alloc: Global) -> Result<Vec<Schema>, NoMemory>
    ensures { IfOk result (λ s. s.items ≡ shop_columns) }
{
    let mut schemas = Vec::new(alloc);
    schemas.push(order_schema(alloc)?)?;
    schemas.push(item_schema(alloc)?)?;
    Ok(schemas)
}

/// Orders and items, of which there are none.
fn relations(alloc: Global) -> Result<Vec<Relation>, NoMemory>
    ensures { IfOk result (λ r. r.items ≡ shop_tables) }
{
    let mut relations = Vec::new(alloc);
    relations.push(Relation::new(alloc, order_schema(alloc)?)?)?;
    relations.push(Relation::new(alloc, item_schema(alloc)?)?)?;
    Ok(relations)
}

/// The column of this relation of a view.
const fn column(part: u32, col: u32) -> ColRef
    ensures { result ≡ column part col }
{
    ColRef { part, col }
}

/// The parts of the view of each order with the bin of its item.
fn lines_parts(alloc: Global) -> Result<ViewParts, NoMemory>
    ensures { IfOk result (λ p. p ≡ lines_parts) }
{
    let equal = [(column(0, 1), column(1, 0))];
    let out = [column(0, 0), column(1, 0), column(1, 1), column(0, 2)];
    Ok(ViewParts {
        relations: Places::of(Vec::from_slice(alloc, &[0, 1])?),
        homes: Places::of(Vec::from_slice(alloc, &HOMES)?),
        equal: Equalities::of(Vec::from_slice(alloc, &equal)?),
        conds: Conds::of(Vec::new(alloc)),
        out: Outs::of(Vec::from_slice(alloc, &out)?),
    })
}

/// The parts of the view of the orders of a quantity of 50 or more.
fn big_parts(alloc: Global) -> Result<ViewParts, NoMemory>
    ensures { IfOk result (λ p. p ≡ big_parts) }
{
    let conds = [Cond {
        at: column(0, 2),
        cmp: Cmp::Ge,
        code: 50,
        kind: Kind::Number,
    }];
    let out = [column(0, 0), column(0, 1), column(0, 2)];
    Ok(ViewParts {
        relations: Places::of(Vec::from_slice(alloc, &[0])?),
        homes: Places::of(Vec::from_slice(alloc, &[0])?),
        equal: Equalities::of(Vec::new(alloc)),
        conds: Conds::of(Vec::from_slice(alloc, &conds)?),
        out: Outs::of(Vec::from_slice(alloc, &out)?),
    })
}

/// The view of these parts, which nothing refuses.
fn lines_view(alloc: Global, schemas: &Vec<Schema>) -> Result<ViewDef, NoMemory>
    requires { schemas.now.items ≡ shop_columns }
    ensures { IfOk result (λ v. v ≡ view_of shop_columns lines_parts) }
{
    match ViewDef::make(alloc, schemas, lines_parts(alloc)?) {
        Ok(view) => Ok(view),
        Err(ViewErr::NoMemory) => Err(NoMemory),
        Err(_) => unreachable!(),
    }
}

/// The view of these parts, which nothing refuses.
fn big_view(alloc: Global, schemas: &Vec<Schema>) -> Result<ViewDef, NoMemory>
    requires { schemas.now.items ≡ shop_columns }
    ensures { IfOk result (λ v. v ≡ view_of shop_columns big_parts) }
{
    match ViewDef::make(alloc, schemas, big_parts(alloc)?) {
        Ok(view) => Ok(view),
        Err(ViewErr::NoMemory) => Err(NoMemory),
        Err(_) => unreachable!(),
    }
}

/// The views of the shop.
fn views(alloc: Global, schemas: &Vec<Schema>) -> Result<Vec<ViewDef>, NoMemory>
    requires { schemas.now.items ≡ shop_columns }
    ensures { IfOk result (λ v. v.items
        ≡ view_of shop_columns lines_parts ∷ view_of shop_columns big_parts ∷ []) }
{
    let mut views = Vec::new(alloc);
    views.push(lines_view(alloc, schemas)?)?;
    views.push(big_view(alloc, schemas)?)?;
    Ok(views)
}

/// The shop.
pub(crate) fn shop(alloc: Global) -> Result<Setup, NoMemory>
    ensures { IfOk result (λ s. s ≡ shop) }
{
    let schemas = schemas(alloc)?;
    let views = views(alloc, &schemas)?;
    let relations = relations(alloc)?;
    let homes = Vec::from_slice(alloc, &HOMES)?;
    let slots = Vec::from_slice(alloc, &SLOTS)?;
    match Setup::make(schemas, homes, relations, views, slots, 2) {
        Ok(setup) => Ok(setup),
        Err(SetupErr::NoMemory) => Err(NoMemory),
        Err(_) => unreachable!(),
    }
}
