//! Views.
ghost use Rattle.std.specs.Prelude.{◌≡◌, IfOk};
ghost use Rattle.whips_view.specs.ViewDefs.{view_of};
ghost use Rattle.whips_fixtures.specs.Pairs.{three_columns};

use crate::rows::pair_schemas;
use std::alloc::Global;
use whips_rel::{NoMemory, Places, Schema};
use whips_view::{ColRef, Cond, Conds, Equalities, Outs, ViewDef, ViewErr, ViewParts};

/// The column of this relation of the view.
pub fn at(part: u32, col: u32) -> ColRef
    ensures { result ≡ record { part = part; col = col } }
{
    ColRef { part, col }
}

/// The parts of a view as slices.
#[derive(Clone, Copy)]
pub struct Parts<'a> {
    /// The numbers of its relations.
    pub relations: &'a [u32],
    /// The source of each of these.
    pub homes: &'a [u32],
    /// The columns that have to have one code.
    pub equal: &'a [(ColRef, ColRef)],
    /// The conditions on single columns.
    pub conds: &'a [Cond],
    /// The columns of its rows.
    pub out: &'a [ColRef],
}

/// The parts of a view.
pub fn view_parts(alloc: Global, from: Parts) -> Result<ViewParts, NoMemory>
    ensures { IfOk result (λ p. p ≡ record {
      relations = from.entry.relations.now;
      homes = from.entry.homes.now;
      equal = from.entry.equal.now;
      conds = from.entry.conds.now;
      out = from.entry.out.now;
    }) }
{
    let relations = Places::of(Vec::from_slice(alloc, from.relations)?);
    let homes = Places::of(Vec::from_slice(alloc, from.homes)?);
    let equal = Equalities::of(Vec::from_slice(alloc, from.equal)?);
    let conds = Conds::of(Vec::from_slice(alloc, from.conds)?);
    let out = Outs::of(Vec::from_slice(alloc, from.out)?);
    Ok(ViewParts {
        relations,
        homes,
        equal,
        conds,
        out,
    })
}

/// The view of these parts over relations of these schemas.
pub fn view_over(alloc: Global, schemas: &Vec<Schema>, from: Parts) -> Result<ViewDef, ViewErr>
    ensures { IfOk result (λ v. v ≡ view_of schemas.now.items (record {
      relations = from.entry.relations.now;
      homes = from.entry.homes.now;
      equal = from.entry.equal.now;
      conds = from.entry.conds.now;
      out = from.entry.out.now;
    })) }
{
    ViewDef::make(alloc, schemas, view_parts(alloc, from)?)
}

/// The view of these parts over up to three relations of pairs.
pub fn view(alloc: Global, from: Parts) -> Result<ViewDef, ViewErr>
    ensures { IfOk result (λ v. v ≡ view_of three_columns (record {
      relations = from.entry.relations.now;
      homes = from.entry.homes.now;
      equal = from.entry.equal.now;
      conds = from.entry.conds.now;
      out = from.entry.out.now;
    })) }
{
    let schemas = pair_schemas(alloc)?;
    view_over(alloc, &schemas, from)
}
