//! Setups over relations of pairs.
ghost use Rattle.std.specs.Prelude.{◌≡◌, length, IfOk};

use crate::lists::numbers;
use crate::rows::{pair_schema, relations};
use crate::views::{Parts, view};
use std::alloc::Global;
use whips_rel::{NoMemory, Schema};
use whips_setup::{Setup, SetupErr};
use whips_view::ViewDef;

/// A setup as slices.
#[derive(Clone, Copy)]
pub struct SetupParts<'a> {
    /// The number of sources.
    pub sources: u32,
    /// The source of each relation.
    pub homes: &'a [u32],
    /// The pairs of each relation.
    pub rows: &'a [&'a [(u64, u64)]],
    /// The views.
    pub views: &'a [Parts<'a>],
    /// The number of slots of each view.
    pub slots: &'a [u32],
}

/// As many schemas of pairs as there are relations.
fn schemas(alloc: Global, relations: &[&[(u64, u64)]]) -> Result<Vec<Schema>, NoMemory> {
    let mut schemas = Vec::new(alloc);
    for _ in relations {
        schemas.push(pair_schema(alloc)?)?;
    }
    Ok(schemas)
}

/// The views of these parts.
fn views(alloc: Global, from: &[Parts]) -> Result<Vec<ViewDef>, NoMemory>
    ensures { IfOk result (λ v. length v.items ≡ length from.now) }
{
    let mut views = Vec::new(alloc);
    for parts in from {
        match view(alloc, *parts) {
            Ok(view) => views.push(view)?,
            Err(_) => return Err(NoMemory),
        }
    }
    Ok(views)
}

/// The setup of these relations of pairs and views.
pub fn setup(alloc: Global, from: SetupParts) -> Result<Setup, SetupErr>
    ensures sources { IfOk result (λ s. s.sources ≡ from.entry.sources) }
    ensures views { IfOk result (λ s. length s.views ≡ length from.entry.views.now) }
{
    let schemas = schemas(alloc, from.rows)?;
    let initial = relations(alloc, from.rows)?;
    let views = views(alloc, from.views)?;
    let homes = numbers(alloc, from.homes)?;
    let slots = numbers(alloc, from.slots)?;
    Setup::make(schemas, homes, initial, views, slots, from.sources)
}
