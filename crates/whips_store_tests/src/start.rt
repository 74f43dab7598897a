//! Stores of two views at version 0.
use std::alloc::Global;
use whips_fixtures::{Parts, SetupParts, setup};
use whips_model::ColRef;
use whips_plain::Plain;
use whips_setup::{Setup, SetupErr};

/// The view of all of relation 0.
fn all() -> Parts<'static> {
    Parts {
        relations: &[0],
        homes: &[0],
        equal: &[],
        conds: &[],
        out: &[ColRef { part: 0, col: 0 }, ColRef { part: 0, col: 1 }],
    }
}

/// The setup of one relation of the rows (1, 5) and (2, 5) and two views of all of it, with so many slots.
fn two_views(alloc: Global, slots: &[u32; 2]) -> Result<Setup, SetupErr> {
    setup(
        alloc,
        SetupParts {
            sources: 1,
            homes: &[0],
            rows: &[&[(1, 5), (2, 5)]],
            views: &[all(), all()],
            slots,
        },
    )
}

/// The store of this setup, of which so many versions stay readable.
pub fn store(alloc: Global, slots: &[u32; 2], versions: u32) -> Result<Plain, SetupErr> {
    let setup = two_views(alloc, slots)?.with_versions(versions)?;
    match Plain::make(alloc, &setup) {
        Ok(store) => Ok(store),
        Err(_) => Err(SetupErr::NoMemory),
    }
}
