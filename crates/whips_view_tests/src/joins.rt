//! Answers that are found by the columns that a view joins.
ghost use Rattle.std.specs.Prelude.{◌≡◌, [], ◌∷◌, length, IfOk};
ghost use Rattle.whips_choices.specs.Partials.{seed};

use std::alloc::Global;
use whips_fixtures::{Parts, at, relations, view};
use whips_query::{Partial, Partials, extend};
use whips_rel::{NoMemory, Tuple};
use whips_view::{Db, ViewDef, ViewErr};

/// Three relations in a line: relation 0 is joined to relation 1, and relation 1 to relation 2.
fn line(alloc: Global) -> Result<ViewDef, ViewErr>
    ensures { IfOk result (λ v. length v.bases ≡ 3) }
{
    view(
        alloc,
        Parts {
            relations: &[0, 1, 2],
            homes: &[3, 3, 2],
            equal: &[(at(0, 1), at(1, 0)), (at(2, 1), at(1, 1))],
            conds: &[],
            out: &[at(0, 0), at(1, 0), at(2, 0)],
        },
    )
}

/// The rows of relations 0 and 1. Those of relation 1 with the code 5 are joined to three of relation 0, in mixed order.
fn rows(alloc: Global) -> Result<Db, NoMemory> {
    let first = &[(7, 9), (8, 4), (2, 3), (1, 9)];
    Ok(Db::of(relations(alloc, &[first, &[(9, 5), (4, 6), (3, 5)], &[]])?))
}

/// The tuple (4, 5) of relation 2 alone.
fn begun(alloc: Global, view: &ViewDef) -> Result<Partials, NoMemory>
    requires { length view.now.bases ≡ 3 }
    ensures { IfOk result (λ ps. ps ≡ seed 3 2 (4 ∷ 5 ∷ []) ∷ []) }
{
    let tuple = Tuple::from_slice(alloc, &[4, 5])?;
    Partials::seed(alloc, view, 2, &[tuple])
}

/// The answer of relation 1 and then of relation 0, each joined to what is filled.
fn joined(alloc: Global, view: &ViewDef, begun: &Partials, db: &Db) -> Result<Partials, NoMemory>
    requires bases { length view.now.bases ≡ 3 }
    requires begun { begun.now ≡ seed 3 2 (4 ∷ 5 ∷ []) ∷ [] }
{
    extend(alloc, view, &[1, 0], begun, db)
}

/// The answer of relation 0 and then of relation 1, where only relation 1 is joined to what is filled.
fn ahead(alloc: Global, view: &ViewDef, begun: &Partials, db: &Db) -> Result<Partials, NoMemory>
    requires bases { length view.now.bases ≡ 3 }
    requires begun { begun.now ≡ seed 3 2 (4 ∷ 5 ∷ []) ∷ [] }
{
    extend(alloc, view, &[0, 1], begun, db)
}

/// The key of the tuple at the part.
fn key(partial: &Partial, part: u32) -> u64 {
    match partial.get(part) {
        Some(tuple) => tuple.code_in(0),
        None => 0,
    }
}

/// Whether the tuples at parts 0 and 1 have these keys, choice by choice.
fn have_keys(partials: &Partials, keys: &[(u64, u64)]) -> bool {
    partials.len() == keys.len()
        && partials.as_slice().iter().zip(keys).all(|(found, wanted)| (key(found, 0), key(found, 1))
            == *wanted)
}

/// Whether both answers have the three choices, in the order of the parts asked.
fn answers(alloc: Global, view: &ViewDef, begun: &Partials, db: &Db) -> Result<[bool; 2], NoMemory>
    requires bases { length view.now.bases ≡ 3 }
    requires begun { begun.now ≡ seed 3 2 (4 ∷ 5 ∷ []) ∷ [] }
{
    let joined = joined(alloc, view, begun, db)?;
    let ahead = ahead(alloc, view, begun, db)?;
    Ok([
        have_keys(&joined, &[(2, 3), (1, 9), (7, 9)]),
        have_keys(&ahead, &[(1, 9), (2, 3), (7, 9)]),
    ])
}

/// The same from the view alone.
fn answers_of(alloc: Global, view: &ViewDef) -> Result<[bool; 2], NoMemory>
    requires { length view.now.bases ≡ 3 }
{
    let begun = begun(alloc, view)?;
    let db = rows(alloc)?;
    answers(alloc, view, &begun, &db)
}

fn line_answers(alloc: Global) -> Result<[bool; 2], ViewErr> {
    let view = line(alloc)?;
    Ok(answers_of(alloc, &view)?)
}

#[test]
fn joins_are_answered_in_order(rt: HostRuntime) {
    let found = line_answers(rt.alloc());
    assert!(rt; found == Ok([true; 2]), "{found:?}");
}
