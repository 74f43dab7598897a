//! The steps of a query, and its answers.
ghost use Rattle.std.specs.Prelude.{◌≡◌, [], ◌∷◌, length, map, IfOk};
ghost use Rattle.whips_choices.specs.Partials.{seed};
ghost use Rattle.whips_fixtures.specs.Pairs.{pair_columns};

use std::alloc::Global;
use whips_fixtures::{Parts, are_rows, at, relations, view};
use whips_query::{Partial, Partials, Step, extend, project, steps};
use whips_rel::{NoMemory, Relation, Tuple};
use whips_view::{Cmp, Cond, Db, Kind, ViewDef, ViewErr};

/// Relation 0 at source 3 and relation 1 at source 2 with one code in their second columns, where the first column of
/// relation 1 is at most 7.
fn join(alloc: Global) -> Result<ViewDef, ViewErr>
    ensures { IfOk result (λ v. length v.bases ≡ 2) }
{
    let most = Cond {
        at: at(1, 0),
        cmp: Cmp::Le,
        code: 7,
        kind: Kind::Number,
    };
    view(
        alloc,
        Parts {
            relations: &[0, 1],
            homes: &[3, 2],
            equal: &[(at(0, 1), at(1, 1))],
            conds: &[most],
            out: &[at(0, 0), at(1, 0), at(0, 1)],
        },
    )
}

/// Relation 0 alone.
fn single(alloc: Global) -> Result<ViewDef, ViewErr>
    ensures { IfOk result (λ v. v.bases ≡ pair_columns ∷ []) }
{
    view(
        alloc,
        Parts {
            relations: &[0],
            homes: &[0],
            equal: &[],
            conds: &[],
            out: &[at(0, 1), at(0, 0)],
        },
    )
}

/// Whether source 2 is asked in one step, for part 1.
fn is_second_asked(steps: &[Step]) -> bool {
    match steps {
        [step] => (step.source == 2) & (step.parts.as_slice() == [1].as_slice()),
        _ => false,
    }
}

fn asks_second(alloc: Global, view: &ViewDef) -> Result<bool, NoMemory> {
    let steps = steps(alloc, view, 0)?;
    Ok(is_second_asked(&steps))
}

/// One partial choice of a view, with this tuple at part 0.
fn one(alloc: Global, view: &ViewDef, codes: &[u64]) -> Result<Partials, NoMemory>
    requires { length view.now.bases ≡ 2 }
    ensures { IfOk result (λ ps. ps ≡ seed 2 0 codes.now ∷ []) }
{
    let tuple = Tuple::from_slice(alloc, codes)?;
    Partials::seed(alloc, view, 0, &[tuple])
}

/// The answer of part 1 to this partial choice.
fn answer(alloc: Global, view: &ViewDef, begun: &Partials, db: &Db) -> Result<Partials, NoMemory>
    requires bases { length view.now.bases ≡ 2 }
    requires begun { begun.now ≡ seed 2 0 (1 ∷ 5 ∷ []) ∷ [] }
{
    extend(alloc, view, &[1], begun, db)
}

/// The codes of the tuple at the part.
fn codes(partial: &Partial, part: u32) -> &[u64] {
    match partial.get(part) {
        Some(tuple) => tuple.codes(),
        None => &[],
    }
}

/// Whether one partial choice is there, of these tuples.
fn is_choice(partials: &Partials, left: &[u64], right: &[u64]) -> bool {
    match partials.as_slice() {
        [only] => (codes(only, 0) == left) & (codes(only, 1) == right) & (only.len() == 2),
        _ => false,
    }
}

/// Whether the tuple (1, 5) of relation 0 finds the tuple (6, 5) of relation 1.
fn finds(alloc: Global, view: &ViewDef, db: &Db) -> Result<bool, NoMemory>
    requires { length view.now.bases ≡ 2 }
{
    let begun = one(alloc, view, &[1, 5])?;
    let found = answer(alloc, view, &begun, db)?;
    Ok(is_choice(&found, &[1, 5], &[6, 5]))
}

/// The same where relation 1 has (8, 5), (7, 4) and (6, 5), and relation 0 has no row.
fn finds_among_three(alloc: Global, view: &ViewDef) -> Result<bool, NoMemory>
    requires { length view.now.bases ≡ 2 }
{
    let db = Db::of(relations(alloc, &[&[], &[(8, 5), (7, 4), (6, 5)]])?);
    finds(alloc, view, &db)
}

/// Whether the tuple (1, 5) is alone there, at part 0 of two, by each call.
fn is_begun(partials: &Partials) -> bool
    requires { partials.now ≡ seed 2 0 (1 ∷ 5 ∷ []) ∷ [] }
{
    (partials.len() == 1)
        & (partials.get(0, 0).map(|t| t.code(1)) == Some(5))
        & partials.get(0, 1).is_none()
        & (codes(partials.at(0), 0) == [1, 5].as_slice())
        & is_choice(partials, &[1, 5], &[])
}

/// The first partial choice of these, copied.
fn copied(alloc: Global, begun: &Partials) -> Result<Partials, NoMemory>
    requires { begun.now ≡ seed 2 0 (1 ∷ 5 ∷ []) ∷ [] }
    ensures { IfOk result (λ ps. ps ≡ seed 2 0 (1 ∷ 5 ∷ []) ∷ []) }
{
    let mut partials = Partials::new(alloc);
    partials.push(begun, 0)?;
    Ok(partials)
}

/// Whether the copy of such a partial choice is as it is.
fn is_copied(alloc: Global, view: &ViewDef) -> Result<bool, NoMemory>
    requires { length view.now.bases ≡ 2 }
{
    let begun = one(alloc, view, &[1, 5])?;
    let partials = copied(alloc, &begun)?;
    Ok(is_begun(&partials))
}

/// The rows of a view of one relation that the tuples (4, 1) and (2, 3) give.
fn rows_of_single(alloc: Global, view: &ViewDef) -> Result<Relation, NoMemory>
    requires { view.now.bases ≡ pair_columns ∷ [] }
{
    let first = Tuple::from_slice(alloc, &[4, 1])?;
    let second = Tuple::from_slice(alloc, &[2, 3])?;
    let partials = Partials::seed(alloc, view, 0, &[first, second])?;
    project(alloc, view, &partials)
}

/// Whether the rows of the view are those of these tuples, in the order of their keys.
fn has_rows(alloc: Global, view: &ViewDef) -> Result<bool, ViewErr>
    requires { view.now.bases ≡ pair_columns ∷ [] }
{
    let rows = rows_of_single(alloc, view)?.tuples()?;
    Ok(are_rows(rows.as_slice(), &[&[3, 2], &[1, 4]]))
}

/// Whether the join asks its second source, finds what it is to find, and copies partial choices.
fn checks(alloc: Global, view: &ViewDef) -> Result<[bool; 3], ViewErr>
    requires { length view.now.bases ≡ 2 }
{
    let asks = asks_second(alloc, view)?;
    let finds = finds_among_three(alloc, view)?;
    Ok([asks, finds, is_copied(alloc, view)?])
}

fn join_checks(alloc: Global) -> Result<[bool; 3], ViewErr> {
    let view = join(alloc)?;
    checks(alloc, &view)
}

#[test]
fn a_join_is_asked_and_answered(rt: HostRuntime) {
    let found = join_checks(rt.alloc());
    assert!(rt; found == Ok([true; 3]), "{found:?}");
}

fn single_has_rows(alloc: Global) -> Result<bool, ViewErr> {
    let view = single(alloc)?;
    has_rows(alloc, &view)
}

#[test]
fn rows_in_order_of_keys(rt: HostRuntime) {
    assert!(rt; single_has_rows(rt.alloc()) == Ok(true));
}
