//! A join of three relations, worked by hand.
ghost use Rattle.std.specs.Prelude.{◌≡◌, [], ◌∷◌, IfOk, length};

use std::alloc::Global;
use whips_fixtures::{Parts, are_rows, relations, view_parts};
use whips_model::{Cmp, ColRef};
use whips_rel::{NoMemory, Relation};
use whips_value::{ViewParts, compare, value_rows};

const fn at(part: u32, col: u32) -> ColRef {
    ColRef { part, col }
}

/// The keys of three relations whose second columns are joined, each to its neighbour.
fn chain(alloc: Global) -> Result<ViewParts, NoMemory>
    ensures { IfOk result (λ p. p.relations ≡ 0 ∷ 1 ∷ 2 ∷ []) }
{
    view_parts(
        alloc,
        Parts {
            relations: &[0, 1, 2],
            homes: &[0, 1, 2],
            equal: &[(at(0, 1), at(1, 1)), (at(2, 1), at(1, 1))],
            conds: &[],
            out: &[at(0, 0), at(1, 0), at(2, 0)],
        },
    )
}

/// Whether the rows over these relations are the two that join.
fn has_two(alloc: Global, parts: &ViewParts, db: &[Relation]) -> Result<bool, NoMemory>
    requires parts { parts.now.relations ≡ 0 ∷ 1 ∷ 2 ∷ [] }
    requires relations { length db.now ≡ 3 }
{
    let rows = value_rows(alloc, parts, db)?;
    Ok(are_rows(rows.as_slice(), &[&[1, 7, 4], &[1, 9, 4]]))
}

fn joins(alloc: Global) -> Result<bool, NoMemory> {
    let parts = chain(alloc)?;
    let db = relations(
        alloc,
        &[&[(1, 5), (2, 6)], &[(7, 5), (9, 5)], &[(4, 5), (8, 6)]],
    )?;
    has_two(alloc, &parts, &db)
}

#[test]
fn rows_of_a_chain_of_joins(rt: HostRuntime) {
    assert!(rt; matches!(joins(rt.alloc()), Ok(true)));
}

#[test]
fn codes_compare(rt: HostRuntime) {
    let cases = [
        (Cmp::Eq, [false, true, false]),
        (Cmp::Ne, [true, false, true]),
        (Cmp::Lt, [true, false, false]),
        (Cmp::Le, [true, true, false]),
        (Cmp::Gt, [false, false, true]),
        (Cmp::Ge, [false, true, true]),
    ];
    for (cmp, wanted) in cases {
        let found = [compare(cmp, 4, 5), compare(cmp, 5, 5), compare(cmp, 5, 4)];
        assert!(rt; found == wanted);
    }
}
