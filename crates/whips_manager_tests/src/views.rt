//! The worked views. Each relation has a key and a code; the tuples that a view joins have one code. Relation 0 is at
//! source 3, relation 1 at source 2 and relation 2 at source 5.
ghost use Rattle.std.specs.Prelude.{◌≡◌, ◌∷◌, [], length, IfOk};
ghost use Rattle.whips_fixtures.specs.Pairs.{pair_columns};

use std::alloc::Global;
use whips_fixtures::{Parts, at, view};
use whips_view::{ViewDef, ViewErr};

/// The keys of the pairs of rows of relations 0 and 1.
pub fn product(alloc: Global) -> Result<ViewDef, ViewErr>
    ensures { IfOk result (λ v. length v.bases ≡ 2) }
{
    view(
        alloc,
        Parts {
            relations: &[0, 1],
            homes: &[3, 2],
            equal: &[],
            conds: &[],
            out: &[at(0, 0), at(1, 0)],
        },
    )
}

/// The join of relations 0 and 1: their keys and the code.
pub fn two(alloc: Global) -> Result<ViewDef, ViewErr>
    ensures { IfOk result (λ v. v.bases ≡ pair_columns ∷ pair_columns ∷ []) }
{
    view(
        alloc,
        Parts {
            relations: &[0, 1],
            homes: &[3, 2],
            equal: &[(at(0, 1), at(1, 1))],
            conds: &[],
            out: &[at(0, 0), at(1, 0), at(0, 1)],
        },
    )
}

/// The join of relations 0, 1 and 2: their keys and the code.
pub fn three(alloc: Global) -> Result<ViewDef, ViewErr>
    ensures { IfOk result (λ v. v.bases ≡ pair_columns ∷ pair_columns ∷ pair_columns ∷ []) }
{
    view(
        alloc,
        Parts {
            relations: &[0, 1, 2],
            homes: &[3, 2, 5],
            equal: &[(at(0, 1), at(1, 1)), (at(1, 1), at(2, 1))],
            conds: &[],
            out: &[at(0, 0), at(1, 0), at(2, 0), at(0, 1)],
        },
    )
}
