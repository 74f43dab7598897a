//! The view and the transactions. `R(a, b)` at source 0 is joined with `S(c, b)` at source 1 by `R.b = S.b`.
ghost use Rattle.std.specs.Prelude.{◌≡◌, ◌<◌, IfOk};
ghost use Rattle.std.specs.Prelude.{[], ◌∷◌, length};
ghost use Rattle.whips_manager_bench.specs.Pairs.{pair_columns, IsOfPairs, ArePairs};
ghost use Rattle.whips_rel.specs.Updates.{tuple_of};

use crate::stop::Stop;
use std::alloc::Global;
use whips_rel::{Kinds, NoMemory, Places, Schema, Trans, Tuple, Update};
use whips_view::{ColRef, Conds, Equalities, Kind, Outs, ViewDef, ViewErr, ViewParts};

fn at(part: u32, col: u32) -> ColRef {
    ColRef { part, col }
}

/// Two number columns, of which the first is the key.
pub fn pairs(alloc: Global) -> Result<Schema, NoMemory>
    ensures { IfOk result (λ s. s ≡ pair_columns) }
{
    let kinds = Kinds::of(vec![in alloc; Kind::Number, Kind::Number]?);
    Ok(Schema::make(kinds, Places::of(vec![in alloc; 0u32]?)))
}

/// The rows `R.a, S.c, R.b` where `R.b = S.b`.
fn join_parts(alloc: Global) -> Result<ViewParts, NoMemory>
    ensures { IfOk result (λ p. p.relations ≡ 0 ∷ 1 ∷ []) }
{
    Ok(ViewParts {
        relations: Places::of(vec![in alloc; 0u32, 1u32]?),
        homes: Places::of(vec![in alloc; 0u32, 1u32]?),
        equal: Equalities::of(vec![in alloc; (at(0, 1), at(1, 1))]?),
        conds: Conds::of(Vec::new(alloc)),
        out: Outs::of(vec![in alloc; at(0, 0), at(1, 0), at(0, 1)]?),
    })
}

/// The view of R and S.
pub fn join(alloc: Global) -> Result<ViewDef, Stop>
    ensures { IfOk result IsOfPairs }
{
    let left = pairs(alloc)?;
    let right = pairs(alloc)?;
    let schemas = vec![in alloc; left, right]?;
    match ViewDef::make(alloc, &schemas, join_parts(alloc)?) {
        Ok(view) => Ok(view),
        Err(ViewErr::NoMemory) => Err(Stop::NoMemory),
        Err(_) => Err(Stop::Refused),
    }
}

/// The pair (a, b).
pub fn pair(alloc: Global, a: u64, b: u64) -> Result<Tuple, NoMemory>
    ensures { IfOk result (λ t. t ≡ a ∷ b ∷ []) }
{
    Tuple::from_slice(alloc, &[a, b])
}

/// Update `i` of `n`. Every other one, from the first, puts the next row (k, k) into R. Those between take a row of S out:
/// of the first as many codes b as there are such updates, the row (2 b, b), from the last code down to 0.
fn update(alloc: Global, i: u64, n: u64) -> Result<Update, NoMemory>
    requires { i < n }
    ensures { IfOk result (λ u. length (tuple_of u) ≡ 2) }
{
    let k = i / 2;
    if i % 2 == 0 {
        return Ok(Update::Insert(0, pair(alloc, k, k)?));
    }
    let b = n / 2 - 1 - k;
    Ok(Update::Delete(1, pair(alloc, 2 * b, b)?))
}

/// Transaction `i` of `n`, which makes update `i` alone.
pub fn transaction(alloc: Global, i: u64, n: u64) -> Result<Trans, NoMemory>
    requires { i < n }
    ensures { IfOk result ArePairs }
{
    let update = update(alloc, i, n)?;
    Ok(Trans {
        items: vec![in alloc; update]?,
    })
}
