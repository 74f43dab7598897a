//! Worked messages as data, and the transactions and replies that they stand for. A tuple is its key and its code.
ghost use Rattle.std.specs.Prelude.{◌≡◌, ◌≢◌, ◌<◌, ◌≤◌, ◌∷◌, [], length, IfOk};
ghost use Rattle.std.specs.List.{AllByRecursion};
ghost use Rattle.whips_choices.specs.Partials.{seed};
ghost use Rattle.whips_lists.specs.Members.{AreDistinct};
ghost use Rattle.whips_fixtures.specs.Pairs.{pair_columns, ArePairs};

use std::alloc::Global;
use whips_fixtures::{minus, no_pairs, plus, transaction as made};
use whips_query::{Partials, Reply, extend};
use whips_rel::{InsertErr, NoMemory, Relation, Trans, Tuple};
use whips_view::{Db, ViewDef};

/// The updates of one transaction.
#[derive(Clone, Copy)]
pub enum Change {
    /// The tuple comes into the relation of this number.
    Insert(u32, (u64, u64)),
    /// The tuple goes from it.
    Delete(u32, (u64, u64)),
    /// The first tuple goes from it, and the second comes.
    Replace(u32, (u64, u64), (u64, u64)),
}

/// What was found for an inserted tuple: the tuples of these keys that have its code.
#[derive(Clone, Copy)]
pub enum Found {
    /// In relation 0, for a tuple of relation 1.
    InLeft(&'static [u64]),
    /// In relation 1, for a tuple of relation 0.
    InRight(&'static [u64]),
    /// In relation 1 at the first step and in relation 2 at the second, for a tuple of relation 0.
    InBoth(&'static [u64], &'static [u64]),
}

/// What a manager is told.
#[derive(Clone, Copy)]
pub enum Message {
    /// The next transaction.
    Update(Change),
    /// A reply to the query of the transaction with this number, which inserted this tuple.
    Reply(u64, (u64, u64), Found),
}

impl Found {
    /// The relation of the inserted tuple.
    fn origin(self) -> u32 {
        match self {
            Found::InRight(_) | Found::InBoth(..) => 0,
            Found::InLeft(_) => 1,
        }
    }

    /// The step that was asked.
    fn step(self) -> u32 {
        match self {
            Found::InLeft(_) | Found::InRight(_) => 1,
            Found::InBoth(..) => 2,
        }
    }
}

/// The transaction of these updates.
pub fn transaction(alloc: Global, change: Change) -> Result<Trans, NoMemory>
    ensures { IfOk result ArePairs }
{
    match change {
        Change::Insert(relation, new) => made(alloc, &[plus(relation, new)]),
        Change::Delete(relation, old) => made(alloc, &[minus(relation, old)]),
        Change::Replace(relation, old, new) => {
            made(alloc, &[minus(relation, old), plus(relation, new)])
        }
    }
}

/// The tuple of this key and code.
fn tuple(alloc: Global, codes: (u64, u64)) -> Result<Tuple, NoMemory>
    ensures { IfOk result (λ t. t ≡ codes.0 ∷ codes.1 ∷ []) }
{
    Tuple::from_slice(alloc, &[codes.0, codes.1])
}

/// A relation with the tuples of these keys and this code.
fn relation(alloc: Global, keys: &[u64], code: u64) -> Result<Relation, NoMemory> {
    let mut relation = no_pairs(alloc)?;
    for key in keys {
        match relation.insert(tuple(alloc, (*key, code))?) {
            Ok(()) => {}
            Err(InsertErr::Present(_)) | Err(InsertErr::NoMemory(_)) => return Err(NoMemory),
        }
    }
    Ok(relation)
}

/// Relations 0, 1 and 2 as the sources hold them when they are asked.
fn relations(alloc: Global, found: Found, code: u64) -> Result<Db, NoMemory> {
    let (left, right, third) = match found {
        Found::InLeft(keys) => (keys, [].as_slice(), [].as_slice()),
        Found::InRight(keys) => ([].as_slice(), keys, [].as_slice()),
        Found::InBoth(first, second) => ([].as_slice(), first, second),
    };
    let mut relations = Vec::new(alloc);
    relations.push(relation(alloc, left, code)?)?;
    relations.push(relation(alloc, right, code)?)?;
    relations.push(relation(alloc, third, code)?)?;
    Ok(Db::of(relations))
}

/// The inserted tuple at the origin alone.
fn begun(
    alloc: Global,
    view: &ViewDef,
    origin: u32,
    codes: (u64, u64),
) -> Result<Partials, NoMemory>
    requires { origin < length view.now.bases }
    ensures { IfOk result (λ ps. ps
        ≡ seed (length view.now.bases) origin (codes.0 ∷ codes.1 ∷ []) ∷ []) }
{
    let tuple = tuple(alloc, codes)?;
    Partials::seed(alloc, view, origin, &[tuple])
}

/// The inserted tuple at the origin, extended by the tuples of these other parts.
fn extended(
    alloc: Global,
    view: &ViewDef,
    origin: u32,
    codes: (u64, u64),
    parts: &[u32],
    db: &Db,
) -> Result<Partials, NoMemory>
    requires origin { origin < length view.now.bases }
    requires parts { AllByRecursion (λ i. i < length view.now.bases) parts.now }
    requires distinct { AreDistinct parts.now }
    requires others { AllByRecursion (λ i. i ≢ origin) parts.now }
{
    let begun = begun(alloc, view, origin, codes)?;
    extend(alloc, view, parts, &begun, db)
}

/// What was found, as the partial choices of the reply.
fn partials(
    alloc: Global,
    view: &ViewDef,
    codes: (u64, u64),
    found: Found,
) -> Result<Partials, NoMemory>
    requires { 2 ≤ length view.now.bases }
{
    let db = relations(alloc, found, codes.1)?;
    match found {
        Found::InLeft(_) => extended(alloc, view, 1, codes, &[0], &db),
        Found::InBoth(..) if view.parts().relations().len() > 2 => {
            extended(alloc, view, 0, codes, &[1, 2], &db)
        }
        Found::InRight(_) | Found::InBoth(..) => extended(alloc, view, 0, codes, &[1], &db),
    }
}

/// The reply to the manager of view 7 for the query of the transaction that inserted the tuple.
pub fn reply(
    alloc: Global,
    view: &ViewDef,
    transaction: u64,
    codes: (u64, u64),
    found: Found,
) -> Result<Reply, NoMemory>
    requires { 2 ≤ length view.now.bases }
{
    Ok(Reply {
        view: 7,
        update: transaction,
        origin: found.origin(),
        step: found.step(),
        partials: partials(alloc, view, codes, found)?,
    })
}
