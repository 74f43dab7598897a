//! Views, and what they are refused for.
use std::alloc::Global;
use whips_fixtures::{Parts, minus, plus, schema, transaction, update, view_over};
use whips_rel::{NoMemory, Schema, Trans, Tuple, Update};
use whips_view::{Cmp, ColRef, Cond, Kind, ViewDef, ViewErr};

const fn at(part: u32, col: u32) -> ColRef {
    ColRef { part, col }
}

/// The schemas of relation 0, of two numbers, and of relation 1, of a number and a text.
fn schemas(alloc: Global) -> Result<Vec<Schema>, NoMemory> {
    let mut schemas = Vec::new(alloc);
    schemas.push(schema(alloc, &[Kind::Number, Kind::Number], &[0])?)?;
    schemas.push(schema(alloc, &[Kind::Number, Kind::Text], &[0])?)?;
    Ok(schemas)
}

fn view(alloc: Global, from: Parts) -> Result<ViewDef, ViewErr> {
    let schemas = schemas(alloc)?;
    view_over(alloc, &schemas, from)
}

/// The view of these relations, each at the source of its own number.
fn parts<'a>(
    relations: &'a [u32],
    equal: &'a [(ColRef, ColRef)],
    conds: &'a [Cond],
    out: &'a [ColRef],
) -> Parts<'a> {
    Parts {
        relations,
        homes: relations,
        equal,
        conds,
        out,
    }
}

fn is_refused(alloc: Global, from: Parts, wanted: ViewErr) -> bool {
    match view(alloc, from) {
        Ok(_) => false,
        Err(error) => error == wanted,
    }
}

#[test]
fn refused_views(rt: HostRuntime) {
    let keys = [at(0, 0), at(1, 0)];
    let key = [at(0, 0)];
    let mixed = [(at(0, 1), at(1, 1))];
    let text = [Cond {
        at: at(0, 1),
        cmp: Cmp::Eq,
        code: 0,
        kind: Kind::Text,
    }];
    let cases = [
        (parts(&[0, 1], &[], &[], &[]), ViewErr::Limit),
        (parts(&[7, 7], &[], &[], &keys), ViewErr::NoRelation(7)),
        (parts(&[0, 0], &[], &[], &keys), ViewErr::TwiceUsed(0)),
        (parts(&[0], &mixed, &[], &keys), ViewErr::NoColumn(at(1, 1))),
        (parts(&[0, 1], &mixed, &[], &keys), ViewErr::Kinds),
        (parts(&[0], &[], &text, &key), ViewErr::Kinds),
        (parts(&[1, 0], &[], &[], &key), ViewErr::KeyMissing(0, 0)),
    ];
    for (from, wanted) in cases {
        assert!(rt; is_refused(rt.alloc(), from, wanted), "{wanted:?}");
    }
}

/// Relation 0, where the second column is at least 10.
fn high(alloc: Global) -> Result<ViewDef, ViewErr> {
    let least = [Cond {
        at: at(0, 1),
        cmp: Cmp::Ge,
        code: 10,
        kind: Kind::Number,
    }];
    view(alloc, parts(&[0], &[], &least, &[at(0, 0), at(0, 1)]))
}

/// Whether the update concerns the view exactly where its tuple is met, as is wanted.
fn is_met(view: &ViewDef, update: &Update, wanted: bool) -> bool {
    (view.meets(0, update.tuple()) == wanted) & (view.concerns(update) == wanted)
}

/// Whether the insertion of the pair concerns the view, as is wanted.
fn insertion_is_met(
    alloc: Global,
    view: &ViewDef,
    pair: (u64, u64),
    wanted: bool,
) -> Result<bool, NoMemory> {
    let update = update(alloc, plus(0, pair))?;
    Ok(is_met(view, &update, wanted))
}

/// Whether one part and tuple are there, these.
fn is_one(tuples: &[(u32, Tuple)], part: u32, codes: &[u64]) -> bool {
    match tuples {
        [(at, tuple)] => (*at == part) & (tuple.codes() == codes),
        _ => false,
    }
}

/// Whether the transaction takes the key 3.
fn takes(view: &ViewDef, t: &Trans) -> Result<bool, NoMemory> {
    let taken = view.taken(t)?;
    Ok(is_one(&taken, 0, &[3]))
}

/// Whether the transaction gives the tuple (3, 12).
fn gives(view: &ViewDef, t: &Trans) -> Result<bool, NoMemory> {
    let given = view.given(t)?;
    Ok(is_one(&given, 0, &[3, 12]))
}

/// Whether a transaction that puts (3, 12) in the place of (3, 11) gives and takes so.
fn replaces(alloc: Global, view: &ViewDef) -> Result<bool, NoMemory> {
    let t = transaction(alloc, &[minus(0, (3, 11)), plus(0, (3, 12))])?;
    Ok(view.touches(&t) & takes(view, &t)? & gives(view, &t)?)
}

/// Whether a low pair doesn't concern the view, a high one does, and a replaced one is given and taken.
fn checks(alloc: Global, view: &ViewDef) -> Result<[bool; 3], ViewErr> {
    let low = insertion_is_met(alloc, view, (2, 9), false)?;
    let high = insertion_is_met(alloc, view, (2, 10), true)?;
    Ok([low, high, replaces(alloc, view)?])
}

fn high_checks(alloc: Global) -> Result<[bool; 3], ViewErr> {
    let view = high(alloc)?;
    checks(alloc, &view)
}

#[test]
fn updates_concern_a_view_by_their_tuples(rt: HostRuntime) {
    let found = high_checks(rt.alloc());
    assert!(rt; found == Ok([true; 3]), "{found:?}");
}

/// The view of the second column, which is the key.
fn key_view(alloc: Global) -> Result<ViewDef, ViewErr> {
    let mut schemas = Vec::new(alloc);
    let schema = schema(alloc, &[Kind::Number, Kind::Number], &[1])?;
    if schemas.push(schema).is_err() {
        return Err(ViewErr::NoMemory);
    }
    view_over(alloc, &schemas, parts(&[0], &[], &[], &[at(0, 1)]))
}

/// Whether the view has one column, which is the key, of the second column of its relation.
fn is_of_key(view: &ViewDef) -> bool {
    (view.schema().kinds() == [Kind::Number].as_slice())
        & (view.schema().key() == [0].as_slice())
        & (view.parts().out() == [at(0, 1)].as_slice())
}

fn is_copied(alloc: Global) -> Result<bool, ViewErr> {
    let copy = key_view(alloc)?.copy()?;
    Ok(is_of_key(&copy))
}

#[test]
fn a_view_is_copied(rt: HostRuntime) {
    assert!(rt; is_copied(rt.alloc()) == Ok(true));
}
