//! Tuples, relations and updates.
ghost use Rattle.std.specs.Prelude.{◌≡◌, [], ◌∷◌, IfOk, OnOk, length};
ghost use Rattle.whips_model.specs.declared.Kind.TheVariants.{Number};

use std::alloc::Global;
use std::cmp::Ordering;
use std::collections::HashMap;
use whips_fixtures::{are_rows, minus, schema, transaction};
use whips_rel::{
    Change, DeleteErr, InsertErr, Kind, NoMemory, Relation, Schema, Tuple, TupleBuilder, Tuples,
    Update,
};

/// Whether it is the tuple (7, 5), by each call.
fn is_seven_five(tuple: &Tuple) -> bool
    requires { length tuple.now ≡ 2 }
{
    (tuple.codes() == [7, 5].as_slice()) & (tuple.len() == 2) & (tuple.code(1) == 5)
}

fn comes_before(first: &Tuple, second: &Tuple) -> bool {
    (first.cmp(second) == Ordering::Less) & (first != second)
}

/// Whether the tuple (8) comes behind the tuple.
fn comes_before_eight(alloc: Global, tuple: &Tuple) -> Result<bool, NoMemory> {
    let later = Tuple::from_slice(alloc, &[8])?;
    Ok(comes_before(tuple, &later))
}

/// Whether the tuple (7, 5) and its copy are one.
fn is_read(alloc: Global) -> Result<bool, NoMemory> {
    let tuple = Tuple::from_slice(alloc, &[7, 5])?;
    let copy = tuple.copy()?;
    Ok(is_seven_five(&copy) & (copy == tuple) & comes_before_eight(alloc, &tuple)?)
}

#[test]
fn tuples_are_lists_of_codes(rt: HostRuntime) {
    assert!(rt; matches!(is_read(rt.alloc()), Ok(true)));
}

/// A map with the tuple (8).
fn slots(alloc: Global) -> Result<HashMap<Tuple, u32>, NoMemory> {
    let mut slots = HashMap::new(alloc);
    slots.insert(Tuple::from_slice(alloc, &[8])?, 3u32)?;
    Ok(slots)
}

/// Whether the map has this for the tuple of these codes.
fn has(
    alloc: Global,
    slots: &HashMap<Tuple, u32>,
    codes: &[u64],
    wanted: Option<u32>,
) -> Result<bool, NoMemory> {
    let tuple = Tuple::from_slice(alloc, codes)?;
    Ok(slots.get(&tuple).copied() == wanted)
}

fn are_keys(alloc: Global) -> Result<bool, NoMemory> {
    let slots = slots(alloc)?;
    Ok(has(alloc, &slots, &[8], Some(3))? & has(alloc, &slots, &[7, 5], None)?)
}

#[test]
fn tuples_are_keys_of_a_map(rt: HostRuntime) {
    assert!(rt; matches!(are_keys(rt.alloc()), Ok(true)));
}

/// The tuples (8) and (9), of which the second is cut off.
fn cut(alloc: Global) -> Result<Tuples, NoMemory>
    ensures { IfOk result (λ t. length t ≡ 1) }
{
    let mut tuples = Tuples::new(alloc);
    tuples.push(Tuple::from_slice(alloc, &[8])?)?;
    tuples.push(Tuple::from_slice(alloc, &[9])?)?;
    tuples.truncate(1);
    Ok(tuples)
}

/// Whether the tuple (8) is alone there, by each call.
fn is_eight(tuples: &Tuples) -> bool
    requires { length tuples.now ≡ 1 }
{
    (tuples.len() == 1)
        & (tuples.at(0).codes() == [8].as_slice())
        & are_rows(tuples.as_slice(), &[&[8]])
}

fn is_cut(alloc: Global) -> Result<bool, NoMemory> {
    let tuples = Tuples::of(cut(alloc)?.into_vec());
    Ok(is_eight(&tuples))
}

#[test]
fn lists_of_tuples_grow_and_shrink(rt: HostRuntime) {
    assert!(rt; matches!(is_cut(rt.alloc()), Ok(true)));
}

/// Puts a pair in, and says whether it came in; it doesn't where its key is there.
fn put(alloc: Global, relation: &mut Relation, pair: &[u64; 2]) -> Result<bool, NoMemory>
    requires { relation.old.columns.kinds ≡ Number ∷ Number ∷ [] }
    ensures { OnOk result (relation.new.columns ≡ relation.old.columns) }
{
    match relation.insert(Tuple::from_slice(alloc, pair)?) {
        Ok(()) => Ok(true),
        Err(InsertErr::Present(_)) => Ok(false),
        Err(InsertErr::NoMemory(_)) => Err(NoMemory),
    }
}

/// The pairs (3, 6) and (2, 4), of which the second column is the key.
fn two(alloc: Global) -> Result<Relation, NoMemory>
    ensures { IfOk result (λ r. r.columns.kinds ≡ Number ∷ Number ∷ []) }
{
    let schema = schema(alloc, &[Kind::Number, Kind::Number], &[1])?;
    let mut relation = Relation::new(alloc, schema)?;
    put(alloc, &mut relation, &[3, 6])?;
    put(alloc, &mut relation, &[2, 4])?;
    Ok(relation)
}

/// Whether the rows are these, by each call that reads them, and no other key is there.
fn holds(relation: &Relation, codes: &[&[u64]]) -> Result<bool, NoMemory> {
    let tuples = relation.tuples()?;
    Ok(
        are_rows(tuples.as_slice(), codes)
            & (relation.len() == codes.len())
            & are_found(relation, tuples.as_slice()),
    )
}

/// Whether each of these rows is found by its key.
fn are_found(relation: &Relation, rows: &[Tuple]) -> bool {
    rows.iter().all(|row| relation.get_like(row) == Some(row))
}

/// The row that the key had, once it is deleted.
fn deleted(relation: &mut Relation, key: &Tuple) -> Result<Option<Tuple>, NoMemory> {
    match relation.delete(key) {
        Ok(row) => Ok(Some(row)),
        Err(DeleteErr::Absent) => Ok(None),
        Err(DeleteErr::NoMemory) => Err(NoMemory),
    }
}

fn are_codes(row: Option<&Tuple>, codes: &[u64]) -> bool {
    match row {
        Some(row) => row.codes() == codes,
        None => false,
    }
}

fn are_in_order(alloc: Global) -> Result<bool, NoMemory> {
    let mut relation = two(alloc)?;
    let is_put = put(alloc, &mut relation, &[9, 4])?;
    Ok(!is_put & holds(&relation, &[&[2, 4], &[3, 6]])?)
}

#[test]
fn rows_come_in_key_order(rt: HostRuntime) {
    assert!(rt; matches!(are_in_order(rt.alloc()), Ok(true)));
}

/// Whether the row (3, 6) is read by its key, and the row (2, 4) by its place.
fn is_found(relation: &Relation, key: &Tuple) -> bool {
    relation.len() == 2
        && are_codes(relation.get(key), &[3, 6]) & (relation.row(0).codes() == [2, 4].as_slice())
}

/// Whether deleting the key twice gives its row and then none, and once more changes nothing.
fn goes_once(relation: &mut Relation, key: &Tuple) -> Result<bool, NoMemory> {
    let first = deleted(relation, key)?;
    let second = deleted(relation, key)?;
    relation.delete_if_there(key)?;
    Ok(are_codes(first.as_ref(), &[3, 6]) & second.is_none())
}

/// Whether the key is gone from the relation once it is deleted, and from its copy it isn't.
fn copy_stays(relation: &mut Relation, key: &Tuple) -> Result<bool, NoMemory> {
    let copy = relation.copy()?;
    Ok(
        goes_once(relation, key)?
            & holds(relation, &[&[2, 4]])?
            & holds(&copy, &[&[2, 4], &[3, 6]])?
            & (relation.chunks().len() == 1),
    )
}

fn is_deleted(alloc: Global) -> Result<bool, NoMemory> {
    let mut relation = two(alloc)?;
    let key = Tuple::from_slice(alloc, &[6])?;
    Ok(is_found(&relation, &key) & copy_stays(&mut relation, &key)?)
}

#[test]
fn a_row_is_found_and_deleted_by_its_key(rt: HostRuntime) {
    assert!(rt; matches!(is_deleted(rt.alloc()), Ok(true)));
}

/// The pair (8, 6), put together code by code.
fn eight_six(alloc: Global) -> Result<Tuple, NoMemory> {
    let mut codes = TupleBuilder::new(alloc);
    codes.push(8)?;
    codes.push(6)?;
    codes.finish()
}

/// Whether the row (3, 6) goes by a pair with its key, which once more changes nothing.
fn goes_by_a_pair(alloc: Global) -> Result<bool, NoMemory> {
    let mut relation = two(alloc)?;
    let pair = eight_six(alloc)?;
    relation.delete_like(&pair)?;
    relation.delete_like(&pair)?;
    holds(&relation, &[&[2, 4]])
}

#[test]
fn a_row_is_deleted_by_a_tuple_with_its_key(rt: HostRuntime) {
    assert!(rt; matches!(goes_by_a_pair(rt.alloc()), Ok(true)));
}

/// Puts the keys below 600 in, in an order that leaps by 7.
fn put_many(alloc: Global, relation: &mut Relation) -> Result<(), NoMemory>
    requires { relation.old.columns.kinds ≡ Number ∷ Number ∷ [] }
{
    for i in 0..600u64 {
        put(alloc, relation, &[i, i * 7 % 600])?;
    }
    Ok(())
}

/// Whether the keys of the rows are the numbers from 0 on.
fn rise_from_zero(rows: &[Tuple]) -> bool {
    rows.iter()
        .enumerate()
        .all(|(i, row)| row.codes().last() == Some(&(i as u64)))
}

fn are_many(alloc: Global, relation: &mut Relation) -> Result<bool, NoMemory>
    requires { relation.old.columns.kinds ≡ Number ∷ Number ∷ [] }
{
    put_many(alloc, relation)?;
    let rows = relation.tuples()?;
    Ok((rows.len() == 600) & rise_from_zero(rows.as_slice()))
}

fn fill(alloc: Global) -> Result<bool, NoMemory> {
    let schema = schema(alloc, &[Kind::Number, Kind::Number], &[1])?;
    let mut relation = Relation::new(alloc, schema)?;
    are_many(alloc, &mut relation)
}

#[test]
fn many_rows_come_in_key_order(rt: HostRuntime) {
    assert!(rt; matches!(fill(rt.alloc()), Ok(true)));
}

fn is_deletion(update: &Update) -> bool {
    (update.relation() == 3) & (update.tuple().codes() == [7, 7].as_slice())
}

fn names_its_parts(alloc: Global) -> Result<bool, NoMemory> {
    let trans = transaction(alloc, &[minus(3, (7, 7))])?;
    let _change = Change::Remove(Tuple::from_slice(alloc, &[7])?);
    Ok(trans.items.len() == 1 && trans.items.iter().all(|u| is_deletion(u)))
}

#[test]
fn an_update_names_its_relation_and_tuple(rt: HostRuntime) {
    assert!(rt; matches!(names_its_parts(rt.alloc()), Ok(true)));
}

/// Whether the key of the row (7, 5) is (5).
fn is_key(alloc: Global, schema: &Schema) -> Result<bool, NoMemory>
    requires { schema.now ≡ record { kinds = Number ∷ Number ∷ []; key = 1 ∷ [] } }
{
    let row = Tuple::from_slice(alloc, &[7, 5])?;
    let key = schema.key_of(&row)?;
    Ok(key.codes() == [5].as_slice())
}

fn has_key(alloc: Global) -> Result<bool, NoMemory> {
    let schema = schema(alloc, &[Kind::Number, Kind::Number], &[1])?;
    is_key(alloc, &schema)
}

#[test]
fn a_key_is_read_from_a_row(rt: HostRuntime) {
    assert!(rt; matches!(has_key(rt.alloc()), Ok(true)));
}
