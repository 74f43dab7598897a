//! An index of four slots, of which three versions are kept: the row (1, 5) came at version 1 and went at version 2, the row
//! (2, 5) came at version 1 and became (2, 9) at version 2, and two slots are blank.
ghost use Rattle.std.specs.Prelude.{◌≡◌, ◌≤◌, ◌<◌, [], ◌∷◌, length, map, Some, None, IfOk};
ghost use Rattle.whips_fixtures.specs.Pairs.{pair_columns};
ghost use Rattle.whips_net.specs.Made.{change_key};
ghost use Rattle.whips_slot_index.specs.Slots.{all_steps};
ghost use Rattle.whips_slot_index.specs.Indexes.{IsIndex};
ghost use Rattle.whips_store_tests.specs.Worked.{gone_row, replaced_row, four_slots};

use std::alloc::Global;
use whips_fixtures::pair_schema;
use whips_rel::{Change, NoMemory, Schema, Tuple};
use whips_slot_index::{SlotIndex, find_slot, row_shown, slot_shown, versions_used};
use whips_vnl::{Shown, Vrec, changed};

/// The pair (1, 5) came at version 1 and went at version 2.
fn gone(alloc: Global) -> Result<Vrec, NoMemory>
    ensures { IfOk result (λ rec. rec ≡ gone_row) }
{
    let row = Tuple::from_slice(alloc, &[1, 5])?;
    let key = Tuple::from_slice(alloc, &[1])?;
    let rec = changed(None, Change::Add(row), 1, 3);
    Ok(changed(Some(rec), Change::Remove(key), 2, 3))
}

/// The pair (2, 5) came at version 1, and (2, 9) in its place at version 2.
fn replaced(alloc: Global) -> Result<Vrec, NoMemory>
    ensures { IfOk result (λ rec. rec ≡ replaced_row) }
{
    let first = Tuple::from_slice(alloc, &[2, 5])?;
    let second = Tuple::from_slice(alloc, &[2, 9])?;
    let rec = changed(None, Change::Add(first), 1, 3);
    Ok(changed(Some(rec), Change::Replace(second), 2, 3))
}

/// These in two slots, and two blank slots.
fn slots(alloc: Global) -> Result<Vec<Option<Vrec>>, NoMemory>
    ensures { IfOk result (λ r. all_steps r.items ≡ four_slots) }
{
    let mut records = Vec::new(alloc);
    records.push(Some(gone(alloc)?))?;
    records.push(Some(replaced(alloc)?))?;
    records.push(None)?;
    records.push(None)?;
    Ok(records)
}

/// The codes that the slot shows at the version, and what kind of answer that is.
fn shown_at(records: &[Option<Vrec>], i: usize, v: u64) -> Option<(Shown, &[u64])> {
    let slot = records.get(i)?;
    let codes = match row_shown(slot, v, 3) {
        Some(row) => row.codes(),
        None => [].as_slice(),
    };
    Some((kind_shown(slot, v), codes))
}

/// What kind of answer the slot gives at the version, where it keeps no more versions than may be.
fn kind_shown(slot: &Option<Vrec>, v: u64) -> Shown {
    match slot {
        Some(rec) if rec.len() > 3 => Shown::Past,
        _ => slot_shown(slot, v, 3),
    }
}

/// The slots, the versions, and what is shown there.
const SHOWN: [(usize, u64, Shown, &[u64]); 7] = [
    (0, 0, Shown::Nothing, &[]),
    (0, 1, Shown::Row, &[1, 5]),
    (0, 2, Shown::Nothing, &[]),
    (1, 0, Shown::Nothing, &[]),
    (1, 1, Shown::Row, &[2, 5]),
    (1, 2, Shown::Row, &[2, 9]),
    (2, 1, Shown::Nothing, &[]),
];

/// How many of these are shown.
fn count_shown(records: &[Option<Vrec>]) -> usize {
    SHOWN
        .iter()
        .filter(|case| shown_at(records, case.0, case.1) == Some((case.2, case.3)))
        .count()
}

fn count_in_slots(alloc: Global) -> Result<usize, NoMemory> {
    let records = slots(alloc)?;
    Ok(count_shown(&records))
}

#[test]
fn slots_show_rows_at_versions(rt: HostRuntime) {
    assert!(rt; matches!(count_in_slots(rt.alloc()), Ok(7)));
}

#[test]
fn as_many_versions_are_in_use_as_are_kept(rt: HostRuntime) {
    for (n, c, wanted) in [
        (2, 0, (0, 1)),
        (2, 5, (5, 1)),
        (3, 5, (4, 2)),
        (4, 1, (0, 2)),
        (4, 5, (3, 3)),
    ] {
        assert!(rt; versions_used(n, c) == wanted, "{n} of {c}");
    }
}

/// A change of a key.
#[derive(Clone, Copy)]
enum Edit {
    /// A row of this key comes.
    Add(u64),
    /// Another row comes in the place of the key's.
    Replace(u64),
    /// The key's row goes.
    Remove(u64),
}

fn change(alloc: Global, edit: Edit) -> Result<Change, NoMemory> {
    match edit {
        Edit::Add(key) => Ok(Change::Add(Tuple::from_slice(alloc, &[key, 7])?)),
        Edit::Replace(key) => Ok(Change::Replace(Tuple::from_slice(alloc, &[key, 7])?)),
        Edit::Remove(key) => Ok(Change::Remove(Tuple::from_slice(alloc, &[key])?)),
    }
}

/// The key of the change.
fn key_of(schema: &Schema, change: &Change) -> Result<Tuple, NoMemory>
    requires { schema.now ≡ pair_columns }
    ensures { IfOk result (λ key. key ≡ change_key schema.now.key change.now) }
{
    match change {
        Change::Add(row) | Change::Replace(row) if row.len() == 2 => schema.key_of(row),
        Change::Remove(key) => key.copy(),
        _ => Err(NoMemory),
    }
}

/// The slot in which the change is made, as a search through all slots finds it.
fn searched(
    schema: &Schema,
    records: &[Option<Vrec>],
    change: &Change,
    committed: u64,
) -> Option<usize>
    requires records { all_steps records.now ≡ four_slots }
    requires committed { committed < 9 }
{
    find_slot(schema, records, change, 3, committed)
}

/// The slot in which the change is made, as the index finds it and as a search through the slots does.
fn found(
    alloc: Global,
    index: &SlotIndex,
    schema: &Schema,
    records: &[Option<Vrec>],
    edit: Edit,
) -> Result<Option<usize>, NoMemory>
    requires schema { schema.now ≡ pair_columns }
    requires records { all_steps records.now ≡ four_slots }
    requires index { IsIndex schema.now.key (all_steps records.now) index.now }
    requires versions { index.now.versions ≡ 3 }
    requires committed { index.now.committed < 9 }
{
    let change = change(alloc, edit)?;
    let key = key_of(schema, &change)?;
    let slot = index.find_slot(schema, records, &change, &key);
    if slot != searched(schema, records, &change, index.committed()) {
        return Err(NoMemory);
    }
    Ok(slot)
}

/// The insertions of rows of these keys.
fn insertions(alloc: Global, keys: &[u64]) -> Result<Vec<Change>, NoMemory> {
    let mut changes = Vec::new(alloc);
    for key in keys {
        changes.push(change(alloc, Edit::Add(*key))?)?;
    }
    Ok(changes)
}

/// The keys of the changes.
fn keys_of(alloc: Global, schema: &Schema, changes: &[Change]) -> Result<Vec<Tuple>, NoMemory>
    requires { schema.now ≡ pair_columns }
    ensures { IfOk result (λ keys. keys.items ≡ map (change_key schema.now.key) changes.now) }
{
    let mut keys = Vec::new(alloc);
    for change in changes {
        keys.push(key_of(schema, change)?)?;
    }
    Ok(keys)
}

/// Whether there are slots enough for rows of these new keys.
fn has_room(
    alloc: Global,
    index: &SlotIndex,
    schema: &Schema,
    records: &[Option<Vrec>],
    keys: &[u64],
) -> Result<bool, NoMemory>
    requires schema { schema.now ≡ pair_columns }
    requires records { all_steps records.now ≡ four_slots }
    requires index { IsIndex schema.now.key (all_steps records.now) index.now }
    requires versions { index.now.versions ≡ 3 }
    requires committed { index.now.committed < 9 }
{
    let changes = insertions(alloc, keys)?;
    let known = keys_of(alloc, schema, &changes)?;
    Ok(index.has_slots_for(schema, records, &changes, &known))
}

/// The index of the slots at version 2.
fn built(alloc: Global, schema: &Schema, records: &[Option<Vrec>]) -> Result<SlotIndex, NoMemory>
    requires schema { schema.now ≡ pair_columns }
    requires records { all_steps records.now ≡ four_slots }
    ensures index { IfOk result (λ index. IsIndex schema.now.key (all_steps records.now) index) }
    ensures versions { IfOk result (λ index. index.versions ≡ 3) }
    ensures committed { IfOk result (λ index. index.committed ≡ 2) }
{
    SlotIndex::build(alloc, schema, records, 3, 2)
}

/// The index of the slots at version 3, after which nothing has changed.
fn advanced(alloc: Global, schema: &Schema, records: &[Option<Vrec>]) -> Result<SlotIndex, NoMemory>
    requires schema { schema.now ≡ pair_columns }
    requires records { all_steps records.now ≡ four_slots }
    ensures index { IfOk result (λ index. IsIndex schema.now.key (all_steps records.now) index) }
    ensures versions { IfOk result (λ index. index.versions ≡ 3) }
    ensures committed { IfOk result (λ index. index.committed ≡ 3) }
{
    let mut index = built(alloc, schema, records)?;
    index.reserve(1)?;
    index.advance(schema, records)
}

/// Whether the changes are made in these slots.
fn finds_all(
    alloc: Global,
    index: &SlotIndex,
    schema: &Schema,
    records: &[Option<Vrec>],
    cases: &[(Edit, Option<usize>)],
) -> Result<bool, NoMemory>
    requires schema { schema.now ≡ pair_columns }
    requires records { all_steps records.now ≡ four_slots }
    requires index { IsIndex schema.now.key (all_steps records.now) index.now }
    requires versions { index.now.versions ≡ 3 }
    requires committed { index.now.committed < 9 }
{
    let mut all = true;
    for (edit, slot) in cases {
        all &= found(alloc, index, schema, records, *edit)? == *slot;
    }
    Ok(all)
}

/// The row that went is shown at version 1 still, so its slot is its key's and not free.
const AT_TWO: [(Edit, Option<usize>); 4] = [
    (Edit::Add(1), Some(0)),
    (Edit::Replace(2), Some(1)),
    (Edit::Remove(2), Some(1)),
    (Edit::Add(3), Some(2)),
];

/// Its slot is the first free one now.
const AT_THREE: [(Edit, Option<usize>); 3] = [
    (Edit::Add(1), Some(0)),
    (Edit::Remove(2), Some(1)),
    (Edit::Add(3), Some(0)),
];

/// Whether the index is for version 2, and finds and has room for these.
fn is_at_two(
    alloc: Global,
    index: &SlotIndex,
    schema: &Schema,
    records: &[Option<Vrec>],
) -> Result<bool, NoMemory>
    requires schema { schema.now ≡ pair_columns }
    requires records { all_steps records.now ≡ four_slots }
    requires index { IsIndex schema.now.key (all_steps records.now) index.now }
    requires versions { index.now.versions ≡ 3 }
    requires committed { index.now.committed < 9 }
{
    Ok(
        (index.versions() == 3)
            & (index.committed() == 2)
            & finds_all(alloc, index, schema, records, &AT_TWO)?
            & has_room(alloc, index, schema, records, &[3, 4])?
            & has_room(alloc, index, schema, records, &[1, 3, 4])?
            & !has_room(alloc, index, schema, records, &[3, 4, 5])?,
    )
}

/// The same of the index of the slots at version 2.
fn keeps_slot(alloc: Global, schema: &Schema, records: &[Option<Vrec>]) -> Result<bool, NoMemory>
    requires schema { schema.now ≡ pair_columns }
    requires records { all_steps records.now ≡ four_slots }
{
    let index = built(alloc, schema, records)?;
    is_at_two(alloc, &index, schema, records)
}

/// Whether the index is for version 3, and finds and has room for these.
fn is_at_three(
    alloc: Global,
    index: &SlotIndex,
    schema: &Schema,
    records: &[Option<Vrec>],
) -> Result<bool, NoMemory>
    requires schema { schema.now ≡ pair_columns }
    requires records { all_steps records.now ≡ four_slots }
    requires index { IsIndex schema.now.key (all_steps records.now) index.now }
    requires versions { index.now.versions ≡ 3 }
    requires committed { index.now.committed < 9 }
{
    Ok(
        (index.versions() == 3)
            & (index.committed() == 3)
            & finds_all(alloc, index, schema, records, &AT_THREE)?
            & has_room(alloc, index, schema, records, &[3, 4, 5])?
            & !has_room(alloc, index, schema, records, &[2, 3, 4, 5, 6])?,
    )
}

/// The same of the index of the slots at version 3, after which nothing has changed.
fn frees_slot(alloc: Global, schema: &Schema, records: &[Option<Vrec>]) -> Result<bool, NoMemory>
    requires schema { schema.now ≡ pair_columns }
    requires records { all_steps records.now ≡ four_slots }
{
    let index = advanced(alloc, schema, records)?;
    is_at_three(alloc, &index, schema, records)
}

fn is_free_later(alloc: Global) -> Result<bool, NoMemory> {
    let schema = pair_schema(alloc)?;
    let records = slots(alloc)?;
    Ok(keeps_slot(alloc, &schema, &records)? & frees_slot(alloc, &schema, &records)?)
}

#[test]
fn a_slot_is_free_once_no_version_shows_its_row(rt: HostRuntime) {
    assert!(rt; matches!(is_free_later(rt.alloc()), Ok(true)));
}
