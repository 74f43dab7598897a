//! The slot and the key of a change, and the index after it.
ghost use Rattle.std.specs.Prelude.{◌≡◌, ◌↔◌, ◌<◌, ◌≤◌, ◌*◌, ◌^◌, ℕ, length, map, Some, IsTrue, IfOk, IfSome};
ghost use Rattle.std.specs.Option.{ForSome};
ghost use Rattle.std.specs.List.{AllByRecursion};
ghost use Rattle.whips_model.specs.Tuples.{Codes};
ghost use Rattle.whips_net.specs.Made.{change_key};
ghost use Rattle.whips_store.specs.Calls.{slot_for};
ghost use Rattle.whips_store.specs.Sound.{HasSlotForKey, IsSlot, StepsHaveWidth};
ghost use Rattle.whips_slot_index.specs.Slots.{all_steps, AreKept};
ghost use Rattle.whips_slot_index.specs.Indexes.{IndexData, IsIndex, IsTaken};
ghost use Rattle.whips_plain_store.specs.Plain.{IsWide};

use std::alloc::Global;
use whips_rel::{Change, NoMemory, Schema, Tuple};
use whips_slot_index::{SlotIndex, find_slot};
use whips_vnl::Vrec;

/// The key of the change.
fn key_of(schema: &Schema, change: &Change) -> Result<Tuple, NoMemory>
    requires { IsWide (length schema.now.kinds) change.now }
    ensures { IfOk result (λ key. key ≡ change_key schema.now.key change.now) }
{
    match change {
        Change::Add(row) | Change::Replace(row) => schema.key_of(row),
        Change::Remove(key) => key.copy(),
    }
}

/// The keys of the changes, in their order.
pub(crate) fn keys_of(
    alloc: Global,
    schema: &Schema,
    changes: &[Change],
) -> Result<Vec<Tuple>, NoMemory>
    requires { AllByRecursion (IsWide (length schema.now.kinds)) changes.now }
    ensures { IfOk result (λ keys. keys.items ≡ map (change_key schema.now.key) changes.now) }
{
    let mut keys = Vec::with_capacity(alloc, changes.len())?;
    for change in changes {
        keys.push(key_of(schema, change)?)?;
    }
    Ok(keys)
}

/// Whether the key is that of the change.
fn is_key_of(schema: &Schema, change: &Change, key: &Tuple) -> bool
    ensures { IsTrue result ↔ (key.now ≡ change_key schema.now.key change.now) }
{
    match change {
        Change::Add(row) | Change::Replace(row) => schema.compare_key(row, key).is_eq(),
        Change::Remove(own) => own == key,
    }
}

/// The slot in which the change is made. An index that is for these versions finds it by the key, where that is the
/// change's; otherwise each slot is looked at.
pub(crate) fn slot_of(
    index: &Option<SlotIndex>,
    schema: &Schema,
    records: &[Option<Vrec>],
    change: &Change,
    key: Option<&Tuple>,
    n: u32,
    c: u64,
) -> Option<usize>
    requires least { 2 ≤ n }
    requires most { n ≤ 4 }
    requires kept { AreKept n records.now }
    requires version { c < 2 ^ 62 }
    requires index { ForSome index.now (IsIndex schema.now.key (all_steps records.now)) }
    ensures { result ≡ slot_for n c schema.now.key (change_key schema.now.key change.now)
        (all_steps records.now) }
{
    if let Some(index) = index {
        if let Some(key) = key {
            if index.versions() == n && index.committed() == c && is_key_of(schema, change, key) {
                return index.find_slot(schema, records, change, key);
            }
        }
    }
    find_slot(schema, records, change, n, c)
}

/// The index once the change of the version after `c` was made in the slot; none where it was for another version, or
/// wanted memory.
pub(crate) fn index_after(
    index: Option<SlotIndex>,
    slot: usize,
    n: u32,
    c: u64,
) -> Option<SlotIndex>
    ensures { IfSome result (λ new. (old : IndexData) × (index ≡ Some old) × IsTaken slot old new
        × (old.versions ≡ n) × (old.committed ≡ c)) }
{
    let mut index = index?;
    if index.versions() != n || index.committed() != c {
        return None;
    }
    match index.take_slot(slot) {
        Ok(()) => Some(index),
        Err(_) => None,
    }
}

/// The index for these versions: the given one, the same gone on to the next version, or one that is built anew.
pub(crate) fn index_for(
    alloc: Global,
    index: Option<SlotIndex>,
    schema: &Schema,
    records: &[Option<Vrec>],
    n: u32,
    c: u64,
) -> Result<SlotIndex, NoMemory>
    requires least { 2 ≤ n }
    requires most { n ≤ 4 }
    requires version { c < 2 ^ 62 }
    requires widths { AllByRecursion (StepsHaveWidth (length schema.now.kinds)) (all_steps records.now) }
    requires slots { AllByRecursion (IsSlot n (2 * c)) (all_steps records.now) }
    requires keys { HasSlotForKey schema.now.key n c (all_steps records.now) }
    requires index { ForSome index (IsIndex schema.now.key (all_steps records.now)) }
    ensures index { IfOk result (λ new. IsIndex schema.now.key (all_steps records.now) new) }
    ensures versions { IfOk result (λ new. new.versions ≡ n) }
    ensures committed { IfOk result (λ new. new.committed ≡ c) }
{
    if let Some(index) = index {
        if index.versions() == n && index.committed() == c {
            return Ok(index);
        }
        if index.versions() == n && c > 0 && index.committed() == c - 1 {
            return index.advance(schema, records);
        }
    }
    SlotIndex::build(alloc, schema, records, n, c)
}
