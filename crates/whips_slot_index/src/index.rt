//! An index of a view's slots.
ghost use Rattle.std.specs.Prelude.{◌≡◌, ◌↔◌, ◌+◌, ◌*◌, ◌<◌, ◌≤◌, ◌^◌, ◌∷◌, ◌++◌, [], List, ℕ, IsTrue, length, map, true, IfOk, OnOk, slice_index_or};
ghost use Rattle.std.specs.List.{position, AllByRecursion};
ghost use Rattle.std.specs.List.Sorted.{IsStrictlySortedBy};
ghost use Rattle.std.specs.Ordering.{nat_cmp};
ghost use Rattle.whips_lists.specs.Lists.{places_from};
ghost use Rattle.whips_net.specs.Made.{change_key};
ghost use Rattle.whips_vnl.specs.Records.{steps_or_none};
ghost use Rattle.whips_store.specs.Versions.{versions_in_use, shows_key, is_free};
ghost use Rattle.whips_store.specs.Calls.{slot_for};
ghost use Rattle.whips_store.specs.Sound.{HasSlotForKey, IsSlot, StepsHaveWidth};
ghost use Rattle.whips_slot_index.specs.Slots.{all_steps, AreKept, newest_row, row_among};
ghost use Rattle.whips_lists.specs.Members.{Has};
ghost use Rattle.whips_slot_index.specs.Indexes.{is_among, IsIndex, AreVisited, IsNotedAt, ForgetsAt, IsForgotten, IsKeyVisited, IsSlotVisited, IsTaken, unknown_keys};

use crate::slots::{is_slot_free, newest_row, nothing_at, row_in_use, shows_change};
use indexmap::IndexMap;
use std::alloc::Global;
use std::collections::BTreeSet;
use std::marker::Model;
use std::mem;
use whips_rel::{Change, NoMemory, Schema, Tuple};
use whips_vnl::Vrec;

/// Which slot shows a key and which slots are free, for a number of versions and a committed version, and the slots for
/// which the next committed version may change something.
#[derive(Drop)]
pub struct SlotIndex {
    versions: u32,
    committed: u64,
    slots: IndexMap<Tuple, usize>,
    free: BTreeSet<usize>,
    revisit: Vec<usize>,
}

impl Model for SlotIndex {
    ghost use Rattle.whips_slot_index.specs.Indexes.{IndexData};

    ghost Value = { IndexData };

    ghost view = { λ f. record {
      versions = f.versions;
      committed = f.committed;
      slots =
          f.slots.entries;
      free = f.free.keys;
      revisit = f.revisit.items;
    } };
}

/// The places below `count`, in order.
fn places_below(alloc: Global, count: usize) -> Result<Vec<usize>, NoMemory>
    ensures { IfOk result (λ places. (i : ℕ) → i < count → Has i places.items) }
{
    let mut places = Vec::with_capacity(alloc, count)?;
    for place in 0..count {
        places.push(place)?;
    }
    Ok(places)
}

impl SlotIndex {
    /// The index of these slots, where `n` versions are kept and `c` is the committed one. It looks at each slot once.
    pub fn build(
        alloc: Global,
        schema: &Schema,
        records: &[Option<Vrec>],
        n: u32,
        c: u64,
    ) -> Result<SlotIndex, NoMemory>
        requires least { 2 ≤ n }
        requires most { n ≤ 4 }
        requires version { c < 2 ^ 62 }
        requires widths { AllByRecursion (StepsHaveWidth (length schema.now.kinds))
            (all_steps records.now) }
        requires slots { AllByRecursion (IsSlot n (2 * c)) (all_steps records.now) }
        requires keys { HasSlotForKey schema.now.key n c (all_steps records.now) }
        ensures index { IfOk result (λ index. IsIndex schema.now.key
            (all_steps records.now) index) }
        ensures versions { IfOk result (λ index. index.versions ≡ n) }
        ensures committed { IfOk result (λ index. index.committed ≡ c) }
    {
        let mut index = SlotIndex {
            versions: n,
            committed: c,
            slots: IndexMap::new(alloc),
            free: BTreeSet::new(alloc),
            revisit: Vec::new(alloc),
        };
        let places = places_below(alloc, records.len())?;
        index.visit_all(schema, records, &places)?;
        Ok(index)
    }

    /// The index once the next version is committed. It looks at the slots that were changed since, and at those of rows
    /// that went earlier and are still shown at an older version.
    pub fn advance(self, schema: &Schema, records: &[Option<Vrec>]) -> Result<SlotIndex, NoMemory>
        requires least { 2 ≤ self.versions }
        requires most { self.versions ≤ 4 }
        requires version { self.committed + 1 < 2 ^ 62 }
        requires widths { AllByRecursion (StepsHaveWidth (length schema.now.kinds))
            (all_steps records.now) }
        requires slots { AllByRecursion (IsSlot self.versions (2 * (self.committed + 1)))
            (all_steps records.now) }
        requires keys { HasSlotForKey schema.now.key self.versions (self.committed + 1)
            (all_steps records.now) }
        requires index { IsIndex schema.now.key (all_steps records.now) self }
        ensures index { IfOk result (λ index. IsIndex schema.now.key
            (all_steps records.now) index) }
        ensures versions { IfOk result (λ index. index.versions ≡ self.versions) }
        ensures committed { IfOk result (λ index. index.committed ≡ self.committed + 1) }
    {
        let mut index = self;
        let fresh = Vec::new(*index.revisit.allocator());
        let places = mem::replace(&mut index.revisit, fresh);
        index.committed += 1;
        index.visit_all(schema, records, &places)?;
        Ok(index)
    }

    /// For how many versions the index is.
    pub fn versions(&self) -> u32
        ensures { result ≡ self.now.versions }
    {
        self.versions
    }

    /// The committed version that the index is for.
    pub fn committed(&self) -> u64
        ensures { result ≡ self.now.committed }
    {
        self.committed
    }

    /// The slot is noted for the key.
    fn note_key(&mut self, key: Tuple, i: usize) -> Result<(), NoMemory>
        ensures { OnOk result (IsNotedAt key i self.old self.new) }
    {
        self.slots.insert(key, i)?;
        Ok(())
    }

    /// Where the slot is noted for its newest row's key, it is so no more.
    fn forget(&mut self, schema: &Schema, slot: &Option<Vrec>, i: usize) -> Result<(), NoMemory>
        requires { StepsHaveWidth (length schema.now.kinds) (steps_or_none slot.now) }
        ensures only { OnOk result (ForgetsAt i self.old self.new) }
        ensures gone { OnOk result (IsForgotten schema.now.key
            (newest_row (steps_or_none slot.now)) i self.new) }
    {
        let row = match newest_row(slot) {
            Some(row) => row,
            None => return Ok(()),
        };
        let key = schema.key_of(row)?;
        if self.slots.get(&key).copied() == Some(i) {
            let _slot = self.slots.swap_remove(&key);
        }
        Ok(())
    }

    /// The slot is noted for the key that it shows at a version in use; where it shows none, it isn't noted for its
    /// newest row's key any more.
    fn visit_key(&mut self, schema: &Schema, slot: &Option<Vrec>, i: usize) -> Result<(), NoMemory>
        requires least { 2 ≤ self.old.versions }
        requires version { self.old.committed < 2 ^ 62 }
        requires widths { StepsHaveWidth (length schema.now.kinds) (steps_or_none slot.now) }
        ensures { OnOk result (IsKeyVisited schema.now.key
            (row_among self.old.versions (steps_or_none slot.now)
            (versions_in_use self.old.versions self.old.committed)) i self.old self.new) }
    {
        match row_in_use(slot, self.versions, self.committed) {
            Some(row) => {
                let key = schema.key_of(row)?;
                self.note_key(key, i)
            }
            None => self.forget(schema, slot, i),
        }
    }

    /// A free slot is put among the free ones, and one that shows nothing and isn't free is to be visited again.
    fn visit_slot(&mut self, slot: &Option<Vrec>, i: usize) -> Result<(), NoMemory>
        requires least { 2 ≤ self.old.versions }
        requires most { self.old.versions ≤ 4 }
        requires version { self.old.committed < 2 ^ 62 }
        requires kept { length (steps_or_none slot.now) ≤ self.old.versions }
        ensures { OnOk result (IsSlotVisited (steps_or_none slot.now) i self.old self.new) }
    {
        if is_slot_free(slot, self.versions, self.committed) {
            self.free.insert(i)?;
        } else if nothing_at(slot, self.versions, self.committed) {
            self.revisit.push(i)?;
        }
        Ok(())
    }

    /// Visits the slot at this place.
    fn visit(&mut self, schema: &Schema, records: &[Option<Vrec>], i: usize) -> Result<(), NoMemory>
        requires least { 2 ≤ self.old.versions }
        requires most { self.old.versions ≤ 4 }
        requires version { self.old.committed < 2 ^ 62 }
        requires widths { AllByRecursion (StepsHaveWidth (length schema.now.kinds))
            (all_steps records.now) }
        requires slots { AllByRecursion (IsSlot self.old.versions (2 * self.old.committed))
            (all_steps records.now) }
        requires keys { HasSlotForKey schema.now.key self.old.versions self.old.committed
            (all_steps records.now) }
        ensures { OnOk result (AreVisited schema.now.key (all_steps records.now)
            (i ∷ []) self.old self.new) }
    {
        if i < records.len() {
            self.visit_key(schema, &records[i], i)?;
            self.visit_slot(&records[i], i)?;
        }
        Ok(())
    }

    /// Visits the slots at these places.
    fn visit_all(
        &mut self,
        schema: &Schema,
        records: &[Option<Vrec>],
        places: &[usize],
    ) -> Result<(), NoMemory>
        requires least { 2 ≤ self.old.versions }
        requires most { self.old.versions ≤ 4 }
        requires version { self.old.committed < 2 ^ 62 }
        requires widths { AllByRecursion (StepsHaveWidth (length schema.now.kinds))
            (all_steps records.now) }
        requires slots { AllByRecursion (IsSlot self.old.versions (2 * self.old.committed))
            (all_steps records.now) }
        requires keys { HasSlotForKey schema.now.key self.old.versions self.old.committed
            (all_steps records.now) }
        ensures { OnOk result (AreVisited schema.now.key
            (all_steps records.now) places.now self.old self.new) }
    {
        for place in places {
            self.visit(schema, records, *place)?;
        }
        Ok(())
    }

    /// The slot that shows the change's key at a version in use.
    fn known_slot(
        &self,
        schema: &Schema,
        records: &[Option<Vrec>],
        change: &Change,
        key: &Tuple,
    ) -> Option<usize>
        requires least { 2 ≤ self.now.versions }
        requires version { self.now.committed < 2 ^ 62 }
        requires key { key.now ≡ change_key schema.now.key change.now }
        requires index { IsIndex schema.now.key (all_steps records.now) self.now }
        ensures { result ≡ position (shows_key schema.now.key self.now.versions
            (versions_in_use self.now.versions self.now.committed)
            (change_key schema.now.key change.now)) (all_steps records.now) }
    {
        let slot = match self.slots.get(key) {
            Some(slot) => *slot,
            None => return None,
        };
        if slot < records.len()
            && shows_change(
                schema,
                &records[slot],
                change,
                self.versions,
                self.committed,
            )
        {
            return Some(slot);
        }
        None
    }

    /// The first free slot.
    fn first_free(&self, records: &[Option<Vrec>]) -> Option<usize>
        requires { (i : ℕ) → (is_among self.now.free i ≡ true)
            ↔ ((i < length (all_steps records.now))
            × (is_free self.now.versions self.now.committed
            (slice_index_or (all_steps records.now) i []) ≡ true)) }
        ensures { result ≡ position (is_free self.now.versions self.now.committed)
            (all_steps records.now) }
    {
        match self.free.first() {
            Some(slot) => Some(*slot),
            None => None,
        }
    }

    /// The slot in which the change is made, whose key this is.
    pub fn find_slot(
        &self,
        schema: &Schema,
        records: &[Option<Vrec>],
        change: &Change,
        key: &Tuple,
    ) -> Option<usize>
        requires least { 2 ≤ self.now.versions }
        requires version { self.now.committed < 2 ^ 62 }
        requires key { key.now ≡ change_key schema.now.key change.now }
        requires index { IsIndex schema.now.key (all_steps records.now) self.now }
        ensures { result ≡ slot_for self.now.versions self.now.committed schema.now.key
            (change_key schema.now.key change.now) (all_steps records.now) }
    {
        match self.known_slot(schema, records, change, key) {
            Some(slot) => Some(slot),
            None => self.first_free(records),
        }
    }

    /// Whether there are as many free slots as there are changes of keys that no slot shows at a version in use.
    pub fn has_slots_for(
        &self,
        schema: &Schema,
        records: &[Option<Vrec>],
        changes: &[Change],
        keys: &[Tuple],
    ) -> bool
        requires least { 2 ≤ self.now.versions }
        requires version { self.now.committed < 2 ^ 62 }
        requires keys { keys.now ≡ map (change_key schema.now.key) changes.now }
        requires index { IsIndex schema.now.key (all_steps records.now) self.now }
        ensures enough { IsTrue result ↔ (length
            (unknown_keys schema.now.key self.now.versions self.now.committed
            (all_steps records.now) keys.now) ≤ length self.now.free) }
        ensures rising { IsStrictlySortedBy nat_cmp self.now.free }
    {
        let mut unknown = 0;
        for i in 0..changes.len() {
            if self
                .known_slot(schema, records, &changes[i], &keys[i])
                .is_none()
            {
                unknown += 1;
            }
        }
        unknown <= self.free.len()
    }

    /// Makes room for this many changes of slots.
    pub fn reserve(&mut self, changes: usize) -> Result<(), NoMemory>
        ensures { self.new ≡ self.old }
    {
        self.revisit.reserve(changes)?;
        Ok(())
    }

    /// Notes that a change was made in the slot: it isn't free, and is to be visited again. Where the room is used up, it
    /// may want memory.
    pub fn take_slot(&mut self, slot: usize) -> Result<(), NoMemory>
        ensures { OnOk result (IsTaken slot self.old self.new) }
    {
        self.revisit.push(slot)?;
        let _was_free = self.free.remove(&slot);
        Ok(())
    }
}
