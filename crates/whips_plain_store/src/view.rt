//! One view in a plain store.
ghost use Rattle.std.specs.Prelude.{◌≡◌, ℕ, ◌<◌, ◌≤◌, ◌+◌, ◌-◌, ◌/◌, ◌%◌, ◌^◌, [], ◌∷◌, ◌++◌, length, map, slice_index_or, set, true, IfOk, MatchOption};
ghost use Rattle.std.specs.List.{AllByRecursion};
ghost use Rattle.whips_vnl.specs.Records.{steps_after, visible, shown_of, IsBelow, is_fitting};
ghost use Rattle.whips_changes.specs.Changes.{need};
ghost use Rattle.whips_store.specs.Versions.{versions_in_use, rows_shown_at};
ghost use Rattle.whips_store.specs.Stores.{with_seen};
ghost use Rattle.whips_store.specs.Calls.{AreNetChanges, AreRowsWithin, slots_needed};
ghost use Rattle.whips_store.specs.First.{first_steps, first_records, first_view};
ghost use Rattle.whips_store.specs.Sound.{IsSoundView, StepsHaveWidth};
ghost use Rattle.whips_slot_index.specs.Slots.{all_steps};
ghost use Rattle.whips_plain_store.specs.Plain.{changed_first, IsFirstChange, IsShortage};

use crate::change::{index_after, index_for, keys_of, slot_of};
use crate::need::{put_rows, put_versions};
use std::alloc::Global;
use std::marker::Model;
use whips_rel::{Change, NoMemory, Relation, Rows, Schema, Tuple};
use whips_row_buf::RowBuf;
use whips_slot_index::{SlotIndex, row_shown, slot_shown, versions_used};
use whips_vnl::{Op, Shown, Vrec, Vstep, changed};

/// A view's slots, its rows at the committed version and at the one that is written, the changes that are left with
/// their keys, the last one first, and an index of the slots.
#[derive(Drop)]
pub struct PlainView {
    records: Vec<Option<Vrec>>,
    current: Rows,
    next: Option<Rows>,
    left: Vec<Change>,
    keys: Vec<Tuple>,
    index: Option<SlotIndex>,
}

impl Model for PlainView {
    ghost use Rattle.std.specs.Prelude.{◌≡◌, reverse};
    ghost use Rattle.std.specs.Option.{unwrap_or, ForSome};
    ghost use Rattle.whips_store.specs.Stores.{ViewState};
    ghost use Rattle.whips_slot_index.specs.Slots.{all_steps};
    ghost use Rattle.whips_slot_index.specs.Indexes.{IsIndex};

    ghost Value = { ViewState };

    ghost view = { λ f. record {
      columns = f.current.columns;
      records = all_steps f.records.items;
      current = f.current.rows;
      next = (unwrap_or f.next f.current).rows;
      left = reverse
          f.left.items;
    } };

    ghost invariant = { λ f. ((unwrap_or f.next f.current).columns ≡ f.current.columns)
        × ForSome f.index (IsIndex f.current.columns.key (all_steps f.records.items)) };
}

/// Makes the change in the slot.
fn change_slot(records: &mut Vec<Option<Vrec>>, slot: usize, change: Change, n: u32, c: u64)
    requires least { 2 ≤ n }
    requires most { n ≤ 4 }
    requires slot { slot < length records.old.items }
    requires kept { length (slice_index_or (all_steps records.old.items) slot []) ≤ n }
    requires version { c < 2 ^ 62 }
    requires newer { IsBelow (c + 1) (slice_index_or (all_steps records.old.items) slot []) }
    requires fitting { is_fitting change (visible n c
        (slice_index_or (all_steps records.old.items) slot [])) ≡ true }
    ensures { all_steps records.new.items ≡ set (all_steps records.old.items) slot
        (steps_after n (c + 1) change (slice_index_or (all_steps records.old.items) slot [])) }
{
    let old = records[slot].take();
    let new = changed(old, change, c + 1, n);
    records[slot] = Some(new);
}

/// What the slot shows at version `v`, put into `into` where it is a row.
fn read_slot(
    records: &[Option<Vrec>],
    i: usize,
    v: u64,
    n: u32,
    schema: &Schema,
    into: &mut RowBuf,
) -> Shown
    requires least { 2 ≤ n }
    requires most { n ≤ 4 }
    requires slot { i < length records.now }
    requires kept { length (slice_index_or (all_steps records.now) i []) ≤ n }
    requires widths { StepsHaveWidth (length schema.now.kinds)
        (slice_index_or (all_steps records.now) i []) }
    requires columns { into.old.columns ≡ schema.now }
    requires room { length into.old.rows < into.old.room }
    ensures shown { result ≡ shown_of (visible n v (slice_index_or (all_steps records.now) i [])) }
    ensures row { into.new ≡ with_seen (visible n v
        (slice_index_or (all_steps records.now) i [])) into.old }
{
    let record = &records[i];
    let seen = slot_shown(record, v, n);
    if let Some(row) = row_shown(record, v, n) {
        into.put(row.codes());
    }
    seen
}

/// How many keys the rows of these slots at the versions in use and the rows `after` have together.
fn count_keys(
    records: &Vec<Option<Vrec>>,
    schema: &Schema,
    c: u64,
    n: u32,
    after: &Rows,
) -> Result<usize, NoMemory>
    requires least { 2 ≤ n }
    requires version { c < 2 ^ 62 }
    requires columns { after.now.columns ≡ schema.now }
    requires widths { AllByRecursion (StepsHaveWidth (length schema.now.kinds))
        (all_steps records.now.items) }
    ensures { IfOk result (λ m. m ≡ need schema.now.key
        (map (λ v. rows_shown_at n v (all_steps records.now.items)) (versions_in_use n c)
        ++ after.now.rows ∷ [])) }
{
    let _sound = after.schema();
    let mut rows = Relation::new(*records.allocator(), schema.copy()?)?;
    let news = after.tuples()?;
    put_rows(&mut rows, news.as_slice())?;
    let (first, count) = versions_used(n, c);
    put_versions(&mut rows, records, n, first, count)?;
    Ok(rows.len())
}

/// The record of a row that is there at version 0.
fn first_record(row: Tuple) -> Vrec
    ensures { result ≡ first_steps row }
{
    let step = Vstep {
        vn: 0,
        op: Op::Added,
        row: Some(row),
    };
    Vrec {
        steps: [Some(step), None, None, None],
    }
}

/// The records of these rows at version 0, and room for as many as there are slots.
fn row_records(alloc: Global, rows: &[Tuple], slots: usize) -> Result<Vec<Option<Vrec>>, NoMemory>
    ensures { IfOk result (λ records. all_steps records.items ≡ map first_steps rows.now) }
{
    let mut records = Vec::with_capacity(alloc, slots)?;
    for row in rows {
        records.push(Some(first_record(row.copy()?)))?;
    }
    Ok(records)
}

/// The records at version 0, with so many blank slots behind those of the rows.
fn first_slots(
    alloc: Global,
    rows: &[Tuple],
    spare: usize,
    slots: usize,
) -> Result<Vec<Option<Vrec>>, NoMemory>
    ensures { IfOk result (λ records. all_steps records.items ≡ first_records rows.now spare) }
{
    let mut records = row_records(alloc, rows, slots)?;
    for _ in 0..spare {
        records.push(None)?;
    }
    Ok(records)
}

impl PlainView {
    /// The view at version 0, with these rows in the first slots, in the order of their keys. It is
    /// sound in a store where no number is above the greatest.
    pub fn make(alloc: Global, rows: Rows, slots: usize) -> Result<PlainView, NoMemory>
        requires { length rows.rows ≤ slots }
        ensures made { IfOk result (λ v. v ≡ first_view rows.columns rows.rows
            (slots - length rows.rows)) }
        ensures sound { IfOk result (λ v. (n : ℕ) → 2 ≤ n
            → AreRowsWithin rows.columns.kinds rows.rows → IsSoundView n 0 v) }
    {
        let _sound = rows.schema();
        let spare = slots - rows.len();
        let firsts = rows.tuples()?;
        Ok(PlainView {
            records: first_slots(alloc, firsts.as_slice(), spare, slots)?,
            current: rows,
            next: None,
            left: Vec::new(alloc),
            keys: Vec::new(alloc),
            index: None,
        })
    }

    /// The number of slots.
    pub fn slots(&self) -> usize
        ensures { result ≡ length self.now.records }
    {
        self.records.len()
    }

    /// The rows at the committed version.
    pub fn current(&self) -> &Rows
        ensures { result.now ≡ record { columns = self.now.columns; rows = self.now.current } }
    {
        &self.current
    }

    /// The number of changes that are left.
    pub fn left(&self) -> usize
        ensures { result ≡ length self.now.left }
    {
        self.left.len()
    }

    /// How many slots the view needs while the version after `c` is written and leads to the rows
    /// `after`: for the keys of its rows at the versions in use and of those, a common key counted
    /// once. It takes memory, and looks at each row of these versions once.
    pub fn slots_needed(&self, c: u64, n: u32, after: &Rows) -> Result<usize, NoMemory>
        requires least { 2 ≤ n }
        requires version { c < 2 ^ 62 }
        requires columns { after.now.columns ≡ self.now.columns }
        requires widths { AllByRecursion (StepsHaveWidth
            (length self.now.columns.kinds)) self.now.records }
        ensures { IfOk result (λ m. m ≡ slots_needed n c self.now after.now.rows) }
    {
        count_keys(&self.records, self.current.schema(), c, n, after)
    }

    /// Prepares the transaction of these net changes that lead to the rows `after`, while no maintenance is active, and
    /// tells whether the view has too few slots for it: then how many it needs. It takes the memory that the changes
    /// need later, and nothing that is seen of the view changes. The first time it looks at each slot, and later at those
    /// that were changed since; where slots are short it counts the keys of the rows.
    pub fn prepare(
        &mut self,
        phase: u64,
        n: u32,
        after: &Rows,
        changes: &[Change],
    ) -> Result<Option<usize>, NoMemory>
        requires least { 2 ≤ n }
        requires most { n ≤ 4 }
        requires phase { phase < 2 ^ 63 }
        requires quiet { phase % 2 ≡ 0 }
        requires sound { IsSoundView n phase self.old }
        requires columns { after.now.columns ≡ self.old.columns }
        requires net { AreNetChanges self.old after.now.rows changes.now }
        ensures same { self.new ≡ self.old }
        ensures short { IfOk result (λ short. IsShortage
            (slots_needed n (phase / 2) self.old after.now.rows) (length self.old.records) short) }
    {
        let alloc = *self.records.allocator();
        let _table = after.schema();
        let mut keys = keys_of(alloc, self.current.schema(), changes)?;
        let old = self.index.take();
        let mut index = index_for(
            alloc,
            old,
            self.current.schema(),
            &self.records,
            n,
            phase / 2,
        )?;
        let is_roomy = index.has_slots_for(self.current.schema(), &self.records, changes, &keys);
        index.reserve(changes.len())?;
        self.index = Some(index);
        keys.reverse();
        self.keys = keys;
        if is_roomy {
            return Ok(None);
        }
        let need = self.slots_needed(phase / 2, n, after)?;
        if need <= self.records.len() {
            return Ok(None);
        }
        Ok(Some(need))
    }

    /// Takes the changes and the rows that they lead to.
    pub fn begin(&mut self, after: Rows, changes: Vec<Change>)
        requires { after.columns ≡ self.old.columns }
        ensures { self.new ≡ record self.old { next = after.rows; left = changes.items } }
    {
        let mut left = changes;
        left.reverse();
        self.left = left;
        self.next = Some(after);
    }

    /// Makes the new rows the current ones.
    pub fn publish(&mut self)
        ensures { self.new ≡ record self.old { current = self.old.next } }
    {
        if let Some(rows) = self.next.take() {
            self.current = rows;
        }
    }

    /// What slot `i` shows at version `v`, where `n` versions are kept. A row is put into `into`;
    /// otherwise `into` stays as it was.
    pub fn look(&self, i: usize, v: u64, n: u32, into: &mut RowBuf) -> Shown
        requires least { 2 ≤ n }
        requires most { n ≤ 4 }
        requires slot { i < length self.now.records }
        requires kept { length (slice_index_or self.now.records i []) ≤ n }
        requires widths { StepsHaveWidth (length self.now.columns.kinds)
            (slice_index_or self.now.records i []) }
        requires columns { into.old.columns ≡ self.now.columns }
        requires room { length into.old.rows < into.old.room }
        ensures shown { result ≡ shown_of (visible n v (slice_index_or self.now.records i [])) }
        ensures row { into.new ≡ with_seen (visible n v
            (slice_index_or self.now.records i [])) into.old }
    {
        read_slot(&self.records, i, v, n, self.current.schema(), into)
    }

    /// The first change that is left, behind the slot in which `change_next` will make it: the one that shows its key at
    /// a version in use, or for a new key the first free slot. It costs by the change, and not by the slots.
    pub fn next_change(&self, phase: u64, n: u32) -> Option<(usize, &Change)>
        requires least { 2 ≤ n }
        requires most { n ≤ 4 }
        requires phase { phase < 2 ^ 63 }
        requires sound { IsSoundView n phase self.now }
        ensures { MatchOption result (self.now.left ≡ [])
            (λ next. IsFirstChange n (phase / 2) self.now next.0 next.1.now) }
    {
        let change = self.left.last()?;
        let slot = slot_of(
            &self.index,
            self.current.schema(),
            &self.records,
            change,
            self.keys.last(),
            n,
            phase / 2,
        )?;
        Some((slot, change))
    }

    /// Makes the first change that is left, in the slot that shows its key at a version in use, or
    /// for a new key in the first free slot. The phase is the store's, and `n` versions are kept.
    pub fn change_next(&mut self, phase: u64, n: u32)
        requires least { 2 ≤ n }
        requires most { n ≤ 4 }
        requires phase { phase < 2 ^ 63 }
        requires sound { IsSoundView n phase self.old }
        ensures changed { self.new ≡ changed_first n (phase / 2) self.old }
    {
        let c = phase / 2;
        if let Some(change) = self.left.pop() {
            let key = self.keys.pop();
            let place = slot_of(
                &self.index,
                self.current.schema(),
                &self.records,
                &change,
                key.as_ref(),
                n,
                c,
            );
            if let Some(slot) = place {
                change_slot(&mut self.records, slot, change, n, c);
                self.index = index_after(self.index.take(), slot, n, c);
            }
        }
    }
}
