//! What slots show, and the slot that a change is made in, found by looking through all of them.
ghost use Rattle.std.specs.Prelude.{◌≡◌, ◌<◌, ◌≤◌, ◌+◌, ◌^◌, length};
ghost use Rattle.std.specs.List.{position, list_any, list_all};
ghost use Rattle.std.specs.Option.{option_copied};
ghost use Rattle.whips_model.specs.Tuples.{has_key};
ghost use Rattle.whips_lists.specs.Lists.{places_from};
ghost use Rattle.whips_net.specs.Made.{change_key};
ghost use Rattle.whips_vnl.specs.Records.{leading_steps, shown_of, steps_or_none, visible};
ghost use Rattle.whips_store.specs.Versions.{versions_in_use, row_seen, is_row_of, is_nothing, shows_key, is_older, is_free};
ghost use Rattle.whips_store.specs.Calls.{slot_for};
ghost use Rattle.whips_slot_index.specs.Slots.{all_steps, AreKept, newest_row, row_among};

use whips_rel::{Change, Schema, Tuple};
use whips_vnl::{Shown, Vrec, Vstep, shown};

/// The row that the slot shows at version `v`.
pub fn row_shown(slot: &Option<Vrec>, v: u64, n: u32) -> Option<&Tuple>
    ensures { option_copied result ≡ row_seen (visible n v (steps_or_none slot.now)) }
{
    match slot {
        None => None,
        Some(rec) => match rec.step_at(v) {
            None => None,
            Some(step) => step.row.as_ref(),
        },
    }
}

/// What the slot shows at version `v`.
pub fn slot_shown(slot: &Option<Vrec>, v: u64, n: u32) -> Shown
    requires least { 2 ≤ n }
    requires most { n ≤ 4 }
    requires kept { length (steps_or_none slot.now) ≤ n }
    ensures { result ≡ shown_of (visible n v (steps_or_none slot.now)) }
{
    match slot {
        None => Shown::Nothing,
        Some(rec) => shown(rec, v, n),
    }
}

/// Whether the row has the key of the change.
fn has_key_of(schema: &Schema, row: &Tuple, change: &Change) -> bool
    ensures { result ≡ has_key schema.now.key (change_key schema.now.key change.now) row.now }
{
    match change {
        Change::Add(other) | Change::Replace(other) => schema.compare_keys(row, other).is_eq(),
        Change::Remove(key) => schema.compare_key(row, key).is_eq(),
    }
}

/// Whether the slot shows a row with the change's key at version `v`.
fn shows_at(schema: &Schema, slot: &Option<Vrec>, change: &Change, n: u32, v: u64) -> bool
    ensures { result ≡ is_row_of schema.now.key (change_key schema.now.key change.now)
        (visible n v (steps_or_none slot.now)) }
{
    match row_shown(slot, v, n) {
        Some(row) => has_key_of(schema, row, change),
        None => false,
    }
}

/// Whether the slot shows a row with the change's key at one of the `count` versions from `first` on.
fn shows_in(
    schema: &Schema,
    slot: &Option<Vrec>,
    change: &Change,
    n: u32,
    first: u64,
    count: u64,
) -> bool
    requires { first + count ≤ 2 ^ 63 }
    ensures { result ≡ list_any (λ v. is_row_of schema.now.key
        (change_key schema.now.key change.now) (visible n v (steps_or_none slot.now)))
        (places_from first count) }
{
    if count == 0 {
        return false;
    }
    if shows_at(schema, slot, change, n, first) {
        return true;
    }
    shows_in(schema, slot, change, n, first + 1, count - 1)
}

/// Whether the slot shows nothing at version `v`.
pub(crate) fn nothing_at(slot: &Option<Vrec>, n: u32, v: u64) -> bool
    requires least { 2 ≤ n }
    requires most { n ≤ 4 }
    requires kept { length (steps_or_none slot.now) ≤ n }
    ensures { result ≡ is_nothing (visible n v (steps_or_none slot.now)) }
{
    match slot_shown(slot, v, n) {
        Shown::Nothing => true,
        Shown::Row | Shown::Past => false,
    }
}

/// Whether the slot shows nothing at the `count` versions from `first` on.
fn nothing_in(slot: &Option<Vrec>, n: u32, first: u64, count: u64) -> bool
    requires least { 2 ≤ n }
    requires most { n ≤ 4 }
    requires kept { length (steps_or_none slot.now) ≤ n }
    requires versions { first + count ≤ 2 ^ 63 }
    ensures { result ≡ list_all (λ v. is_nothing (visible n v (steps_or_none slot.now)))
        (places_from first count) }
{
    if count == 0 {
        return true;
    }
    if !nothing_at(slot, n, first) {
        return false;
    }
    nothing_in(slot, n, first + 1, count - 1)
}

/// Whether no step of these is of a version after `c`.
fn are_older(steps: &[Option<Vstep>], c: u64) -> bool
    ensures { result ≡ is_older c (leading_steps steps.now) }
{
    match steps {
        [] => true,
        [None, ..] => true,
        [Some(step), steps @ ..] => step.vn <= c && are_older(steps, c),
    }
}

/// Whether no change of a version after `c` was made in the slot.
fn is_slot_older(slot: &Option<Vrec>, c: u64) -> bool
    ensures { result ≡ is_older c (steps_or_none slot.now) }
{
    match slot {
        None => true,
        Some(rec) => are_older(&rec.steps, c),
    }
}

/// The oldest version in use while the one after `c` is written, and how many there are.
pub fn versions_used(n: u32, c: u64) -> (u64, u64)
    requires least { 2 ≤ n }
    requires version { c < 2 ^ 62 }
    ensures versions { places_from result.0 result.1 ≡ versions_in_use n c }
    ensures bound { result.0 + result.1 ≤ 2 ^ 63 }
{
    let first = c.saturating_sub(u64::from(n) - 2);
    (first, c - first + 1)
}

/// Whether the slot shows a row with the change's key at a version in use.
pub(crate) fn shows_change(
    schema: &Schema,
    slot: &Option<Vrec>,
    change: &Change,
    n: u32,
    c: u64,
) -> bool
    requires least { 2 ≤ n }
    requires version { c < 2 ^ 62 }
    ensures { result ≡ shows_key schema.now.key n (versions_in_use n c)
        (change_key schema.now.key change.now) (steps_or_none slot.now) }
{
    let (first, count) = versions_used(n, c);
    shows_in(schema, slot, change, n, first, count)
}

/// The row that the slot shows at the first of the `count` versions from `first` on at which it shows one.
fn row_in(slot: &Option<Vrec>, n: u32, first: u64, count: u64) -> Option<&Tuple>
    requires { first + count ≤ 2 ^ 63 }
    ensures { option_copied result ≡ row_among n (steps_or_none slot.now)
        (places_from first count) }
{
    if count == 0 {
        return None;
    }
    match row_shown(slot, first, n) {
        Some(row) => Some(row),
        None => row_in(slot, n, first + 1, count - 1),
    }
}

/// The row that the slot shows at the oldest version in use at which it shows one.
pub(crate) fn row_in_use(slot: &Option<Vrec>, n: u32, c: u64) -> Option<&Tuple>
    requires least { 2 ≤ n }
    requires version { c < 2 ^ 62 }
    ensures { option_copied result ≡ row_among n (steps_or_none slot.now) (versions_in_use n c) }
{
    let (first, count) = versions_used(n, c);
    row_in(slot, n, first, count)
}

/// The newest row of these steps.
fn newest_of(steps: &[Option<Vstep>]) -> Option<&Tuple>
    ensures { option_copied result ≡ newest_row (leading_steps steps.now) }
{
    match steps {
        [] => None,
        [None, ..] => None,
        [Some(step), steps @ ..] => match &step.row {
            Some(row) => Some(row),
            None => newest_of(steps),
        },
    }
}

/// The newest row of the slot, whether it is shown or not.
pub(crate) fn newest_row(slot: &Option<Vrec>) -> Option<&Tuple>
    ensures { option_copied result ≡ newest_row (steps_or_none slot.now) }
{
    match slot {
        None => None,
        Some(rec) => newest_of(&rec.steps),
    }
}

/// Whether a new key may have the slot.
pub(crate) fn is_slot_free(slot: &Option<Vrec>, n: u32, c: u64) -> bool
    requires least { 2 ≤ n }
    requires most { n ≤ 4 }
    requires kept { length (steps_or_none slot.now) ≤ n }
    requires version { c < 2 ^ 62 }
    ensures { result ≡ is_free n c (steps_or_none slot.now) }
{
    let (first, count) = versions_used(n, c);
    nothing_in(slot, n, first, count) && is_slot_older(slot, c)
}

/// The first slot that shows a row with the change's key at a version in use.
fn find_key(
    schema: &Schema,
    records: &[Option<Vrec>],
    change: &Change,
    n: u32,
    c: u64,
) -> Option<usize>
    requires least { 2 ≤ n }
    requires version { c < 2 ^ 62 }
    ensures { result ≡ position (shows_key schema.now.key n (versions_in_use n c)
        (change_key schema.now.key change.now)) (all_steps records.now) }
{
    for i in 0..records.len() {
        if shows_change(schema, &records[i], change, n, c) {
            return Some(i);
        }
    }
    None
}

/// The first slot that a new key may have.
fn find_free(records: &[Option<Vrec>], n: u32, c: u64) -> Option<usize>
    requires least { 2 ≤ n }
    requires most { n ≤ 4 }
    requires kept { AreKept n records.now }
    requires version { c < 2 ^ 62 }
    ensures { result ≡ position (is_free n c) (all_steps records.now) }
{
    for i in 0..records.len() {
        if is_slot_free(&records[i], n, c) {
            return Some(i);
        }
    }
    None
}

/// The slot in which the change is made: the first one that shows its key at a version in use, and
/// for a new key the first free one. It looks at each slot.
pub fn find_slot(
    schema: &Schema,
    records: &[Option<Vrec>],
    change: &Change,
    n: u32,
    c: u64,
) -> Option<usize>
    requires least { 2 ≤ n }
    requires most { n ≤ 4 }
    requires kept { AreKept n records.now }
    requires version { c < 2 ^ 62 }
    ensures { result ≡ slot_for n c schema.now.key (change_key schema.now.key change.now)
        (all_steps records.now) }
{
    match find_key(schema, records, change, n, c) {
        Some(slot) => Some(slot),
        None => find_free(records, n, c),
    }
}
