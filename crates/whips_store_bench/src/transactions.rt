//! Transactions on a store of one view of two relations.
//!
//! The rows' keys are all the numbers below the number of slots but one. Each transaction takes out a row by its key in
//! the second relation, puts in the one that the transaction before took out, and gives a third row another code. The key
//! and the rows that it is given are made before it and let go after it. The parts of a transaction aren't inlined, so that
//! a profile tells them apart.
ghost use Rattle.std.specs.Prelude.{◌≡◌, ◌<◌, length, IfOk};
ghost use Rattle.whips_changes.specs.Changes.{net_changes};
ghost use Rattle.whips_store.specs.Calls.{AreNet};
ghost use Rattle.whips_store.specs.Stores.{view_in};

use crate::rows::{Input, are_changes_within, change_rows, make_input};
use crate::start::one;
use crate::stop::Stop;
use std::alloc::Global;
use whips_net::Draft;
use whips_rel::{Change, Rows};
use whips_store::{Changes, Store};

/// A phase that no run reaches.
const LAST_PHASE: u64 = 1 << 32;

/// The most slots.
const MOST: u64 = 4_096;

/// A number that moves the keys about.
const STRIDE: u64 = 1_009;

/// The key that no row has after transaction `t`.
fn key_taken(t: u32, slots: u64) -> u64
    requires { 0 < slots }
    ensures { result < slots }
{
    (u64::from(t) * STRIDE) % slots
}

/// The key that no row has before transaction `t`.
fn key_missing(t: u32, slots: u64) -> u64
    requires { 0 < slots }
{
    if t == 0 {
        return slots - 1;
    }
    key_taken(t - 1, slots)
}

/// What transaction `t` changes in so many rows.
fn input_of(alloc: Global, rows: u64, t: u32) -> Result<Input, Stop> {
    if rows >= MOST {
        return Err(Stop::Refused);
    }
    let slots = rows + 1;
    let gone = key_taken(t, slots);
    let other = (gone + slots / 3) % slots;
    let code = u64::from(t) + 1;
    Ok(make_input(alloc, gone, key_missing(t, slots), other, code)?)
}

/// The rows after these changes, and the net changes that lead to them.
#[inline(never)]
fn rows_after(alloc: Global, before: &Rows, input: &Input) -> Result<(Rows, Vec<Change>), Stop>
    ensures columns { IfOk result (λ p. p.0.columns ≡ before.now.columns) }
    ensures net { IfOk result (λ p. p.1.items
        ≡ net_changes before.now.columns.key before.now.rows p.0.rows) }
{
    let mut draft = Draft::of(before)?;
    change_rows(&mut draft, input)?;
    Ok(draft.finish(alloc)?)
}

/// The changes that take the one view of the store to these rows.
#[inline(never)]
fn changes_to<S: Store>(
    alloc: Global,
    store: &S,
    after: Rows,
    changes: Vec<Change>,
) -> Result<Changes, Stop>
    requires one { length (S.state store.now).views ≡ 1 }
    requires columns { after.columns ≡ (view_in (S.state store.now) 0).columns }
    requires net { changes.items ≡ net_changes (view_in (S.state store.now) 0).columns.key
        (view_in (S.state store.now) 0).current after.rows }
    ensures { IfOk result (λ c. AreNet (S.state store.now).views c) }
{
    if !are_changes_within(&changes) {
        return Err(Stop::Refused);
    }
    let _sound = store.phase();
    let _after = after.schema();
    Ok(Changes {
        views: one(alloc, (after, changes))?,
    })
}

/// Makes the first change that is left.
#[inline(never)]
fn change<S: Store>(store: &mut S) {
    if store.left() > 0 {
        store.change_next();
    }
}

/// Commits the version that was written.
#[inline(never)]
fn publish<S: Store>(store: &mut S) {
    if store.phase() % 2 == 1 && store.left() == 0 {
        store.publish();
    }
}

/// Begins the transaction of these changes.
#[inline(never)]
fn begin<S: Store>(store: &mut S, changes: Changes) -> Result<(), Stop>
    requires { AreNet (S.state store.old).views changes }
{
    if store.phase() % 2 == 1 || store.phase() > LAST_PHASE {
        return Err(Stop::Refused);
    }
    store.begin(changes)?;
    Ok(())
}

/// Makes the transaction of these changes, and counts them.
fn make<S: Store>(store: &mut S, changes: Changes) -> Result<u64, Stop>
    requires { AreNet (S.state store.old).views changes }
{
    begin(store, changes)?;
    let count = store.left();
    for _ in 0..count {
        change(store);
    }
    publish(store);
    Ok(count)
}

/// Makes transaction `t`, and counts its changes.
fn make_one<S: Store>(alloc: Global, store: &mut S, t: u32) -> Result<u64, Stop> {
    if store.views() != 1 {
        return Err(Stop::Refused);
    }
    let input = input_of(alloc, store.current(0).len() as u64, t)?;
    let (after, changes) = rows_after(alloc, store.current(0), &input)?;
    let changes = changes_to(alloc, store, after, changes)?;
    make(store, changes)
}

/// Makes so many transactions on a store of one view, and counts their changes.
pub fn make_all<S: Store>(alloc: Global, store: &mut S, transactions: u32) -> Result<u64, Stop> {
    let mut count = 0u64;
    for t in 0..transactions {
        count = count.saturating_add(make_one(alloc, store, t)?);
    }
    Ok(count)
}
