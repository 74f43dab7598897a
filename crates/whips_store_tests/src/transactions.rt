//! Transactions on a store of two views.
ghost use Rattle.std.specs.Prelude.{◌≡◌, ◌<◌, length, IfOk};
ghost use Rattle.whips_store.specs.Stores.{view_in};
ghost use Rattle.whips_store.specs.Calls.{AreNet, AreNetChanges};

use crate::rows::{are_rows_within, edited};
use std::alloc::Global;
use whips_net::net;
use whips_rel::{Change, NoMemory, Rows};
use whips_store::{Changes, Store, StoreErr};

/// Keys, each with its code afterwards, or no row.
pub type Edits<'a> = &'a [(u64, Option<u64>)];

/// The rows of the view once each of these keys has the code beside it, or no row, and the changes
/// that lead there.
fn part<S: Store>(
    alloc: Global,
    store: &S,
    x: u32,
    edits: Edits,
) -> Result<(Rows, Vec<Change>), NoMemory>
    requires { x < length (S.state store.now).views }
    ensures columns { IfOk result (λ part. part.0.columns
        ≡ (view_in (S.state store.now) x).columns) }
    ensures net { IfOk result (λ part. AreNetChanges (view_in (S.state store.now) x) part.0.rows part.1.items) }
{
    let before = store.current(x);
    let after = edited(alloc, before, edits)?;
    if !are_rows_within(&after) {
        return Err(NoMemory);
    }
    let changes = net(alloc, before, &after)?;
    Ok((after, changes))
}

/// The changes of these edits of the first view and of the second.
fn changes_of<S: Store>(
    alloc: Global,
    store: &S,
    first: Edits,
    second: Edits,
) -> Result<Changes, NoMemory>
    requires { length (S.state store.now).views ≡ 2 }
    ensures { IfOk result (λ c. AreNet (S.state store.now).views c) }
{
    let one = part(alloc, store, 0, first)?;
    let other = part(alloc, store, 1, second)?;
    Ok(Changes {
        views: vec![in alloc; one, other]?,
    })
}

/// Begins the transaction of these edits, where none is active. The answer is the store's.
pub fn begin<S: Store>(
    alloc: Global,
    store: &mut S,
    first: Edits,
    second: Edits,
) -> Result<Result<(), StoreErr>, NoMemory> {
    if store.views() != 2 || store.phase() % 2 == 1 || store.phase() > 1_000 {
        return Err(NoMemory);
    }
    let changes = changes_of(alloc, store, first, second)?;
    Ok(store.begin(changes))
}

/// Makes all the changes that are left.
pub fn change_all<S: Store>(store: &mut S) {
    for _ in 0..store.left() {
        if store.left() > 0 {
            store.change_next();
        }
    }
}

/// Commits the version that was written.
pub fn publish<S: Store>(store: &mut S) {
    if store.phase() % 2 == 1 && store.left() == 0 {
        store.publish();
    }
}

/// Begins the transaction of these edits, makes its changes and commits it, unless it is refused.
pub fn commit<S: Store>(
    alloc: Global,
    store: &mut S,
    first: Edits,
    second: Edits,
) -> Result<Result<(), StoreErr>, NoMemory> {
    let begun = begin(alloc, store, first, second)?;
    if begun.is_ok() {
        change_all(store);
        publish(store);
    }
    Ok(begun)
}
