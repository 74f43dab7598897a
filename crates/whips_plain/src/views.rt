//! What the calls of a store do to each of its views.
ghost use Rattle.std.specs.Prelude.{◌≡◌, ◌≢◌, ◌<◌, ◌≤◌, ◌+◌, ◌/◌, ◌%◌, ◌^◌, length, map, None, Some, IfErr, IfSome, OnOk, MatchOption};
ghost use Rattle.std.specs.List.{sum_by, AllByRecursion};
ghost use Rattle.whips_store.specs.Stores.{ViewState};
ghost use Rattle.whips_store.specs.Calls.{AreNet, AreNetChanges, slots_needed, first_full, views_with, views_changed};
ghost use Rattle.whips_store.specs.Sound.{IsSoundView};
ghost use Rattle.whips_store_laws.specs.Laws.{AreTables};
ghost use Rattle.whips_plain.specs.Plain.{count, IsFirstLeft};

use whips_plain_store::PlainView;
use whips_rel::{Change, Rows};
use whips_store::{Changes, StoreErr};

/// That view `x` has slots for the transaction of these changes, which leads to the rows `after`. Nothing that is seen of
/// the view changes.
fn check_view(
    x: u32,
    view: &mut PlainView,
    after: &Rows,
    changes: &[Change],
    phase: u64,
    n: u32,
) -> Result<(), StoreErr>
    requires least { 2 ≤ n }
    requires most { n ≤ 4 }
    requires phase { phase < 2 ^ 62 }
    requires quiet { phase % 2 ≡ 0 }
    requires sound { IsSoundView n phase view.old }
    requires columns { after.now.columns ≡ view.old.columns }
    requires net { AreNetChanges view.old after.now.rows changes.now }
    ensures same { view.new ≡ view.old }
    ensures ok { OnOk result (slots_needed n (phase / 2) view.old after.now.rows
        ≤ length view.old.records) }
    ensures full { IfErr result (λ e. e ≢ StoreErr.NoMemory
        → (length view.old.records < slots_needed n (phase / 2) view.old after.now.rows)
        × (e ≡ StoreErr.Full x (slots_needed n (phase / 2) view.old after.now.rows)
        (length view.old.records))) }
{
    match view.prepare(phase, n, after, changes)? {
        None => Ok(()),
        Some(need) => Err(StoreErr::Full {
            view: x,
            need: need as u64,
            have: view.slots() as u64,
        }),
    }
}

/// That each of these views has slots for its transaction. Nothing that is seen of the views changes.
pub(crate) fn check_views(
    views: &mut Vec<PlainView>,
    changes: &[(Rows, Vec<Change>)],
    phase: u64,
    n: u32,
) -> Result<(), StoreErr>
    requires least { 2 ≤ n }
    requires most { n ≤ 4 }
    requires phase { phase < 2 ^ 62 }
    requires quiet { phase % 2 ≡ 0 }
    requires numbers { length views.old.items < 2 ^ 32 }
    requires sound { AllByRecursion (IsSoundView n phase) views.old.items }
    requires net { AreNet views.old.items (map (λ view. (view.0, view.1.items)) changes.now) }
    ensures same { views.new.items ≡ views.old.items }
    ensures ok { OnOk result (first_full n (phase / 2) 0 views.old.items
        (map (λ view. (view.0, view.1.items)) changes.now) ≡ None) }
    ensures full { IfErr result (λ e. e ≢ StoreErr.NoMemory
        → first_full n (phase / 2) 0 views.old.items
        (map (λ view. (view.0, view.1.items)) changes.now) ≡ Some e) }
{
    for x in 0..changes.len() {
        let change = &changes[x];
        check_view(x as u32, &mut views[x], &change.0, &change.1, phase, n)?;
    }
    Ok(())
}

/// How many changes there are, where that is a `u64`. The rows afterwards are tables.
pub(crate) fn count_changes(changes: &[(Rows, Vec<Change>)]) -> Option<u64>
    ensures tables { AreTables (map (λ view. (view.0, view.1.items)) changes.now) }
    ensures count { IfSome result (λ m. m ≡ count
        (map (λ view. (view.0, view.1.items)) changes.now)) }
{
    match changes {
        [] => Some(0),
        [change, changes @ ..] => {
            let _sound = change.0.schema();
            match count_changes(changes) {
                Some(more) => more.checked_add(change.1.len() as u64),
                None => None,
            }
        }
    }
}

/// Hands each view its rows afterwards and its changes.
pub(crate) fn put_changes(views: &mut Vec<PlainView>, changes: Changes)
    requires { AreNet views.old.items changes }
    ensures { views.new.items ≡ views_with views.old.items changes }
{
    let mut x = 0;
    for change in changes.views {
        views[x].begin(change.0, change.1);
        x += 1;
    }
}

/// The first change that is left, behind its view and the slot in which it will be made.
pub(crate) fn first_left(views: &[PlainView], phase: u64, n: u32) -> Option<(usize, usize, &Change)>
    requires least { 2 ≤ n }
    requires most { n ≤ 4 }
    requires phase { phase < 2 ^ 63 }
    requires sound { AllByRecursion (IsSoundView n phase) views.now }
    ensures { MatchOption result (sum_by (λ v. length v.left) views.now ≡ 0)
        (λ next. IsFirstLeft n (phase / 2) views.now next.0 next.1 next.2.now) }
{
    for x in 0..views.len() {
        if let Some((slot, change)) = views[x].next_change(phase, n) {
            return Some((x, slot, change));
        }
    }
    None
}

/// Makes the first change that is left.
pub(crate) fn change_first(views: &mut Vec<PlainView>, phase: u64, n: u32)
    requires least { 2 ≤ n }
    requires most { n ≤ 4 }
    requires phase { phase < 2 ^ 63 }
    requires sound { AllByRecursion (IsSoundView n phase) views.old.items }
    ensures { views.new.items ≡ views_changed n (phase / 2) views.old.items }
{
    for x in 0..views.len() {
        if views[x].left() > 0 {
            views[x].change_next(phase, n);
            return;
        }
    }
}

/// Makes each view's new rows the current ones.
pub(crate) fn publish_views(views: &mut Vec<PlainView>)
    ensures { views.new.items ≡ map (λ (v : ViewState).
        record v { current = v.next }) views.old.items }
{
    for view in views.iter_mut() {
        view.publish();
    }
}
