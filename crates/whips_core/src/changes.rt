//! The changes with which a transaction begins.
ghost use Rattle.std.specs.Prelude.{◌≡◌, ℕ, length, slice_get, Some, IfOk};
ghost use Rattle.std.specs.List.{AllByRecursion};
ghost use Rattle.whips_view.specs.ViewDefs.{View, row_columns};
ghost use Rattle.whips_actions.specs.Lists.{AreActionsOf};
ghost use Rattle.whips_changes.specs.Changes.{net_changes};
ghost use Rattle.whips_store.specs.Stores.{view_in};
ghost use Rattle.whips_contents.specs.Events.{rows_after, changes_of};
ghost use Rattle.whips_core_laws.specs.Calls.{IsListOf};

use std::alloc::Global;
use whips_actions::{ActionList, apply_in};
use whips_net::Draft;
use whips_rel::{Change, NoMemory, Rows};
use whips_setup::Setup;
use whips_store::{Changes, Store};
use whips_view::ViewDef;

/// The rows of view `x` after those of the lists that are its own, in order, and the net changes that lead there.
fn view_changes(
    alloc: Global,
    view: &ViewDef,
    x: u32,
    rows: &Rows,
    lists: &[ActionList],
) -> Result<(Rows, Vec<Change>), NoMemory>
    requires columns { rows.now.columns ≡ row_columns view.now }
    requires lists { AllByRecursion (λ l. l.view ≡ x → AreActionsOf view.now l.actions) lists.now }
    ensures rows { IfOk result (λ p. p.0 ≡ record {
      columns = rows.now.columns;
      rows = rows_after x view.now lists.now rows.now.rows;
    }) }
    ensures changes { IfOk result (λ p. p.1.items ≡ net_changes rows.now.columns.key rows.now.rows
        (rows_after x view.now lists.now rows.now.rows)) }
{
    let mut draft = Draft::of(rows)?;
    for list in lists {
        if list.view == x {
            apply_in(alloc, view, list, &mut draft)?;
        }
    }
    draft.finish(alloc)
}

/// For each view its rows after the lists, and the net changes that lead there.
pub(crate) fn changes_by<S: Store>(
    alloc: Global,
    setup: &Setup,
    store: &S,
    lists: &[ActionList],
) -> Result<Changes, NoMemory>
    requires views { length (S.state store.now).views ≡ length setup.now.views }
    requires columns { (x : ℕ) (view : View) → slice_get setup.now.views x ≡ Some view
        → (view_in (S.state store.now) x).columns ≡ row_columns view }
    requires lists { AllByRecursion (IsListOf setup.now.views) lists.now }
    ensures { IfOk result (λ c. c
        ≡ changes_of 0 setup.now.views (S.state store.now).views lists.now) }
{
    let count = setup.views();
    let mut views = Vec::with_capacity(alloc, count as usize)?;
    for x in 0..count {
        views.push(view_changes(alloc, setup.view(x), x, store.current(x), lists)?)?;
    }
    Ok(Changes { views })
}
