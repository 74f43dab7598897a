//! Lists of actions.
ghost use Rattle.std.specs.Prelude.{◌≡◌, [], ◌∷◌, length, IfOk, OnOk};
ghost use Rattle.whips_view.specs.ViewDefs.{row_columns};
ghost use Rattle.whips_actions.specs.Lists.{AreActionsOf};

use crate::views::product;
use std::alloc::Global;
use whips_actions::{Action, ActionList, Actions, apply, apply_to};
use whips_fixtures::are_rows;
use whips_rel::{InsertErr, NoMemory, Rows, Tuple};
use whips_view::{ViewDef, ViewErr};

/// Puts a row in, where it has the rows' width.
fn put(alloc: Global, rows: &mut Rows, codes: &[u64]) -> Result<(), NoMemory>
    ensures { rows.new.columns ≡ rows.old.columns }
{
    if codes.len() != rows.schema().kinds().len() {
        return Err(NoMemory);
    }
    match rows.insert(Tuple::from_slice(alloc, codes)?) {
        Ok(()) => Ok(()),
        Err(InsertErr::Present(_)) | Err(InsertErr::NoMemory(_)) => Err(NoMemory),
    }
}

/// These rows of the view.
fn rows_of(alloc: Global, view: &ViewDef, codes: &[[u64; 2]]) -> Result<Rows, NoMemory>
    ensures { IfOk result (λ r. r.columns ≡ row_columns view.now) }
{
    let mut rows = Rows::new(alloc, view.schema().copy()?)?;
    for row in codes {
        put(alloc, &mut rows, row)?;
    }
    Ok(rows)
}

/// The key 5 of part 1 is deleted, and then these rows come.
fn list(alloc: Global, view: &ViewDef, new: &[[u64; 2]]) -> Result<ActionList, NoMemory>
    requires parts { length view.now.bases ≡ 2 }
    ensures { IfOk result (λ l. AreActionsOf view.now l.actions) }
{
    let mut actions = Actions::new(alloc);
    actions.push(Action::KeyDelete(1, Tuple::from_slice(alloc, &[5])?))?;
    actions.push(Action::Put(rows_of(alloc, view, new)?))?;
    Ok(ActionList {
        view: 0,
        upto: 1,
        actions,
    })
}

/// Whether the list makes rows of these codes, by the call that borrows the rows.
fn makes_by(
    alloc: Global,
    view: &ViewDef,
    list: &ActionList,
    rows: &Rows,
    codes: &[&[u64]],
) -> Result<bool, NoMemory>
    requires rows { rows.now.columns ≡ row_columns view.now }
    requires actions { AreActionsOf view.now list.now.actions }
{
    let after = apply(alloc, view, list, rows)?.tuples()?;
    Ok(are_rows(after.as_slice(), codes))
}

/// Whether the list makes rows of these codes of the others, by the call that borrows the rows and by the one that takes
/// them.
fn makes(
    alloc: Global,
    view: &ViewDef,
    list: &ActionList,
    before: &[[u64; 2]],
    codes: &[&[u64]],
) -> Result<bool, ViewErr>
    requires actions { AreActionsOf view.now list.now.actions }
{
    let rows = rows_of(alloc, view, before)?;
    let is_made = makes_by(alloc, view, list, &rows, codes)?;
    let again = apply_to(alloc, view, list, rows)?.tuples()?;
    Ok(is_made & are_rows(again.as_slice(), codes))
}

/// Whether key 5 of part 1 goes and the missing row comes.
fn acts(alloc: Global, view: &ViewDef) -> Result<bool, ViewErr>
    requires parts { length view.now.bases ≡ 2 }
{
    let list = list(alloc, view, &[[2, 6], [3, 5]])?;
    makes(alloc, view, &list, &[[1, 5], [2, 6]], &[&[2, 6], &[3, 5]])
}

fn product_acts(alloc: Global) -> Result<bool, ViewErr> {
    let view = product(alloc)?;
    acts(alloc, &view)
}

#[test]
fn a_key_goes_and_missing_rows_come(rt: HostRuntime) {
    assert!(rt; product_acts(rt.alloc()) == Ok(true));
}

/// Whether what is taken has the one action, and nothing stays.
fn takes_one(alloc: Global) -> Result<bool, NoMemory> {
    let mut actions = Actions::of(Vec::new(alloc));
    actions.push(Action::KeyDelete(0, Tuple::from_slice(alloc, &[5])?))?;
    let before = actions.len();
    let taken = actions.take();
    Ok((before == 1) & (taken.as_slice().len() == 1) & (actions.len() == 0))
}

#[test]
fn a_list_is_taken(rt: HostRuntime) {
    assert!(rt; matches!(takes_one(rt.alloc()), Ok(true)));
}
