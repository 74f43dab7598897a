//! One view of a plain store: a transaction is prepared, begun, made change by change and published.
ghost use Rattle.std.specs.Prelude.{◌≡◌, ◌≤◌, ◌<◌, length, IfOk, IfSome, OnOk, None, [], ◌∷◌};
ghost use Rattle.whips_fixtures.specs.Pairs.{pair_columns};
ghost use Rattle.whips_store.specs.Sound.{IsSoundView};
ghost use Rattle.whips_store.specs.Calls.{AreNetChanges, slots_needed};

use crate::looks::row_text;
use crate::rows::are_rows_within;
use std::alloc::Global;
use whips_fixtures::{are_rows, pairs};
use whips_net::net;
use whips_plain_store::PlainView;
use whips_rel::{Change, NoMemory, Rows};
use whips_row_buf::RowBuf;
use whips_vnl::Shown;

/// The view of the rows (1, 5) and (2, 5), with so many slots.
fn two_rows(alloc: Global, slots: usize) -> Result<PlainView, NoMemory>
    ensures columns { IfOk result (λ v. v.columns ≡ pair_columns) }
    ensures sound { IfOk result (λ v. IsSoundView 2 0 v) }
{
    let rows = pairs(alloc, &[(1, 5), (2, 5)])?;
    if rows.len() > slots {
        return Err(NoMemory);
    }
    if !are_rows_within(&rows) {
        return Err(NoMemory);
    }
    let view = PlainView::make(alloc, rows, slots)?;
    Ok(view)
}

/// These rows, and the changes that lead there.
fn changes_to(
    alloc: Global,
    view: &PlainView,
    rows: &[(u64, u64)],
) -> Result<(Rows, Vec<Change>), NoMemory>
    requires { view.now.columns ≡ pair_columns }
    ensures columns { IfOk result (λ part. part.0.columns ≡ view.now.columns) }
    ensures net { IfOk result (λ part. AreNetChanges view.now part.0.rows part.1.items) }
{
    let after = pairs(alloc, rows)?;
    if !are_rows_within(&after) {
        return Err(NoMemory);
    }
    let before = view.current();
    let changes = net(alloc, before, &after)?;
    Ok((after, changes))
}

/// Begins the transaction of these changes, for which there are slots enough.
fn begin_roomy(view: &mut PlainView, after: Rows, changes: Vec<Change>)
    requires columns { after.columns ≡ view.old.columns }
    requires sound { IsSoundView 2 0 view.old }
    requires net { AreNetChanges view.old after.rows changes.items }
    requires room { slots_needed 2 0 view.old after.rows ≤ length view.old.records }
    ensures columns { view.new.columns ≡ view.old.columns }
    ensures begun { IsSoundView 2 1 view.new }
{
    let _table = after.schema();
    view.begin(after, changes);
}

/// Prepares the transaction that leads to these rows, and begins it where there are slots enough. The answer is how many
/// are needed where they are too few.
fn begin(
    alloc: Global,
    view: &mut PlainView,
    rows: &[(u64, u64)],
) -> Result<Option<usize>, NoMemory>
    requires columns { view.old.columns ≡ pair_columns }
    requires sound { IsSoundView 2 0 view.old }
    ensures columns { view.new.columns ≡ pair_columns }
    ensures begun { IfOk result (λ short. short ≡ None → IsSoundView 2 1 view.new) }
{
    let (after, changes) = changes_to(alloc, view, rows)?;
    match view.prepare(0, 2, &after, &changes)? {
        Some(need) => Ok(Some(need)),
        None => {
            begin_roomy(view, after, changes);
            Ok(None)
        }
    }
}

/// Makes all the changes.
fn change_all(view: &mut PlainView)
    requires columns { view.old.columns ≡ pair_columns }
    requires sound { IsSoundView 2 1 view.old }
    ensures columns { view.new.columns ≡ pair_columns }
    ensures sound { IsSoundView 2 1 view.new }
{
    for turn in 0..view.left() {
        view.change_next(1, 2);
    }
}

/// What slot `i` shows at version `v`: `key=code`, `-` for nothing, or `past`.
fn slot_text(alloc: Global, view: &PlainView, i: usize, v: u64) -> Result<String, NoMemory>
    requires { IsSoundView 2 1 view.now }
{
    if i >= view.slots() {
        return Err(NoMemory);
    }
    let mut buf = RowBuf::make(alloc, view.current().schema(), 1)?;
    match view.look(i, v, 2, &mut buf) {
        Shown::Row => row_text(alloc, &buf),
        Shown::Nothing => Ok(format!(in alloc; "-")?),
        Shown::Past => Ok(format!(in alloc; "past")?),
    }
}

/// What each slot shows at version `v`.
fn slots_text(alloc: Global, view: &PlainView, v: u64) -> Result<String, NoMemory>
    requires { IsSoundView 2 1 view.now }
{
    let mut text = String::new(alloc);
    for i in 0..view.slots() {
        let slot = slot_text(alloc, view, i, v)?;
        write!(text, " {}", slot.as_str())?;
    }
    Ok(text)
}

/// Whether its slots show this at versions 0 and 1.
fn shows(alloc: Global, view: &PlainView, texts: [&str; 2]) -> Result<bool, NoMemory>
    requires { IsSoundView 2 1 view.now }
{
    let old = slots_text(alloc, view, 0)?;
    let new = slots_text(alloc, view, 1)?;
    Ok((old.as_str() == texts[0]) & (new.as_str() == texts[1]))
}

/// Whether the current rows are these.
fn has_rows(view: &PlainView, rows: &[&[u64]]) -> Result<bool, NoMemory> {
    let current = view.current().tuples()?;
    Ok(are_rows(current.as_slice(), rows))
}

/// Whether key 1 goes, key 2 gets the code 9 and key 3 comes, in the slots where they belong.
fn is_changed(alloc: Global, view: &mut PlainView) -> Result<bool, NoMemory>
    requires columns { view.old.columns ≡ pair_columns }
    requires sound { IsSoundView 2 0 view.old }
{
    if begin(alloc, view, &[(2, 9), (3, 5)])?.is_some() {
        return Ok(false);
    }
    let begun = (view.left() == 3) & shows(alloc, view, [" 1=5 2=5 -", " 1=5 2=5 -"])?;
    change_all(view);
    let made = (view.left() == 0) & shows(alloc, view, [" 1=5 2=5 -", " - 2=9 3=5"])?;
    let kept = has_rows(view, &[&[1, 5], &[2, 5]])?;
    view.publish();
    Ok(begun & made & kept & has_rows(view, &[&[2, 9], &[3, 5]])?)
}

fn two_rows_change(alloc: Global) -> Result<bool, NoMemory> {
    let mut view = two_rows(alloc, 3)?;
    is_changed(alloc, &mut view)
}

#[test]
fn changes_are_made_in_slots_and_published(rt: HostRuntime) {
    assert!(rt; matches!(two_rows_change(rt.alloc()), Ok(true)));
}

/// How many slots are needed for these rows, as `slots_needed` says it and, where it says that they are too few, as
/// `prepare` does.
fn need(
    alloc: Global,
    view: &mut PlainView,
    rows: &[(u64, u64)],
) -> Result<(usize, Option<usize>), NoMemory>
    requires columns { view.old.columns ≡ pair_columns }
    requires sound { IsSoundView 2 0 view.old }
{
    let (after, changes) = changes_to(alloc, view, rows)?;
    let need = view.slots_needed(0, 2, &after)?;
    Ok((need, view.prepare(0, 2, &after, &changes)?))
}

/// Rows of a view with the rows (1, 5) and (2, 5) and three slots afterwards, how many slots that needs, and whether they
/// are too few.
const NEEDS: [(&[(u64, u64)], usize, Option<usize>); 4] = [
    (&[(1, 9), (2, 5)], 2, None),
    (&[(2, 5)], 2, None),
    (&[(2, 5), (3, 5)], 3, None),
    (&[(3, 5), (4, 5)], 4, Some(4)),
];

fn needs(alloc: Global, rows: &[(u64, u64)]) -> Result<(usize, Option<usize>), NoMemory> {
    let mut view = two_rows(alloc, 3)?;
    need(alloc, &mut view, rows)
}

#[test]
fn a_new_key_needs_a_slot_beside_the_one_that_goes(rt: HostRuntime) {
    for (rows, slots, short) in NEEDS {
        assert!(rt; needs(rt.alloc(), rows) == Ok((slots, short)), "{rows:?}");
    }
}
