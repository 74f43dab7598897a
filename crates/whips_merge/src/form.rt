//! Row sets become transactions.
ghost use Rattle.std.specs.Prelude.{◌≡◌, ◌∷◌, [], ◌++◌, if◌then◌else◌, not, max, List, length, map, filter, fold, IfOk, OnOk, OnErr};
ghost use Rattle.whips_lists.specs.Lists.{changed_at};
ghost use Rattle.whips_flow.specs.Cuts.{cut_after};
ghost use Rattle.whips_paint.specs.Table.{with_rows};
ghost use Rattle.whips_merge.specs.Taking.{sets_taken, rows_after_sets};
ghost use Rattle.whips_merge.specs.Merging.{MergeState, covers_any, lists_of, lists_left, transaction_of, with_transaction, with_settled};
ghost use Rattle.whips_merge.specs.Holding.{rows_of, transactions_of, state_of, IsWhole};

use crate::lists::{ActionLists, Numbers, Queue, Transaction};
use crate::paint::{paint_all, take_ready};
use std::alloc::Global;
use std::collections::VecDeque;
use whips_actions::ActionList;
use whips_paint::{Row, Table};
use whips_rel::NoMemory;
use whips_setup::Cut;

/// A row set that waits, with its transaction.
#[derive(Drop)]
pub(crate) struct Waiting {
    pub(crate) rows: Vec<Row>,
    pub(crate) transaction: Transaction,
}

/// What a merge holds.
#[derive(Drop)]
pub(crate) struct Holdings {
    /// The transactions that were announced and haven't left.
    pub(crate) table: Table,
    /// Of each view the numbers of the lists that came before their rows.
    pub(crate) waiting: Vec<Queue>,
    /// Of each view the lists whose rows haven't left the table.
    pub(crate) lists: Vec<ActionLists>,
    /// The cut after all row sets that have left the table.
    pub(crate) cut: Vec<u64>,
    /// The row sets that wait to be handed out.
    pub(crate) sets: VecDeque<Waiting>,
}

/// Adds the list to one of two lists.
fn add_to_one(
    list: ActionList,
    is_taken: bool,
    taken: &mut ActionLists,
    left: &mut ActionLists,
) -> Result<(), NoMemory>
    ensures taken { OnOk result (taken.new ≡ taken.old ++ (if is_taken then list ∷ [] else [])) }
    ensures left { OnOk result (left.new ≡ left.old ++ (if not is_taken then list ∷ [] else [])) }
{
    if is_taken {
        taken.push(list)?;
    } else {
        left.push(list)?;
    }
    Ok(())
}

/// Whether the list was painted in one of the rows.
fn is_painted_in(rows: &[Row], list: &ActionList) -> bool
    ensures { result ≡ covers_any rows.now list.now }
{
    rows.iter().any(|row| row.is_red(list.view, list.upto))
}

/// Takes out the lists of a view that were painted in the rows.
fn take_lists(
    rows: &[Row],
    lists: &mut ActionLists,
    taken: &mut ActionLists,
) -> Result<(), NoMemory>
    ensures taken { OnOk result (taken.new ≡ taken.old ++ filter (covers_any rows.now) lists.old) }
    ensures left { OnOk result (lists.new ≡ filter (λ l. not (covers_any rows.now l)) lists.old) }
{
    for list in lists.take_all() {
        let is_taken = is_painted_in(rows, &list);
        add_to_one(list, is_taken, taken, lists)?;
    }
    Ok(())
}

/// Takes out the lists of all views that were painted in the rows, in order of view.
fn take_all_lists(
    alloc: Global,
    rows: &[Row],
    lists: &mut Vec<ActionLists>,
) -> Result<ActionLists, NoMemory>
    ensures taken { IfOk result (λ taken. taken ≡ lists_of rows.now lists.old.items) }
    ensures left { OnOk result (lists.new.items ≡ lists_left rows.now lists.old.items) }
{
    let mut taken = ActionLists::new(alloc);
    for own in lists.iter_mut() {
        take_lists(rows, own, &mut taken)?;
    }
    Ok(taken)
}

/// Counts the source up to the place, where it isn't already.
fn raise_source(cut: &mut [u64], source: u32, place: u64)
    ensures { cut.new ≡ changed_at source (max place) cut.old }
{
    let at = source as usize;
    if at < cut.len() {
        cut[at] = place.max(cut[at]);
    }
}

/// Counts each row's source up to the row's place.
fn raise_cut(cut: &mut [u64], rows: &[Row])
    ensures { cut.new ≡ cut_after cut.old rows.now }
{
    for row in rows {
        raise_source(cut, row.source(), row.place());
    }
}

/// The numbers of the rows.
fn numbers_of(alloc: Global, rows: &[Row]) -> Result<Numbers, NoMemory>
    ensures { IfOk result (λ n. n ≡ map (λ r. r.number) rows.now) }
{
    let mut numbers = Vec::with_capacity(alloc, rows.len())?;
    for row in rows {
        numbers.push(row.number())?;
    }
    Ok(Numbers::of(numbers))
}

/// Makes a transaction of the row set.
fn form_transaction(
    alloc: Global,
    rows: Vec<Row>,
    lists: &mut Vec<ActionLists>,
    cut: &mut Vec<u64>,
) -> Result<Waiting, NoMemory>
    ensures rows { IfOk result (λ w. w.rows.items ≡ rows.items) }
    ensures transaction { IfOk result (λ w.
        w.transaction ≡ transaction_of rows.items lists.old.items cut.old.items) }
    ensures lists { OnOk result (lists.new.items ≡ lists_left rows.items lists.old.items) }
    ensures cut { OnOk result (cut.new.items ≡ cut_after cut.old.items rows.items) }
{
    let taken = take_all_lists(alloc, &rows, lists)?;
    raise_cut(cut, &rows);
    let transaction = Transaction {
        rows: numbers_of(alloc, &rows)?,
        lists: taken,
        cut: Cut::of(Vec::from_slice(alloc, cut)?),
    };
    Ok(Waiting { rows, transaction })
}

/// Makes a transaction of each row set that is ready, one after another, in at most `turns` turns.
pub(crate) fn form_all(
    alloc: Global,
    turns: usize,
    table: &mut Table,
    lists: &mut Vec<ActionLists>,
    cut: &mut Vec<u64>,
) -> Result<VecDeque<Waiting>, NoMemory>
    ensures table { OnOk result
        (table.new ≡ with_rows table.old (rows_after_sets turns table.old.table.rows)) }
    ensures sets { IfOk result (λ formed.
        rows_of formed.items ≡ sets_taken turns table.old.table.rows) }
    ensures formed { IfOk result (λ formed.
        (s : MergeState) → s.lists ≡ lists.old.items → s.cut ≡ cut.old.items
        → fold with_transaction s (sets_taken turns table.old.table.rows)
        ≡ record s {
          lists = lists.new.items;
          cut = cut.new.items;
          transactions = s.transactions ++ transactions_of formed.items;
        }) }
    ensures lists { OnOk result (length lists.new.items ≡ length lists.old.items) }
{
    let mut formed = VecDeque::new(alloc);
    for turn in 0..turns {
        let set = match take_ready(table)? {
            Some(set) => set,
            None => return Ok(formed),
        };
        let waiting = form_transaction(alloc, set, lists, cut)?;
        formed.push_back(waiting)?;
    }
    Ok(formed)
}

/// Paints each list whose rows have come, and makes a transaction of each row set that is ready then. Where no list is
/// painted, no row is ready, as none was before.
pub(crate) fn settle(held: &mut Holdings) -> Result<(), NoMemory>
    requires { IsWhole held.old }
    ensures settled { OnOk result (state_of held.new ≡ with_settled (state_of held.old)) }
    ensures whole { OnOk result (IsWhole held.new) }
    ensures last { OnOk result
        (held.new.table.table.last_announced ≡ held.old.table.table.last_announced) }
    ensures views { OnOk result (held.new.table.views ≡ held.old.table.views) }
    ensures err { OnErr result (held.new.sets.items ≡ held.old.sets.items) }
{
    let alloc = *held.waiting.allocator();
    let turns = held.table.len();
    if !paint_all(&mut held.table, &mut held.waiting) {
        return Ok(());
    }
    let mut formed = form_all(
        alloc,
        turns,
        &mut held.table,
        &mut held.lists,
        &mut held.cut,
    )?;
    held.sets.append(&mut formed)?;
    Ok(())
}
