//! Workloads: the transactions of each source.
ghost use Rattle.std.specs.Prelude.{◌≡◌, ◌≢◌, ◌<◌, ◌≤◌, ◌+◌, ◌^◌, [], ◌∷◌, true, length, map, slice_get, None, Some, IfOk, IfErr, OnOk};
ghost use Rattle.std.specs.Option.{option_map};
ghost use Rattle.std.specs.List.{list_all};
ghost use Rattle.whips_setup.specs.Workloads.{is_update_within, is_transaction_within, is_list_within, lists_refusal, work_refusal, IsWorkload, IsSomeWorkload, one_each, without_item};

use crate::limits::has_numbers_within;
use crate::validity::make_list;
use crate::{BatchErr, Setup, WorkErr};
use std::alloc::Global;
use std::marker::Model;
use whips_rel::{NoMemory, Relation, Trans, Update};

/// The most transactions of a source.
const MAX_TRANSACTIONS: usize = 4_096;
/// The most updates of a transaction.
const MAX_UPDATES: usize = 16;

/// The transactions of each source, seen as their lists. A workload is always valid for the setup that it was made for.
#[derive(Drop)]
pub struct Workload {
    lists: Vec<Vec<Trans>>,
}

impl Model for Workload {
    ghost use Rattle.std.specs.Prelude.{List, map};
    ghost use Rattle.whips_states.specs.States.{Updates};
    ghost use Rattle.whips_setup.specs.Workloads.{IsSomeWorkload};

    ghost Value = { List (List Updates) };

    ghost view = { λ w. map (λ list. list.items) w.lists.items };

    ghost invariant = { λ w. IsSomeWorkload (map (λ list. list.items) w.lists.items) };
}

impl Workload {
    /// The workload of transactions of one update. `Limit` comes first: there isn't one list for each source, or a list has
    /// more than 4,096 updates, or a tuple hasn't its relation's width, or has a number above 999,999,999,999. After it
    /// comes the first refusal in the order of source and place.
    pub fn make(
        alloc: Global,
        setup: &Setup,
        updates: Vec<Vec<Update>>,
    ) -> Result<Workload, WorkErr>
        ensures made { IfOk result (λ w. (w ≡ one_each (map (λ list. list.items) updates.items))
            × IsWorkload setup.now w) }
        ensures refused { IfErr result (λ e. e ≢ WorkErr.NoMemory
            → option_map without_item (work_refusal setup.now
            (one_each (map (λ list. list.items) updates.items))) ≡ Some e) }
    {
        match Workload::batched(setup, all_singles(alloc, updates)?) {
            Ok(workload) => Ok(workload),
            Err(BatchErr::Limit) => Err(WorkErr::Limit),
            Err(BatchErr::Foreign(source, place, _)) => Err(WorkErr::Foreign(source, place)),
            Err(BatchErr::Present(source, place, _)) => Err(WorkErr::Present(source, place)),
            Err(BatchErr::Absent(source, place, _)) => Err(WorkErr::Absent(source, place)),
            Err(BatchErr::NoMemory) => Err(WorkErr::NoMemory),
        }
    }

    /// The workload of these transactions. `Limit` comes first, where it comes in `make`, or where a transaction hasn't 1
    /// to 16 updates. After it comes the first refusal in the order of source, place and item.
    pub fn batched(setup: &Setup, work: Vec<Vec<Trans>>) -> Result<Workload, BatchErr>
        ensures made { IfOk result (λ w. (w ≡ map (λ list. list.items) work.items)
            × IsWorkload setup.now w) }
        ensures refused { IfErr result (λ e. e ≢ BatchErr.NoMemory
            → work_refusal setup.now (map (λ list. list.items) work.items) ≡ Some e) }
    {
        if work.len() != setup.sources() as usize {
            return Err(BatchErr::Limit);
        }
        if !are_lists_within(setup.initial_rows(), &work) {
            return Err(BatchErr::Limit);
        }
        check_lists(setup, 0, &work)?;
        Ok(Workload { lists: work })
    }

    /// The lists of transactions, one for each source.
    pub fn parts(self) -> Vec<Vec<Trans>>
        ensures { map (λ list. list.items) result.items ≡ self }
    {
        self.lists
    }

    /// The transactions of the source, in order. That a workload is valid for a setup is said here.
    pub fn updates(&self, y: u32) -> &Vec<Trans>
        requires { y < length self.now }
        ensures updates { slice_get self.now y ≡ Some result.now.items }
        ensures sound { IsSomeWorkload self.now }
    {
        &self.lists[y as usize]
    }
}

/// The transactions of one of these updates each.
fn singles(alloc: Global, list: Vec<Update>) -> Result<Vec<Trans>, NoMemory>
    ensures { IfOk result (λ made. made.items ≡ map (λ u. u ∷ []) list.items) }
{
    let mut made = Vec::with_capacity(alloc, list.len())?;
    for update in list {
        let mut items = Vec::with_capacity(alloc, 1)?;
        items.push(update)?;
        made.push(Trans { items })?;
    }
    Ok(made)
}

/// The transactions of one update each, list by list.
fn all_singles(alloc: Global, updates: Vec<Vec<Update>>) -> Result<Vec<Vec<Trans>>, NoMemory>
    ensures { IfOk result (λ made. map (λ list. list.items) made.items
        ≡ one_each (map (λ list. list.items) updates.items)) }
{
    let mut made = Vec::with_capacity(alloc, updates.len())?;
    for list in updates {
        made.push(singles(alloc, list)?)?;
    }
    Ok(made)
}

/// Whether the update's tuple has its relation's width and no number above the greatest, where the relation is there.
fn is_update_within(relations: &[Relation], update: &Update) -> bool
    ensures { result ≡ is_update_within relations.now update.now }
{
    match relations.get(update.relation() as usize) {
        Some(relation) => {
            let kinds = relation.schema().kinds();
            update.tuple().len() == kinds.len() && has_numbers_within(kinds, update.tuple().codes())
        }
        None => true,
    }
}

/// Whether each update is within its limits.
fn are_updates_within(relations: &[Relation], updates: &[Update]) -> bool
    ensures { result ≡ list_all (is_update_within relations.now) updates.now }
{
    match updates {
        [] => true,
        [update, updates @ ..] => {
            is_update_within(relations, update) && are_updates_within(relations, updates)
        }
    }
}

/// Whether there are 1 to 16 updates, each within its limits.
fn is_transaction_within(relations: &[Relation], updates: &[Update]) -> bool
    ensures { result ≡ is_transaction_within relations.now updates.now }
{
    1 <= updates.len() && updates.len() <= MAX_UPDATES && are_updates_within(relations, updates)
}

/// Whether there are up to 4,096 transactions, each within its limits.
fn is_list_within(relations: &[Relation], list: &[Trans]) -> bool
    ensures { result ≡ is_list_within relations.now list.now }
{
    if list.len() > MAX_TRANSACTIONS {
        return false;
    }
    for transaction in list {
        if !is_transaction_within(relations, &transaction.items) {
            return false;
        }
    }
    true
}

/// Whether each list is within its limits.
fn are_lists_within(relations: &[Relation], lists: &[Vec<Trans>]) -> bool
    ensures { result ≡ list_all (is_list_within relations.now)
        (map (λ list. list.items) lists.now) }
{
    match lists {
        [] => true,
        [list, lists @ ..] => is_list_within(relations, list) && are_lists_within(relations, lists),
    }
}

/// That each source, of which the first here is this one, can make its transactions on the initial relations.
fn check_lists(setup: &Setup, source: u32, lists: &[Vec<Trans>]) -> Result<(), BatchErr>
    requires sources { source + length lists.now < 2 ^ 32 }
    requires within { list_all (is_list_within setup.now.initial)
        (map (λ list. list.items) lists.now) ≡ true }
    ensures ok { OnOk result (lists_refusal setup.now source
        (map (λ list. list.items) lists.now) ≡ None) }
    ensures refused { IfErr result (λ e. e ≢ BatchErr.NoMemory
        → lists_refusal setup.now source (map (λ list. list.items) lists.now) ≡ Some e) }
{
    match lists {
        [] => Ok(()),
        [list, lists @ ..] => {
            let mut relations = setup.initial_relations()?;
            make_list(setup.homes(), source, list, &mut relations)?;
            check_lists(setup, source + 1, lists)
        }
    }
}
