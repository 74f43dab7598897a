//! Whether transactions are valid, each update on the relations after the ones before it.
ghost use Rattle.std.specs.Prelude.{◌≡◌, ◌≢◌, ◌<◌, ◌≤◌, ◌+◌, ◌^◌, true, length, map, slice_get, None, Some, IfErr, OnOk};
ghost use Rattle.std.specs.List.{list_all};
ghost use Rattle.std.specs.Option.{option_copied};
ghost use Rattle.whips_rel.specs.declared.update.Update.TheVariants.{Insert, Delete};
ghost use Rattle.whips_states.specs.States.{with_row, without_row, updated, applied};
ghost use Rattle.whips_setup.specs.Workloads.{is_row, row_refusal, update_refusal, transaction_refusal, list_refusal, has_width, is_transaction_within};

use crate::BatchErr;
use crate::limits::is_source;
use whips_rel::{InsertErr, Relation, Trans, Tuple, Update};

/// Where an update is: its source, the place of its transaction in the source's list, and its place in the transaction,
/// both from 1.
#[derive(Clone, Copy)]
pub(crate) struct ItemPlace {
    pub(crate) source: u32,
    pub(crate) place: u64,
    pub(crate) item: u32,
}

/// Puts the tuple in, where its key isn't there.
fn insert_row(
    at: ItemPlace,
    relation: &mut Relation,
    number: u32,
    tuple: &Tuple,
) -> Result<(), BatchErr>
    requires { length tuple.now ≡ length relation.old.columns.kinds }
    ensures ok { OnOk result ((row_refusal at relation.old (Insert number tuple.now) ≡ None)
        × (relation.new ≡ with_row tuple.now relation.old)) }
    ensures refused { IfErr result (λ e. e ≢ BatchErr.NoMemory
        → row_refusal at relation.old (Insert number tuple.now) ≡ Some e) }
{
    match relation.insert(tuple.copy()?) {
        Ok(()) => Ok(()),
        Err(InsertErr::Present(_)) => Err(BatchErr::Present(at.source, at.place, at.item)),
        Err(InsertErr::NoMemory(_)) => Err(BatchErr::NoMemory),
    }
}

/// Whether the row is the tuple.
fn is_row(tuple: &Tuple, row: Option<&Tuple>) -> bool
    ensures { result ≡ is_row tuple.now (option_copied row.entry) }
{
    match row {
        Some(row) => *row == *tuple,
        None => false,
    }
}

/// Takes the tuple out, where it is a row.
fn delete_row(
    at: ItemPlace,
    relation: &mut Relation,
    number: u32,
    tuple: &Tuple,
) -> Result<(), BatchErr>
    requires { length tuple.now ≡ length relation.old.columns.kinds }
    ensures ok { OnOk result ((row_refusal at relation.old (Delete number tuple.now) ≡ None)
        × (relation.new ≡ without_row tuple.now relation.old)) }
    ensures refused { IfErr result (λ e. e ≢ BatchErr.NoMemory
        → row_refusal at relation.old (Delete number tuple.now) ≡ Some e) }
{
    let key = relation.schema().key_of(tuple)?;
    if !is_row(tuple, relation.get(&key)) {
        return Err(BatchErr::Absent(at.source, at.place, at.item));
    }
    relation.delete_if_there(&key)?;
    Ok(())
}

/// Makes the update in the relations.
fn make_update(
    homes: &[u32],
    at: ItemPlace,
    update: &Update,
    relations: &mut Vec<Relation>,
) -> Result<(), BatchErr>
    requires homes { length homes.now ≡ length relations.old.items }
    requires width { has_width relations.old.items update.now ≡ true }
    ensures ok { OnOk result ((update_refusal homes.now at relations.old.items update.now ≡ None)
        × (relations.new.items ≡ updated relations.old.items update.now)) }
    ensures refused { IfErr result (λ e. e ≢ BatchErr.NoMemory
        → update_refusal homes.now at relations.old.items update.now ≡ Some e) }
{
    let number = update.relation();
    if !is_source(at.source, homes, number) {
        return Err(BatchErr::Foreign(at.source, at.place, at.item));
    }
    let relation = &mut relations[number as usize];
    match update {
        Update::Insert(_, tuple) => insert_row(at, relation, number, tuple),
        Update::Delete(_, tuple) => delete_row(at, relation, number, tuple),
    }
}

/// Makes the updates in the relations, one after another.
fn make_updates(
    homes: &[u32],
    at: ItemPlace,
    updates: &[Update],
    relations: &mut Vec<Relation>,
) -> Result<(), BatchErr>
    requires homes { length homes.now ≡ length relations.old.items }
    requires items { at.item + length updates.now < 2 ^ 32 }
    requires widths { list_all (has_width relations.old.items) updates.now ≡ true }
    ensures ok { OnOk result ((transaction_refusal homes.now at relations.old.items updates.now
        ≡ None) × (relations.new.items ≡ applied relations.old.items updates.now)) }
    ensures refused { IfErr result (λ e. e ≢ BatchErr.NoMemory
        → transaction_refusal homes.now at relations.old.items updates.now ≡ Some e) }
{
    match updates {
        [] => Ok(()),
        [update, updates @ ..] => {
            make_update(homes, at, update, relations)?;
            let next = ItemPlace {
                source: at.source,
                place: at.place,
                item: at.item + 1,
            };
            make_updates(homes, next, updates, relations)
        }
    }
}

/// Makes the transactions of a source in the relations, one after another.
pub(crate) fn make_list(
    homes: &[u32],
    source: u32,
    list: &[Trans],
    relations: &mut Vec<Relation>,
) -> Result<(), BatchErr>
    requires homes { length homes.now ≡ length relations.old.items }
    requires places { length list.now ≤ 4096 }
    requires items { list_all (is_transaction_within relations.old.items) list.now ≡ true }
    ensures ok { OnOk result (list_refusal homes.now source 1 relations.old.items list.now ≡ None) }
    ensures refused { IfErr result (λ e. e ≢ BatchErr.NoMemory
        → list_refusal homes.now source 1 relations.old.items list.now ≡ Some e) }
{
    let mut place = 0u64;
    for transaction in list {
        place += 1;
        let first = ItemPlace {
            source,
            place,
            item: 1,
        };
        make_updates(homes, first, &transaction.items, relations)?;
    }
    Ok(())
}
