//! The updates that a picker makes, one at a time.
ghost use Rattle.std.specs.Prelude.{◌≡◌, IfOk, OnOk, None, length};
ghost use Rattle.whips_model.specs.Tuples.{at_columns, row_at};
ghost use Rattle.whips_states.specs.States.{with_row};
ghost use Rattle.whips_gen.specs.Shop.{order_columns, item_columns};
ghost use Rattle.whips_gen.specs.Made.{order_made, item_made, table_after};

use std::alloc::Global;
use whips_pick::Picker;
use whips_rel::{DeleteErr, InsertErr, NoMemory, Relation, Tuple, Update};

/// The relations of the shop, by number.
pub(crate) const ORDERS: u32 = 0;

pub(crate) const ITEMS: u32 = 1;

/// Puts a tuple into its relation, in which its key isn't, and gives the update that does.
fn insert(relation: &mut Relation, number: u32, tuple: Tuple) -> Result<Update, NoMemory>
    requires width { length tuple ≡ length relation.old.columns.kinds }
    requires absent { row_at relation.old.columns.key
        (at_columns relation.old.columns.key tuple) relation.old.rows ≡ None }
    ensures update { IfOk result (λ u. u ≡ Update.Insert number tuple) }
    ensures relation { OnOk result (relation.new ≡ with_row tuple relation.old) }
{
    match relation.insert(tuple.copy()?) {
        Ok(()) => Ok(Update::Insert(number, tuple)),
        Err(InsertErr::Present(_)) => unreachable!(),
        Err(InsertErr::NoMemory(_)) => Err(NoMemory),
    }
}

/// The next update of an order: the order of a picked key goes where it is there, and otherwise comes.
pub(crate) fn make_order(
    alloc: Global,
    picker: &mut Picker,
    orders: &mut Relation,
) -> Result<Update, NoMemory>
    requires columns { orders.old.columns ≡ order_columns }
    ensures made { IfOk result (λ u. order_made picker.old orders.old.rows
        ≡ record { update = u; state = picker.new }) }
    ensures orders { IfOk result (λ u. orders.new ≡ table_after u orders.old) }
{
    let key = u64::from(picker.pick(64));
    match orders.delete(&Tuple::from_slice(alloc, &[key])?) {
        Ok(order) => Ok(Update::Delete(ORDERS, order)),
        Err(DeleteErr::Absent) => {
            let item = u64::from(picker.pick(32));
            let quantity = u64::from(picker.pick(100));
            insert(
                orders,
                ORDERS,
                Tuple::from_slice(alloc, &[key, item, quantity])?,
            )
        }
        Err(DeleteErr::NoMemory) => Err(NoMemory),
    }
}

/// The next update of an item: the item of a picked key goes where it is there, and otherwise comes.
pub(crate) fn make_item(
    alloc: Global,
    picker: &mut Picker,
    items: &mut Relation,
) -> Result<Update, NoMemory>
    requires columns { items.old.columns ≡ item_columns }
    ensures made { IfOk result (λ u. item_made picker.old items.old.rows
        ≡ record { update = u; state = picker.new }) }
    ensures items { IfOk result (λ u. items.new ≡ table_after u items.old) }
{
    let key = u64::from(picker.pick(32));
    match items.delete(&Tuple::from_slice(alloc, &[key])?) {
        Ok(item) => Ok(Update::Delete(ITEMS, item)),
        Err(DeleteErr::Absent) => {
            let bin = u64::from(picker.pick(16));
            insert(items, ITEMS, Tuple::from_slice(alloc, &[key, bin])?)
        }
        Err(DeleteErr::NoMemory) => Err(NoMemory),
    }
}
