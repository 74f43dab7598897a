//! The script that a picker makes.
ghost use Rattle.std.specs.Prelude.{◌≡◌, ◌≤◌, [], ◌∷◌, ◌++◌, map, IfOk, OnOk};
ghost use Rattle.whips_states.specs.States.{updated};
ghost use Rattle.whips_setup.specs.Workloads.{IsWorkload};
ghost use Rattle.whips_gen.specs.Shop.{shop, shop_tables};
ghost use Rattle.whips_gen.specs.Made.{update_made, updates_made, transactions_of, work_of, made_script, made_plan};
ghost use Rattle.whips_gen.specs.Making.{HasColumns};

use crate::picks::{make_item, make_order};
use crate::shop::{item_schema, order_schema, shop};
use std::alloc::Global;
use whips_pick::Picker;
use whips_rel::{NoMemory, Relation, Trans, Update};
use whips_setup::{BatchErr, Plan, Setup, Workload};

/// A made script: `make` says what its parts are. It has two sessions.
#[derive(Drop)]
pub struct MadeScript {
    /// The sources `sales` and `stock`, and the views `lines` and `big`.
    pub setup: Setup,
    /// The transactions of each source, of one update each.
    pub work: Workload,
    /// The schedule, which is picked.
    pub plan: Plan,
}

/// What is made of a script so far: the picker, the orders and items that are there, and the transactions of each source.
#[derive(Drop)]
pub(crate) struct Making {
    picker: Picker,
    orders: Relation,
    items: Relation,
    sales: Vec<Trans>,
    stock: Vec<Trans>,
}

/// Adds a transaction of this one update.
fn add(alloc: Global, list: &mut Vec<Trans>, update: Update) -> Result<(), NoMemory>
    ensures { OnOk result (list.new.items ≡ list.old.items ++ (update ∷ []) ∷ []) }
{
    let mut items = Vec::with_capacity(alloc, 1)?;
    items.push(update)?;
    list.push(Trans { items })?;
    Ok(())
}

/// Makes the next update.
fn make_update(alloc: Global, making: &mut Making) -> Result<(), NoMemory>
    requires columns { HasColumns making.old.orders making.old.items }
    ensures columns { OnOk result (HasColumns making.new.orders making.new.items) }
    ensures state { OnOk result (making.new.picker ≡ (update_made making.old.picker
        (making.old.orders ∷ making.old.items ∷ [])).state) }
    ensures relations { OnOk result (making.new.orders ∷ making.new.items ∷ []
        ≡ updated (making.old.orders ∷ making.old.items ∷ [])
        (update_made making.old.picker (making.old.orders ∷ making.old.items ∷ [])).update) }
    ensures sales { OnOk result (making.new.sales.items ≡ making.old.sales.items
        ++ transactions_of 0 ((update_made making.old.picker
        (making.old.orders ∷ making.old.items ∷ [])).update ∷ [])) }
    ensures stock { OnOk result (making.new.stock.items ≡ making.old.stock.items
        ++ transactions_of 1 ((update_made making.old.picker
        (making.old.orders ∷ making.old.items ∷ [])).update ∷ [])) }
{
    if making.picker.pick(2) == 0 {
        let order = make_order(alloc, &mut making.picker, &mut making.orders)?;
        add(alloc, &mut making.sales, order)
    } else {
        let item = make_item(alloc, &mut making.picker, &mut making.items)?;
        add(alloc, &mut making.stock, item)
    }
}

/// Nothing is made yet.
fn begin(alloc: Global, start: u32) -> Result<Making, NoMemory>
    ensures picker { IfOk result (λ m. m.picker ≡ start) }
    ensures relations { IfOk result (λ m. m.orders ∷ m.items ∷ [] ≡ shop_tables) }
    ensures none { IfOk result (λ m. (m.sales.items ≡ []) × (m.stock.items ≡ [])) }
{
    Ok(Making {
        picker: Picker::new(start),
        orders: Relation::new(alloc, order_schema(alloc)?)?,
        items: Relation::new(alloc, item_schema(alloc)?)?,
        sales: Vec::new(alloc),
        stock: Vec::new(alloc),
    })
}

/// The transactions of each source, of so many updates by a picker that begins at `start`.
fn make_work(alloc: Global, start: u32, size: u32) -> Result<Vec<Vec<Trans>>, NoMemory>
    ensures { IfOk result (λ work. map (λ ts. ts.items) work.items
        ≡ work_of (updates_made size start shop_tables)) }
{
    let mut making = begin(alloc, start)?;
    for _ in 0..size {
        make_update(alloc, &mut making)?;
    }
    let Making { sales, stock, .. } = making;
    let mut work = Vec::with_capacity(alloc, 2)?;
    work.push(sales)?;
    work.push(stock)?;
    Ok(work)
}

/// The script of `size` updates, up to 4,096, by a picker that begins at `start`: orders and items come, and go again
/// where they are picked once more. Its schedule picks 16 events for each update. Nothing refuses it.
pub fn make(alloc: Global, start: u32, size: u32) -> Result<MadeScript, NoMemory>
    requires { size ≤ 4096 }
    ensures script { IfOk result (λ m. record { setup = m.setup; work = m.work; sessions = 2 }
        ≡ made_script start size) }
    ensures plan { IfOk result (λ m. m.plan ≡ made_plan start size) }
    ensures sound { IfOk result (λ m. IsWorkload m.setup m.work) }
{
    let setup = shop(alloc)?;
    let work = make_work(alloc, start, size)?;
    match Workload::batched(&setup, work) {
        Ok(work) => Ok(MadeScript {
            setup,
            work,
            plan: Plan::Picked {
                start,
                steps: 16 * size,
            },
        }),
        Err(BatchErr::NoMemory) => Err(NoMemory),
        Err(_) => unreachable!(),
    }
}
