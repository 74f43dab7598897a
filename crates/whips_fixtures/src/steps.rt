//! Updates and transactions of pairs.
ghost use Rattle.std.specs.Prelude.{◌≡◌, length, IfOk};
ghost use Rattle.std.specs.List.{AllByRecursion};
ghost use Rattle.whips_fixtures.specs.Pairs.{IsPair, ArePairs};

use std::alloc::Global;
use whips_rel::{NoMemory, Trans, Tuple, Update};

/// A pair that comes into a relation or goes from it.
#[derive(Clone, Copy)]
pub struct Step {
    /// Whether it comes.
    pub comes: bool,
    /// The number of the relation.
    pub relation: u32,
    /// The pair.
    pub pair: (u64, u64),
}

/// The pair comes into the relation.
pub const fn plus(relation: u32, pair: (u64, u64)) -> Step {
    Step {
        comes: true,
        relation,
        pair,
    }
}

/// The pair goes from the relation.
pub const fn minus(relation: u32, pair: (u64, u64)) -> Step {
    Step {
        comes: false,
        relation,
        pair,
    }
}

/// The update of this step.
pub fn update(alloc: Global, step: Step) -> Result<Update, NoMemory>
    ensures { IfOk result IsPair }
{
    let tuple = Tuple::from_slice(alloc, &[step.pair.0, step.pair.1])?;
    if step.comes {
        return Ok(Update::Insert(step.relation, tuple));
    }
    Ok(Update::Delete(step.relation, tuple))
}

/// The updates of these steps, for each source a list.
pub fn updates(alloc: Global, lists: &[&[Step]]) -> Result<Vec<Vec<Update>>, NoMemory>
    ensures { IfOk result (λ work. length work.items ≡ length lists.now) }
{
    let mut work = Vec::new(alloc);
    for steps in lists {
        work.push(transaction(alloc, steps)?.items)?;
    }
    Ok(work)
}

/// The transaction of these steps.
pub fn transaction(alloc: Global, steps: &[Step]) -> Result<Trans, NoMemory>
    ensures { IfOk result ArePairs }
{
    let mut items = Vec::new(alloc);
    for step in steps {
        items.push(update(alloc, *step)?)?;
    }
    Ok(Trans { items })
}

/// The transactions of these steps, for each source a list.
pub fn transactions(alloc: Global, lists: &[&[&[Step]]]) -> Result<Vec<Vec<Trans>>, NoMemory>
    ensures { IfOk result (λ work. length work.items ≡ length lists.now) }
{
    let mut work = Vec::new(alloc);
    for list in lists {
        work.push(transactions_of(alloc, list)?)?;
    }
    Ok(work)
}

/// The transactions of these steps.
fn transactions_of(alloc: Global, list: &[&[Step]]) -> Result<Vec<Trans>, NoMemory> {
    let mut transactions = Vec::new(alloc);
    for steps in list {
        transactions.push(transaction(alloc, steps)?)?;
    }
    Ok(transactions)
}
