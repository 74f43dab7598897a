//! A run of a manager whose queries are all open while the deletions come.
ghost use Rattle.std.specs.Prelude.{◌≡◌, ◌<◌, IfOk, IfSome, OnOk};
ghost use Rattle.whips_actions.specs.Lists.{AreActionsOf};
ghost use Rattle.whips_manager_bench.specs.Pairs.{IsOfPairs, ArePairs};

use crate::data::{join, transaction};
use crate::source::answer;
use crate::stop::Stop;
use std::alloc::Global;
use whips_actions::{ActionList, apply_to};
use whips_query::{Ask, Reply};
use whips_rel::{NoMemory, Relation, Trans};
use whips_strobe::Manager;
use whips_view::ViewDef;

/// What came of a run: the asks, the partial choices that all replies found, the actions of the list, and the rows of the
/// view after them.
pub struct Counts {
    pub asks: usize,
    pub found: usize,
    pub actions: usize,
    pub rows: usize,
}

/// Puts the new asks behind the others.
fn add_all(asks: &mut Vec<(u32, Ask)>, new: Vec<(u32, Ask)>) -> Result<(), NoMemory> {
    for ask in new {
        asks.push(ask)?;
    }
    Ok(())
}

/// The manager takes the transaction, and what it asks goes to the other asks. No list may leave.
fn take_transaction(
    manager: &mut Manager,
    view: &ViewDef,
    number: u64,
    t: &Trans,
    asks: &mut Vec<(u32, Ask)>,
) -> Result<(), Stop>
    requires view { manager.old.view ≡ view.now }
    requires pairs { IsOfPairs view.now }
    requires later { manager.old.state.last < number }
    requires widths { ArePairs t.now }
    ensures view { manager.new.view ≡ view.now }
    ensures last { OnOk result (manager.new.state.last ≡ number) }
{
    if !view.touches(t) {
        return Err(Stop::Refused);
    }
    let out = manager.update(number, t)?;
    if out.list.is_some() {
        return Err(Stop::Refused);
    }
    add_all(asks, out.asks)?;
    Ok(())
}

/// The manager takes all `n` transactions.
fn take_all(
    alloc: Global,
    manager: &mut Manager,
    view: &ViewDef,
    n: u64,
) -> Result<Vec<(u32, Ask)>, Stop>
    requires view { manager.old.view ≡ view.now }
    requires pairs { IsOfPairs view.now }
    requires last { manager.old.state.last ≡ 0 }
    ensures { manager.new.view ≡ view.now }
{
    let mut asks = Vec::new(alloc);
    for i in 0..n {
        take_transaction(manager, view, i + 1, &transaction(alloc, i, n)?, &mut asks)?;
    }
    Ok(asks)
}

/// The manager takes the reply. Its list leaves with the last one.
fn hand(manager: &mut Manager, reply: Reply) -> Result<Option<ActionList>, Stop>
    ensures view { manager.new.view ≡ manager.old.view }
    ensures actions { IfOk result (λ l. IfSome l (λ l. AreActionsOf manager.old.view l.actions)) }
{
    if !manager.fits(&reply) {
        return Err(Stop::Refused);
    }
    let out = manager.reply(reply)?;
    Ok(out.list)
}

/// The asks are answered, in order, until the list leaves. It stands beside the number of partial choices that were found.
fn answer_all(
    alloc: Global,
    manager: &mut Manager,
    view: &ViewDef,
    asks: &[(u32, Ask)],
    n: u64,
) -> Result<(usize, ActionList), Stop>
    requires view { manager.old.view ≡ view.now }
    requires pairs { IsOfPairs view.now }
    ensures { IfOk result (λ r. AreActionsOf view.now r.1.actions) }
{
    let mut found: usize = 0;
    for (_, ask) in asks {
        let reply = answer(alloc, view, ask, n)?;
        found = found.saturating_add(reply.partials.len());
        let list = hand(manager, reply)?;
        if let Some(list) = list {
            return Ok((found, list));
        }
    }
    Err(Stop::Refused)
}

/// The number of asks, the number of partial choices that were found, and the list of a manager of the view that takes all
/// `n` transactions.
fn fed(alloc: Global, view: &ViewDef, n: u64) -> Result<(usize, usize, ActionList), Stop>
    requires { IsOfPairs view.now }
    ensures { IfOk result (λ r. AreActionsOf view.now r.2.actions) }
{
    let mut manager = Manager::new(alloc, 0, view)?;
    let asks = take_all(alloc, &mut manager, view, n)?;
    let (found, list) = answer_all(alloc, &mut manager, view, &asks, n)?;
    Ok((asks.len(), found, list))
}

/// A run over `n` updates.
pub fn run(alloc: Global, n: u64) -> Result<Counts, Stop> {
    let view = join(alloc)?;
    let (asks, found, list) = fed(alloc, &view, n)?;
    let none = Relation::new(alloc, view.schema().copy()?)?;
    let rows = apply_to(alloc, &view, &list, none)?;
    Ok(Counts {
        asks,
        found,
        actions: list.actions.len(),
        rows: rows.len(),
    })
}
