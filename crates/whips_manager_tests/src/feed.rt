//! A manager is told messages one after another, and what leaves it is written down.
ghost use Rattle.std.specs.Prelude.{◌≡◌, ◌≤◌, ◌<◌, ◌+◌, ◌^◌, length, IfOk, IfSome, OnOk};
ghost use Rattle.whips_view.specs.ViewDefs.{row_columns};
ghost use Rattle.whips_actions.specs.Lists.{AreActionsOf};
ghost use Rattle.whips_fixtures.specs.Pairs.{ArePairs};
ghost use Rattle.whips_manager_tests.specs.Runs.{IsOfPairs};

use crate::messages::{Message, reply, transaction};
use std::alloc::Global;
use whips_actions::{Action, ActionList, apply};
use whips_query::{Ask, Reply};
use whips_rel::{NoMemory, Rows, Trans};
use whips_strobe::{Manager, Out};
use whips_view::ViewDef;

/// The manager takes the transaction with this number. None where it doesn't concern the view.
fn update(
    manager: &mut Manager,
    view: &ViewDef,
    number: u64,
    t: &Trans,
) -> Result<Option<Out>, NoMemory>
    requires view { manager.old.view ≡ view.now }
    requires later { manager.old.state.last < number }
    requires relations { IsOfPairs view.now }
    requires tuples { ArePairs t.now }
    ensures view { manager.new.view ≡ manager.old.view }
    ensures last { OnOk result (manager.new.state.last ≤ number) }
    ensures actions { IfOk result (λ out. IfSome out (λ o. IfSome o.list
        (λ l. AreActionsOf view.now l.actions))) }
{
    if !view.touches(t) {
        return Ok(None);
    }
    Ok(Some(manager.update(number, t)?))
}

/// The manager takes the reply. None where it doesn't fit.
fn answer(manager: &mut Manager, reply: Reply) -> Result<Option<Out>, NoMemory>
    ensures view { manager.new.view ≡ manager.old.view }
    ensures last { OnOk result (manager.new.state.last ≡ manager.old.state.last) }
    ensures actions { IfOk result (λ out. IfSome out (λ o. IfSome o.list
        (λ l. AreActionsOf manager.old.view l.actions))) }
{
    if !manager.fits(&reply) {
        return Ok(None);
    }
    Ok(Some(manager.reply(reply)?))
}

/// The manager is told the message, a transaction under the next number.
fn tell(
    alloc: Global,
    manager: &mut Manager,
    view: &ViewDef,
    taken: &mut u64,
    message: Message,
) -> Result<Option<Out>, NoMemory>
    requires view { manager.old.view ≡ view.now }
    requires last { manager.old.state.last ≤ taken.old }
    requires few { taken.old + 1 < 2 ^ 64 }
    requires relations { IsOfPairs view.now }
    ensures view { manager.new.view ≡ manager.old.view }
    ensures last { OnOk result (manager.new.state.last ≤ taken.new) }
    ensures few { taken.new ≤ taken.old + 1 }
    ensures actions { IfOk result (λ out. IfSome out (λ o. IfSome o.list
        (λ l. AreActionsOf view.now l.actions))) }
{
    match message {
        Message::Update(change) => {
            *taken += 1;
            update(manager, view, *taken, &transaction(alloc, change)?)
        }
        Message::Reply(transaction, tuple, found) => {
            answer(manager, reply(alloc, view, transaction, tuple, found)?)
        }
    }
}

fn write_ask(text: &mut String, source: u32, ask: &Ask) -> Result<(), NoMemory> {
    let origin = ask.origin;
    let step = ask.step;
    let choices = ask.partials.len();
    write!(
        text,
        "ask {source} from {origin} step {step} of {choices}; "
    )?;
    Ok(())
}

fn write_actions(text: &mut String, actions: &[Action]) -> Result<(), NoMemory> {
    for action in actions {
        match action {
            Action::KeyDelete(part, _) => write!(text, " delete {part}")?,
            Action::Put(rows) => write!(text, " put")?,
        }
    }
    Ok(())
}

fn write_rows(text: &mut String, rows: &Rows) -> Result<(), NoMemory> {
    for row in rows.tuples()?.as_slice() {
        let codes = row.codes();
        write!(text, " {codes:?}")?;
    }
    Ok(())
}

/// The list is written down with the rows after it, which it makes of the rows before.
fn write_list(
    alloc: Global,
    text: &mut String,
    view: &ViewDef,
    list: &ActionList,
    rows: &Rows,
) -> Result<Rows, NoMemory>
    requires rows { rows.now.columns ≡ row_columns view.now }
    requires actions { AreActionsOf view.now list.now.actions }
    ensures { IfOk result (λ r. r.columns ≡ row_columns view.now) }
{
    let upto = list.upto;
    write!(text, "list {upto}:")?;
    write_actions(text, list.actions.as_slice())?;
    let after = apply(alloc, view, list, rows)?;
    text.push_str(", rows")?;
    write_rows(text, &after)?;
    text.push_str("; ")?;
    Ok(after)
}

/// How many of the queries that asked something are open at the step that they asked.
fn open_of(manager: &Manager, asked: &[(u64, u32, u32)]) -> usize {
    asked
        .iter()
        .filter(|ask| manager.is_open(ask.0, ask.1, ask.2))
        .count()
}

/// The asks are written down and noted.
fn note_asks(
    text: &mut String,
    asked: &mut Vec<(u64, u32, u32)>,
    asks: &[(u32, Ask)],
) -> Result<(), NoMemory> {
    for sent in asks {
        write_ask(text, sent.0, &sent.1)?;
        asked.push((sent.1.update, sent.1.origin, sent.1.step))?;
    }
    Ok(())
}

/// What left is written down, with the rows after a list.
fn note(
    alloc: Global,
    text: &mut String,
    asked: &mut Vec<(u64, u32, u32)>,
    view: &ViewDef,
    out: &Option<Out>,
    rows: &mut Rows,
) -> Result<(), NoMemory>
    requires rows { rows.old.columns ≡ row_columns view.now }
    requires actions { IfSome out.now (λ o. IfSome o.list (λ l. AreActionsOf view.now l.actions)) }
    ensures { OnOk result (rows.new.columns ≡ row_columns view.now) }
{
    let Some(out) = out else {
        text.push_str("refused; ")?;
        return Ok(());
    };
    note_asks(text, asked, &out.asks)?;
    if let Some(list) = &out.list {
        *rows = write_list(alloc, text, view, list, rows)?;
    }
    Ok(())
}

/// A manager that is told messages, the number of transactions that it was told, what its queries asked, and the rows of
/// its view.
#[derive(Drop)]
struct Fed {
    manager: Manager,
    taken: u64,
    asked: Vec<(u64, u32, u32)>,
    rows: Rows,
}

/// A new manager of view 7.
fn new(alloc: Global, view: &ViewDef) -> Result<Fed, NoMemory>
    ensures view { IfOk result (λ fed. fed.manager.view ≡ view.now) }
    ensures last { IfOk result (λ fed. fed.manager.state.last ≤ fed.taken) }
    ensures taken { IfOk result (λ fed. fed.taken ≡ 0) }
    ensures rows { IfOk result (λ fed. fed.rows.columns ≡ row_columns view.now) }
{
    let schema = view.schema().copy()?;
    Ok(Fed {
        manager: Manager::new(alloc, 7, view)?,
        taken: 0,
        asked: Vec::new(alloc),
        rows: Rows::new(alloc, schema)?,
    })
}

/// The manager is told the message, and what leaves is written down in a line.
fn write_line(
    alloc: Global,
    text: &mut String,
    view: &ViewDef,
    fed: &mut Fed,
    message: Message,
) -> Result<(), NoMemory>
    requires view { fed.old.manager.view ≡ view.now }
    requires last { fed.old.manager.state.last ≤ fed.old.taken }
    requires few { fed.old.taken + 1 < 2 ^ 64 }
    requires rows { fed.old.rows.columns ≡ row_columns view.now }
    requires relations { IsOfPairs view.now }
    ensures view { OnOk result (fed.new.manager.view ≡ view.now) }
    ensures last { OnOk result (fed.new.manager.state.last ≤ fed.new.taken) }
    ensures few { OnOk result (fed.new.taken ≤ fed.old.taken + 1) }
    ensures rows { OnOk result (fed.new.rows.columns ≡ row_columns view.now) }
{
    let out = tell(alloc, &mut fed.manager, view, &mut fed.taken, message)?;
    note(alloc, text, &mut fed.asked, view, &out, &mut fed.rows)?;
    let open = open_of(&fed.manager, &fed.asked);
    writeln!(text, "open {open}")?;
    Ok(())
}

/// A new manager of view 7 is told these messages, and what leaves it is written down, in one line for each message: each
/// ask with its source, origin, step and number of partial choices; the list with its number, its actions and the rows
/// after it; and how many queries are open.
pub fn feed(alloc: Global, view: &ViewDef, messages: &[Message]) -> Result<String, NoMemory>
    requires { IsOfPairs view.now }
{
    let mut fed = new(alloc, view)?;
    let mut text = String::new(alloc);
    for message in messages {
        write_line(alloc, &mut text, view, &mut fed, *message)?;
    }
    Ok(text)
}
