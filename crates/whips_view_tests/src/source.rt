//! A source over two calls of each kind.
ghost use Rattle.std.specs.Prelude.{◌≡◌, [], ◌∷◌, IfOk};
ghost use Rattle.whips_source.specs.Sites.{new_site, after_commit};
ghost use Rattle.whips_fixtures.specs.Pairs.{pair_columns, no_pairs};
ghost use Rattle.whips_view_tests.specs.Worked.{pair_view, pair_setup, one_insert, pair_ask};

use std::alloc::Global;
use whips_fixtures::{Parts, at, no_pairs, numbers, pair_schema, view};
use whips_query::{Ask, Partials, Reply};
use whips_rel::{NoMemory, Relation, Schema, Trans, Tuple, Update};
use whips_setup::{Setup, SetupErr};
use whips_source::{Held, LogEntry, Site};
use whips_view::ViewDef;

fn two_schemas(alloc: Global) -> Result<Vec<Schema>, NoMemory>
    ensures { IfOk result (λ s. s.items ≡ pair_columns ∷ pair_columns ∷ []) }
{
    let mut schemas = Vec::new(alloc);
    schemas.push(pair_schema(alloc)?)?;
    schemas.push(pair_schema(alloc)?)?;
    Ok(schemas)
}

fn two_relations(alloc: Global) -> Result<Vec<Relation>, NoMemory>
    ensures { IfOk result (λ r. r.items ≡ no_pairs ∷ no_pairs ∷ []) }
{
    let mut relations = Vec::new(alloc);
    relations.push(no_pairs(alloc)?)?;
    relations.push(no_pairs(alloc)?)?;
    Ok(relations)
}

fn join(alloc: Global) -> Result<ViewDef, NoMemory>
    ensures { IfOk result (λ v. v ≡ pair_view) }
{
    let parts = Parts {
        relations: &[0, 1],
        homes: &[0, 1],
        equal: &[(at(0, 1), at(1, 1))],
        conds: &[],
        out: &[at(0, 0), at(1, 0)],
    };
    match view(alloc, parts) {
        Ok(view) => Ok(view),
        Err(_) => Err(NoMemory),
    }
}

fn views(alloc: Global) -> Result<Vec<ViewDef>, NoMemory>
    ensures { IfOk result (λ v. v.items ≡ pair_view ∷ []) }
{
    let mut views = Vec::new(alloc);
    views.push(join(alloc)?)?;
    Ok(views)
}

fn setup(alloc: Global) -> Result<Setup, SetupErr>
    ensures { IfOk result (λ s. s ≡ pair_setup) }
{
    let schemas = two_schemas(alloc)?;
    let views = views(alloc)?;
    let relations = two_relations(alloc)?;
    let homes = numbers(alloc, &[0, 1])?;
    let slots = numbers(alloc, &[4])?;
    Setup::make(schemas, homes, relations, views, slots, 2)
}

fn insert(alloc: Global) -> Result<Vec<Trans>, NoMemory>
    ensures { IfOk result (λ ts. ts.items ≡ one_insert) }
{
    let tuple = Tuple::from_slice(alloc, &[7, 5])?;
    let mut items = Vec::new(alloc);
    items.push(Update::Insert(1, tuple))?;
    let mut transactions = Vec::new(alloc);
    transactions.push(Trans { items })?;
    Ok(transactions)
}

fn source(alloc: Global, setup: &Setup) -> Result<Held, NoMemory>
    requires { setup.now ≡ pair_setup }
    ensures { IfOk result (λ h. h ≡ new_site pair_setup 1 one_insert) }
{
    Held::new(alloc, setup, 1, insert(alloc)?)
}

/// The ask of the first step of the query that the tuple (1, 5) of relation 0 begins.
fn ask(alloc: Global, setup: &Setup) -> Result<Ask, NoMemory>
    requires { setup.now ≡ pair_setup }
    ensures { IfOk result (λ a. a ≡ pair_ask) }
{
    let tuple = Tuple::from_slice(alloc, &[1, 5])?;
    Ok(Ask {
        view: 0,
        update: 3,
        origin: 0,
        step: 1,
        partials: Partials::seed(alloc, setup.view(0), 0, &[tuple])?,
    })
}

fn answered(held: &mut Held, ask: &Ask) -> Result<Reply, NoMemory>
    requires source { held.old ≡ after_commit (new_site pair_setup 1 one_insert) }
    requires ask { ask.now ≡ pair_ask }
{
    held.answer(ask)
}

/// Makes the next transaction, and says whether one was left.
fn commits(held: &mut Held) -> Result<bool, NoMemory>
    ensures { IfOk result (λ made. held.new ≡ after_commit held.old) }
{
    Ok(held.commit()?.is_some())
}

/// Whether the tuple (7, 5) was found.
fn is_found(reply: &Reply) -> bool {
    match reply.partials.as_slice() {
        [only] => only.get(1).map(|t| t.codes()) == Some([7, 5].as_slice()),
        _ => false,
    }
}

fn is_logged(log: &[LogEntry]) -> bool {
    match log {
        [entry] => (entry.view == 0)
            & (entry.update == 3)
            & (entry.origin == 0)
            & (entry.step == 1),
        _ => false,
    }
}

/// Whether the source answers the ask on what it made before.
fn answers(held: &mut Held, ask: &Ask) -> Result<bool, NoMemory>
    requires source { held.old ≡ new_site pair_setup 1 one_insert }
    requires ask { ask.now ≡ pair_ask }
{
    let has_made = commits(held)?;
    let reply = answered(held, ask)?;
    Ok(has_made & is_found(&reply) & is_logged(held.log()) & (held.commits() == 1))
}

/// Whether a new source does so, of which one transaction is left at first.
fn new_answers(alloc: Global, setup: &Setup, ask: &Ask) -> Result<bool, NoMemory>
    requires setup { setup.now ≡ pair_setup }
    requires ask { ask.now ≡ pair_ask }
{
    let mut held = source(alloc, setup)?;
    Ok((held.left() == 1) & answers(&mut held, ask)?)
}

/// The same with the ask.
fn answers_ask(alloc: Global, setup: &Setup) -> Result<bool, NoMemory>
    requires { setup.now ≡ pair_setup }
{
    let ask = ask(alloc, setup)?;
    new_answers(alloc, setup, &ask)
}

/// Whether one transaction is made, and then none is left.
fn ends(alloc: Global, setup: &Setup) -> Result<bool, NoMemory>
    requires { setup.now ≡ pair_setup }
{
    let mut held = source(alloc, setup)?;
    let has_made = commits(&mut held)?;
    Ok(has_made & !commits(&mut held)? & (held.left() == 0))
}

/// Whether a source answers, and comes to its end.
fn checks(alloc: Global, setup: &Setup) -> Result<[bool; 2], SetupErr>
    requires { setup.now ≡ pair_setup }
{
    Ok([answers_ask(alloc, setup)?, ends(alloc, setup)?])
}

fn pairs_check(alloc: Global) -> Result<[bool; 2], SetupErr> {
    let setup = setup(alloc)?;
    checks(alloc, &setup)
}

#[test]
fn a_source_commits_and_answers(rt: HostRuntime) {
    let found = pairs_check(rt.alloc());
    assert!(rt; found == Ok([true; 2]), "{found:?}");
}
