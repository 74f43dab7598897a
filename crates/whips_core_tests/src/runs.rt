//! Cores that take events, and end as they are to end.
ghost use Rattle.std.specs.Prelude.{◌≡◌, false, length, IfOk};
ghost use Rattle.whips_core.specs.Cores.{AreFresh};

use crate::cases::{CASES, Case};
use std::alloc::Global;
use whips_core::{Core, CoreStep, SourceQueues};
use whips_flow::Event;
use whips_plain::Plain;
use whips_rel::{NoMemory, Rows};
use whips_run::sources_of;
use whips_script_reading::{Script, ScriptParts, read_script};
use whips_setup::{Cut, Setup};
use whips_source::Held;
use whips_store::{Store, StoreErr};

/// The core of the setup before the first event, over these sources and a plain store.
fn core_over(
    alloc: Global,
    setup: Setup,
    sources: Vec<SourceQueues<Held>>,
) -> Result<Core<Held, Plain>, NoMemory>
    requires { AreFresh setup sources.items }
{
    let store = Plain::make(alloc, &setup)?;
    Core::new(alloc, setup, sources, store)
}

/// The core of the script before the first event.
fn core_of(alloc: Global, script: Script) -> Result<Core<Held, Plain>, NoMemory> {
    let ScriptParts { setup, work, .. } = script.into_parts();
    let sources = sources_of(alloc, &setup, work)?;
    core_over(alloc, setup, sources)
}

/// The core of the script in the text.
fn core_in(alloc: Global, text: &[u8]) -> Result<Core<Held, Plain>, NoMemory> {
    match read_script(alloc, text) {
        Ok(script) => core_of(alloc, script),
        Err(_) => Err(NoMemory),
    }
}

/// Whether the event does this.
fn does(core: &mut Core<Held, Plain>, e: &Event, wanted: CoreStep) -> bool {
    let can = core.enabled(e);
    (core.step(e) == Ok(wanted)) & (can == (wanted != CoreStep::Skipped))
}

/// Whether each event does what it is to do.
fn all_do(core: &mut Core<Held, Plain>, events: &[(Event, CoreStep)]) -> bool {
    let mut all = true;
    for (e, wanted) in events {
        all &= does(core, e, *wanted);
    }
    all
}

/// Does the first event that can be done, again and again. It answers whether none is left after a hundred.
fn drain(core: &mut Core<Held, Plain>) -> Result<bool, StoreErr> {
    for _ in 0..100 {
        match core.first() {
            Some(e) => core.step(&e)?,
            None => return Ok(true),
        };
    }
    Ok(false)
}

/// Whether the cut has these counts.
fn is_cut(cut: &Cut, sources: u32, wanted: &[u64]) -> bool
    requires { length cut.now ≡ sources }
{
    let mut all = wanted.len() == sources as usize;
    for y in 0..sources {
        if let Some(count) = wanted.get(y as usize) {
            all &= cut.count(y) == *count;
        }
    }
    all
}

/// Whether the rows have these codes, row by row.
fn are_rows(rows: &Rows, wanted: &[&[u64]]) -> bool {
    let mut all = rows.len() == wanted.len();
    for i in 0..rows.len() {
        if let Some(codes) = wanted.get(i) {
            all &= rows.row(i).codes() == *codes;
        }
    }
    all
}

/// Whether the views have these rows at the last version.
fn has_rows(store: &Plain, wanted: &[&[&[u64]]]) -> bool {
    let mut all = store.views() as usize == wanted.len();
    for x in 0..store.views() {
        if let Some(rows) = wanted.get(x as usize) {
            all &= are_rows(store.current(x), rows);
        }
    }
    all
}

/// Whether the last version is the one that is wanted in the end.
fn is_at_version(core: &Core<Held, Plain>, case: &Case) -> bool
    requires { core.now.stopped ≡ false }
{
    (core.store().phase() / 2 == case.version)
        & (core.earlier_cuts().len() as u64 == case.version)
        & is_cut(core.cut(), core.setup().sources(), case.cut)
        & has_rows(core.store(), case.rows)
}

/// Whether the core, which can still be asked, is at the version that is wanted in the end.
fn is_at_end(core: &mut Core<Held, Plain>, case: &Case) -> bool {
    match core.step(&Event::Change) {
        Ok(step) => (step == CoreStep::Skipped) & is_at_version(core, case),
        Err(_) => false,
    }
}

/// Whether the core takes the events and ends as it is to, also where it is asked to go on once more.
fn goes(core: &mut Core<Held, Plain>, case: &Case) -> bool {
    let do_all = all_do(core, case.events);
    let ends = drain(core) == case.ended;
    let ends_again = drain(core) == case.ended;
    do_all & ends & ends_again & is_at_end(core, case)
}

/// Whether the sources have made so many transactions.
fn have_made(sources: Vec<SourceQueues<Held>>, wanted: &[u64]) -> bool {
    let mut all = sources.len() == wanted.len();
    for (source, count) in sources.into_iter().zip(wanted) {
        all &= source.into_site().commits() == *count;
    }
    all
}

/// Whether the core hands back the sources and the store as they are to be.
fn closes(core: Core<Held, Plain>, case: &Case) -> bool {
    let (sources, store) = core.close();
    (store.phase() / 2 == case.version) & have_made(sources, case.made)
}

/// Whether the case goes as it is to go.
fn case_goes(alloc: Global, case: &Case) -> Result<bool, NoMemory> {
    let mut core = core_in(alloc, case.text)?;
    let goes = goes(&mut core, case);
    Ok(goes & closes(core, case))
}

#[test]
fn events_go_in_orders_worked_by_hand(rt: HostRuntime) {
    for case in CASES {
        assert!(rt;
            matches!(case_goes(rt.alloc(), case), Ok(true)),
            "{}",
            case.what
        );
    }
}
