//! Made scripts that are run.
ghost use Rattle.std.specs.Prelude.{◌≡◌, ◌≢◌, ◌≤◌, ◌<◌, ◌↔◌, ℕ, [], ◌∷◌, length, take, IfOk, OnOk, IsSome, IfSome, string_bytes};
ghost use Rattle.std.specs.Io.KnownBytes.{Appends};
ghost use Rattle.whips_io.specs.Counts.{HasRisen};
ghost use Rattle.whips_setup.specs.Refusals.{IsSetup};
ghost use Rattle.whips_setup.specs.Workloads.{IsWorkload};
ghost use Rattle.whips_facts.specs.Values.{IsValidScript};
ghost use Rattle.whips_reports.specs.Reported.{reported, run_of};
ghost use Rattle.whips_reports.specs.Lines.{text_of};
ghost use Rattle.whips_reports.specs.Summary.{counted_lines};
ghost use Rattle.whips_tally.specs.Tallies.{no_tally, tally_after, counts_from};
ghost use Rattle.whips_gen.specs.Shop.{shop_labels};
ghost use Rattle.whips_gen.specs.Made.{made_script, made_plan};
ghost use Rattle.whips_world.specs.Runs.{scheduled, EndsWith};
ghost use Rattle.whips_run.specs.Made.{summary};

use crate::Ended;
use crate::runs::run_work;
use crate::writing::end_with;
use std::alloc::Global;
use whips_gen::{MadeScript, make};
use whips_io::Sink;
use whips_plain::Plain;
use whips_reading::Text;
use whips_rel::NoMemory;
use whips_report::Labels;
use whips_setup::{Plan, Setup, Workload};
use whips_source::Held;
use whips_tally::Tally;
use whips_world::{Ran, Schedule};

/// These two texts.
fn two_names(alloc: Global, first: &str, second: &str) -> Result<Vec<Text>, NoMemory>
    ensures { IfOk result (λ names. names.items ≡ first.now ∷ second.now ∷ []) }
{
    let mut names = Vec::with_capacity(alloc, 2)?;
    names.push(Text::of(alloc, first)?)?;
    names.push(Text::of(alloc, second)?)?;
    Ok(names)
}

/// What is told of a made run, and what it left.
#[derive(Drop)]
struct MadeRun {
    tally: Tally,
    ran: Ran<Held, Plain>,
}

/// Runs the made script of this setup and this work by its plan, and counts its records.
fn tally_run(alloc: Global, setup: Setup, work: Workload, plan: &Plan) -> Result<MadeRun, NoMemory>
    requires setup { IsSetup setup }
    requires work { IsWorkload setup work }
    ensures counted { IfOk result (λ m. m.tally ≡ tally_after no_tally
        (reported (scheduled setup work 2) (run_of (scheduled setup work 2) plan.now))) }
    ensures ended { IfOk result (λ m. EndsWith (scheduled setup work 2) plan.now
        m.ran.sources.items m.ran.store) }
{
    let schedule = Schedule { sessions: 2, plan };
    let mut tally = Tally::new(alloc);
    match run_work(alloc, setup, work, &schedule, &mut tally) {
        Ok(ran) => Ok(MadeRun { tally, ran }),
        Err(_) => Err(NoMemory),
    }
}

/// The summary of a made run with these counts, and with so many transactions of each source.
fn summary_text(
    alloc: Global,
    made: (u32, u32),
    tally: &Tally,
    transactions: &[u64],
) -> Result<String, NoMemory>
    ensures { IfOk result (λ text. string_bytes text ≡ text_of
        (counted_lines made.0 made.1 shop_labels (counts_from tally.now transactions.now))) }
{
    let sources = two_names(alloc, "sales", "stock")?;
    let views = two_names(alloc, "lines", "big")?;
    let sessions = two_names(alloc, "s1", "s2")?;
    let labels = Labels::new(&sources, &views, &sessions, &[]);
    let mut text = String::new(alloc);
    tally.push_summary(&mut text, made, &labels, transactions)?;
    Ok(text)
}

/// The summary of the run of the script that these numbers make, and what the run left.
fn run_made(alloc: Global, start: u32, size: u32) -> Result<(String, Ran<Held, Plain>), NoMemory>
    requires { size ≤ 4096 }
    ensures told { IfOk result (λ p. string_bytes p.0 ≡ summary start size) }
    ensures ended { IfOk result (λ p. EndsWith (made_script start size) (made_plan start size)
        p.1.sources.items p.1.store) }
    ensures valid { OnOk result (IsValidScript (made_script start size)) }
{
    let MadeScript { setup, work, plan } = make(alloc, start, size)?;
    let _sound = setup.sources();
    let transactions = [work.updates(0).len() as u64, work.updates(1).len() as u64];
    let made = tally_run(alloc, setup, work, &plan)?;
    let text = summary_text(alloc, (start, size), &made.tally, &transactions)?;
    Ok((text, made.ran))
}

/// Runs the script that these numbers make and writes the summary of the run. A made run is never full.
pub(crate) fn answer_make<O: Sink>(alloc: Global, start: u32, size: u32, output: &mut O) -> Ended
    requires { size ≤ 4096 }
    ensures ended { result.status ≢ 5 → result.status ≢ 6 → (result.status ≡ 0)
        × Appends (O.written output.old) (O.written output.new) (summary start size) }
    ensures sink_failed { result.status ≡ 5 → (n : ℕ) × (n < length (summary start size))
        × Appends (O.written output.old) (O.written output.new) (take n (summary start size))
        × HasRisen (O.faults output.old) (O.faults output.new) }
    ensures no_memory { result.status ≡ 6
        → Appends (O.written output.old) (O.written output.new) [] }
    ensures valid { result.status ≡ 0 → IsValidScript (made_script start size) }
    ensures ran { IsSome result.ran ↔ (result.status ≡ 0) }
    ensures left { IfSome result.ran (λ ran. EndsWith (made_script start size)
        (made_plan start size) ran.sources.items ran.store) }
{
    let Ok((text, ran)) = run_made(alloc, start, size) else {
        return Ended::with(6);
    };
    match end_with(0, text.as_str(), output) {
        0 => Ended {
            status: 0,
            ran: Some(ran),
        },
        status => Ended::with(status),
    }
}
