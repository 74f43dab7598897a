//! The run of a script, whose lines go to the output.
ghost use Rattle.std.specs.Prelude.{◌≡◌, ◌<◌, ℕ, List, [], length, take, IfOk, OnOk, IfErr};
ghost use Rattle.whips_lists.specs.Lists.{map_with_place};
ghost use Rattle.whips_states.specs.States.{Updates};
ghost use Rattle.whips_contents.specs.Contents.{new_loaded_source};
ghost use Rattle.std.specs.Io.KnownBytes.{Appends};
ghost use Rattle.whips_io.specs.Counts.{HasRisen};
ghost use Rattle.whips_setup.specs.Refusals.{IsSetup};
ghost use Rattle.whips_setup.specs.Workloads.{IsWorkload};
ghost use Rattle.whips_facts.specs.Values.{IsValidScript};
ghost use Rattle.whips_core.specs.Cores.{AreFresh};
ghost use Rattle.whips_world.specs.Runs.{scheduled, EndsWith, TellsPart, TellsWhole};
ghost use Rattle.whips_reports.specs.Reported.{run_of};
ghost use Rattle.whips_reports.specs.Lines.{report};
ghost use Rattle.whips_report.specs.Told.{output_at};
ghost use Rattle.whips_run.specs.Answer.{run_of_script, report_of};
ghost use Rattle.whips_run.specs.Written.{fullness, HasWritten};

use crate::sources::sources_of;
use std::alloc::Global;
use whips_core::SourceQueues;
use whips_io::Sink;
use whips_plain::Plain;
use whips_report::{Labels, LineSink, RecordErr, RecordSink};
use whips_script_reading::{Script, ScriptParts};
use whips_setup::{Setup, Workload};
use whips_source::Held;
use whips_world::{Ran, Schedule, run};

/// Runs a setup over these sources by a schedule, in plain memory. It hands back what the run left.
fn run_sources<K: RecordSink>(
    alloc: Global,
    setup: Setup,
    sources: Vec<SourceQueues<Held>>,
    schedule: &Schedule,
    sink: &mut K,
) -> Result<Ran<Held, Plain>, RecordErr>
    requires { AreFresh setup sources.items }
    ensures told { IfOk result (λ ran. (work : List (List Updates)) → IsWorkload setup work
        → sources.items ≡ map_with_place (new_loaded_source setup) 0 work
        → TellsWhole K.told (record {
          script = scheduled setup work schedule.now.sessions;
          plan = schedule.now.plan.now;
          sink = sink.old;
        }) sink.new ran.is_full) }
    ensures ended { IfOk result (λ ran. (work : List (List Updates)) → IsWorkload setup work
        → sources.items ≡ map_with_place (new_loaded_source setup) 0 work
        → EndsWith (scheduled setup work schedule.now.sessions) schedule.now.plan.now
        ran.sources.items ran.store) }
    ensures memory { IfErr result (λ r. r ≡ RecordErr.NoMemory → (work : List (List Updates))
        → IsWorkload setup work
        → sources.items ≡ map_with_place (new_loaded_source setup) 0 work
        → TellsPart K.told (record {
          script = scheduled setup work schedule.now.sessions;
          plan = schedule.now.plan.now;
          sink = sink.old;
        }) sink.new) }
    ensures failed { IfErr result (λ r. r ≡ RecordErr.Failed → (work : List (List Updates))
        → IsWorkload setup work
        → sources.items ≡ map_with_place (new_loaded_source setup) 0 work
        → TellsPart K.failed (record {
          script = scheduled setup work schedule.now.sessions;
          plan = schedule.now.plan.now;
          sink = sink.old;
        }) sink.new) }
{
    let store = Plain::make(alloc, &setup)?;
    run(setup, sources, store, schedule, sink)
}

/// Runs a setup and a workload of it by a schedule, in plain memory. It hands back what the run left.
pub(crate) fn run_work<K: RecordSink>(
    alloc: Global,
    setup: Setup,
    work: Workload,
    schedule: &Schedule,
    sink: &mut K,
) -> Result<Ran<Held, Plain>, RecordErr>
    requires setup { IsSetup setup }
    requires work { IsWorkload setup work }
    ensures told { IfOk result (λ ran. TellsWhole K.told (record {
      script = scheduled setup work schedule.now.sessions;
      plan = schedule.now.plan.now;
      sink = sink.old;
    }) sink.new ran.is_full) }
    ensures ended { IfOk result (λ ran. EndsWith (scheduled setup work schedule.now.sessions)
        schedule.now.plan.now ran.sources.items ran.store) }
    ensures memory { IfErr result (λ r. r ≡ RecordErr.NoMemory → TellsPart K.told (record {
      script = scheduled setup work schedule.now.sessions;
      plan = schedule.now.plan.now;
      sink = sink.old;
    }) sink.new) }
    ensures failed { IfErr result (λ r. r ≡ RecordErr.Failed → TellsPart K.failed (record {
      script = scheduled setup work schedule.now.sessions;
      plan = schedule.now.plan.now;
      sink = sink.old;
    }) sink.new) }
{
    let sources = sources_of(alloc, &setup, work)?;
    run_sources(alloc, setup, sources, schedule, sink)
}

/// Runs a setup and a workload of it by a schedule, and writes the report through the sink of lines.
fn run_lines<O: Sink>(
    alloc: Global,
    setup: Setup,
    work: Workload,
    schedule: &Schedule,
    sink: &mut LineSink<O>,
) -> Result<Ran<Held, Plain>, RecordErr>
    requires setup { IsSetup setup }
    requires work { IsWorkload setup work }
    requires same { sink.old.setup.now ≡ setup }
    ensures written { (sink.new.output.ghost_name ≡ sink.old.output.ghost_name)
        × HasWritten (report (scheduled setup work schedule.now.sessions) sink.old.labels.now
        schedule.now.plan.now)
        (run_of (scheduled setup work schedule.now.sessions)
        schedule.now.plan.now).is_full (fullness (λ ran. ran.is_full) result)
        (output_at O.written O.faults sink.old.output.now)
        (output_at O.written O.faults sink.new.output.now) }
    ensures ended { IfOk result (λ ran. EndsWith (scheduled setup work schedule.now.sessions)
        schedule.now.plan.now ran.sources.items ran.store) }
{
    run_work(alloc, setup, work, schedule, sink)
}

/// A setup and a workload of it, with the allocator for their run.
#[derive(Drop)]
struct Job {
    alloc: Global,
    setup: Setup,
    work: Workload,
}

/// Runs a setup and a workload of it by a schedule, and writes the report with these names.
fn write_job<O: Sink>(
    job: Job,
    schedule: &Schedule,
    labels: &Labels,
    setup: &Setup,
    output: &mut O,
) -> Result<Ran<Held, Plain>, RecordErr>
    requires setup { IsSetup job.setup }
    requires work { IsWorkload job.setup job.work }
    requires same { setup.now ≡ job.setup }
    ensures written { HasWritten (report (scheduled job.setup job.work schedule.now.sessions) labels.now
        schedule.now.plan.now)
        (run_of (scheduled job.setup job.work schedule.now.sessions)
        schedule.now.plan.now).is_full (fullness (λ ran. ran.is_full) result)
        (output_at O.written O.faults output.old) (output_at O.written O.faults output.new) }
    ensures ended { IfOk result (λ ran. EndsWith
        (scheduled job.setup job.work schedule.now.sessions)
        schedule.now.plan.now ran.sources.items ran.store) }
{
    let Job {
        alloc,
        setup: own,
        work,
    } = job;
    let mut sink = LineSink::new(output, labels, setup, alloc);
    run_lines(alloc, own, work, schedule, &mut sink)
}

/// Runs the script and writes its report, a record at a time. It hands back what the run left.
pub(crate) fn write_report<O: Sink>(
    alloc: Global,
    script: Script,
    output: &mut O,
) -> Result<Ran<Held, Plain>, RecordErr>
    ensures written { HasWritten (report_of script) (run_of_script script).is_full
        (fullness (λ ran. ran.is_full) result)
        (output_at O.written O.faults output.old) (output_at O.written O.faults output.new) }
    ensures ended { IfOk result (λ ran. EndsWith script.script script.plan
        ran.sources.items ran.store) }
    ensures valid { OnOk result (IsValidScript script.script) }
{
    let ScriptParts {
        sources,
        setup,
        work,
        views,
        sessions,
        texts,
        plan,
    } = script.into_parts();
    let copy = setup.copy()?;
    let labels = Labels::new(&sources, &views, &sessions, texts.as_slice());
    let schedule = Schedule {
        sessions: sessions.len(),
        plan: &plan,
    };
    let job = Job { alloc, setup, work };
    write_job(job, &schedule, &labels, &copy, output)
}
