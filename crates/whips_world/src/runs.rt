//! A run from its start to its end.
ghost use Rattle.std.specs.Prelude.{◌≡◌, List, [], length, map, IfOk, IfErr, OnOk};
ghost use Rattle.whips_lists.specs.Lists.{map_with_place};
ghost use Rattle.whips_states.specs.States.{Updates};
ghost use Rattle.whips_setup.specs.Workloads.{IsWorkload};
ghost use Rattle.whips_store.specs.First.{store_at_first};
ghost use Rattle.whips_contents.specs.Contents.{new_loaded_source};
ghost use Rattle.whips_core_laws.specs.Core.{Carries};
ghost use Rattle.whips_core.specs.Cores.{AreFresh};
ghost use Rattle.whips_world.specs.Runs.{Start, scheduled, whole, IsStart, EndsWith, TellsPart, TellsWhole};

use crate::events::drain;
use crate::lines::{tell_end, tell_version};
use crate::schedule::{Schedule, play};
use std::alloc::Global;
use whips_core::{Core, SourceQueues};
use whips_rel::NoMemory;
use whips_report::{RecordErr, RecordSink};
use whips_setup::Setup;
use whips_source::Site;
use whips_store::Store;

/// How many transactions each source has left.
fn transactions_left<T: Site>(
    alloc: Global,
    sources: &[SourceQueues<T>],
) -> Result<Vec<u64>, NoMemory>
    ensures { IfOk result (λ counts. counts.items ≡ map (λ s. length s.site.left) sources.now) }
{
    let mut counts = Vec::with_capacity(alloc, sources.len())?;
    for source in sources {
        counts.push(source.site.left())?;
    }
    Ok(counts)
}

/// The run of a core before its first event, by a schedule and then to its end. It answers whether it ended full.
fn run_on<T: Site, S: Store, K: RecordSink>(
    alloc: Global,
    core: &mut Core<T, S>,
    schedule: &Schedule,
    transactions: &[u64],
    sink: &mut K,
) -> Result<bool, RecordErr>
    ghost at: { Start K }
    requires start { IsStart at core.old sink.old transactions.now }
    requires sessions { schedule.now.sessions ≡ at.script.sessions }
    requires plan { schedule.now.plan.now ≡ at.plan }
    ensures told { IfOk result (λ full. TellsWhole K.told at sink.new full) }
    ensures ended { OnOk result (Carries at.script core.new.loaded (whole at).pipeline) }
    ensures memory { IfErr result (λ r. r ≡ RecordErr.NoMemory → TellsPart K.told at sink.new) }
    ensures failed { IfErr result (λ r. r ≡ RecordErr.Failed → TellsPart K.failed at sink.new) }
{
    tell_version(alloc, core, sink)?;
    if play(alloc, core, schedule, sink)? {
        return Ok(true);
    }
    if drain(alloc, core, sink)? {
        return Ok(true);
    }
    tell_end(core, transactions, sink)?;
    Ok(false)
}

/// What a run came to.
#[derive(Drop)]
pub struct Ran<T: Site, S> {
    /// Whether a view had too few slots, which ended the run.
    pub is_full: bool,
    /// The sources with what is on its way at them.
    pub sources: Vec<SourceQueues<T>>,
    /// The store.
    pub store: S,
}

/// Runs the script of this setup, the workload that the sources have, and the sessions of the schedule: first the events
/// of its plan, of which a listed one that can't be done is skipped, and a picked one is picked among those that can be
/// done; and then the first event that can be done again and again, until none is left or a view has too few slots. The sink is told the records of the run, one at a time. It hands
/// back the sources and the store, whose logs, counts of commits and phase are those of the run's machine, and whose rows
/// are the views' values at its last cut. Where it fails, the sink was told a first part of these records.
pub fn run<T: Site + Drop, S: Store + Drop, K: RecordSink>(
    setup: Setup,
    sources: Vec<SourceQueues<T>>,
    store: S,
    schedule: &Schedule,
    sink: &mut K,
) -> Result<Ran<T, S>, RecordErr>
    requires fresh { AreFresh setup sources.items }
    requires store { S.state store ≡ store_at_first setup }
    ensures told { IfOk result (λ ran. (work : List (List Updates)) → IsWorkload setup work
        → sources.items ≡ map_with_place (new_loaded_source setup) 0 work
        → TellsWhole K.told (record {
          script = scheduled setup work schedule.now.sessions;
          plan = schedule.now.plan.now;
          sink = sink.old;
        }) sink.new ran.is_full) }
    ensures ended { IfOk result (λ ran. (work : List (List Updates)) → IsWorkload setup work
        → sources.items ≡ map_with_place (new_loaded_source setup) 0 work
        → EndsWith (scheduled setup work schedule.now.sessions) schedule.now.plan.now
        ran.sources.items (S.state ran.store)) }
    ensures memory { IfErr result (λ r. r ≡ RecordErr.NoMemory → (work : List (List Updates))
        → IsWorkload setup work
        → sources.items ≡ map_with_place (new_loaded_source setup) 0 work
        → TellsPart K.told (record {
          script = scheduled setup work schedule.now.sessions;
          plan = schedule.now.plan.now;
          sink = sink.old;
        }) sink.new) }
    ensures failed { IfErr result (λ r. r ≡ RecordErr.Failed → (work : List (List Updates))
        → IsWorkload setup work
        → sources.items ≡ map_with_place (new_loaded_source setup) 0 work
        → TellsPart K.failed (record {
          script = scheduled setup work schedule.now.sessions;
          plan = schedule.now.plan.now;
          sink = sink.old;
        }) sink.new) }
{
    let alloc = *sources.allocator();
    let counts = transactions_left(alloc, &sources)?;
    let mut core = Core::new(alloc, setup, sources, store)?;
    let is_full = run_on(alloc, &mut core, schedule, &counts, sink)?;
    let (sources, store) = core.close();
    Ok(Ran {
        is_full,
        sources,
        store,
    })
}
