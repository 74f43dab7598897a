//! The sources of a run.
ghost use Rattle.std.specs.Prelude.{◌≡◌, IfOk};
ghost use Rattle.whips_lists.specs.Lists.{map_with_place};
ghost use Rattle.whips_setup.specs.Refusals.{IsSetup};
ghost use Rattle.whips_setup.specs.Workloads.{IsWorkload};
ghost use Rattle.whips_source.specs.Sites.{AreTransactionsOf};
ghost use Rattle.whips_contents.specs.Contents.{new_loaded_source};

use std::alloc::Global;
use std::collections::VecDeque;
use whips_core::SourceQueues;
use whips_rel::{NoMemory, Trans};
use whips_setup::{Setup, Workload};
use whips_source::Held;

/// The source of this number with empty queues, which has made none of its transactions.
fn source_of(
    alloc: Global,
    setup: &Setup,
    y: u32,
    updates: Vec<Trans>,
) -> Result<SourceQueues<Held>, NoMemory>
    requires { AreTransactionsOf setup.now y updates.items }
    ensures { IfOk result (λ s. s ≡ new_loaded_source setup.now y updates.items) }
{
    let site = Held::new(alloc, setup, y, updates)?;
    SourceQueues::new(alloc, setup.views(), site)
}

/// The sources of the setup with these transactions, of which none is made, with empty queues.
pub fn sources_of(
    alloc: Global,
    setup: &Setup,
    work: Workload,
) -> Result<Vec<SourceQueues<Held>>, NoMemory>
    requires setup { IsSetup setup.now }
    requires work { IsWorkload setup.now work }
    ensures { IfOk result (λ sources. sources.items
        ≡ map_with_place (new_loaded_source setup.now) 0 work) }
{
    let mut sources = Vec::new(alloc);
    let mut lists = VecDeque::from_vec(work.parts());
    for y in 0..setup.sources() {
        if let Some(updates) = lists.pop_front() {
            sources.push(source_of(alloc, setup, y, updates)?)?;
        }
    }
    Ok(sources)
}
