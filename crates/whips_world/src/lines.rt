//! What a run tells of its versions, and at its end.
ghost use Rattle.std.specs.Prelude.{◌≡◌, false, List, [], ◌∷◌, length, map, OnOk, IfOk, IfErr};
ghost use Rattle.whips_lists.specs.Lists.{map_with_place};
ghost use Rattle.whips_reports.specs.Reported.{Reported};
ghost use Rattle.whips_world.specs.Lines.{version_line, view_line, end_lines};
ghost use Rattle.whips_world.specs.Runs.{IsFirstPart};

use std::alloc::Global;
use whips_core::Core;
use whips_rel::NoMemory;
use whips_report::{Rec, RecordErr, RecordSink, cut_counts};
use whips_source::Site;
use whips_store::Store;

/// How many rows each view has at the current version.
fn row_counts<S: Store>(alloc: Global, store: &S) -> Result<Vec<u64>, NoMemory>
    ensures { IfOk result (λ counts. counts.items
        ≡ map (λ v. length v.current) (S.state store.now).views) }
{
    let mut counts = Vec::with_capacity(alloc, store.views() as usize)?;
    for x in 0..store.views() {
        counts.push(store.current(x).len() as u64)?;
    }
    Ok(counts)
}

/// Tells the current version.
pub(crate) fn tell_version<T: Site, S: Store, K: RecordSink>(
    alloc: Global,
    core: &Core<T, S>,
    sink: &mut K,
) -> Result<(), RecordErr>
    requires { core.now.stopped ≡ false }
    ensures told { OnOk result (K.told sink.old sink.new (version_line core.now.loaded ∷ [])) }
    ensures memory { IfErr result (λ e. e ≡ RecordErr.NoMemory → K.told sink.old sink.new []) }
    ensures failed { IfErr result (λ e. e ≡ RecordErr.Failed
        → K.failed sink.old sink.new (version_line core.now.loaded ∷ [])) }
{
    let store = core.store();
    let rows = row_counts(alloc, store)?;
    let cut = cut_counts(alloc, core.cut(), core.setup().sources())?;
    sink.push(&Rec::Version {
        number: store.phase() / 2,
        cut: &cut,
        rows: &rows,
    })
}

/// Tells the views with their rows.
fn tell_views<S: Store, K: RecordSink>(store: &S, sink: &mut K) -> Result<(), RecordErr>
    ensures told { OnOk result (K.told sink.old sink.new
        (map_with_place view_line 0 (S.state store.now).views)) }
    ensures memory { IfErr result (λ e. e ≡ RecordErr.NoMemory → (lines : List Reported)
        × IsFirstPart lines (map_with_place view_line 0 (S.state store.now).views)
        × K.told sink.old sink.new lines) }
    ensures failed { IfErr result (λ e. e ≡ RecordErr.Failed → (lines : List Reported)
        × IsFirstPart lines (map_with_place view_line 0 (S.state store.now).views)
        × K.failed sink.old sink.new lines) }
{
    for x in 0..store.views() {
        sink.push(&Rec::View {
            x,
            rows: store.current(x),
        })?;
    }
    Ok(())
}

/// Tells the end: the number of all transactions of each source, and the views with their rows.
pub(crate) fn tell_end<T: Site, S: Store, K: RecordSink>(
    core: &Core<T, S>,
    transactions: &[u64],
    sink: &mut K,
) -> Result<(), RecordErr>
    ensures told { OnOk result (K.told sink.old sink.new
        (end_lines transactions.now core.now.loaded)) }
    ensures memory { IfErr result (λ e. e ≡ RecordErr.NoMemory → (lines : List Reported)
        × IsFirstPart lines (end_lines transactions.now core.now.loaded)
        × K.told sink.old sink.new lines) }
    ensures failed { IfErr result (λ e. e ≡ RecordErr.Failed → (lines : List Reported)
        × IsFirstPart lines (end_lines transactions.now core.now.loaded)
        × K.failed sink.old sink.new lines) }
{
    sink.push(&Rec::Final {
        counts: transactions,
    })?;
    tell_views(core.store(), sink)
}
