//! The events of a run.
ghost use Rattle.std.specs.Prelude.{◌≡◌, true, false, [], OnOk, IfOk, IfErr};
ghost use Rattle.whips_contents.specs.Events.{is_enabled_loaded, is_full_for, step_loaded};
ghost use Rattle.whips_world.specs.Lines.{event_lines};
ghost use Rattle.whips_world.specs.Runs.{Start, IsOnWay, IsDrained, TellsPart};

use crate::lines::tell_version;
use std::alloc::Global;
use whips_core::{Core, CoreStep};
use whips_flow::Event;
use whips_report::{Rec, RecordErr, RecordSink};
use whips_source::Site;
use whips_store::{Store, StoreErr};

/// Does an event that can be done, and tells what it brought. It answers whether a view was full for it.
pub(crate) fn do_event<T: Site, S: Store, K: RecordSink>(
    alloc: Global,
    core: &mut Core<T, S>,
    e: &Event,
    sink: &mut K,
) -> Result<bool, RecordErr>
    requires { is_enabled_loaded core.old.loaded e.now ≡ true }
    ensures setup { OnOk result (core.new.setup ≡ core.old.setup) }
    ensures loaded { OnOk result (core.new.loaded
        ≡ step_loaded core.old.setup core.old.loaded e.now) }
    ensures full { IfOk result (λ full. full
        ≡ is_full_for core.old.setup core.old.loaded e.now) }
    ensures told { OnOk result (K.told sink.old sink.new
        (event_lines core.old.setup core.old.loaded e.now)) }
    ensures memory { IfErr result (λ r. r ≡ RecordErr.NoMemory → K.told sink.old sink.new []) }
    ensures failed { IfErr result (λ r. r ≡ RecordErr.Failed
        → K.failed sink.old sink.new (event_lines core.old.setup core.old.loaded e.now)) }
{
    match core.step(e) {
        Ok(CoreStep::Published) => {
            tell_version(alloc, core, sink)?;
            Ok(false)
        }
        Ok(_) => Ok(false),
        Err(StoreErr::Full { view, need, have }) => {
            sink.push(&Rec::Full {
                view,
                need,
                slots: have,
            })?;
            Ok(true)
        }
        Err(StoreErr::NoMemory) => Err(RecordErr::NoMemory),
    }
}

/// Does the first event that can be done again and again, until none is left or a view is full for it. It answers
/// whether one was.
pub(crate) fn drain<T: Site, S: Store, K: RecordSink>(
    alloc: Global,
    core: &mut Core<T, S>,
    sink: &mut K,
) -> Result<bool, RecordErr>
    ghost at: { Start K }
    requires { IsOnWay K.told at core.old sink.old }
    ensures ok { IfOk result (λ full. IsDrained K.told at core.new sink.new full) }
    ensures memory { IfErr result (λ r. r ≡ RecordErr.NoMemory → TellsPart K.told at sink.new) }
    ensures failed { IfErr result (λ r. r ≡ RecordErr.Failed → TellsPart K.failed at sink.new) }
{
    while let Some(e) = core.first() {
        if do_event(alloc, core, &e, sink)? {
            return Ok(true);
        }
    }
    Ok(false)
}
