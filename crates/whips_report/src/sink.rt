//! Sinks of records.
ghost use Rattle.std.specs.Prelude.{◌≡◌, [], ◌∷◌, List, OnOk, IfErr};
ghost use Rattle.whips_reports.specs.Reported.{Reported};
ghost use Rattle.whips_report.specs.Recs.{reported_of};
ghost use Rattle.whips_report.specs.Told.{Telling, TellsOn, FailsLater};

use crate::Rec;
use whips_rel::NoMemory;

/// Why a sink didn't take a record.
#[derive(Clone, Copy, Debug, PartialEq, Eq)]
pub enum RecordErr {
    /// There was no memory for it, and it took none of it.
    NoMemory,
    /// The outside failed, and it took a part of it at most.
    Failed,
}

impl From<NoMemory> for RecordErr {
    ghost use Rattle.whips_report.specs.declared.sink.RecordErr.TheVariants.{NoMemory as OutOfMemory};

    ghost from_gives = { λ _ e. e ≡ OutOfMemory };

    fn from(_error: NoMemory) -> RecordErr {
        RecordErr::NoMemory
    }
}

/// What is told the records of a run, one after another.
///
/// Its ghost members speak of the sink at two moments: `told`, that between them it was told these records, and
/// `failed`, that between them it was told these records and failed to take all of the last ones. The laws say how
/// these go on.
pub trait RecordSink {
    ghost told: { Telling Self };

    ghost failed: { Telling Self };

    /// Tells it a record.
    fn push(&mut self, rec: &Rec) -> Result<(), RecordErr>
        ensures told { OnOk result (told self.old self.new (reported_of rec.now ∷ [])) }
        ensures memory { IfErr result (λ e. e ≡ RecordErr.NoMemory → told self.old self.new []) }
        ensures failed { IfErr result (λ e.
            e ≡ RecordErr.Failed → failed self.old self.new (reported_of rec.now ∷ [])) };

    ghost told_none: { (k : Self) → told k k [] };

    ghost told_more: { TellsOn told };

    ghost failed_later: { FailsLater told failed };
}
