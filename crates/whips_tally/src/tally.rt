//! The counts of a run's records.
ghost use Rattle.std.specs.Prelude.{◌≡◌, [], ◌++◌, ◌∷◌, suc, OnOk, OnErr, IfErr};
ghost use Rattle.whips_report.specs.Recs.{reported_of};
ghost use Rattle.whips_tally.specs.Tallies.{no_tally, counted_one, tally_after};
ghost use Rattle.whips_tally.specs.Laws.{nothing_counted, counted_more};

use std::alloc::Global;
use std::marker::Model;
use whips_rel::NoMemory;
use whips_report::{Rec, RecordErr, RecordSink};

/// How many records of each kind a sink was told, and the number of rows of each view at the end.
#[derive(Drop)]
pub struct Tally {
    versions: u64,
    reads: u64,
    more: u64,
    expired: u64,
    rows: Vec<u64>,
}

impl Model for Tally {
    ghost use Rattle.whips_tally.specs.Tallies.{Tally as TallyData};

    ghost Value = { TallyData };

    ghost view = { λ t. record {
      versions = t.versions;
      reads = t.reads;
      more = t.more;
      expired = t.expired;
      rows = t.rows.items;
    } };
}

/// One more. There is no memory for a count above 64 bits.
fn count_one(count: &mut u64) -> Result<(), RecordErr>
    ensures counted { OnOk result (count.new ≡ suc count.old) }
    ensures stays { OnErr result (count.new ≡ count.old) }
    ensures memory { IfErr result (λ e. e ≡ RecordErr.NoMemory) }
{
    match count.checked_add(1) {
        Some(more) => {
            *count = more;
            Ok(())
        }
        None => Err(RecordErr::NoMemory),
    }
}

impl Tally {
    /// Nothing is counted.
    pub fn new(alloc: Global) -> Tally
        ensures { result ≡ no_tally }
    {
        Tally {
            versions: 0,
            reads: 0,
            more: 0,
            expired: 0,
            rows: Vec::new(alloc),
        }
    }

    /// The number of versions, version 0 too.
    pub fn versions(&self) -> u64
        ensures { result ≡ self.now.versions }
    {
        self.versions
    }

    /// The number of fetches that ended a scan.
    pub fn reads(&self) -> u64
        ensures { result ≡ self.now.reads }
    {
        self.reads
    }

    /// The number of fetches after which slots remained.
    pub fn more(&self) -> u64
        ensures { result ≡ self.now.more }
    {
        self.more
    }

    /// The number of fetches of a stale session.
    pub fn expired(&self) -> u64
        ensures { result ≡ self.now.expired }
    {
        self.expired
    }

    /// The number of rows of each view at the end.
    pub fn rows(&self) -> &[u64]
        ensures { result.now ≡ self.now.rows }
    {
        &self.rows
    }

    /// Counts the rows of one more view at the end.
    fn add_rows(&mut self, rows: u64) -> Result<(), NoMemory>
        ensures ok { OnOk result (self.new ≡ record self.old { rows = self.old.rows ++ rows ∷ [] }) }
        ensures err { OnErr result (self.new ≡ self.old) }
    {
        self.rows.push(rows)?;
        Ok(())
    }

    /// Counts a record.
    fn count(&mut self, rec: &Rec) -> Result<(), RecordErr>
        ensures ok { OnOk result (self.new ≡ counted_one self.old (reported_of rec.now)) }
        ensures err { OnErr result (self.new ≡ self.old) }
        ensures memory { IfErr result (λ e. e ≡ RecordErr.NoMemory) }
    {
        match rec {
            Rec::Version { .. } => count_one(&mut self.versions),
            Rec::Read { .. } => count_one(&mut self.reads),
            Rec::More { .. } => count_one(&mut self.more),
            Rec::Expired { .. } => count_one(&mut self.expired),
            Rec::Final { .. } => {
                self.rows.truncate(0);
                Ok(())
            }
            Rec::View { rows, .. } => {
                self.add_rows(rows.len() as u64)?;
                Ok(())
            }
            Rec::Skip { .. } | Rec::Opened { .. } | Rec::Full { .. } => Ok(()),
        }
    }
}

impl RecordSink for Tally {
    ghost told = { λ k l rs. l ≡ tally_after k rs };

    ghost failed = { λ k l rs. ⊥ };

    fn push(&mut self, rec: &Rec) -> Result<(), RecordErr> {
        self.count(rec)
    }

    ghost told_none = { λ k. nothing_counted k };

    ghost told_more = { λ k l m rs ss p q. counted_more k l m rs ss p q };

    ghost failed_later = { λ k l m rs ss p q. q };
}
