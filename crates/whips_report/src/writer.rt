//! A sink of records that writes their lines.
ghost use Rattle.std.specs.Prelude.{◌≡◌, [], IfOk, string_bytes};
ghost use Rattle.whips_report.specs.Told.{output_at, IsWritten, IsPartWritten};
ghost use Rattle.whips_report.specs.Laws.{written_none, written_more, part_later};
ghost use Rattle.std.proofs.Common.{refl, ◌∙◌};

use crate::{Labels, Rec, RecordErr, RecordSink, push_lines};
use std::alloc::Global;
use whips_io::{Sink, WriteFault, write_all};
use whips_rel::NoMemory;
use whips_setup::Setup;

/// How many bytes a line has room for before its text grows.
const LINE: usize = 64;

/// A sink of records that writes the lines of each to an output, in one write a record.
#[derive(Drop)]
pub struct LineSink<'a, O: Sink> {
    output: &'a mut O,
    labels: &'a Labels<'a>,
    setup: &'a Setup,
    alloc: Global,
}

impl<'a, O: Sink> LineSink<'a, O> {
    /// A sink of records of this setup, with these names, over the output.
    pub fn new(
        output: &'a mut O,
        labels: &'a Labels<'a>,
        setup: &'a Setup,
        alloc: Global,
    ) -> LineSink<'a, O>
        ensures same { result.output.ghost_name ≡ output.entry.ghost_name }
        ensures now { result.output.now ≡ output.old }
        ensures labels { result.labels.now ≡ labels.now }
        ensures setup { result.setup.now ≡ setup.now }
    {
        LineSink {
            output,
            labels,
            setup,
            alloc,
        }
    }
}

/// An empty text with room for a line.
fn line_buffer(alloc: Global) -> Result<String, NoMemory>
    ensures { IfOk result (λ text. string_bytes text ≡ []) }
{
    Ok(String::with_capacity(alloc, LINE)?)
}

impl<'a, O: Sink> RecordSink for LineSink<'a, O> {
    ghost told = { λ k l rs. (l.output.ghost_name ≡ k.output.ghost_name) × (l.labels.now ≡ k.labels.now)
        × (l.setup.now ≡ k.setup.now) × IsWritten k.labels.now k.setup.now rs
        (output_at O.written O.faults k.output.now)
        (output_at O.written O.faults l.output.now) };

    ghost failed = { λ k l rs. (l.output.ghost_name ≡ k.output.ghost_name)
        × IsPartWritten k.labels.now k.setup.now rs
        (output_at O.written O.faults k.output.now)
        (output_at O.written O.faults l.output.now) };

    fn push(&mut self, rec: &Rec) -> Result<(), RecordErr> {
        let mut text = line_buffer(self.alloc)?;
        push_lines(&mut text, rec, self.labels, self.setup)?;
        match write_all(self.output, text.as_bytes()) {
            Ok(()) => Ok(()),
            Err(WriteFault) => Err(RecordErr::Failed),
        }
    }

    ghost told_none = { λ k. (
      refl,
      refl,
      refl,
      written_none k.labels.now k.setup.now (output_at O.written O.faults k.output.now),
    ) };

    ghost told_more = { λ k l m rs ss p q. (
      q.0 ∙ p.0,
      q.1 ∙ p.1,
      q.2 ∙ p.2,
      written_more k.labels.now l.labels.now k.setup.now l.setup.now rs ss _ _ _ p.1 p.2 p.3 q.3,
    ) };

    ghost failed_later = { λ k l m rs ss p q. (
      q.0 ∙ p.0,
      part_later k.labels.now l.labels.now k.setup.now l.setup.now rs ss _ _ _ p.1 p.2 p.3 q.1,
    ) };
}
