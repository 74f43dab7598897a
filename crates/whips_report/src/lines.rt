//! The lines of a record.
ghost use Rattle.std.specs.Prelude.{◌≡◌, ◌∷◌, ◌++◌, [], OnOk, string_bytes, codes, decimal};
ghost use Rattle.whips_runs.specs.Records.{version, skip, opened, final};
ghost use Rattle.whips_facts.specs.Scripts.{Script};
ghost use Rattle.whips_reports.specs.Lines.{words, record_words, record_lines, text_of};
ghost use Rattle.whips_report.specs.Recs.{reported_of};
ghost use Rattle.whips_report.specs.Texts.{first_line, reported_rows_text};

use crate::rows::{push_read_rows, push_view_rows, row_kinds};
use crate::words::{push_counts, push_event};
use crate::{Labels, Rec};
use itoa::Buffer;
use std::alloc::AllocError;
use whips_rel::NoMemory;
use whips_setup::{Event, Setup};

/// The line of a version.
fn push_version(
    text: &mut String,
    labels: &Labels,
    number: u64,
    cut: &[u64],
    rows: &[u64],
) -> Result<(), AllocError>
    ensures { OnOk result (string_bytes text.new ≡ string_bytes text.old
        ++ words (record_words labels.now 0 (version number cut.now rows.now))) }
{
    write!(text, "version {number} cut")?;
    push_counts(text, labels.sources(), cut)?;
    text.push_str(" rows")?;
    push_counts(text, labels.views(), rows)
}

/// The words of a version and a phase, behind a blank.
fn push_version_and_phase(text: &mut String, v: u64, phase: u64) -> Result<(), AllocError>
    ensures { OnOk result (string_bytes text.new ≡ string_bytes text.old
        ++ codes " version " ++ decimal v ++ codes " phase " ++ decimal phase) }
{
    text.push_str(" version ")?;
    text.push_str(Buffer::new().format(v))?;
    text.push_str(" phase ")?;
    text.push_str(Buffer::new().format(phase))
}

/// The line of a session that began.
fn push_opened(
    text: &mut String,
    labels: &Labels,
    s: u32,
    v: u64,
    phase: u64,
) -> Result<(), AllocError>
    ensures { OnOk result (string_bytes text.new ≡ string_bytes text.old
        ++ words (record_words labels.now 0 (opened s v phase))) }
{
    text.push_str("open ")?;
    text.push_str(labels.session(s))?;
    push_version_and_phase(text, v, phase)
}

/// The line of an event that was skipped.
fn push_skip(text: &mut String, labels: &Labels, at: u64, event: Event) -> Result<(), AllocError>
    ensures { OnOk result (string_bytes text.new ≡ string_bytes text.old
        ++ words (record_words labels.now 0 (skip at event))) }
{
    write!(text, "skip {at} ")?;
    push_event(text, labels, event)
}

/// The line of the number of all transactions of each source.
fn push_final(text: &mut String, labels: &Labels, counts: &[u64]) -> Result<(), AllocError>
    ensures { OnOk result (string_bytes text.new ≡ string_bytes text.old
        ++ words (record_words labels.now 0 (final counts.now))) }
{
    text.push_str("final")?;
    push_counts(text, labels.sources(), counts)
}

/// The first line of a record, without its end.
fn push_first_line(text: &mut String, rec: &Rec, labels: &Labels) -> Result<(), AllocError>
    ensures { OnOk result (string_bytes text.new
        ≡ string_bytes text.old ++ first_line labels.now (reported_of rec.now)) }
{
    match rec {
        Rec::Version { number, cut, rows } => push_version(text, labels, *number, cut, rows),
        Rec::Skip { at, event } => push_skip(text, labels, *at, *event),
        Rec::Opened { s, v, phase } => push_opened(text, labels, *s, *v, *phase),
        Rec::More {
            s,
            x,
            v,
            phase,
            slots,
        } => write!(
            text,
            "more {} {} version {v} phase {phase} slots {slots}",
            labels.session(*s),
            labels.view(*x)
        ),
        Rec::Read {
            s,
            x,
            v,
            phase,
            rows,
        } => write!(
            text,
            "read {} {} version {v} phase {phase} rows {}",
            labels.session(*s),
            labels.view(*x),
            rows.len()
        ),
        Rec::Expired { s, x, v, phase } => write!(
            text,
            "expired {} {} version {v} phase {phase}",
            labels.session(*s),
            labels.view(*x)
        ),
        Rec::Full { view, need, slots } => write!(
            text,
            "full {} need {need} slots {slots}",
            labels.view(*view)
        ),
        Rec::Final { counts } => push_final(text, labels, counts),
        Rec::View { x, rows } => write!(text, "view {} rows {}", labels.view(*x), rows.len()),
    }
}

/// The lines of the rows that a record reports.
fn push_rows(text: &mut String, rec: &Rec, labels: &Labels, setup: &Setup) -> Result<(), AllocError>
    ensures { OnOk result (string_bytes text.new ≡ string_bytes text.old
        ++ reported_rows_text labels.now setup.now (reported_of rec.now)) }
{
    match rec {
        Rec::Read { x, rows, .. } => push_read_rows(text, rows, row_kinds(setup, *x), labels),
        Rec::View { x, rows } => push_view_rows(text, rows, row_kinds(setup, *x), labels),
        _ => Ok(()),
    }
}

/// Puts the lines of the record behind the text. Where a name isn't there its place stays empty, and a view that isn't
/// there has rows with no values.
pub fn push_lines(
    text: &mut String,
    rec: &Rec,
    labels: &Labels,
    setup: &Setup,
) -> Result<(), NoMemory>
    ensures { OnOk result ((s : Script) → s.setup ≡ setup.now → string_bytes text.new
        ≡ string_bytes text.old ++ text_of (record_lines s labels.now (reported_of rec.now))) }
{
    push_first_line(text, rec, labels)?;
    text.push_str("\n")?;
    push_rows(text, rec, labels, setup)?;
    Ok(())
}
