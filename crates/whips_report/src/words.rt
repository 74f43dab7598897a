//! The words of a record's first line.
ghost use Rattle.std.specs.Prelude.{◌≡◌, ◌∷◌, ◌++◌, OnOk, string_bytes, codes, decimal};
ghost use Rattle.whips_reports.specs.Lines.{words, counts_words, event_words, fetch_words};
ghost use Rattle.whips_report.specs.Texts.{spaced};

use crate::Labels;
use itoa::Buffer;
use std::alloc::AllocError;
use whips_reading::Text;
use whips_setup::Event;

/// A blank, a name and its count.
fn push_count(text: &mut String, name: &str, count: u64) -> Result<(), AllocError>
    ensures { OnOk result (string_bytes text.new
        ≡ string_bytes text.old ++ 32 ∷ (name.now ++ 61 ∷ decimal count)) }
{
    text.push(' ')?;
    text.push_str(name)?;
    text.push('=')?;
    text.push_str(Buffer::new().format(count))
}

/// Puts each name with its count behind the text, each behind a blank.
pub fn push_counts(text: &mut String, names: &[Text], counts: &[u64]) -> Result<(), AllocError>
    ensures { OnOk result (string_bytes text.new
        ≡ string_bytes text.old ++ spaced (counts_words names.now counts.now)) }
{
    for (name, count) in names.iter().zip(counts) {
        push_count(text, name.as_str(), *count)?;
    }
    Ok(())
}

/// The words of an event.
pub(crate) fn push_event(text: &mut String, labels: &Labels, event: Event) -> Result<(), AllocError>
    ensures { OnOk result (string_bytes text.new
        ≡ string_bytes text.old ++ words (event_words labels.now event)) }
{
    match event {
        Event::Commit(y) => write!(text, "commit {}", labels.source(y)),
        Event::Answer(y, x) => write!(text, "answer {} {}", labels.source(y), labels.view(x)),
        Event::Integrate(y) => write!(text, "integrate {}", labels.source(y)),
        Event::Manage(x) => write!(text, "manage {}", labels.view(x)),
        Event::Rel => text.push_str("rel"),
        Event::Act(x) => write!(text, "act {}", labels.view(x)),
        Event::Begin => text.push_str("begin"),
        Event::Change => text.push_str("change"),
        Event::Publish => text.push_str("publish"),
        Event::SessionOpen(s) => write!(text, "open {}", labels.session(s)),
        Event::SessionScan(s, x) => write!(text, "scan {} {}", labels.session(s), labels.view(x)),
        Event::SessionFetch(s, n) => write!(text, "fetch {} {n}", labels.session(s)),
        Event::SessionClose(s) => write!(text, "close {}", labels.session(s)),
    }
}
