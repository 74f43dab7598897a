//! The event that a text is.
ghost use Rattle.std.specs.Prelude.{◌≡◌, ◌≤◌, ◌<◌, IfSome, Some, None, length};
ghost use Rattle.whips_reading.specs.Names.{place_of};
ghost use Rattle.whips_plan_reading.specs.Events.{bare_event, named_event, paired_event, event_in};

use crate::decimal::decimal_within;
use crate::names::Names;
use whips_flow::Event;
use whips_reading::Text;

/// The most slots that one fetch visits.
const MOST_SLOTS: u32 = 65_536;

/// The number of the text among these names.
fn number_of(names: &[Text], text: &str) -> Option<u32>
    requires { length names.now ≤ 8 }
    ensures place { result ≡ place_of names.now text.now }
    ensures there { IfSome result (λ i. i < length names.now) }
{
    match names {
        [] => None,
        [first, rest @ ..] => {
            if first.as_str() == text {
                return Some(0);
            }
            match number_of(rest, text) {
                None => None,
                Some(number) => Some(number + 1),
            }
        }
    }
}

/// The event that is one word.
fn bare_event(word: &str) -> Option<Event>
    ensures { result ≡ bare_event word.now }
{
    match word {
        "rel" => Some(Event::Rel),
        "begin" => Some(Event::Begin),
        "change" => Some(Event::Change),
        "publish" => Some(Event::Publish),
        _ => None,
    }
}

/// The event that is a word and the name of a source, a view or a session.
fn named_event(names: &Names<'_>, word: &str, name: &str) -> Option<Event>
    ensures { result ≡ named_event names.now word.now name.now }
{
    match word {
        "commit" => Some(Event::Commit(number_of(names.sources(), name)?)),
        "integrate" => Some(Event::Integrate(number_of(names.sources(), name)?)),
        "manage" => Some(Event::Manage(number_of(names.views(), name)?)),
        "act" => Some(Event::Act(number_of(names.views(), name)?)),
        "open" => Some(Event::SessionOpen(number_of(names.sessions(), name)?)),
        "close" => Some(Event::SessionClose(number_of(names.sessions(), name)?)),
        _ => None,
    }
}

/// The event that is a word, the name of a source or a session, and the name of a view or a number.
fn paired_event(names: &Names<'_>, word: &str, name: &str, last: &str) -> Option<Event>
    ensures { result ≡ paired_event names.now word.now name.now last.now }
{
    match word {
        "answer" => Some(Event::Answer(
            number_of(names.sources(), name)?,
            number_of(names.views(), last)?,
        )),
        "scan" => Some(Event::SessionScan(
            number_of(names.sessions(), name)?,
            number_of(names.views(), last)?,
        )),
        "fetch" => Some(Event::SessionFetch(
            number_of(names.sessions(), name)?,
            decimal_within(last, 1, MOST_SLOTS)?,
        )),
        _ => None,
    }
}

/// The event that the text is.
pub(crate) fn event_in(names: &Names<'_>, text: &str) -> Option<Event>
    ensures { result ≡ event_in names.now text.now }
{
    match text.split_once(' ') {
        None => bare_event(text),
        Some((word, rest)) => match rest.split_once(' ') {
            None => named_event(names, word, rest),
            Some((name, last)) => match last.split_once(' ') {
                None => paired_event(names, word, name, last),
                Some(_) => None,
            },
        },
    }
}
