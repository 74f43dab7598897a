//! The names and texts of a script.
ghost use Rattle.std.specs.Prelude.{◌≡◌};
ghost use Rattle.whips_reports.specs.Lines.{name_at};

use std::marker::Model;
use whips_script_reading::{Script, Text};
use whips_texts::Dict;

/// The names of sources, views and sessions by place, and the texts by code.
#[derive(Drop)]
pub(crate) struct Labels<'a> {
    sources: &'a [Text],
    views: &'a [Text],
    sessions: &'a [Text],
    texts: &'a Dict,
}

impl<'a> Model for Labels<'a> {
    ghost use Rattle.whips_facts.specs.Scripts.{Labels};

    ghost Value = { Labels };

    ghost view = { λ l. record {
      sources = l.sources.now;
      views = l.views.now;
      sessions = l.sessions.now;
      texts = l.texts.now;
    } };
}

impl<'a> Labels<'a> {
    /// Those of a script.
    pub(crate) fn of(script: &'a Script) -> Labels<'a>
        ensures { result ≡ script.now.labels }
    {
        Labels {
            sources: script.sources(),
            views: script.views(),
            sessions: script.sessions(),
            texts: script.texts(),
        }
    }

    /// The name of the source, or no text where it has none.
    pub(crate) fn source(&self, y: u32) -> &str
        ensures { result.now ≡ name_at self.now.sources y }
    {
        name_at(self.sources, y)
    }

    /// The name of the view, or no text where it has none.
    pub(crate) fn view(&self, x: u32) -> &str
        ensures { result.now ≡ name_at self.now.views x }
    {
        name_at(self.views, x)
    }

    /// The name of the session, or no text where it has none.
    pub(crate) fn session(&self, s: u32) -> &str
        ensures { result.now ≡ name_at self.now.sessions s }
    {
        name_at(self.sessions, s)
    }

    /// The text of the code, or no text where it has none.
    pub(crate) fn text(&self, code: u64) -> &str
        ensures { result.now ≡ name_at self.now.texts code }
    {
        if code < self.texts.len() as u64 {
            self.texts.text(code)
        } else {
            ""
        }
    }
}

/// The name at a place, or no text where there is none.
pub(crate) fn name_at(names: &[Text], place: u32) -> &str
    ensures { result.now ≡ name_at names.now place }
{
    match names.get(place as usize) {
        Some(name) => name.as_str(),
        None => "",
    }
}
