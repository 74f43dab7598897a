//! The names of what records speak of.
ghost use Rattle.std.specs.Prelude.{◌≡◌};
ghost use Rattle.whips_reports.specs.Lines.{name_at};

use std::marker::Model;
use whips_reading::Text;

/// The names of sources, views and sessions by place, and the texts by code.
#[derive(Drop)]
pub struct Labels<'a> {
    sources: &'a [Text],
    views: &'a [Text],
    sessions: &'a [Text],
    texts: &'a [Text],
}

impl<'a> Model for Labels<'a> {
    ghost use Rattle.whips_facts.specs.Scripts.{Labels};

    ghost Value = { Labels };

    ghost view = { λ l. record {
      sources = l.sources.now;
      views = l.views.now;
      sessions = l.sessions.now;
      texts = l.texts.now;
    } };
}

impl<'a> Labels<'a> {
    /// These names and texts.
    pub fn new(
        sources: &'a [Text],
        views: &'a [Text],
        sessions: &'a [Text],
        texts: &'a [Text],
    ) -> Labels<'a>
        ensures { result ≡ record {
          sources = sources.now;
          views = views.now;
          sessions = sessions.now;
          texts = texts.now;
        } }
    {
        Labels {
            sources,
            views,
            sessions,
            texts,
        }
    }

    /// The names of the sources.
    pub fn sources(&self) -> &[Text]
        ensures { result.now ≡ self.now.sources }
    {
        self.sources
    }

    /// The names of the views.
    pub fn views(&self) -> &[Text]
        ensures { result.now ≡ self.now.views }
    {
        self.views
    }

    /// The name of the source, or no text where it has none.
    pub fn source(&self, y: u32) -> &str
        ensures { result.now ≡ name_at self.now.sources y }
    {
        name_at(self.sources, y as usize)
    }

    /// The name of the view, or no text where it has none.
    pub fn view(&self, x: u32) -> &str
        ensures { result.now ≡ name_at self.now.views x }
    {
        name_at(self.views, x as usize)
    }

    /// The name of the session, or no text where it has none.
    pub fn session(&self, s: u32) -> &str
        ensures { result.now ≡ name_at self.now.sessions s }
    {
        name_at(self.sessions, s as usize)
    }

    /// The text of the code, or no text where it has none.
    pub fn text(&self, code: u64) -> &str
        ensures { result.now ≡ name_at self.now.texts code }
    {
        name_at(self.texts, code as usize)
    }
}

/// The name at a place, or no text where there is none.
fn name_at(names: &[Text], place: usize) -> &str
    ensures { result.now ≡ name_at names.now place }
{
    match names.get(place) {
        Some(name) => name.as_str(),
        None => "",
    }
}
