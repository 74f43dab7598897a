//! The names that events speak of.
ghost use Rattle.std.specs.Prelude.{◌≡◌, ◌≤◌, length};
ghost use Rattle.whips_plan_reading.specs.Events.{names_with};

use std::marker::Model;
use whips_reading::Text;

/// The names of sources, views and sessions, up to 8 of each, by place.
#[derive(Drop)]
pub struct Names<'a> {
    sources: &'a [Text],
    views: &'a [Text],
    sessions: &'a [Text],
}

impl<'a> Model for Names<'a> {
    ghost use Rattle.std.specs.Prelude.{◌≤◌, length};
    ghost use Rattle.whips_plan_reading.specs.Events.{Names as NamesData, names_with};

    ghost Value = { NamesData };

    ghost view = { λ n. names_with n.sources.now n.views.now n.sessions.now };

    ghost invariant = { λ n. (length n.sources.now ≤ 8) × (length n.views.now ≤ 8)
        × (length n.sessions.now ≤ 8) };
}

impl<'a> Names<'a> {
    /// These names.
    pub fn of(sources: &'a [Text], views: &'a [Text], sessions: &'a [Text]) -> Names<'a>
        requires sources { length sources.now ≤ 8 }
        requires views { length views.now ≤ 8 }
        requires sessions { length sessions.now ≤ 8 }
        ensures { result ≡ names_with sources.now views.now sessions.now }
    {
        Names {
            sources,
            views,
            sessions,
        }
    }

    /// The names of the sources.
    pub(crate) fn sources(&self) -> &[Text]
        ensures value { result.now ≡ self.now.sources }
        ensures few { length result.now ≤ 8 }
    {
        self.sources
    }

    /// The names of the views.
    pub(crate) fn views(&self) -> &[Text]
        ensures value { result.now ≡ self.now.views }
        ensures few { length result.now ≤ 8 }
    {
        self.views
    }

    /// The names of the sessions.
    pub(crate) fn sessions(&self) -> &[Text]
        ensures value { result.now ≡ self.now.sessions }
        ensures few { length result.now ≤ 8 }
    {
        self.sessions
    }
}
