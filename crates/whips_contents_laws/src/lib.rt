//! The invariant of the contents: what is on its way fits the sources, and each manager keeps its view.
#![tactic(auto)]

ghost use Rattle.whips_contents_laws.specs.Fitting.{ContentsFit, MessagesAreFitting};

/// Law: after every list of events, whatever is on its way fits the sources, and each manager keeps
/// its view.
pub fn contents_fit()
    ensures { ContentsFit }
{}

/// Law: after every list of events each open query can be asked, and the reply that a manager takes
/// next fits.
pub fn messages_are_fitting()
    ensures { MessagesAreFitting }
{}
