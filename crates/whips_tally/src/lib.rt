//! A sink that counts the records of a run.
#![tactic(auto)]

ghost use Rattle.whips_tally.specs.Tallies.{RunsAreCounted, SummariesAreCounted};

mod summary;
mod tally;

pub use tally::Tally;

/// Law: a sink that was told all records of a run that isn't full has counted each kind, and has the number of rows of each
/// view on the final sources.
pub fn runs_are_counted()
    ensures { RunsAreCounted }
{}

/// Law: so the counts of such a sink are those of the run's summary.
pub fn summaries_are_counted()
    ensures { SummariesAreCounted }
{}
