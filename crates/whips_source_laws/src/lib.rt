//! The sources of a script that were read, written canonically, are read again as the same.
#![tactic(auto)]

ghost use Rattle.whips_source_laws.specs.Laws.{SourcesAreRead, TextsOfSourcesStay};

/// Law: sources that were read are read again as the same from the data that they are written as.
pub fn sources_are_read()
    ensures { SourcesAreRead }
{}

/// Law: the texts of sources that were read stay where they are written.
pub fn source_texts_stay()
    ensures { TextsOfSourcesStay }
{}
