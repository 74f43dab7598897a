//! A document as it is written, where it is read as a script, is plain data that isn't nested too deep, so that its compact text
//! is read as it.
#![tactic(auto)]

ghost use Rattle.whips_plain_laws.specs.Laws.{DocumentsArePlain};

/// Law: a document as it is written, where it is read as the parts of a script, is plain and not nested too deep.
pub fn documents_are_plain()
    ensures { DocumentsArePlain }
{}
