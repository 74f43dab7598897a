//! The texts of a document are known, and the texts of relations and views that were read stay when these are written.
#![tactic(auto)]

ghost use Rattle.whips_text_laws.specs.Laws.{TextsAreKnown, RelationTextsStay, ViewTextsStay, ViewsTextsStay};

/// Law: each text at a place of a value of a document is one of the document's texts.
pub fn texts_are_known()
    ensures { TextsAreKnown }
{}

/// Law: a relation that was read, written with every member, adds the texts that it added.
pub fn relation_texts_stay()
    ensures { RelationTextsStay }
{}

/// Law: a view that was read, written with every member, adds the texts that it added.
pub fn view_texts_stay()
    ensures { ViewTextsStay }
{}

/// Law: the views of a document that were read, written with every member, add the texts that they added.
pub fn views_texts_stay()
    ensures { ViewsTextsStay }
{}
