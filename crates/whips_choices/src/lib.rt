//! Views with the keys of their relations: which choices of tuples give a row, where a row has its keys, partial
//! choices and how they are extended, and edits of rows by key.
#![tactic(auto)]

ghost use Rattle.whips_choices.specs.Laws.{ValueHas};
ghost use Rattle.whips_choices.specs.Places.{KeyColumns};

/// Law: a row is in a view's value exactly where some choice of one tuple per relation that meets the view gives it.
pub fn value_has()
    ensures { ValueHas }
{}

/// Law: where each key column of each of a view's relations is among its out columns, the view's rows have the keys of
/// all chosen tuples, at the places that `keyed_view` names.
pub fn key_columns()
    ensures { KeyColumns }
{}
