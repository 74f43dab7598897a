//! The state of relations at a cut, which updates and transactions are valid, which of them concern a view, and what a
//! transaction gives a view and takes from it.
#![tactic(auto)]

ghost use Rattle.std.specs.Prelude.{◌≡◌, ◌++◌, List};
ghost use Rattle.whips_model.specs.Relation.{Table};
ghost use Rattle.whips_states.specs.Laws.{UnconcernedKeeps, TablesStay};
ghost use Rattle.whips_states.specs.States.{Updates, applied};

/// Law: the updates of two transactions in a row are those of the first and then those of the second.
pub fn updates_join()
    ensures { (db : List Table) (t u : Updates) → applied db (t ++ u) ≡ applied (applied db t) u }
{}

/// Law: a valid transaction leaves each relation with rows of its width, in the order of their keys, no key twice.
pub fn tables_stay()
    ensures { TablesStay }
{}

/// Law: a valid transaction that doesn't concern a view leaves the view's value as it was.
pub fn unconcerned_keeps()
    ensures { UnconcernedKeeps }
{}
