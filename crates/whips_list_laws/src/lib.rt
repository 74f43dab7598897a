//! The action lists on their way and in the merge, against the values of the views.
#![tactic(auto)]

ghost use Rattle.whips_list_laws.specs.Merged.{ChangesAreCounted};
ghost use Rattle.whips_list_laws.specs.States.{RelationsAreStates, SourcesStand, ListsAreRight};

/// Law: the relations after the numbered transactions are the state at their cut, and each source has
/// its own relations as in the state at its count of commits.
pub fn relations_are_states()
    ensures numbered { RelationsAreStates }
    ensures sources { SourcesStand }
{}

/// Law: each list on its way from a manager takes the view's value after the transactions up to the
/// list before to that after the transactions up to its own number.
pub fn lists_are_right()
    ensures { ListsAreRight }
{}

/// Law: where a view's rows now and after a transaction are its values at the cuts, the transaction
/// begins with as many changes as the machine counts.
pub fn changes_are_counted()
    ensures { ChangesAreCounted }
{}
