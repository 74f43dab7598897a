//! What a valid transaction makes of a relation, and which tuples it gives a view and takes from it.
#![tactic(auto)]

ghost use Rattle.whips_states.specs.Laws.{NetRows, InsertedLast, DeletedFirst, OthersMiss, MeetsAlone};

/// Law: after a valid transaction a relation has its rows without the keys whose first update is a delete, and then with
/// the tuples whose key's last update is their insert.
pub fn net_rows()
    ensures { NetRows }
{}

/// Law: the inserted tuples of a transaction are those whose key's last update is their insert, and the deleted ones those
/// whose key's first update is their delete; both are in the order of their keys, no key twice.
pub fn first_and_last()
    ensures inserted { InsertedLast }
    ensures deleted { DeletedFirst }
{}

/// Law: an inserted tuple is given or doesn't meet the view, and the key of a deleted tuple is taken or the tuple doesn't
/// meet the view.
pub fn others_miss()
    ensures { OthersMiss }
{}

/// Law: a tuple meets its part exactly where the partial choice that has this tuple alone meets what is decidable on it.
pub fn meets_alone()
    ensures { MeetsAlone }
{}
