//! Laws of the invariant of a Strobe manager, one change at a time.
#![tactic(auto)]

ghost use Rattle.whips_manager_laws.specs.Laws.{
  UnconcernedInsertion,
  UnconcernedDeletion,
  UnconcernedChange,
  Deletion,
  Insertions,
  PutInsertions,
  EarlierAnswer,
  LastAnswer,
  ListMakesValue,
  NewManager,
  LaterNumber,
};

/// Law: tuples that don't meet the view may come and go, and the manager keeps its invariant.
pub fn unconcerned_keeps()
    ensures insertion { UnconcernedInsertion }
    ensures deletion { UnconcernedDeletion }
    ensures change { UnconcernedChange }
{}

/// Law: where a manager notes the deletion of a key of a part, it keeps its invariant with the tables after it.
pub fn deletion_keeps()
    ensures { Deletion }
{}

/// Law: where tuples with new keys at one part, each of which meets the view, begin a query, the manager keeps its
/// invariant with the tables after their insertion. So it does where there is nothing to ask and their rows are put.
pub fn insertions_keep()
    ensures query { Insertions }
    ensures put { PutInsertions }
{}

/// Law: a manager that takes the answer to a step of one of its queries, as it is on the tables now, keeps its invariant:
/// before the last step the query moves on, and after it the query is closed and its rows are put, but for those that have
/// a pending key.
pub fn answer_keeps()
    ensures earlier { EarlierAnswer }
    ensures last { LastAnswer }
{}

/// Law: where no query is open, the action list takes the rows to the view's value.
pub fn list_makes_value()
    ensures { ListMakesValue }
{}

/// Law: a manager that has taken nothing has its invariant with the view's value, and a later number does no harm.
pub fn new_manager_keeps()
    ensures new { NewManager }
    ensures later { LaterNumber }
{}
