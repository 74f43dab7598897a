//! Laws of the invariant of a Strobe manager: a whole transaction, a reply, and the list that leaves.
#![tactic(auto)]

ghost use Rattle.whips_manager_trans_laws.specs.Laws.{
  BasesAreRelations,
  RelationsStay,
  NewManagerKeeps,
  TransactionKeeps,
  UnconcernedTransaction,
  ReplyKeeps,
  ListLeaves,
  TransactionHandsOut,
  ReplyHandsOut,
};

/// Law: relations with the columns that a view was made with have the relations of the view, and so have those after a
/// valid transaction.
pub fn relations_stay()
    ensures made { BasesAreRelations }
    ensures after { RelationsStay }
{}

/// Law: a new manager keeps the view with the view's value on the relations now.
pub fn new_manager_keeps()
    ensures { NewManagerKeeps }
{}

/// Law: a manager that takes a valid transaction with a later number keeps the view with the relations after it. So does
/// one that takes no note of a valid transaction that doesn't concern the view.
pub fn transaction_keeps()
    ensures taken { TransactionKeeps }
    ensures unconcerned { UnconcernedTransaction }
{}

/// Law: a manager that takes the answer to a step of one of its queries keeps the view.
pub fn reply_keeps()
    ensures { ReplyKeeps }
{}

/// Law: after a valid transaction with a later number, and after an answer, a manager that gives no list keeps the view
/// with the rows before; a list that it gives takes these rows to the view's value on the relations now, and the manager
/// then keeps the view with that value.
pub fn list_leaves()
    ensures kept { ListLeaves }
    ensures transaction { TransactionHandsOut }
    ensures reply { ReplyHandsOut }
{}
