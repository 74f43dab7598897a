//! Worked messages to a manager: which lists leave, and the view's rows after each, computed by the checker from the
//! definitions that the manager's contracts cite.
#![tactic(auto, unfolding(whips_steps::specs::Steps::asked_sources))]

ghost use Rattle.std.specs.Prelude.{◌≡◌, [], ◌∷◌, map, Some, None};
ghost use Rattle.whips_managers.specs.Managers.{new_manager};
ghost use Rattle.whips_managers.specs.Messages.{ask_of};
ghost use Rattle.whips_vectors.specs.Scripts.{row2, row3};
ghost use Rattle.whips_manager_vectors.specs.Runs.{lists_from, state_after};
ghost use Rattle.whips_manager_vectors.specs.Races.{two, three, raced, answered_before, answered_after, second_step, deleted_later, two_lives, replaced, raced_transaction, strange};

/// Two insertions that find each other's tuple are covered by one list, and the row comes once.
pub fn raced_insertions_share_one_list()
    ensures { lists_from two (new_manager 0) [] raced ≡ (2, row3 1 7 5 ∷ []) ∷ [] }
{}

/// What was answered before a deletion comes, and the deletion's own list takes it away.
pub fn a_row_comes_and_goes()
    ensures { lists_from two (new_manager 0) [] answered_before
        ≡ (1, row3 1 7 5 ∷ []) ∷ (2, []) ∷ [] }
{}

/// What is answered after a deletion doesn't have what was deleted, and one list covers both.
pub fn a_deletion_waits_for_an_open_query()
    ensures { lists_from two (new_manager 0) [] answered_after ≡ (2, []) ∷ [] }
{}

/// After the first of two steps the query is asked at the second, at the last source.
pub fn a_query_goes_on_to_its_second_step()
    ensures { map (ask_of three) (state_after three (new_manager 0) second_step).queries
        ≡ record {
          source = 2;
          transaction = 1;
          origin = 0;
          step = 2;
          partials =
              (Some (row2 1 5) ∷ Some (row2 7 5) ∷ None ∷ []) ∷ [];
        } ∷ [] }
{}

/// A choice with a tuple that was deleted while a later step was open is struck.
pub fn a_deletion_strikes_a_later_step()
    ensures { lists_from three (new_manager 0) [] deleted_later ≡ (2, []) ∷ [] }
{}

/// A key that is deleted and inserted again while a query is open is struck from its answer, and comes by its own query.
pub fn a_key_with_two_lives_comes_once()
    ensures { lists_from two (new_manager 0) [] two_lives ≡ (3, row3 1 7 5 ∷ []) ∷ [] }
{}

/// A transaction that deletes a key and inserts it again takes the old tuple and gives the new one.
pub fn a_replaced_tuple_asks_once()
    ensures { lists_from two (new_manager 0) [] replaced ≡ (1, row3 1 7 5 ∷ []) ∷ [] }
{}

/// A transaction that races a query is covered whole, by the query's list.
pub fn a_raced_transaction_is_covered_whole()
    ensures { lists_from two (new_manager 0) [] raced_transaction ≡ (2, row3 1 8 5 ∷ []) ∷ [] }
{}

/// What replies say is used, whatever it is.
pub fn replies_are_used()
    ensures { lists_from two (new_manager 0) [] strange ≡ (1, row3 1 77 5 ∷ row3 1 78 5 ∷ []) ∷ [] }
{}
