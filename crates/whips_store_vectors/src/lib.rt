//! Worked transactions of a store, computed by the checker from the definitions that the contracts of `Store` cite.
#![tactic(auto)]

ghost use Rattle.std.specs.Prelude.{◌≡◌, [], ◌∷◌, Some, None};
ghost use Rattle.whips_vnl.specs.Records.{seen_row, seen_nothing, seen_past};
ghost use Rattle.whips_store.specs.declared.error.StoreErr.TheVariants.{Full};
ghost use Rattle.whips_store.specs.Calls.{shortage};
ghost use Rattle.whips_store_vectors.specs.Worked.{row, store, changes_to, written, committed, shown, both, second, later, two_slots, three_slots};

/// A transaction that takes one key and brings another needs a slot for each key before and after.
pub fn a_full_store_says_what_it_needs()
    ensures { shortage (store 2 both 0) (changes_to (store 2 both 0) later) ≡ Some (Full 0 3 2) }
{}

/// A slot that a removal left is taken for a new key by the transaction after it.
pub fn a_slot_is_used_again()
    ensures fits { shortage (committed (store 2 both 0) second)
        (changes_to (committed (store 2 both 0) second) later) ≡ None }
    ensures now { shown 2 (committed (committed (store 2 both 0) second) later) two_slots
        ≡ seen_row (row 3 7) ∷ seen_row (row 2 7) ∷ [] }
    ensures before { shown 1 (committed (committed (store 2 both 0) second) later) two_slots
        ≡ seen_nothing ∷ seen_row (row 2 7) ∷ [] }
{}

/// While a transaction is written, what the committed version shows doesn't change.
pub fn a_committed_version_stays_while_another_is_written()
    ensures { shown 0 (written (store 2 both 0) second) two_slots
        ≡ seen_row (row 1 7) ∷ seen_row (row 2 7) ∷ [] }
{}

/// Of two versions, the one before the committed one is past once its row has changed twice.
pub fn an_old_version_is_past()
    ensures { shown 0 (committed (committed (store 2 both 0) second) later) two_slots
        ≡ seen_past ∷ seen_row (row 2 7) ∷ [] }
{}

/// With three versions a row that an older version still shows needs its slot.
pub fn an_older_version_needs_its_slots()
    ensures { shortage (committed (store 3 both 0) second)
        (changes_to (committed (store 3 both 0) second) later) ≡ Some (Full 0 3 2) }
{}

/// With three versions and three slots, version 0 is still shown when version 2 is committed.
pub fn an_older_version_is_still_shown()
    ensures fits { shortage (committed (store 3 both 1) second)
        (changes_to (committed (store 3 both 1) second) later) ≡ None }
    ensures first { shown 0 (committed (committed (store 3 both 1) second) later) three_slots
        ≡ seen_row (row 1 7) ∷ seen_row (row 2 7) ∷ seen_nothing ∷ [] }
    ensures now { shown 2 (committed (committed (store 3 both 1) second) later) three_slots
        ≡ seen_nothing ∷ seen_row (row 2 7) ∷ seen_row (row 3 7) ∷ [] }
{}
