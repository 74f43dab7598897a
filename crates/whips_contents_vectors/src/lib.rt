//! Worked runs of the pipeline with its contents: what is on its way, what waits, and the rows and
//! cuts of the views, computed by the checker from the definitions.
#![tactic(auto, unfolding(whips_steps::specs::Steps::asked_sources, whips_steps::specs::Steps::step_parts))]

ghost use Rattle.std.specs.Prelude.{◌≡◌, [], ◌∷◌, ◌++◌, true, false, take, filter, Some, None};
ghost use Rattle.whips_rel.specs.declared.update.Update.TheVariants.{Insert, Delete};
ghost use Rattle.whips_rel.specs.declared.update.Change.TheVariants.{Add};
ghost use Rattle.whips_actions.specs.declared.action.Action.TheVariants.{KeyDelete};
ghost use Rattle.whips_order.specs.declared.message.Message.TheVariants.{Update, Reply};
ghost use Rattle.whips_flow.specs.declared.event.Event.{Event};
ghost use Rattle.whips_flow.specs.declared.event.Event.TheVariants.{Begin, Change, Publish, Commit};
ghost use Rattle.whips_vectors.specs.Scripts.{row2, row3, single};
ghost use Rattle.whips_vectors.specs.Races.{raced, raced_plan, early_lists, early_lists_plan, three_parts, three_parts_plan, two_lives, two_lives_plan, same_source, same_source_plan, other_source, other_source_plan};
ghost use Rattle.whips_vectors.specs.Readers.{crowded};
ghost use Rattle.whips_setup.specs.Setups.{SetupData};
ghost use Rattle.whips_contents.specs.Contents.{LoadedPipeline, numbered_transaction};
ghost use Rattle.whips_contents.specs.Events.{is_enabled_loaded, is_full_for, step_loaded};
ghost use Rattle.whips_contents_vectors.specs.Runs.{run, MeetsMachine, MeetsWriter, messages_in, asks_in, inputs_in, lists_in, queries_in, actions_in, rows_now, rows_shown, changes_in, cuts_in, waiting, nothing};
ghost use Rattle.whips_contents_vectors.specs.Worked.{raced_answered, raced_drained, early_lists_announced, early_lists_begun, early_lists_first, early_lists_drained, three_parts_drained, two_lives_answered, two_lives_drained, same_source_joined, same_source_first, same_source_drained, other_source_drained, crowded_ready, events, first, second, both, ask, reply, numbered, put, put_of_three, put_copies, list};

/// A reply that was sent behind a transaction stands behind it, and the transaction is taken first.
pub fn a_reply_waits_behind_a_transaction()
    ensures sent { messages_in (run raced (take 5 raced_plan))
        ≡ [] ∷ (Update (single (Insert 1 (row2 7 5)))
        ∷ Reply (reply 1 0 1 (both (row2 1 5) (row2 7 5) ∷ [])) ∷ []) ∷ [] }
    ensures taken { inputs_in (run raced (take 6 raced_plan))
        ≡ (numbered_transaction (numbered 2 1 1) (single (Insert 1 (row2 7 5))) ∷ []) ∷ [] }
{}

/// Of two insertions that find each other's tuple, the first is answered: its row is held back,
/// since the second still asks the first's source.
pub fn a_raced_answer_is_held_back()
    ensures held { actions_in (run raced raced_plan) ≡ (put (row3 1 7 5 ∷ []) ∷ []) ∷ [] }
    ensures asks { asks_in (run raced raced_plan)
        ≡ ((ask 2 1 1 (second (row2 7 5) ∷ []) ∷ []) ∷ []) ∷ ([] ∷ []) ∷ [] }
    ensures waits { waiting (run raced raced_plan)
        ≡ record nothing { asks = 1; announcements = 2; queries = 1; actions = 1 } }
    ensures numbers { MeetsMachine raced raced_plan }
{}

/// Two insertions that find each other's tuple give one list, numbered 2, that puts the joined row
/// twice; it is there once, in one version.
pub fn raced_insertions_make_one_version()
    ensures lists { lists_in (run raced raced_answered)
        ≡ (list 0 2 (put (row3 1 7 5 ∷ []) ∷ put (row3 1 7 5 ∷ []) ∷ []) ∷ []) ∷ [] }
    ensures rows { rows_now (run raced raced_drained) ≡ (row3 1 7 5 ∷ []) ∷ [] }
    ensures cuts { cuts_in (run raced raced_drained) ≡ (0 ∷ 0 ∷ []) ∷ (1 ∷ 1 ∷ []) ∷ [] }
    ensures waits { waiting (run raced raced_drained) ≡ nothing }
    ensures numbers { MeetsMachine raced raced_drained }
{}

/// A list of an insertion that was answered before a deletion, and behind it one of the deletion.
pub fn lists_leave_in_order()
    ensures { lists_in (run early_lists (take 9 early_lists_plan))
        ≡ (list 0 1 (put (row3 1 7 5 ∷ []) ∷ []) ∷ list 0 2 (KeyDelete 1 (7 ∷ []) ∷ []) ∷ []) ∷ [] }
{}

/// Lists that come before their rows wait in the merge; once these are announced, each makes a
/// transaction of its own.
pub fn early_lists_wait_for_their_rows()
    ensures lists { (run early_lists early_lists_plan).merge.lists
        ≡ (list 0 1 (put (row3 1 7 5 ∷ []) ∷ [])
        ∷ list 0 2 (KeyDelete 1 (7 ∷ []) ∷ []) ∷ []) ∷ [] }
    ensures waits { waiting (run early_lists early_lists_plan)
        ≡ record nothing { announcements = 2; merge_lists = 2 } }
    ensures transactions { (run early_lists early_lists_announced).merge.transactions
        ≡ record {
          rows = 1 ∷ [];
          lists = list 0 1 (put (row3 1 7 5 ∷ []) ∷ []) ∷ [];
          cut = 1 ∷ 0 ∷ [];
        } ∷ record {
          rows = 2 ∷ [];
          lists = list 0 2 (KeyDelete 1 (7 ∷ []) ∷ []) ∷ [];
          cut = 1 ∷ 1 ∷ [];
        } ∷ [] }
    ensures numbers { MeetsMachine early_lists early_lists_plan }
{}

/// The row comes with the first version and goes with the second, and a reader of the first still
/// sees it.
pub fn early_lists_make_two_versions()
    ensures first { rows_now (run early_lists early_lists_first) ≡ (row3 1 7 5 ∷ []) ∷ [] }
    ensures second { rows_now (run early_lists early_lists_drained) ≡ [] ∷ [] }
    ensures shown { rows_shown 1 (run early_lists early_lists_drained) ≡ (row3 1 7 5 ∷ []) ∷ [] }
    ensures cuts { cuts_in (run early_lists early_lists_drained)
        ≡ (0 ∷ 0 ∷ []) ∷ (1 ∷ 0 ∷ []) ∷ (1 ∷ 1 ∷ []) ∷ [] }
    ensures waits { waiting (run early_lists early_lists_drained) ≡ nothing }
    ensures numbers { MeetsMachine early_lists early_lists_drained }
{}

/// While a transaction is active no other begins, though one is ready, and it isn't published before
/// its change is made.
pub fn one_transaction_is_active_at_a_time()
    ensures begin { is_enabled_loaded (run early_lists early_lists_begun) Begin ≡ false }
    ensures change { is_enabled_loaded (run early_lists early_lists_begun) Change ≡ true }
    ensures publish { is_enabled_loaded (run early_lists early_lists_begun) Publish ≡ false }
    ensures waits { waiting (run early_lists early_lists_begun)
        ≡ record nothing { transactions = 1; changes = 1 } }
{}

/// The second step of a query asks the third source, and a deletion at the second source is held
/// against what it finds.
pub fn a_deletion_meets_a_second_step()
    ensures asks { asks_in (run three_parts (take 6 three_parts_plan))
        ≡ ([] ∷ []) ∷ ([] ∷ [])
        ∷ ((ask 1 0 2 ((Some (row2 1 5) ∷ Some (row2 7 5) ∷ None ∷ []) ∷ []) ∷ []) ∷ []) ∷ [] }
    ensures queries { queries_in (run three_parts (take 9 three_parts_plan))
        ≡ (record {
          transaction = 1;
          origin = 0;
          step = 2;
          seeds = row2 1 5 ∷ [];
          partials = (Some (row2 1 5) ∷ Some (row2 7 5) ∷ None ∷ []) ∷ [];
          pending = (1, 7 ∷ []) ∷ [];
        } ∷ []) ∷ [] }
    ensures lists { lists_in (run three_parts three_parts_plan)
        ≡ (list 0 2 (KeyDelete 1 (7 ∷ []) ∷ put_of_three [] ∷ []) ∷ []) ∷ [] }
{}

/// The insertion and the deletion make one version, in which no row changes.
pub fn a_struck_row_makes_a_version_without_change()
    ensures rows { rows_now (run three_parts three_parts_drained) ≡ [] ∷ [] }
    ensures cuts { cuts_in (run three_parts three_parts_drained)
        ≡ (0 ∷ 0 ∷ 0 ∷ []) ∷ (1 ∷ 1 ∷ 0 ∷ []) ∷ [] }
    ensures waits { waiting (run three_parts three_parts_drained) ≡ nothing }
{}

/// What a query finds under a key that was deleted meanwhile is struck, though the key is there
/// again; the key's new tuple asks for itself.
pub fn a_key_with_two_lives_is_struck()
    ensures held { actions_in (run two_lives two_lives_plan)
        ≡ (KeyDelete 1 (7 ∷ []) ∷ put [] ∷ []) ∷ [] }
    ensures asks { asks_in (run two_lives two_lives_plan)
        ≡ ((ask 3 1 1 (second (row2 7 5) ∷ []) ∷ []) ∷ []) ∷ ([] ∷ []) ∷ [] }
    ensures waits { waiting (run two_lives two_lives_plan)
        ≡ record nothing { asks = 1; announcements = 3; queries = 1; actions = 2 } }
    ensures numbers { MeetsMachine two_lives two_lives_plan }
{}

/// One list, numbered 3, deletes the key's old rows and puts the new one, in one version of three
/// transactions.
pub fn a_key_with_two_lives_comes_at_once()
    ensures lists { lists_in (run two_lives two_lives_answered)
        ≡ (list 0 3 (KeyDelete 1 (7 ∷ []) ∷ put [] ∷ put (row3 1 7 5 ∷ []) ∷ []) ∷ []) ∷ [] }
    ensures rows { rows_now (run two_lives two_lives_drained) ≡ (row3 1 7 5 ∷ []) ∷ [] }
    ensures cuts { cuts_in (run two_lives two_lives_drained) ≡ (0 ∷ 0 ∷ []) ∷ (1 ∷ 2 ∷ []) ∷ [] }
    ensures waits { waiting (run two_lives two_lives_drained) ≡ nothing }
    ensures numbers { MeetsWriter two_lives two_lives_drained }
{}

/// The second view's list has come, but a source's later transaction waits for its earlier one: the
/// begin isn't enabled where the plan has it.
pub fn a_later_transaction_of_a_source_waits()
    ensures lists { (run same_source same_source_plan).merge.lists
        ≡ [] ∷ (list 1 2 (put_copies (row2 2 8 ∷ []) ∷ []) ∷ []) ∷ [] }
    ensures waits { waiting (run same_source same_source_plan)
        ≡ record nothing { inputs = 1; rows = 2; merge_lists = 1 } }
    ensures begin { is_enabled_loaded (run same_source (take 8 same_source_plan)) Begin ≡ false }
{}

/// Once the first view's list comes, both transactions are made, the earlier one first; each
/// changes its own view alone.
pub fn transactions_of_a_source_go_in_order()
    ensures transactions { (run same_source same_source_joined).merge.transactions
        ≡ record {
          rows = 1 ∷ [];
          lists = list 0 1 (put (row3 1 7 5 ∷ []) ∷ []) ∷ [];
          cut = 1 ∷ 0 ∷ [];
        } ∷ record {
          rows = 2 ∷ [];
          lists = list 1 2 (put_copies (row2 2 8 ∷ []) ∷ []) ∷ [];
          cut = 2 ∷ 0 ∷ [];
        } ∷ [] }
    ensures first { rows_now (run same_source same_source_first) ≡ (row3 1 7 5 ∷ []) ∷ [] ∷ [] }
    ensures second { rows_now (run same_source same_source_drained)
        ≡ (row3 1 7 5 ∷ []) ∷ (row2 2 8 ∷ []) ∷ [] }
    ensures cuts { cuts_in (run same_source same_source_drained)
        ≡ (0 ∷ 0 ∷ []) ∷ (1 ∷ 0 ∷ []) ∷ (2 ∷ 0 ∷ []) ∷ [] }
    ensures waits { waiting (run same_source same_source_drained) ≡ nothing }
{}

/// A transaction of another source overtakes: its list's change is to be made, and nothing of it is
/// current yet.
pub fn another_source_overtakes()
    ensures changes { changes_in (run other_source other_source_plan)
        ≡ [] ∷ (Add (row2 2 8) ∷ []) ∷ [] }
    ensures rows { rows_now (run other_source other_source_plan) ≡ [] ∷ [] ∷ [] }
    ensures cuts { cuts_in (run other_source other_source_plan) ≡ (0 ∷ 0 ∷ []) ∷ [] }
    ensures target { (run other_source other_source_plan).target_cut ≡ 0 ∷ 1 ∷ [] }
    ensures waits { waiting (run other_source other_source_plan)
        ≡ record nothing { inputs = 1; rows = 1; changes = 1 } }
{}

/// The transaction that was overtaken makes the next version.
pub fn the_overtaken_transaction_comes_next()
    ensures rows { rows_now (run other_source other_source_drained)
        ≡ (row3 1 7 5 ∷ []) ∷ (row2 2 8 ∷ []) ∷ [] }
    ensures cuts { cuts_in (run other_source other_source_drained)
        ≡ (0 ∷ 0 ∷ []) ∷ (0 ∷ 1 ∷ []) ∷ (1 ∷ 1 ∷ []) ∷ [] }
    ensures waits { waiting (run other_source other_source_drained) ≡ nothing }
{}

/// A begin for which a view has too few slots is enabled, and the view is full for it.
pub fn a_begin_may_have_too_few_slots()
    ensures enabled { is_enabled_loaded (run crowded crowded_ready) Begin ≡ true }
    ensures full { is_full_for crowded.setup (run crowded crowded_ready) Begin ≡ true }
    ensures numbers { MeetsWriter crowded (crowded_ready ++ Begin ∷ []) }
{}

/// Only commits are enabled at the start, and nothing is at the end.
pub fn nothing_is_enabled_at_the_end()
    ensures first { filter (is_enabled_loaded (run raced [])) events ≡ Commit 0 ∷ Commit 1 ∷ [] }
    ensures last { filter (is_enabled_loaded (run raced raced_drained)) events ≡ [] }
{}

/// An event that isn't enabled changes nothing, nor does one that a view is full for.
#[tactic(auto, using(crate::proofs::Steps::not_enabled, crate::proofs::Steps::full))]
pub fn what_cannot_be_done_changes_nothing()
    ensures enabled { (s : SetupData) (l : LoadedPipeline) (e : Event)
        → is_enabled_loaded l e ≡ false → step_loaded s l e ≡ l }
    ensures full { (s : SetupData) (l : LoadedPipeline) (e : Event)
        → is_full_for s l e ≡ true → step_loaded s l e ≡ l }
{}
