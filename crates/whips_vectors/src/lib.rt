//! Worked runs: for each script and list of events what is reported, computed by the checker from
//! the definitions.
#![tactic(auto, unfolding(whips_steps::specs::Steps::asked_sources))]

ghost use Rattle.std.specs.Prelude.{◌≡◌, [], ◌∷◌};
ghost use Rattle.whips_flow.specs.Painted.{closure};
ghost use Rattle.whips_runs.specs.Records.{read, expired};
ghost use Rattle.whips_runs.specs.World.{listed_records, start_world};
ghost use Rattle.whips_runs.specs.Picks.{picked_events, picked_records};
ghost use Rattle.whips_facts.specs.ScriptFacts.{facts_of};
ghost use Rattle.whips_vectors.specs.Scripts.{row2, row3, rows_at};
ghost use Rattle.whips_vectors.specs.Races.{still, still_records, raced, raced_plan, raced_records, early_lists, early_lists_plan, early_lists_records, three_parts, three_parts_plan, three_parts_records, two_lives, two_lives_plan, two_lives_records, same_source, same_source_plan, same_source_records, other_source, other_source_plan, other_source_records, unconcerned, unconcerned_records, replaced, replaced_records, raced_transaction};
ghost use Rattle.whips_vectors.specs.Readers.{growing, reader_plan, reader_records, early_reader_plan, early_reader_records, idle, idle_plan, idle_records, crowded, crowded_plan, crowded_records, vacated, vacated_plan, vacated_records, vacated_full_records};
ghost use Rattle.whips_vectors.specs.Tables.{waiting_rows, covered_rows};
ghost use Rattle.whips_vectors.specs.Shops.{shop, shop_records, shop_rows, picked_numbers, made, made_events, made_records};

/// Without transactions there is version 0 with the initial rows, and nothing more.
pub fn no_transaction_no_version()
    ensures records { listed_records (facts_of still) [] ≡ still_records }
    ensures rows { rows_at still (0 ∷ []) ≡ (row2 1 5 ∷ []) ∷ [] }
{}

/// Two insertions that find each other's tuple are covered by one list, and so by one version.
pub fn raced_insertions_share_one_list()
    ensures records { listed_records (facts_of raced) raced_plan ≡ raced_records }
    ensures rows { rows_at raced (1 ∷ 1 ∷ []) ≡ (row3 1 7 5 ∷ []) ∷ [] }
{}

/// Lists that come before their rows wait until these are announced.
pub fn early_lists_wait_for_their_rows()
    ensures records { listed_records (facts_of early_lists) early_lists_plan ≡ early_lists_records }
    ensures rows { rows_at early_lists (1 ∷ 0 ∷ []) ≡ (row3 1 7 5 ∷ []) ∷ [] }
{}

/// A deletion during a later step of a query is covered by the query's list.
pub fn deletion_in_a_later_step_shares_the_list()
    ensures { listed_records (facts_of three_parts) three_parts_plan ≡ three_parts_records }
{}

/// A key that is deleted and inserted again while a query is open comes with the query's list.
pub fn key_with_two_lives_comes_at_once()
    ensures records { listed_records (facts_of two_lives) two_lives_plan ≡ two_lives_records }
    ensures rows { rows_at two_lives (1 ∷ 2 ∷ []) ≡ (row3 1 7 5 ∷ []) ∷ [] }
{}

/// A source's later transaction waits for its earlier one, also where it concerns another view.
pub fn later_transaction_of_a_source_waits()
    ensures records { listed_records (facts_of same_source) same_source_plan ≡ same_source_records }
    ensures rows { rows_at same_source (2 ∷ 0 ∷ []) ≡ (row3 1 7 5 ∷ []) ∷ (row2 2 8 ∷ []) ∷ [] }
{}

/// A transaction of another source may overtake.
pub fn other_source_may_overtake()
    ensures records { listed_records (facts_of other_source) other_source_plan
        ≡ other_source_records }
    ensures rows { rows_at other_source (0 ∷ 1 ∷ []) ≡ [] ∷ (row2 2 8 ∷ []) ∷ [] }
{}

/// A transaction that concerns no view makes no version.
pub fn unconcerned_transaction_makes_no_version()
    ensures { listed_records (facts_of unconcerned) [] ≡ unconcerned_records }
{}

/// A key that one transaction deletes and inserts changes in one version.
pub fn one_transaction_makes_one_version()
    ensures records { listed_records (facts_of replaced) [] ≡ replaced_records }
    ensures rows { rows_at replaced (1 ∷ 0 ∷ []) ≡ (row3 1 7 5 ∷ []) ∷ [] }
{}

/// A transaction of two updates that races a query is covered whole by the query's list.
pub fn raced_transaction_is_covered_whole()
    ensures records { listed_records (facts_of raced_transaction) raced_plan ≡ raced_records }
    ensures rows { rows_at raced_transaction (1 ∷ 1 ∷ []) ≡ (row3 1 8 5 ∷ []) ∷ [] }
{}

/// A session reads its version during the next transaction and after it, and has expired in the one
/// after that.
pub fn session_reads_its_version_until_stale()
    ensures records { listed_records (facts_of growing) reader_plan ≡ reader_records }
    ensures rows { rows_at growing (0 ∷ 1 ∷ []) ≡ (row3 1 7 5 ∷ row3 2 7 5 ∷ []) ∷ [] }
    ensures last { rows_at growing (0 ∷ 3 ∷ []) ≡ (row3 1 8 5 ∷ row3 2 8 5 ∷ []) ∷ [] }
{}

/// A session that opens while a transaction is active reads the version before it.
pub fn session_opened_in_a_transaction_reads_the_version_before()
    ensures { listed_records (facts_of growing) early_reader_plan ≡ early_reader_records }
{}

/// Events that aren't enabled are skipped.
pub fn events_that_are_not_enabled_are_skipped()
    ensures { listed_records (facts_of idle) idle_plan ≡ idle_records }
{}

/// A transaction that needs more slots than its view has ends the run.
pub fn too_few_slots_end_the_run()
    ensures { listed_records (facts_of crowded) crowded_plan ≡ crowded_records }
{}

/// With two versions the slot of a removed row is used again in the next transaction, and the session
/// that could have read it has expired.
pub fn slot_of_a_removed_row_is_used_again()
    ensures records { listed_records (facts_of (vacated 2 2)) (vacated_plan 2)
        ≡ vacated_records (expired 0 0 0 3) }
    ensures rows { rows_at (vacated 2 2) (2 ∷ 0 ∷ []) ≡ (row3 2 7 5 ∷ row3 3 7 5 ∷ []) ∷ [] }
{}

/// With three versions that slot isn't free yet; with one slot more the session still reads its rows.
pub fn third_version_keeps_old_rows()
    ensures full { listed_records (facts_of (vacated 2 3)) (vacated_plan 2) ≡ vacated_full_records }
    ensures read { listed_records (facts_of (vacated 3 3)) (vacated_plan 3)
        ≡ vacated_records (read 0 0 0 3) }
    ensures rows { rows_at (vacated 3 3) (0 ∷ 0 ∷ []) ≡ (row3 1 7 5 ∷ row3 2 7 5 ∷ []) ∷ [] }
{}

/// A shop with three views over two sources, drained alone.
pub fn shop_is_drained()
    ensures records { listed_records (facts_of shop) [] ≡ shop_records }
    ensures rows { rows_at shop (2 ∷ 2 ∷ []) ≡ shop_rows }
{}

/// The picker's first numbers below 65,536.
pub fn picker_numbers()
    ensures { picked_numbers 4 65536 0 ≡ 15470 ∷ 18256 ∷ 53708 ∷ 43769 ∷ [] }
{}

/// Sixteen picked turns, and what their run reports.
pub fn picked_turns()
    ensures events { picked_events 16 (facts_of made) 0 (start_world (facts_of made))
        ≡ made_events }
    ensures records { picked_records (facts_of made) 0 16 ≡ made_records }
{}

/// A row whose list hasn't come needs the earlier rows that concern the view, and no later ones.
pub fn waiting_row_needs_earlier_rows()
    ensures last { closure waiting_rows 3 ≡ 1 ∷ 3 ∷ [] }
    ensures first { closure waiting_rows 1 ≡ 1 ∷ [] }
{}

/// A row that a list covers needs all rows that this list covers.
pub fn covered_row_needs_the_whole_list()
    ensures { closure covered_rows 1 ≡ 1 ∷ 2 ∷ 3 ∷ [] }
{}
