//! Whole reports of worked runs, computed by the checker from the definitions.
#![tactic(auto, unfolding(whips_steps::specs::Steps::asked_sources))]

ghost use Rattle.std.specs.Prelude.{◌≡◌, []};
ghost use Rattle.whips_setup.specs.declared.plan.Plan.TheVariants.{Listed, Picked};
ghost use Rattle.whips_reports.specs.Reported.{run_of};
ghost use Rattle.whips_reports.specs.Lines.{report, text_of};
ghost use Rattle.whips_reports.specs.Summary.{summary_lines};
ghost use Rattle.whips_vectors.specs.Races.{still, two_lives, two_lives_plan};
ghost use Rattle.whips_vectors.specs.Readers.{growing, reader_plan, idle, idle_plan, crowded, crowded_plan};
ghost use Rattle.whips_vectors.specs.Shops.{shop, made};
ghost use Rattle.whips_report_vectors.specs.Texts.{still_labels, still_lines, two_labels, two_lives_lines, reader_lines, idle_lines, crowded_lines, shop_labels, shop_lines, made_labels, made_summary};

/// The report of a run without transactions: the initial rows.
pub fn report_of_no_transaction()
    ensures { report still still_labels (Listed []) ≡ text_of still_lines }
{}

/// The report of a run in which a key is deleted and inserted again while a query is open.
pub fn report_of_a_key_with_two_lives()
    ensures { report two_lives two_labels (Listed two_lives_plan) ≡ text_of two_lives_lines }
{}

/// The report of a session through three versions, which ends expired.
pub fn report_of_a_session_until_stale()
    ensures { report growing two_labels (Listed reader_plan) ≡ text_of reader_lines }
{}

/// The report of events that aren't enabled.
pub fn report_of_skipped_events()
    ensures { report idle two_labels (Listed idle_plan) ≡ text_of idle_lines }
{}

/// The report of a run that ends at a view with too few slots.
pub fn report_of_too_few_slots()
    ensures { report crowded two_labels (Listed crowded_plan) ≡ text_of crowded_lines }
{}

/// The report of a shop, with texts in its rows.
pub fn report_of_a_shop()
    ensures { report shop shop_labels (Listed []) ≡ text_of shop_lines }
{}

/// The summary of a run with sixteen picked turns.
pub fn summary_of_picked_turns()
    ensures { text_of (summary_lines 0 1 made made_labels (run_of made (Picked 0 16))) ≡ text_of made_summary }
{}
