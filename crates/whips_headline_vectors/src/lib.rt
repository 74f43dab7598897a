//! What the headline's words give on a worked run, and reports that don't meet the headline.
#![tactic(auto)]

ghost use Rattle.std.specs.Prelude.{◌≡◌, ℕ, ◌≤◌, ◌<◌, [], ◌∷◌, List, Some};
ghost use Rattle.whips_flow.specs.declared.event.Event.TheVariants.{SessionOpen, SessionScan, SessionFetch};
ghost use Rattle.whips_runs.specs.Records.{version, skip, opened, final, final_rows};
ghost use Rattle.whips_runs.specs.World.{listed_records};
ghost use Rattle.whips_facts.specs.Scripts.{Script};
ghost use Rattle.whips_facts.specs.ScriptFacts.{facts_of};
ghost use Rattle.whips_setup.specs.declared.plan.Plan.TheVariants.{Listed};
ghost use Rattle.whips_reports.specs.Reported.{reported, run_of};
ghost use Rattle.whips_vectors.specs.Readers.{reader_records, idle};
ghost use Rattle.whips_headline_laws.specs.Headline.{printed_cuts, version_of, cut_of, Headline};
ghost use Rattle.whips_headline_vectors.specs.Wrong.{early_expiry, two_versions, late_read, unopened, falling, endless, falling_phases, counting, visiting};

/// A session that was opened at version 1 reads its cut, whatever is published later.
pub fn session_keeps_its_cut()
    ensures printed { printed_cuts reader_records ≡ (0 ∷ 0 ∷ []) ∷ (0 ∷ 1 ∷ []) ∷ (0 ∷ 2 ∷ [])
        ∷ (0 ∷ 3 ∷ []) ∷ [] }
    ensures opened_at { version_of 0 reader_records ≡ Some 1 }
    ensures cut { cut_of 0 reader_records ≡ Some (0 ∷ 1 ∷ []) }
{}

/// A scan of a view that isn't there and a fetch of no slots are skipped.
pub fn absent_views_are_not_scanned()
    ensures { listed_records (facts_of idle) (SessionOpen 0 ∷ SessionScan 0 9 ∷ SessionScan 0 0
        ∷ SessionFetch 0 0 ∷ []) ≡ version 0 (0 ∷ 0 ∷ []) (0 ∷ []) ∷ opened 0 0 0
        ∷ skip 2 (SessionScan 0 9) ∷ skip 4 (SessionFetch 0 0) ∷ final (0 ∷ 0 ∷ [])
        ∷ final_rows 0 ∷ [] }
{}

/// A run of a script with an empty view, and a session that visits 3 of its 4 slots.
pub fn idle_runs_are_reported()
    ensures counting { reported idle (run_of idle (Listed [])) ≡ counting 0 }
    ensures visiting { reported idle (run_of idle (Listed (SessionOpen 0 ∷ SessionScan 0 0
        ∷ SessionFetch 0 3 ∷ []))) ≡ visiting 3 }
{}

/// A fresh session that expires, one that reads two versions, one that reads when it is stale or
/// before it was opened, cuts that fall, phases that fall, a view with more rows than it has, a fetch
/// that visits no slot or leaves none, and a report without an end meet no headline.
pub fn wrong_reports_are_refused()
    ensures expiry { (s : Script) → Headline s early_expiry → ⊥ }
    ensures versions { (s : Script) → Headline s two_versions → ⊥ }
    ensures late { (s : Script) → s.setup.versions ≡ 2 → Headline s late_read → ⊥ }
    ensures opening { (s : Script) → Headline s unopened → ⊥ }
    ensures cuts { (s : Script) → Headline s falling → ⊥ }
    ensures phases { (s : Script) → Headline s falling_phases → ⊥ }
    ensures counts { (rows : ℕ) → 0 < rows → Headline idle (counting rows) → ⊥ }
    ensures no_slots { Headline idle (visiting 0) → ⊥ }
    ensures all_slots { (slots : ℕ) → 4 ≤ slots → Headline idle (visiting slots) → ⊥ }
    ensures ending { (s : Script) → Headline s endless → ⊥ }
{}
