//! Runs of the pipeline with its sessions: versions and staleness, what is reported, and listed and
//! picked schedules. Definitions over numbers alone.
#![tactic(auto)]

ghost use Rattle.std.specs.Prelude.{◌≡◌, ℕ, ◌≤◌, ◌+◌, ◌-◌, ◌*◌, ◌↔◌, false};
ghost use Rattle.whips_flow.specs.Staleness.{is_stale};

/// Where no maintenance transaction is active, a session of an n-version warehouse is at most n - 1
/// versions behind the current version c exactly where it isn't stale.
pub fn stale_between_transactions()
    ensures { (n v c : ℕ) → (is_stale n v (2 * c) ≡ false) ↔ (c ≤ v + (n - 1)) }
{}

/// While a maintenance transaction is active, a session of an n-version warehouse (n at least 2) is
/// at most n - 2 versions behind the current version c exactly where it isn't stale.
pub fn stale_within_transaction()
    ensures { (n v c : ℕ) → 2 ≤ n → (is_stale n v (2 * c + 1) ≡ false) ↔ (c ≤ v + (n - 2)) }
{}
