//! Staleness of a session's version.
ghost use Rattle.std.specs.Prelude.{◌≡◌, ℕ, ◌+◌, ◌-◌, ◌*◌, ◌≤◌, ◌↔◌, IsTrue};
ghost use Rattle.whips_flow.specs.Staleness.{IsStale};

/// Whether a session at version `v` may read no more at `phase`, where `n` versions are kept.
///
/// The phase is twice the committed version, and 1 more while maintenance is active. The comparison
/// is that of whole numbers, for every `v` and `phase`.
pub fn stale(v: u64, phase: u64, n: u32) -> bool
    requires least { 2 ≤ n }
    requires most { n ≤ 4 }
    ensures { IsTrue result ↔ IsStale n v phase }
{
    let kept = 2 * (u64::from(n) - 1);
    phase > kept && (phase - kept - 1) / 2 >= v
}

/// A session at a version up to the committed one, `c`, isn't stale exactly where it is at most
/// `n - 1` versions behind and no maintenance is active, or at most `n - 2` behind while it is.
pub fn unexpired_versions()
    ensures quiet { (n v c : ℕ) → 2 ≤ n → v ≤ c → (¬ IsStale n v (2 * c)) ↔ (c - (n - 1) ≤ v) }
    ensures active { (n v c : ℕ) → 2 ≤ n → v ≤ c → (¬ IsStale n v (2 * c + 1)) ↔ (c - (n - 2) ≤ v) }
{}
