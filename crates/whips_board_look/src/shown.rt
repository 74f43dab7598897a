//! What a slot shows by its headers.
ghost use Rattle.std.specs.Prelude.{◌≡◌, ◌==◌, ℕ};
ghost use Rattle.std.specs.List.{list_any};
ghost use Rattle.whips_model.specs.Tuples.{Codes};
ghost use Rattle.whips_vnl.specs.Records.{shown_of};
ghost use Rattle.whips_slot_words.specs.Words.{seen_of};

use whips_slots::greatest;
use whips_vnl::Shown;

/// Whether one of these headers is that of a blank entry.
fn has_blank(headers: &[u64]) -> bool
    ensures { result ≡ list_any (λ h. h == 0) headers.now }
{
    headers.iter().any(|header| *header == 0)
}

/// What a reader at `v` is shown by these headers.
pub(crate) fn shown_by(v: u64, headers: &[u64]) -> Shown
    ensures { (row : ℕ → Codes) → result ≡ shown_of (seen_of v headers.now row) }
{
    let newest = greatest(v, headers);
    if newest == 0 {
        if has_blank(headers) {
            Shown::Nothing
        } else {
            Shown::Past
        }
    } else if newest % 4 == 3 {
        Shown::Nothing
    } else {
        Shown::Row
    }
}
