//! Scripts that are checked.
ghost use Rattle.std.specs.Prelude.{◌≡◌, ◌≢◌, ◌<◌, ◌⊎◌, ℕ, List, [], length, take, Ok, IfOk, OnOk};
ghost use Rattle.std.specs.Io.KnownBytes.{Appends};
ghost use Rattle.whips_io.specs.Counts.{HasRisen};
ghost use Rattle.whips_script_reading.specs.Script.{script_of};
ghost use Rattle.whips_script_writing.specs.Scripts.{canonical};
ghost use Rattle.whips_run.specs.Answer.{canonical_line, checked};
ghost use Rattle.whips_run.specs.Outcome.{WritesCanonical};

use crate::answers::answer_refusal;
use crate::writing::end_with_bytes;
use std::alloc::Global;
use whips_canonical_scripts::write_script;
use whips_io::Sink;
use whips_rel::NoMemory;
use whips_script_reading::{ReadErr, Script, read_script};

/// The canonical text of the script, with a line feed.
fn canonical_line(alloc: Global, script: &Script) -> Result<Vec<u8>, NoMemory>
    ensures text { IfOk result (λ text. text.items ≡ canonical_line script.now) }
    ensures read { OnOk result ((input : List ℕ) → script_of input ≡ Ok script.now
        → script_of (canonical script.now) ≡ Ok script.now) }
{
    let mut text = write_script(alloc, script)?;
    text.push(b'\n')?;
    Ok(text)
}

/// Writes the canonical text of the script with a line feed, and gives the status.
fn answer_canonical<O: Sink>(alloc: Global, script: &Script, output: &mut O) -> u8
    ensures ended { result ≢ 5 → result ≢ 6 → (result ≡ 0)
        × Appends (O.written output.old) (O.written output.new) (canonical_line script.now) }
    ensures sink_failed { result ≡ 5 → (n : ℕ) × (n < length (canonical_line script.now))
        × Appends (O.written output.old) (O.written output.new)
        (take n (canonical_line script.now))
        × HasRisen (O.faults output.old) (O.faults output.new) }
    ensures no_memory { result ≡ 6
        → Appends (O.written output.old) (O.written output.new) [] }
    ensures read { result ≢ 6 → (input : List ℕ) → script_of input ≡ Ok script.now
        → script_of (canonical script.now) ≡ Ok script.now }
{
    match canonical_line(alloc, script) {
        Ok(text) => end_with_bytes(0, &text, output),
        Err(NoMemory) => 6,
    }
}

/// Checks a whole input: writes the canonical text of the script that it is, or its refusal, and gives the status.
pub(crate) fn answer_check<O: Sink>(alloc: Global, bytes: Vec<u8>, output: &mut O) -> u8
    ensures ended { result ≢ 5 → result ≢ 6 → (result ≡ (checked bytes.items).0)
        × Appends (O.written output.old) (O.written output.new) (checked bytes.items).1 }
    ensures sink_failed { result ≡ 5 → (n : ℕ) × (n < length (checked bytes.items).1)
        × Appends (O.written output.old) (O.written output.new) (take n (checked bytes.items).1)
        × HasRisen (O.faults output.old) (O.faults output.new) }
    ensures no_memory { result ≡ 6
        → Appends (O.written output.old) (O.written output.new) [] }
    ensures done { (result ≡ 0) ⊎ (result ≡ 7)
        → WritesCanonical bytes.items (O.written output.old) (O.written output.new) }
{
    match read_script(alloc, &bytes) {
        Ok(script) => answer_canonical(alloc, &script, output),
        Err(ReadErr::Refused(refusal)) => answer_refusal(alloc, &refusal, output),
        Err(ReadErr::NoMemory) => 6,
    }
}
