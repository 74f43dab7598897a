//! What the program answers to a whole input.
ghost use Rattle.std.specs.Prelude.{IsSome, IfSome, IfOk, ◌↔◌, ◌≡◌, ◌≢◌, ◌<◌, ◌⊎◌, ℕ, [], length, take, string_bytes};
ghost use Rattle.std.specs.Io.KnownBytes.{Appends};
ghost use Rattle.whips_io.specs.Counts.{HasRisen};
ghost use Rattle.whips_facts.specs.Values.{IsValidScript};
ghost use Rattle.whips_run.specs.Answer.{answer, run_of_script, run_status, report_of, refusal_text};
ghost use Rattle.whips_world.specs.Runs.{EndsWith};
ghost use Rattle.whips_run.specs.Outcome.{HasLeft, MeetsHeadline};

use crate::Ended;
use crate::runs::write_report;
use crate::writing::end_with;
use std::alloc::Global;
use std::fmt::Write;
use whips_io::Sink;
use whips_rel::NoMemory;
use whips_report::RecordErr;
use whips_script_reading::{ReadErr, Refusal, Script, read_script};

/// The text of a refusal.
fn refusal_text(alloc: Global, refusal: &Refusal) -> Result<String, NoMemory>
    ensures { IfOk result (λ text. string_bytes text ≡ refusal_text refusal.now) }
{
    let place = refusal.place_text(alloc)?;
    let code = refusal.code().word();
    let mut text = String::new(alloc);
    write!(text, "refused {code} {}\n", place.as_str())?;
    Ok(text)
}

/// Writes the refusal, and gives the status.
pub(crate) fn answer_refusal<O: Sink>(alloc: Global, refusal: &Refusal, output: &mut O) -> u8
    ensures ended { result ≢ 5 → result ≢ 6 → (result ≡ 3)
        × Appends (O.written output.old) (O.written output.new) (refusal_text refusal.now) }
    ensures sink_failed { result ≡ 5 → (n : ℕ) × (n < length (refusal_text refusal.now))
        × Appends (O.written output.old) (O.written output.new)
        (take n (refusal_text refusal.now))
        × HasRisen (O.faults output.old) (O.faults output.new) }
    ensures no_memory { result ≡ 6
        → Appends (O.written output.old) (O.written output.new) [] }
{
    match refusal_text(alloc, refusal) {
        Ok(text) => end_with(3, text.as_str(), output),
        Err(NoMemory) => 6,
    }
}

/// Runs the script, writes its report, and gives the status with what the run left.
fn answer_script<O: Sink>(alloc: Global, script: Script, output: &mut O) -> Ended
    ensures ended { result.status ≢ 5 → result.status ≢ 6
        → (result.status ≡ run_status (run_of_script script))
        × Appends (O.written output.old) (O.written output.new) (report_of script) }
    ensures sink_failed { result.status ≡ 5 → (n : ℕ) × (n < length (report_of script))
        × Appends (O.written output.old) (O.written output.new) (take n (report_of script))
        × HasRisen (O.faults output.old) (O.faults output.new) }
    ensures no_memory { result.status ≡ 6 → (n : ℕ)
        × Appends (O.written output.old) (O.written output.new) (take n (report_of script)) }
    ensures valid { result.status ≢ 5 → result.status ≢ 6 → IsValidScript script.script }
    ensures ran { IsSome result.ran ↔ (result.status ≡ 0) ⊎ (result.status ≡ 7) }
    ensures left { IfSome result.ran (λ ran. EndsWith script.script script.plan
        ran.sources.items ran.store) }
{
    match write_report(alloc, script, output) {
        Ok(ran) => Ended {
            status: if ran.is_full { 7 } else { 0 },
            ran: Some(ran),
        },
        Err(RecordErr::Failed) => Ended::with(5),
        Err(RecordErr::NoMemory) => Ended::with(6),
    }
}

/// Answers a whole input on the output, and gives the status with what the run left.
pub(crate) fn answer_to<O: Sink>(alloc: Global, bytes: Vec<u8>, output: &mut O) -> Ended
    ensures ended { result.status ≢ 5 → result.status ≢ 6
        → (result.status ≡ (answer bytes.items).0)
        × Appends (O.written output.old) (O.written output.new) (answer bytes.items).1 }
    ensures sink_failed { result.status ≡ 5 → (n : ℕ) × (n < length (answer bytes.items).1)
        × Appends (O.written output.old) (O.written output.new) (take n (answer bytes.items).1)
        × HasRisen (O.faults output.old) (O.faults output.new) }
    ensures no_memory { result.status ≡ 6 → (n : ℕ)
        × Appends (O.written output.old) (O.written output.new) (take n (answer bytes.items).1) }
    ensures headline { (result.status ≡ 0) ⊎ (result.status ≡ 7)
        → MeetsHeadline bytes.items (O.written output.old) (O.written output.new) }
    ensures ran { IsSome result.ran ↔ (result.status ≡ 0) ⊎ (result.status ≡ 7) }
    ensures left { IfSome result.ran (λ ran. HasLeft bytes.items ran.sources.items ran.store) }
{
    match read_script(alloc, &bytes) {
        Ok(script) => {
            drop(bytes);
            answer_script(alloc, script, output)
        }
        Err(ReadErr::Refused(refusal)) => Ended::with(answer_refusal(alloc, &refusal, output)),
        Err(ReadErr::NoMemory) => Ended::with(6),
    }
}
