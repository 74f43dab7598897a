// The top call.
ghost use Rattle.std.specs.Prelude.{IsSome, IfSome, None, Some, ◌↔◌, ◌≡◌, ◌≢◌, ◌<◌, ◌⊎◌, ℕ, List, [], length, map, take, string_bytes};
ghost use Rattle.std.specs.Io.KnownBytes.{Appends, Consumes, IsAtEnd};
ghost use Rattle.whips_io.specs.Counts.{HasRisen};
ghost use Rattle.whips_run.specs.declared.commands.Command.TheVariants.{Run, Check};
ghost use Rattle.whips_run.specs.Commands.{command_of};
ghost use Rattle.whips_run.specs.Outcome.{Outcome, IsOutcome, status_of, text_of, DoneMeetsHeadline, HasRun, IsLeftBy};

use crate::answers::answer_to;
use crate::checks::answer_check;
use crate::commands::{Command, command_of};
use crate::made::answer_make;
use crate::writing::end_with;
use std::alloc::Global;
use whips_io::{ReadErr, Sink, Source, read_all};
use whips_plain::Plain;
use whips_source::Held;
use whips_world::Ran;

/// The most bytes that an input has.
const LIMIT: usize = 16_777_216;

/// How a run ended.
#[derive(Drop)]
pub struct Ended {
    /// The status with which the program ends:
    ///
    /// - 0: all was done and written
    /// - 2: the words are no command
    /// - 3: the script is refused
    /// - 4: the source failed
    /// - 5: the sink failed
    /// - 6: there was no memory
    /// - 7: a view has too few slots, which ended the run
    /// - 8: the input is longer than 16,777,216 bytes
    pub status: u8,
    /// The sources and the store that a run left, exactly with 0 and 7.
    pub ran: Option<Ran<Held, Plain>>,
}

impl Ended {
    /// Such a status, of a call that ran no script.
    pub(crate) fn with(status: u8) -> Ended
        ensures { result ≡ record { status = status; ran = None } }
    {
        Ended { status, ran: None }
    }
}

/// Runs the script that the input is, and writes the report of the run.
fn run_input<I: Source, O: Sink>(alloc: Global, input: &mut I, output: &mut O) -> Ended
    ensures ended { result.status ≢ 5 → result.status ≢ 6 → (o : Outcome)
        × IsOutcome (Some Run) (I.left input.old) (I.left input.new)
        (I.faults input.old) (I.faults input.new) o
        × (result.status ≡ status_of o) × Appends (O.written output.old) (O.written output.new)
        (text_of o) }
    ensures sink_failed { result.status ≡ 5 → (o : Outcome) × (n : ℕ)
        × IsOutcome (Some Run) (I.left input.old) (I.left input.new)
        (I.faults input.old) (I.faults input.new) o
        × (n < length (text_of o)) × Appends (O.written output.old) (O.written output.new)
        (take n (text_of o))
        × HasRisen (O.faults output.old) (O.faults output.new) }
    ensures no_memory { result.status ≡ 6
        → Appends (O.written output.old) (O.written output.new) []
        ⊎ ((o : Outcome) × (n : ℕ)
        × IsOutcome (Some Run) (I.left input.old) (I.left input.new)
        (I.faults input.old) (I.faults input.new) o
        × Appends (O.written output.old) (O.written output.new) (take n (text_of o))) }
    ensures headline { (result.status ≡ 0) ⊎ (result.status ≡ 7)
        → DoneMeetsHeadline (Some Run) (I.left input.old) (I.left input.new)
        (O.written output.old) (O.written output.new) }
    ensures ran { IsSome result.ran ↔ (result.status ≡ 0) ⊎ (result.status ≡ 7) }
    ensures left { IfSome result.ran (λ ran. IsLeftBy (Some Run) (I.left input.old)
        (I.left input.new) ran.sources.items ran.store) }
{
    match read_all(alloc, input, LIMIT) {
        Ok(bytes) => answer_to(alloc, bytes, output),
        Err(ReadErr::ReadFault) => Ended::with(end_with(4, "read fault\n", output)),
        Err(ReadErr::TooLong) => Ended::with(end_with(8, "too long\n", output)),
        Err(ReadErr::NoMemory) => Ended::with(6),
    }
}

/// Reads the script that the input is, and writes its canonical text.
fn check_input<I: Source, O: Sink>(alloc: Global, input: &mut I, output: &mut O) -> Ended
    ensures ended { result.status ≢ 5 → result.status ≢ 6 → (o : Outcome)
        × IsOutcome (Some Check) (I.left input.old) (I.left input.new)
        (I.faults input.old) (I.faults input.new) o
        × (result.status ≡ status_of o) × Appends (O.written output.old) (O.written output.new)
        (text_of o) }
    ensures sink_failed { result.status ≡ 5 → (o : Outcome) × (n : ℕ)
        × IsOutcome (Some Check) (I.left input.old) (I.left input.new)
        (I.faults input.old) (I.faults input.new) o
        × (n < length (text_of o)) × Appends (O.written output.old) (O.written output.new)
        (take n (text_of o))
        × HasRisen (O.faults output.old) (O.faults output.new) }
    ensures no_memory { result.status ≡ 6
        → Appends (O.written output.old) (O.written output.new) [] }
    ensures headline { (result.status ≡ 0) ⊎ (result.status ≡ 7)
        → DoneMeetsHeadline (Some Check) (I.left input.old) (I.left input.new)
        (O.written output.old) (O.written output.new) }
    ensures ran { result.ran ≡ None }
{
    match read_all(alloc, input, LIMIT) {
        Ok(bytes) => Ended::with(answer_check(alloc, bytes, output)),
        Err(ReadErr::ReadFault) => Ended::with(end_with(4, "read fault\n", output)),
        Err(ReadErr::TooLong) => Ended::with(end_with(8, "too long\n", output)),
        Err(ReadErr::NoMemory) => Ended::with(6),
    }
}

/// Does what the words say. With the one word `run` it reads a script from the input, runs it, and writes the report of
/// the run, a record at a time: each committed version with its cut, all that sessions read, and the views at the end.
/// With `check` it reads a script from the input and writes its canonical text. With `make`, a start number and a size it reads nothing, and writes the summary of the run of the script that these
/// numbers make.
pub fn run<I: Source, O: Sink>(
    alloc: Global,
    words: &Vec<String>,
    input: &mut I,
    output: &mut O,
) -> Ended
    // The call ends as its words and its input say, and has written that text.
    ensures ended { result.status ≢ 5 → result.status ≢ 6 → (o : Outcome)
        × IsOutcome (command_of (map string_bytes words.now.items)) (I.left input.old)
        (I.left input.new) (I.faults input.old) (I.faults input.new) o
        × (result.status ≡ status_of o) × Appends (O.written output.old) (O.written output.new)
        (text_of o) }

    // The sink failed, and has taken a part of that text.
    ensures sink_failed { result.status ≡ 5 → (o : Outcome) × (n : ℕ)
        × IsOutcome (command_of (map string_bytes words.now.items)) (I.left input.old)
        (I.left input.new) (I.faults input.old) (I.faults input.new) o
        × (n < length (text_of o)) × Appends (O.written output.old) (O.written output.new)
        (take n (text_of o))
        × HasRisen (O.faults output.old) (O.faults output.new) }

    // There was no memory. Nothing is written, or a first part of that text.
    ensures no_memory { result.status ≡ 6
        → Appends (O.written output.old) (O.written output.new) []
        ⊎ ((o : Outcome) × (n : ℕ)
        × IsOutcome (command_of (map string_bytes words.now.items)) (I.left input.old)
        (I.left input.new) (I.faults input.old) (I.faults input.new) o
        × Appends (O.written output.old) (O.written output.new) (take n (text_of o))) }

    // With status 0 or 7 a run is done: of the whole input, which is a script, and what is written is its report, which
    // meets the headline; or of a made script, and what is written is the summary of a report that meets it. Or the
    // whole input is a script that is checked, and what is written is its canonical text.
    ensures headline { (result.status ≡ 0) ⊎ (result.status ≡ 7)
        → DoneMeetsHeadline (command_of (map string_bytes words.now.items)) (I.left input.old)
        (I.left input.new) (O.written output.old) (O.written output.new) }

    // Exactly where a run is done it hands back what that run left.
    ensures ran { IsSome result.ran
        ↔ HasRun (command_of (map string_bytes words.now.items)) result.status }
    ensures left { IfSome result.ran (λ ran. IsLeftBy
        (command_of (map string_bytes words.now.items)) (I.left input.old) (I.left input.new)
        ran.sources.items ran.store) }
{
    match command_of(words) {
        Some(Command::Run) => run_input(alloc, input, output),
        Some(Command::Check) => check_input(alloc, input, output),
        Some(Command::Make { start, size }) => answer_make(alloc, start, size, output),
        None => Ended::with(end_with(2, "usage: whips run, check or make START SIZE\n", output)),
    }
}
