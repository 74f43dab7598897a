//! The commands.
ghost use Rattle.std.specs.Prelude.{◌≡◌, ◌≤◌, ℕ, Some, map, string_bytes};
ghost use Rattle.whips_run.specs.declared.commands.Command.TheVariants.{Make};
ghost use Rattle.whips_run.specs.Commands.{start_of, command_of};

use whips_plan_reading::decimal_within;

/// The largest size of a made script.
const LARGEST: u32 = 4_096;

/// What the words of a call ask for.
#[derive(Clone, Copy)]
pub enum Command {
    /// To run the script that the input is, and to write its report.
    Run,
    /// To read the script that the input is, and to write its canonical text.
    Check,
    /// To make a script and to run it, and to write the summary of the run.
    Make {
        /// What the picking of updates and events starts from.
        start: u32,
        /// How many updates are made, 1 to 4,096.
        size: u32,
    },
}

/// The start number that the word is.
fn start_of(word: &str) -> Option<u32>
    ensures { result ≡ start_of word.now }
{
    if word == "0" {
        return Some(0);
    }
    decimal_within(word, 1, u32::MAX)
}

/// The command that the words are.
pub(crate) fn command_of(words: &[String]) -> Option<Command>
    ensures command { result ≡ command_of (map string_bytes words.now) }
    ensures small { (start size : ℕ) → result ≡ Some (Make start size) → size ≤ LARGEST }
{
    match words {
        [word] if word.as_str() == "run" => Some(Command::Run),
        [word] if word.as_str() == "check" => Some(Command::Check),
        [word, start, size] if word.as_str() == "make" => {
            let start = start_of(start.as_str())?;
            let size = decimal_within(size.as_str(), 1, LARGEST)?;
            Some(Command::Make { start, size })
        }
        _ => None,
    }
}
