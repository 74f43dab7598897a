//! The canonical text of a script, which is read as the same script.
#![tactic(auto)]

ghost use Rattle.std.specs.Prelude.{◌≡◌, ℕ, List, IfOk, Ok};
ghost use Rattle.whips_script_reading.specs.Script.{script_of};
ghost use Rattle.whips_script_writing.specs.Scripts.{canonical};
ghost use Rattle.whips_canonical_scripts.specs.Laws.{ScriptsAreReadAgain};

use std::alloc::Global;
use whips_rel::NoMemory;
use whips_script_reading::Script;
use whips_script_writing::canonical_text;

/// Law: the canonical text of a script that was read is read as the same script.
pub fn scripts_are_read_again()
    ensures { ScriptsAreReadAgain }
{}

/// The canonical text of a script, as bytes. Where the script was read from bytes, what is written is read as the same script.
pub fn write_script(alloc: Global, script: &Script) -> Result<Vec<u8>, NoMemory>
    ensures text { IfOk result (λ bytes. bytes.items ≡ canonical script.now) }
    ensures read { IfOk result (λ bytes. (input : List ℕ)
        → script_of input ≡ Ok script.now → script_of bytes.items ≡ Ok script.now) }
{
    let text = canonical_text(alloc, script)?;
    Ok(text.into_bytes())
}
