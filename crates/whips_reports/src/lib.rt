//! The report of a run: its records with their rows, and their bytes. Definitions.
#![tactic(auto)]

ghost use Rattle.std.specs.Prelude.{◌≡◌, List, ◌++◌};
ghost use Rattle.whips_reports.specs.Lines.{text_of};
ghost use Rattle.whips_facts.specs.Scripts.{Bytes};

/// Law: the text of lines and further lines is the text of the first followed by that of the others.
pub fn texts_join()
    ensures { (lines more : List Bytes) → text_of (lines ++ more) ≡ text_of lines ++ text_of more }
{}
