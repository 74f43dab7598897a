//! The closure of a row of the painted table is the least set with its properties.
#![tactic(auto)]

ghost use Rattle.whips_closure_laws.specs.Closure.{ClosureIsLeast, NeedsAreEntries};

/// The closure of a row of the table is the least set that has the row and, with each of its rows,
/// each row of the table that this one needs.
pub fn closure_is_least()
    ensures { ClosureIsLeast }
{}

/// A row needs exactly the rows that one of its entries needs, and the earlier rows of its source.
pub fn needs_are_entries()
    ensures { NeedsAreEntries }
{}
