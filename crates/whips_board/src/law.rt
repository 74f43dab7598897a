//! Which stores a board allows.
ghost use Rattle.std.specs.Prelude.{ℕ, List};

/// Which stores are allowed on a board. It has no function: whoever stores proves that the store is allowed, and
/// nothing is tested when the program runs.
pub trait Law: Drop {
    // Whether a value may be stored, of the words as they are, the place and the value.
    ghost allows: { Self → List ℕ → ℕ → ℕ → Type 0 };
}
