//! Why an edit of a relation failed.
ghost use Rattle.std.specs.Prelude.{◌≡◌};

use crate::{NoMemory, Tuple};

/// Why a tuple wasn't put in. It comes back.
#[derive(Drop)]
pub enum InsertErr {
    /// A row has its key.
    Present(Tuple),
    /// There was no memory for it.
    NoMemory(Tuple),
}

/// Why a row wasn't taken out.
#[derive(Clone, Copy, Debug, PartialEq, Eq)]
pub enum DeleteErr {
    /// No row has the key.
    Absent,
    /// There was no memory for it.
    NoMemory,
}

impl From<NoMemory> for DeleteErr {
    ghost use Rattle.whips_rel.specs.declared.error.DeleteErr.TheVariants.{NoMemory as OutOfMemory};

    ghost from_gives = { λ _ e. e ≡ OutOfMemory };

    fn from(_error: NoMemory) -> DeleteErr {
        DeleteErr::NoMemory
    }
}
