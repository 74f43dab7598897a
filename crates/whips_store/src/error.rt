//! Why a transaction didn't begin.
ghost use Rattle.std.specs.Prelude.{◌≡◌};
ghost use Rattle.whips_store.specs.declared.error.StoreErr.TheVariants.{NoMemory as OutOfMemory};

use std::alloc::{AllocError, AllocFailed};
use whips_rel::NoMemory;

/// Why a transaction didn't begin.
#[derive(Clone, Copy, Debug, PartialEq, Eq)]
pub enum StoreErr {
    /// A view needs more slots than it has.
    Full {
        /// The number of the view.
        view: u32,
        /// How many keys its rows have at the versions in use and afterwards, together.
        need: u64,
        /// How many slots it has.
        have: u64,
    },
    /// There was no memory for the call.
    NoMemory,
}

impl From<NoMemory> for StoreErr {
    ghost from_gives = { λ _ e. e ≡ OutOfMemory };

    fn from(_error: NoMemory) -> StoreErr {
        StoreErr::NoMemory
    }
}

impl From<AllocError> for StoreErr {
    ghost from_gives = { λ _ e. e ≡ OutOfMemory };

    fn from(_error: AllocError) -> StoreErr {
        StoreErr::NoMemory
    }
}

impl<T: Drop> From<AllocFailed<T>> for StoreErr {
    ghost from_gives = { λ _ e. e ≡ OutOfMemory };

    fn from(_error: AllocFailed<T>) -> StoreErr {
        StoreErr::NoMemory
    }
}
