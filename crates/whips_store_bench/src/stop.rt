//! Why a run stops.

use std::alloc::{AllocError, AllocFailed};
use whips_rel::{InsertErr, NoMemory};
use whips_setup::SetupErr;
use whips_store::StoreErr;
use whips_view::ViewErr;

/// Why a run stops.
#[derive(Clone, Copy, Debug, PartialEq, Eq)]
pub enum Stop {
    /// The view of this number needs so many slots and has so many.
    Full(u32, u64, u64),
    /// A setup or a transaction is refused.
    Refused,
    /// There was no memory.
    NoMemory,
}

impl From<NoMemory> for Stop {
    fn from(_error: NoMemory) -> Stop {
        Stop::NoMemory
    }
}

impl From<AllocError> for Stop {
    fn from(_error: AllocError) -> Stop {
        Stop::NoMemory
    }
}

impl<T: Drop> From<AllocFailed<T>> for Stop {
    fn from(_error: AllocFailed<T>) -> Stop {
        Stop::NoMemory
    }
}

impl From<InsertErr> for Stop {
    fn from(error: InsertErr) -> Stop {
        match error {
            InsertErr::Present(_) => Stop::Refused,
            InsertErr::NoMemory(_) => Stop::NoMemory,
        }
    }
}

impl From<ViewErr> for Stop {
    fn from(error: ViewErr) -> Stop {
        match error {
            ViewErr::NoMemory => Stop::NoMemory,
            _ => Stop::Refused,
        }
    }
}

impl From<SetupErr> for Stop {
    fn from(error: SetupErr) -> Stop {
        match error {
            SetupErr::NoMemory => Stop::NoMemory,
            SetupErr::Limit | SetupErr::Slots(_) => Stop::Refused,
        }
    }
}

impl From<StoreErr> for Stop {
    fn from(error: StoreErr) -> Stop {
        match error {
            StoreErr::Full { view, need, have } => Stop::Full(view, need, have),
            StoreErr::NoMemory => Stop::NoMemory,
        }
    }
}
