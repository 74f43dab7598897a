//! Why a run stops.

use std::alloc::{AllocError, AllocFailed};
use whips_rel::NoMemory;
use whips_setup::SetupErr;

/// Why a run doesn't come to its end.
#[derive(Drop)]
pub enum Stop {
    /// There was no memory.
    NoMemory,
    /// The view or the setup was refused.
    Refused,
}

impl Stop {
    /// The status of the program.
    pub fn status(&self) -> u8 {
        match self {
            Stop::NoMemory => 6,
            Stop::Refused => 3,
        }
    }
}

impl From<NoMemory> for Stop {
    fn from(_error: NoMemory) -> Stop {
        Stop::NoMemory
    }
}

impl From<AllocError> for Stop {
    fn from(_error: AllocError) -> Stop {
        Stop::NoMemory
    }
}

impl<T: Drop> From<AllocFailed<T>> for Stop {
    fn from(_error: AllocFailed<T>) -> Stop {
        Stop::NoMemory
    }
}

impl From<SetupErr> for Stop {
    fn from(error: SetupErr) -> Stop {
        match error {
            SetupErr::NoMemory => Stop::NoMemory,
            _ => Stop::Refused,
        }
    }
}
