//! Why a setup or a workload isn't made.
ghost use Rattle.std.specs.Prelude.{◌≡◌};
ghost use Rattle.whips_setup.specs.declared.error.SetupErr.TheVariants.{NoMemory as SetupOutOfMemory};
ghost use Rattle.whips_setup.specs.declared.error.WorkErr.TheVariants.{NoMemory as WorkOutOfMemory};
ghost use Rattle.whips_setup.specs.declared.error.BatchErr.TheVariants.{NoMemory as BatchOutOfMemory};

use whips_rel::NoMemory;

/// Why a setup isn't made.
#[derive(Clone, Copy, Debug, PartialEq, Eq)]
pub enum SetupErr {
    /// A number or a list is outside its limits, or two of the lists don't fit each other.
    Limit,
    /// The initial value of the view of this number has more rows than the view has slots.
    Slots(u32),
    /// There was no memory for the setup.
    NoMemory,
}

impl From<NoMemory> for SetupErr {
    ghost from_gives = { λ _ e. e ≡ SetupOutOfMemory };

    fn from(_error: NoMemory) -> SetupErr {
        SetupErr::NoMemory
    }
}

/// Why transactions of one update are no workload.
#[derive(Clone, Copy, Debug, PartialEq, Eq)]
pub enum WorkErr {
    /// A list is outside its limits, or a number is too great.
    Limit,
    /// The relation of this update isn't there or is of another source: the source, and the update's place in its list,
    /// from 1.
    Foreign(u32, u64),
    /// The key of this insert is there when its turn comes.
    Present(u32, u64),
    /// The tuple of this delete isn't there when its turn comes.
    Absent(u32, u64),
    /// There was no memory for the workload.
    NoMemory,
}

impl From<NoMemory> for WorkErr {
    ghost from_gives = { λ _ e. e ≡ WorkOutOfMemory };

    fn from(_error: NoMemory) -> WorkErr {
        WorkErr::NoMemory
    }
}

/// Why transactions are no workload.
#[derive(Clone, Copy, Debug, PartialEq, Eq)]
pub enum BatchErr {
    /// A list is outside its limits, or a number is too great.
    Limit,
    /// The relation of this update isn't there or is of another source: the source, the place of the transaction in its
    /// list, and the update's place in the transaction, both from 1.
    Foreign(u32, u64, u32),
    /// The key of this insert is there when its turn comes.
    Present(u32, u64, u32),
    /// The tuple of this delete isn't there when its turn comes.
    Absent(u32, u64, u32),
    /// There was no memory for the workload.
    NoMemory,
}

impl From<NoMemory> for BatchErr {
    ghost from_gives = { λ _ e. e ≡ BatchOutOfMemory };

    fn from(_error: NoMemory) -> BatchErr {
        BatchErr::NoMemory
    }
}
