//! Why a snapshot wasn't made or renamed.
ghost use Rattle.std.specs.Prelude.{◌≡◌};

use hs_types::NoMemory;
use std::alloc::AllocFailed;

/// Why `Snaps::add` made no snapshot.
#[derive(Clone, Copy, Debug, PartialEq, Eq)]
pub enum AddFault {
    /// The directory has a snapshot of this name.
    Taken,
    /// The directory has as many snapshots as it may have.
    Full,
    NoMemory,
}

/// Why `Snaps::rename` left the name as it was.
#[derive(Clone, Copy, Debug, PartialEq, Eq)]
pub enum RenameFault {
    /// The directory has a snapshot of the new name, which may be the one that was to be renamed.
    Taken,
    /// The directory has no snapshot of the old name.
    Missing,
    NoMemory,
}

impl From<NoMemory> for AddFault {
    ghost use Rattle.snapshot_manager.specs.declared.fault.AddFault.TheVariants.{NoMemory as no_memory};

    ghost from_gives = { λ _ fault. fault ≡ no_memory };

    fn from(_error: NoMemory) -> AddFault {
        AddFault::NoMemory
    }
}

impl<T: Drop> From<AllocFailed<T>> for AddFault {
    ghost use Rattle.snapshot_manager.specs.declared.fault.AddFault.TheVariants.{NoMemory as no_memory};

    ghost from_gives = { λ _ fault. fault ≡ no_memory };

    fn from(_error: AllocFailed<T>) -> AddFault {
        AddFault::NoMemory
    }
}

impl From<NoMemory> for RenameFault {
    ghost use Rattle.snapshot_manager.specs.declared.fault.RenameFault.TheVariants.{NoMemory as no_memory};

    ghost from_gives = { λ _ fault. fault ≡ no_memory };

    fn from(_error: NoMemory) -> RenameFault {
        RenameFault::NoMemory
    }
}

impl<T: Drop> From<AllocFailed<T>> for RenameFault {
    ghost use Rattle.snapshot_manager.specs.declared.fault.RenameFault.TheVariants.{NoMemory as no_memory};

    ghost from_gives = { λ _ fault. fault ≡ no_memory };

    fn from(_error: AllocFailed<T>) -> RenameFault {
        RenameFault::NoMemory
    }
}
