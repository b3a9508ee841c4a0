//! Faults of a record.
ghost use Rattle.std.specs.Prelude.{◌≡◌};
ghost use Rattle.plant_record.specs.Faults.{fault_of};
ghost use Rattle.plant_record.specs.declared.fault.Fault.TheVariants as fault;

use dom_base::NoMemory;
use dom_edge::{FolderError, WriteFailed};
use std::alloc::AllocError;

/// Why nothing more is written: a call of the folder failed, a write to a file failed, or memory ran out.
#[derive(Clone, Copy, Debug, PartialEq, Eq)]
pub enum Fault {
    Folder,
    Write,
    NoMemory,
}

impl From<NoMemory> for Fault {
    ghost from_gives = { λ _ e. e ≡ fault.NoMemory };

    fn from(_: NoMemory) -> Self {
        Fault::NoMemory
    }
}

impl From<AllocError> for Fault {
    ghost from_gives = { λ _ e. e ≡ fault.NoMemory };

    fn from(_: AllocError) -> Self {
        Fault::NoMemory
    }
}

impl From<WriteFailed> for Fault {
    ghost from_gives = { λ _ e. e ≡ fault.Write };

    fn from(_: WriteFailed) -> Self {
        Fault::Write
    }
}

impl From<FolderError> for Fault {
    ghost from_gives = { λ why e. e ≡ fault_of why };

    fn from(why: FolderError) -> Self {
        match why {
            FolderError::Failed => Fault::Folder,
            FolderError::NoMemory => Fault::NoMemory,
        }
    }
}
