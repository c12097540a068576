//! Why bytes are no checkpoint.

ghost use Rattle.std.specs.Prelude.{◌≡◌};
ghost use Rattle.checkpoint.specs.declared.fault.SavedError.TheVariants.{Memory};

use std::alloc::{AllocError, AllocFailed};
use thiserror::Error;

/// The first fault of bytes that are no checkpoint, in the order of reading.
#[derive(Clone, Copy, Debug, PartialEq, Eq, Error)]
pub enum SavedFault {
    /// 1: the first four bytes are the magic of neither form.
    #[error("no checkpoint")]
    Magic,
    /// 2: the bytes end before a field does, or bytes are left over.
    #[error("the length is not that of the fields")]
    Length,
    /// 3: a field is out of its range.
    #[error("a field is out of range")]
    Range,
}

impl SavedFault {
    ghost use Rattle.std.specs.Prelude.{◌≡◌};
    ghost use Rattle.checkpoint.specs.FaultNumbers.{fault_number};

    /// Its number, 1 to 3.
    pub fn number(self) -> u8
        ensures { result ≡ fault_number self }
    {
        match self {
            SavedFault::Magic => 1,
            SavedFault::Length => 2,
            SavedFault::Range => 3,
        }
    }
}

/// Why a checkpoint was not read.
#[derive(Debug, Drop, PartialEq, Eq, Error)]
pub enum SavedError {
    /// Memory ran out.
    #[error("out of memory")]
    Memory,
    /// The bytes are no checkpoint.
    #[error("checkpoint: {0}")]
    Fault(SavedFault),
}

impl From<AllocError> for SavedError {
    ghost from_gives = { λ _ e. e ≡ Memory };

    fn from(_e: AllocError) -> SavedError {
        SavedError::Memory
    }
}

impl<T: Drop> From<AllocFailed<T>> for SavedError {
    ghost from_gives = { λ _ e. e ≡ Memory };

    fn from(_e: AllocFailed<T>) -> SavedError {
        SavedError::Memory
    }
}
