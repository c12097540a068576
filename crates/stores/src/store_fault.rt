//! Why bytes are not a store.

ghost use Rattle.std.specs.Prelude.{◌≡◌};
ghost use Rattle.stores.specs.declared.store_fault.StoreError.TheVariants.{Memory};

use std::alloc::AllocError;
use thiserror::Error;

/// The first fault of bytes that are not a store, in the order of their numbers.
#[derive(Clone, Copy, Debug, PartialEq, Eq, Error)]
pub enum StoreFault {
    /// 1: fewer than 16 bytes.
    #[error("fewer than 16 bytes")]
    Short = 1,
    /// 2: the first four bytes are not the magic.
    #[error("no store")]
    Magic = 2,
    /// 3: the last four bytes are not the checksum of the others.
    #[error("the checksum is wrong")]
    Checksum = 3,
    /// 4: the number of processes is out of range.
    #[error("the number of processes is out of range")]
    Count = 4,
    /// 5: the three bytes after it are not zeros.
    #[error("the three bytes behind the number of processes are not zeros")]
    Zeros = 5,
    /// 6: the fields end early or too late, or a payload is too long.
    #[error("the fields do not take just the bytes that are there")]
    Fields = 6,
    /// 7: a field is out of range.
    #[error("a field is out of range")]
    Range = 7,
}

impl StoreFault {
    ghost use Rattle.std.specs.Prelude.{◌≡◌};
    ghost use Rattle.stores.specs.Faults.{store_fault_number};

    /// Its number, 1 to 7.
    pub fn number(self) -> u8
        ensures { result ≡ store_fault_number self }
    {
        self as u8
    }
}

/// Why a store could not be read.
#[derive(Debug, Drop, PartialEq, Eq, Error)]
pub enum StoreError {
    /// Memory ran out.
    #[error("out of memory")]
    Memory,
    /// The bytes are not a store.
    #[error("store: {0}")]
    Fault(StoreFault),
}

impl From<AllocError> for StoreError {
    ghost from_gives = { λ _ e. e ≡ Memory };

    fn from(_e: AllocError) -> StoreError {
        StoreError::Memory
    }
}
