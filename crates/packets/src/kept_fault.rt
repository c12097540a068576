//! Why bytes are not the kept state of a process.

ghost use Rattle.std.specs.Prelude.{◌≡◌};
ghost use Rattle.packets.specs.declared.kept_fault.KeptError.TheVariants.{Memory};

use std::alloc::AllocError;
use thiserror::Error;

/// The first fault of bytes that are not the kept state of a process, in the order of their
/// numbers.
#[derive(Clone, Copy, Debug, PartialEq, Eq, Error)]
pub enum KeptFault {
    /// 1: fewer than 20 bytes.
    #[error("fewer than 20 bytes")]
    Short = 1,
    /// 2: the first four bytes are not the magic.
    #[error("nothing that is kept of a process")]
    Magic = 2,
    /// 3: the last four bytes are not the checksum of the others.
    #[error("the checksum is wrong")]
    Checksum = 3,
    /// 4: the number of processes is out of range.
    #[error("the number of processes is out of range")]
    Count = 4,
    /// 5: the process is none of these.
    #[error("the process is none of these")]
    Own = 5,
    /// 6: the state is too long.
    #[error("the state is too long")]
    State = 6,
    /// 7: the fields end early or too late, or a payload is too long.
    #[error("the fields do not take just the bytes that are there")]
    Fields = 7,
    /// 8: a number is out of range, or the counts don't add up to the messages received.
    #[error("a field is out of range")]
    Range = 8,
}

impl KeptFault {
    ghost use Rattle.std.specs.Prelude.{◌≡◌};
    ghost use Rattle.packets.specs.KeptFaults.{kept_fault_number};

    /// Its number, 1 to 8.
    pub fn number(self) -> u8
        ensures { result ≡ kept_fault_number self }
    {
        self as u8
    }
}

/// Why the kept state of a process could not be read.
#[derive(Debug, Drop, PartialEq, Eq, Error)]
pub enum KeptError {
    /// Memory ran out.
    #[error("out of memory")]
    Memory,
    /// The bytes are not the kept state of a process.
    #[error("kept bytes: {0}")]
    Fault(KeptFault),
}

impl From<AllocError> for KeptError {
    ghost from_gives = { λ _ e. e ≡ Memory };

    fn from(_e: AllocError) -> KeptError {
        KeptError::Memory
    }
}
