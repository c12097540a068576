//! Why bytes are not a packet.

ghost use Rattle.std.specs.Prelude.{◌≡◌};
ghost use Rattle.packets.specs.declared.fault.PacketError.TheVariants.{Memory};

use std::alloc::AllocError;
use thiserror::Error;

/// The first fault of bytes that are not a packet, in the order of their numbers.
#[derive(Clone, Copy, Debug, PartialEq, Eq, Error)]
pub enum PacketFault {
    /// 1: fewer than 12 bytes.
    #[error("fewer than 12 bytes")]
    Short = 1,
    /// 2: the first four bytes are not the magic.
    #[error("no packet")]
    Magic = 2,
    /// 3: the last four bytes are not the checksum of the others.
    #[error("the checksum is wrong")]
    Checksum = 3,
    /// 4: no packet has this kind.
    #[error("no kind of packet")]
    Kind = 4,
    /// 5: the number of processes is out of range.
    #[error("the number of processes is out of range")]
    Count = 5,
    /// 6: it isn't from one node to another.
    #[error("not from one node to another one")]
    Ends = 6,
    /// 7: the fields are not those of the kind, or a payload is too long.
    #[error("the fields do not take just the bytes that are there")]
    Fields = 7,
    /// 8: a field is out of range.
    #[error("a field is out of range")]
    Range = 8,
}

impl PacketFault {
    ghost use Rattle.std.specs.Prelude.{◌≡◌};
    ghost use Rattle.packets.specs.Faults.{fault_number};

    /// Its number, 1 to 8.
    pub fn number(self) -> u8
        ensures { result ≡ fault_number self }
    {
        self as u8
    }
}

/// Why a packet could not be read.
#[derive(Debug, Drop, PartialEq, Eq, Error)]
pub enum PacketError {
    /// Memory ran out.
    #[error("out of memory")]
    Memory,
    /// The bytes are not a packet.
    #[error("packet: {0}")]
    Fault(PacketFault),
}

impl From<AllocError> for PacketError {
    ghost from_gives = { λ _ e. e ≡ Memory };

    fn from(_e: AllocError) -> PacketError {
        PacketError::Memory
    }
}
