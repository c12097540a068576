//! Why an object file was refused.

ghost use Rattle.std.specs.Prelude.{◌≡◌};
ghost use Rattle.elf.specs.Refusal.{fault_number};
ghost use Rattle.elf.specs.declared.fault.ObjectError.TheVariants.{Fault, Memory};

use std::alloc::{AllocError, AllocFailed};
use thiserror::Error;

/// What is wrong with an object file, or with the function that is asked for, by number.
#[derive(Clone, Copy, Debug, PartialEq, Eq, Error)]
pub enum ObjectFault {
    /// 1: no ELF file of 64 bits, version 1.
    #[error("not a 64-bit ELF file")]
    Kind,
    /// 2: numbers have their highest byte first.
    #[error("the highest byte comes first")]
    ByteOrder,
    /// 3: the code is not BPF's.
    #[error("compiled for processor {0}")]
    Processor(u16),
    /// 4: a program or a library, not an object file.
    #[error("linked already")]
    Linked,
    /// 5: a table or what it names lies outside of the file, or sections overlap.
    #[error("cut off")]
    Damaged,
    /// 6: no section of code has a function.
    #[error("no function")]
    NoFunction,
    /// 7: no function has the name that is asked for.
    #[error("no function of that name")]
    NoSuchFunction,
    /// 8: there are several, and no name is given.
    #[error("several functions")]
    Several,
    /// 9: the function's place leads out of its section.
    #[error("the function leads out of its section")]
    Outside,
    /// 10: this slot refers to a symbol, of this number in that table; it may be a call of it.
    #[error("slot {slot} refers to a symbol")]
    Reference {
        slot: usize,
        is_call: bool,
        table: usize,
        symbol: usize,
    },
    /// 11: this slot calls a function of the file.
    #[error("slot {slot} calls a function")]
    Call {
        slot: usize,
    },
    /// 12: the function has more than 1,024 slots.
    #[error("{slots} slots")]
    Slots {
        slots: usize,
    },
    /// 13: the state is longer than a state may be. Who packs the code finds this.
    #[error("a state of {length} bytes")]
    State {
        length: usize,
    },
}

impl ObjectFault {
    /// The number of the fault, 1 to 13.
    pub fn number(self) -> u8
        ensures { result ≡ fault_number self }
    {
        match self {
            ObjectFault::Kind => 1,
            ObjectFault::ByteOrder => 2,
            ObjectFault::Processor(_) => 3,
            ObjectFault::Linked => 4,
            ObjectFault::Damaged => 5,
            ObjectFault::NoFunction => 6,
            ObjectFault::NoSuchFunction => 7,
            ObjectFault::Several => 8,
            ObjectFault::Outside => 9,
            ObjectFault::Reference { .. } => 10,
            ObjectFault::Call { .. } => 11,
            ObjectFault::Slots { .. } => 12,
            ObjectFault::State { .. } => 13,
        }
    }
}

/// Why no function was read.
#[derive(Debug, Drop, PartialEq, Eq, Error)]
pub enum ObjectError {
    /// Memory ran out.
    #[error("out of memory")]
    Memory,
    /// The file is refused.
    #[error("{0}")]
    Fault(ObjectFault),
}

impl From<AllocError> for ObjectError {
    ghost from_gives = { λ _ e. e ≡ Memory };

    fn from(_e: AllocError) -> ObjectError {
        ObjectError::Memory
    }
}

impl<T: Drop> From<AllocFailed<T>> for ObjectError {
    ghost from_gives = { λ _ e. e ≡ Memory };

    fn from(_e: AllocFailed<T>) -> ObjectError {
        ObjectError::Memory
    }
}

impl From<ObjectFault> for ObjectError {
    ghost from_gives = { λ f e. e ≡ Fault f };

    fn from(fault: ObjectFault) -> ObjectError {
        ObjectError::Fault(fault)
    }
}
