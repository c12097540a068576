//! Why code or a file is refused.

use thiserror::Error;

/// Why code is refused.
#[derive(Debug, Drop, PartialEq, Eq, Error)]
pub enum VerifyError {
    /// Memory ran out.
    #[error("out of memory")]
    Memory,
    /// The code breaks a rule.
    #[error("slot {slot} breaks {rule:?}: {rule}")]
    Fault {
        /// The least rule that the slot breaks.
        rule: regtypes::Rule,
        /// The first slot that breaks a rule, counted from 0.
        slot: usize,
    },
}

/// What is wrong with the first eight bytes of a file, or with its length, by number.
#[derive(Clone, Copy, Debug, PartialEq, Eq, Error)]
pub enum HeaderFault {
    /// 1: fewer than eight bytes.
    #[error("shorter than a header")]
    TooShort,
    /// 2: it begins as files of no form that the reader takes.
    #[error("no image file")]
    Magic,
    /// 3: the state has more than 1,024 bytes.
    #[error("state too long")]
    StateLength,
    /// 4: the code has no slot, or more than 1,024.
    #[error("no slots, or too many")]
    SlotCount,
    /// 5: the file's length isn't 8 bytes and 8 more for each slot.
    #[error("the length is not that of the slots")]
    FileLength,
}

impl HeaderFault {
    ghost use Rattle.std.specs.Prelude.{◌≡◌};
    ghost use Rattle.verifier.specs.FaultNumbers.{header_fault_number};

    /// Its number, 1 to 5.
    pub fn number(self) -> u8
        ensures { result ≡ header_fault_number self }
    {
        match self {
            HeaderFault::TooShort => 1,
            HeaderFault::Magic => 2,
            HeaderFault::StateLength => 3,
            HeaderFault::SlotCount => 4,
            HeaderFault::FileLength => 5,
        }
    }
}

/// Why a file is refused. The order of faults is header, code, rules of the verifier; the first is named.
#[derive(Debug, Drop, PartialEq, Eq, Error)]
pub enum ImageError {
    /// Memory ran out.
    #[error("out of memory")]
    Memory,
    /// The header has this fault, the first in the order of their numbers.
    #[error("header: {0}")]
    Header(HeaderFault),
    /// The code is no encoding.
    #[error("code at slot {slot}: {rule} (rule {})", .rule.number())]
    Decode {
        /// The first rule of the encoding that the slot breaks.
        rule: decode::EncodingRule,
        /// The first slot that breaks one, counted from 0.
        slot: usize,
    },
    /// The code isn't typable.
    #[error("slot {slot} breaks {rule:?}: {rule}")]
    Verify {
        /// The least rule that the slot breaks.
        rule: regtypes::Rule,
        /// The first slot that breaks one, counted from 0.
        slot: usize,
    },
}
