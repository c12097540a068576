//! Why bytes were refused.

ghost use Rattle.std.specs.Prelude.{◌≡◌};
ghost use Rattle.decode.specs.Refusal.{rule_number};
ghost use Rattle.decode.specs.declared.fault.DecodeError.TheVariants.{Memory};

use std::alloc::{AllocError, AllocFailed};
use thiserror::Error;

/// What is wrong with the bytes of a slot, by number. Within a slot the order of tests is 2, 4, 7, 5, 6, 3.
#[derive(Clone, Copy, Debug, PartialEq, Eq, Error)]
pub enum EncodingRule {
    /// 1: the bytes are not whole slots.
    #[error("the length is no multiple of 8")]
    Length,
    /// 2: no instruction has this opcode.
    #[error("unknown opcode")]
    Opcode,
    /// 3: an unused field is not zero, in either slot of a wide instruction, or an offset names no form.
    #[error("an unused field is not zero, or an offset names no form")]
    Field,
    /// 4: a register field is above 10, used or not.
    #[error("register above r10")]
    Register,
    /// 5: a wide instruction lacks its second slot.
    #[error("wide instruction cut off")]
    Cut,
    /// 6: the width of a byte swap is not 16, 32 or 64.
    #[error("byte swap of a width other than 16, 32 and 64")]
    Width,
    /// 7: a call whose source is not 0, or a wide value that is no number. The standard has these; this crate leaves
    /// them out.
    #[error("form outside the profile")]
    Profile,
}

impl EncodingRule {
    /// The rule's number, 1 to 7.
    pub fn number(self) -> u8
        ensures { result ≡ rule_number self }
    {
        match self {
            EncodingRule::Length => 1,
            EncodingRule::Opcode => 2,
            EncodingRule::Field => 3,
            EncodingRule::Register => 4,
            EncodingRule::Cut => 5,
            EncodingRule::Width => 6,
            EncodingRule::Profile => 7,
        }
    }
}

/// Why `decode` gave no instructions.
#[derive(Debug, Drop, PartialEq, Eq, Error)]
pub enum DecodeError {
    /// Memory ran out.
    #[error("out of memory")]
    Memory,
    /// The bytes are refused.
    #[error("slot {slot}: {rule} (rule {})", .rule.number())]
    Fault {
        /// The first rule that the slot breaks.
        rule: EncodingRule,
        /// The first slot that breaks a rule, counted from 0.
        slot: usize,
    },
}

impl From<AllocError> for DecodeError {
    ghost from_gives = { λ _ e. e ≡ Memory };

    fn from(_e: AllocError) -> DecodeError {
        DecodeError::Memory
    }
}

impl<T: Drop> From<AllocFailed<T>> for DecodeError {
    ghost from_gives = { λ _ e. e ≡ Memory };

    fn from(_e: AllocFailed<T>) -> DecodeError {
        DecodeError::Memory
    }
}
