//! Why a text was refused.

ghost use Rattle.std.specs.Prelude.{◌≡◌};
ghost use Rattle.assemble.specs.Inside.Reads.{both_of};
ghost use Rattle.assemble.specs.Refusal.{rule_number};
ghost use Rattle.assemble.specs.declared.fault.AsmError.TheVariants.{Memory};

use std::alloc::{AllocError, AllocFailed};
use thiserror::Error;

/// Why an operand could not be read.
#[derive(Clone, Copy, Debug, PartialEq, Eq)]
pub enum TextFault {
    /// It has the wrong shape.
    Shape,
    /// It is a number that is out of range.
    Range,
}

/// Both values, or the lesser of the faults.
pub fn both<A: Copy, B: Copy>(
    left: Result<A, TextFault>,
    right: Result<B, TextFault>,
) -> Result<(A, B), TextFault>
    ensures { result ≡ both_of left right }
{
    match (left, right) {
        (Ok(a), Ok(b)) => Ok((a, b)),
        (Err(TextFault::Range), Err(fault)) => Err(fault),
        (Err(fault), _) => Err(fault),
        (_, Err(fault)) => Err(fault),
    }
}

/// What is wrong with a line, by number. Each rule refuses all that the one before it refuses, and more.
#[derive(Clone, Copy, Debug, PartialEq, Eq, Error)]
pub enum TextRule {
    /// 1: no instruction has this word.
    #[error("unknown word")]
    Word,
    /// 2: the operands do not have the word's shape.
    #[error("operands not of the word's shape")]
    Shape,
    /// 3: a number is out of range.
    #[error("number out of range")]
    Range,
    /// 4: with this line there are more than 1,024 slots.
    #[error("more than 1024 slots")]
    Limit,
}

impl TextRule {
    /// The rule's number, 1 to 4.
    pub fn number(self) -> u8
        ensures { result ≡ rule_number self }
    {
        match self {
            TextRule::Word => 1,
            TextRule::Shape => 2,
            TextRule::Range => 3,
            TextRule::Limit => 4,
        }
    }
}

/// Why `assemble` gave no instructions.
#[derive(Debug, Drop, PartialEq, Eq, Error)]
pub enum AsmError {
    /// Memory ran out.
    #[error("out of memory")]
    Memory,
    /// The text is refused.
    #[error("line {line}: {rule} (rule {})", .rule.number())]
    Fault {
        /// The least rule that the line breaks.
        rule: TextRule,
        /// The first faulty line, counted from 1.
        line: usize,
    },
}

impl From<AllocError> for AsmError {
    ghost from_gives = { λ _ e. e ≡ Memory };

    fn from(_e: AllocError) -> AsmError {
        AsmError::Memory
    }
}

impl<T: Drop> From<AllocFailed<T>> for AsmError {
    ghost from_gives = { λ _ e. e ≡ Memory };

    fn from(_e: AllocFailed<T>) -> AsmError {
        AsmError::Memory
    }
}
