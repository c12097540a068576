//! The rules of the verifier.

use thiserror::Error;

/// A rule that an instruction can break. A refusal names the least one.
#[derive(Clone, Copy, Debug, PartialEq, Eq, Error)]
pub enum Rule {
    /// A jump doesn't lead to an instruction that begins at a later slot.
    #[error("a jump's target is no instruction of a later slot")]
    V1,
    /// The end of the image follows.
    #[error("nothing follows the last instruction")]
    V2,
    /// A register that is not set is read.
    #[error("a register is read that is unset")]
    V3,
    /// r10 is written.
    #[error("r10 is written")]
    V4,
    /// A place is read as a number, or a number is the base of a load or store.
    #[error("a place is read where a number is wanted, or a number is the base of a load or store")]
    V5,
    /// A load or store leaves its region, or a place is moved so far that 16 bits and a sign can't hold its distance.
    #[error("an access does not lie in its region, or a place is moved too far")]
    V6,
    /// The message is written.
    #[error("a store goes through a place of the message")]
    V7,
    /// No helper of the image's form has this number.
    #[error("the image's form has no helper of this number")]
    V8,
    /// A helper's argument isn't what the helper takes: a number, the place of 64 bytes, or a place with a length.
    #[error("a helper's argument is not what it wants")]
    V9,
    /// r0 isn't a number at the end.
    #[error("r0 is not a number at EXIT")]
    V10,
}

impl Rule {
    ghost use Rattle.std.specs.Prelude.{◌≡◌};
    ghost use Rattle.regtypes.specs.Rules.{rule_number};

    /// Its number: 3 for V3.
    pub fn number(self) -> u8
        ensures { result ≡ rule_number self }
    {
        match self {
            Rule::V1 => 1,
            Rule::V2 => 2,
            Rule::V3 => 3,
            Rule::V4 => 4,
            Rule::V5 => 5,
            Rule::V6 => 6,
            Rule::V7 => 7,
            Rule::V8 => 8,
            Rule::V9 => 9,
            Rule::V10 => 10,
        }
    }
}
