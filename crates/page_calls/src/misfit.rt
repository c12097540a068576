//! Why a call is not answered.

ghost use Rattle.std.specs.Prelude.{◌≡◌};
ghost use Rattle.page_calls.specs.Calls.{code_of};
ghost use Rattle.page_calls.specs.declared.misfit.Misfit.TheVariants.{Memory};

use std::alloc::AllocError;

/// Why a call is not answered.
#[derive(Clone, Copy, Debug, PartialEq, Eq)]
pub enum Misfit {
    /// Bytes don't fit their lengths, words or names are no text, or there are more files than names or fewer.
    Shape,
    Memory,
    /// The buffer is too short for the answer.
    Room,
}

impl Misfit {
    /// Its code, above the program's statuses.
    pub fn number(self) -> u32
        ensures { result ≡ code_of self }
    {
        match self {
            Misfit::Shape => 16,
            Misfit::Memory => 17,
            Misfit::Room => 18,
        }
    }
}

impl From<AllocError> for Misfit {
    ghost from_gives = { λ _ e. e ≡ Memory };

    fn from(_e: AllocError) -> Misfit {
        Misfit::Memory
    }
}
