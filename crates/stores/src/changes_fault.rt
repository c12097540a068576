//! Why bytes are not changes.

ghost use Rattle.std.specs.Prelude.{◌≡◌};
ghost use Rattle.stores.specs.declared.changes_fault.ChangesError.TheVariants.{Memory};

use std::alloc::AllocError;
use thiserror::Error;

/// Why changes could not be read.
#[derive(Debug, Drop, PartialEq, Eq, Error)]
pub enum ChangesError {
    /// Memory ran out.
    #[error("out of memory")]
    Memory,
    /// The bytes are not those of changes, one after another.
    #[error("the bytes are not those of changes")]
    Spelling,
}

impl From<AllocError> for ChangesError {
    ghost from_gives = { λ _ e. e ≡ Memory };

    fn from(_e: AllocError) -> ChangesError {
        ChangesError::Memory
    }
}
