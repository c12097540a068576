//! Why changes were refused.

ghost use Rattle.std.specs.Prelude.{◌≡◌};
ghost use Rattle.stores.specs.declared.fault.ApplyError.TheVariants.{Memory};

use std::alloc::AllocError;
use thiserror::Error;

/// Why changes were not applied to a store.
#[derive(Debug, Drop, PartialEq, Eq, Error)]
pub enum ApplyError {
    /// Memory ran out.
    #[error("out of memory")]
    Memory,
    /// This change, counted from 0, doesn't fit the store after those before it.
    #[error("change {0} does not fit the store")]
    Unfit(usize),
}

impl From<AllocError> for ApplyError {
    ghost from_gives = { λ _ e. e ≡ Memory };

    fn from(_e: AllocError) -> ApplyError {
        ApplyError::Memory
    }
}
