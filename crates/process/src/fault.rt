//! Why a process doesn't open or come back, and why an answer isn't taken.

ghost use Rattle.std.specs.Prelude.{◌≡◌};
ghost use Rattle.process.specs.declared.fault.Undone.TheVariants.{Memory};

use packets::KeptFault;
use std::alloc::AllocError;
use thiserror::Error;

/// Why no process comes back from bytes, or opens with a state.
#[derive(Debug, Drop, Error)]
pub enum Unrevived {
    /// Memory ran out.
    #[error("out of memory")]
    Memory,
    /// The bytes are not the kept state of a process. This is fault 8 if they keep more messages
    /// than a process can have received or sent.
    #[error("kept bytes: {0}")]
    Kept(KeptFault),
    /// 9: the state is not as long as that of the image.
    #[error("the state is not as long as the image's")]
    State,
    /// The incarnation is 0, or doesn't fit.
    #[error("no incarnation")]
    Incarnation,
}

/// Why the answer of a handler call isn't taken.
#[derive(Debug, Drop, Error)]
pub enum Undone {
    /// Memory ran out.
    #[error("out of memory")]
    Memory,
    /// There is no message to run on.
    #[error("there is nothing to run on")]
    Absent,
    /// It is not the answer of the next call, but of an earlier one or of another incarnation.
    #[error("it is of another call")]
    Other,
    /// The state is not as long as that of the image.
    #[error("the state is not as long as the image's")]
    State,
}

impl From<AllocError> for Undone {
    ghost from_gives = { λ e u. u ≡ Memory };

    fn from(_: AllocError) -> Undone {
        Undone::Memory
    }
}
