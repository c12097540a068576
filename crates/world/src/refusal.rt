//! Why a call of a session is refused.

ghost use Rattle.std.specs.Prelude.{◌≡◌};
ghost use Rattle.world.specs.Refusals.{number_of};
ghost use Rattle.world.specs.declared.refusal.Refusal.TheVariants.{Memory};

use std::alloc::AllocError;
use thiserror::Error;

/// Why a call was refused. If several causes hold, the one with the least number is told.
#[derive(Clone, Copy, PartialEq, Eq, Debug, Error)]
pub enum Refusal {
    #[error("no such process")]
    NoSuchProcess,
    #[error("the process is not up")]
    NotUp,
    #[error("the process is busy")]
    Busy,
    #[error("no packet has this key")]
    NoPacket,
    #[error("a process is no peer of its own")]
    SameProcess,
    #[error("the message is not released")]
    NotReleased,
    #[error("the message is not logged")]
    NotLogged,
    #[error("another process is not up")]
    PeerNotUp,
    #[error("the result is not of the open job")]
    StaleJob,
    #[error("the process is not down")]
    NotDown,
    #[error("the process is in another phase")]
    WrongPhase,
    #[error("the journal is full")]
    JournalFull,
    #[error("the wire is full")]
    WireFull,
    #[error("the feed number is taken")]
    FeedTaken,
    #[error("out of memory")]
    Memory,
}

impl Refusal {
    /// Its number, 1 to 15: the table "Refusals of a session" of docs/FORMATS.md.
    pub fn number(self) -> u8
        ensures { result ≡ number_of self }
    {
        match self {
            Refusal::NoSuchProcess => 1,
            Refusal::NotUp => 2,
            Refusal::Busy => 3,
            Refusal::NoPacket => 4,
            Refusal::SameProcess => 5,
            Refusal::NotReleased => 6,
            Refusal::NotLogged => 7,
            Refusal::PeerNotUp => 8,
            Refusal::StaleJob => 9,
            Refusal::NotDown => 10,
            Refusal::WrongPhase => 11,
            Refusal::JournalFull => 12,
            Refusal::WireFull => 13,
            Refusal::FeedTaken => 14,
            Refusal::Memory => 15,
        }
    }
}

impl From<AllocError> for Refusal {
    ghost from_gives = { λ _ r. r ≡ Memory };

    fn from(_error: AllocError) -> Refusal {
        Refusal::Memory
    }
}
