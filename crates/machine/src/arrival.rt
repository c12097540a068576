//! What an arriving packet did, and what a finished job gave.

ghost use Rattle.std.specs.Prelude.{◌≡◌, ℕ};
ghost use Rattle.machine.specs.Arrival.{answer_by, finished_of};

use replay::Invocation;
use world::Answer;

/// What an arriving message starts. It has the serial number of its job.
pub trait Serial {
    ghost number: { Self → ℕ };

    /// The job's number, from 1, among the jobs that the session started.
    fn serial(&self) -> u32
        ensures { result ≡ number self.now };
}

impl Serial for Invocation {
    ghost number = { λ task. task.serial };

    fn serial(&self) -> u32 {
        self.task().serial()
    }
}

/// What an arriving packet did.
#[derive(Drop)]
pub enum Arrival<J: Drop> {
    /// The message is the next of its sender, and opened this job.
    Started(J),
    /// The process already has the message. This is the key of the packet that tells its number
    /// again.
    Duplicate(usize),
    /// An earlier message of the same sender is missing.
    Early,
    /// The outside was shown this output, by its SSN.
    Shown(u32),
    /// The outside was already shown this output.
    ShownBefore,
    /// The number is recorded. This is the key of the packet that acknowledges it.
    Numbered(usize),
    /// The number is acknowledged, and the sends that waited for it are released.
    Acknowledged,
    /// The number or acknowledgement is of an earlier incarnation, or of no logged message.
    Stale,
    /// The receiver isn't up.
    Unreachable,
}

impl<J: Serial + Drop> Arrival<J> {
    /// The answer that a journal keeps. Of a job that is its serial number only.
    pub fn answer(&self) -> Answer
        ensures { result ≡ answer_by J.number self.now }
    {
        match self {
            Arrival::Started(job) => Answer::Started(job.serial()),
            Arrival::Duplicate(key) => Answer::Duplicate(*key),
            Arrival::Early => Answer::Early,
            Arrival::Shown(ssn) => Answer::Shown(*ssn),
            Arrival::ShownBefore => Answer::ShownBefore,
            Arrival::Numbered(key) => Answer::Numbered(*key),
            Arrival::Acknowledged => Answer::Acknowledged,
            Arrival::Stale => Answer::Stale,
            Arrival::Unreachable => Answer::Unreachable,
        }
    }
}

/// What a finished job did.
#[derive(Clone, Copy, PartialEq, Eq, Debug)]
pub enum Finished {
    /// The message is received: its RSN, and the key of the packet that tells it.
    Committed { rsn: u32, key: usize },
    /// The message with this RSN is replayed.
    Replayed(u32),
}

impl Finished {
    /// The answer that a journal keeps.
    pub fn answer(self) -> Answer
        ensures { result ≡ finished_of self }
    {
        match self {
            Finished::Committed { rsn, key } => Answer::Committed { rsn, key },
            Finished::Replayed(rsn) => Answer::Replayed(rsn),
        }
    }
}
