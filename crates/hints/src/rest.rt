//! What is left to do after a run.

use world::Call;

/// What is left to do, the likeliest thing first.
#[derive(Clone, Copy, PartialEq, Eq, Debug)]
pub enum Rest {
    /// The process is down, and each other one is up.
    Down { process: u8 },
    /// The process is down, and the other one isn't up.
    DownBeside { process: u8, other: u8 },
    /// The process has an open job.
    Held { process: u8 },
    /// The call can be made.
    Next { call: Call },
    /// The call could be made if the journal weren't full.
    Full { call: Call },
    Nothing,
}
