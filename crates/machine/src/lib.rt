//! A session without its journal: the processes, the outside and the wire.
//!
//! A [`Machine`] has the parts of `session_process`, which keep bytes and forget histories. It
//! *stands for* the worlds that agree with these. Each call that it accepts is a step of every
//! world that it stands for, and afterwards it stands for the world after the step. A refusal
//! changes nothing and tells the least number whose cause holds there. The calls take `room`, the
//! free places of the journal, so that they can refuse for a full journal.
//!
//! ```text
//! let mut machine = Machine::open(alloc, lengths)?;
//! let ssn = machine.input(65_536, &feed)?;
//! ```
//!
//! | File | Methods of a machine |
//! |---|---|
//! | `machine` | `open`, and what reads it |
//! | `dispatch` | `cause` and `step` of any call, by the method of its name |
//! | `transmission` | `input`, `transmit`, `copy`, `lose` |
//! | `reception` | `arrive` |
//! | `jobs` | `finish`, `is_open`, `receiver_of` |
//! | `checkpoints` | `checkpoint`, `trim` |
//! | `recoveries` | `crash`, `recover`, `recover_alone` |
//! | `replays` | `replay_begin`, `resync` |
//! | `choice` | `pick` |
#![tactic(auto)]

mod arrival;
mod checkpoints;
mod choice;
mod dispatch;
mod jobs;
mod machine;
mod reception;
mod recoveries;
mod replays;
mod transmission;

pub use arrival::{Arrival, Finished, Serial};
pub use dispatch::Reply;
pub use machine::Machine;
pub use replay::{Completion, Invocation};
