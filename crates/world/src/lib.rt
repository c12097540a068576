//! The model of a session: its calls, answers, refusals and world.
//!
//! A *world* says what every process received, what is recorded, acknowledged and released, and
//! what is on the wire. It holds no state of a process and no log: both follow from what was
//! received. Each call that a session accepts is a step of the world. A refused call gets the least
//! number whose cause holds. A *legal journal* is a list of such steps from the opening world.
//!
//! The definitions are in `specs/`: `World` and `Phases`, `Handlers`, `History`, `Logs`, `Plan`,
//! `Calls` (the world after a call), `Answers`, `Refusals`, `Useful` and `Legal`.
//!
//! The crate has the plain types that code shares, and no logic:
//!
//! ```text
//! Entry { worker: 0, call: Call::Transmit { from: 0, to: 1, ssn: 1 }, answer: Answer::Placed(0) }
//! ```
#![tactic(auto)]

mod answer;
mod call;
mod entry;
mod message;
mod packet;
mod phase;
mod refusal;
mod rows;

pub use answer::Answer;
pub use call::Call;
pub use entry::Entry;
pub use message::{Feed, Message};
pub use packet::Packet;
pub use phase::PhaseName;
pub use refusal::Refusal;
pub use rows::{
    first_run_is_released, lost_job_is_legal, lost_number_ends_the_run, lost_number_is_told_again,
    old_acknowledgement_is_stale, old_number_is_stale, one_message_is_legal,
    relayed_message_is_kept, replayed_message_is_kept, saved_message_is_kept,
    trimmed_log_comes_back, two_crashes_are_legal,
};
