//! Runs of a scenario's inputs by workers.
//!
//! [`live`] opens a session and runs workers on it, who hand in the messages of the scenario. Its promise: it writes the trace
//! and the report of a legal journal of the given images, whose entries are calls that workers may make; as many workers ended
//! as were asked for, each within its budget, and the journal has one entry for each of their accepted calls; if memory runs
//! out, nothing is written.
#![tactic(auto)]

mod ended;
mod feeds;
mod run;

pub use ended::Ended;
pub use run::live;
