//! The results of a session, as text: its trace and its report.
//!
//! [`push_results`] writes the text of `specs/Results.antt`. Its promise: the text follows from the names, the images and the
//! journal alone; only memory can run out, and then nothing is written. [`note_refused`] writes what helpers refused, for people:
//! no contract speaks of that. [`payload_of`] is the message of a number, as a run hands it in.
//!
//! ```text
//! push_results(alloc, &mut text, &scenario.processes, &session)?;
//! ```
#![tactic(auto)]

mod refused;
mod results;
mod word;

pub use refused::note_refused;
pub use results::push_results;
pub use word::payload_of;
