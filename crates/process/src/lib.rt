//! One process of a cluster, as one value through all its stages, from its opening through crashes
//! and recoveries.
//!
//! A [`Member`] holds the image of its handler. It opens with a state of zeros ([`Member::open`]),
//! or with one that its host gives ([`Member::open_with`]). It is a node that is up, or it is
//! recovering: it collects what its peers' logs hold, replays that, and restores its RSNs. Its host
//! makes the same calls in each stage: it hands it the packets that arrive
//! ([`Member::receive_bytes`]), sends those that it gives ([`Member::take_bytes`]), has its handler
//! run ([`Member::work`]), now and then has it send again what isn't answered ([`Member::tick`]),
//! and keeps its checkpoints ([`Member::checkpoint`], [`Member::saved`]). It comes back from its
//! kept state by [`Member::revive`]. In place of [`Member::work`] a host may call the handler
//! itself: [`Member::job`] gives it the next call, and [`Member::done`] takes the answer.
//!
//! Each call does exactly what the call of its stage does. Then the process goes on to the next
//! stage if that one is over: when all peers have told all it recovers, when nothing is left to
//! replay it restores its RSNs, when all have answered it is up. A refusal changes nothing. If
//! memory is refused at the end of a stage, the process stays in it; each [`Member::tick`] tries
//! again, and says why if it still can't go on.
//!
//! ```text
//! let mut process = Member::revive(alloc, image, &kept, incarnation)?;
//! process.receive_bytes(alloc, &bytes)?;
//! while process.work(alloc)? {}
//! while let Some(bytes) = process.take_bytes(alloc)? {
//!     send(bytes);
//! }
//! ```
#![tactic(auto)]

mod call;
mod checkpoints;
mod done;
mod exchange;
mod fault;
mod job;
mod laws;
mod layout;
mod process;
mod queries;
mod suspension;
mod traffic;
mod work;

pub use call::{HandlerCall, HandlerTicket};
pub use done::FinishedCall;
pub use fault::{Undone, Unrevived};
pub use job::HandlerJob;
pub use laws::{covered_are_dropped, entries_are_given, saved_drops};
pub use process::Member;
pub use queries::{MOST_ENTRIES, MOST_STORED};
pub use recovery::{Cause, Lifecycle};
pub use suspension::ResumeError;
