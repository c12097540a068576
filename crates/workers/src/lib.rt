//! Workers: many threads that share one session.
//!
//! One lock guards the session. A worker makes a call under it, runs the handler of a job without
//! it, and brings the result back under it. Each worker calls by its own seat, so each entry of the
//! journal tells who made the call. What a session's type keeps holds whenever the lock is free:
//! its journal is legal and leads to where it is, and each accepted call is one entry and is
//! counted by one seat. A worker knows what the lock guards only by [`Shared`]: each turn and each
//! result keeps the images and the earlier entries, and adds only calls that a worker may make. So
//! none of them is a crash. When all seats are handed in, the journal is as long as they have
//! answered together.
//!
//! No contract says that a worker makes progress: [`worker`] and [`run`] promise what holds if they
//! return.
//!
//! ```text
//! let closed = run(&rt, alloc, 4, session, &feeds, 10_000, &Open)?;
//! let entries = closed.session.journal().len();
//! ```
#![tactic(auto)]

mod end;
mod feed;
mod runs;
mod shared;
mod turn;
mod turnstile;
mod work;

pub use end::{Closed, close};
pub use feed::Item;
pub use runs::{RunError, run};
pub use sessions::{Done, End, Job, Share};
pub use shared::Shared;
pub use turn::Turn;
pub use turnstile::{Open, Turnstile};
pub use work::worker;
