//! Laws of every world that a legal journal leads to.
//!
//! The laws hold of any handlers that take back nothing that they sent (`sessions::handlers_grow`:
//! the handlers of images do) and of any legal journal. Whatever fails, the world is *sound*, *tidy*
//! and *gated* (`always_sound`, `always_tidy`, `always_gated`). If failures come one at a time, it
//! is also *exact* (`always_exact`), and the promises follow from that:
//!
//! - A recovery keeps the longest unbroken run of messages that checkpoint and logs held with their
//!   numbers, with the state that followed them (`recovers`, `run_is_kept`, `state_is_kept`, and in
//!   one sentence `recovers_exactly`).
//! - The history of its sender sends each message that was received or shown (`no_orphan`).
//! - Messages and outputs came in order, each once (`received_once`, `output_once`).
//!
//! Failures have to come one at a time: in the case of `overlapping_failures_lose` two overlap, and
//! both promises fail.
//!
//! The functions do nothing: each is there for its contract. The contracts of a session's calls
//! name the same statements.
//!
//! ```text
//! no_orphan();
//! ```
#![tactic(auto)]

mod invariants;
mod orphans;
mod overlap;
mod recovery;

pub use invariants::{always_exact, always_gated, always_sound, always_tidy};
pub use orphans::{no_orphan, output_once, received_once};
pub use overlap::overlapping_failures_lose;
pub use recovery::{recovers, recovers_exactly, run_is_kept, state_is_kept};
