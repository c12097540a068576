//! Checkpoints: a saved process, and its bytes.
//!
//! [`Saved`] is what a process needs to come back as it was when it was saved: its number, the
//! number of processes, its state, the senders of the messages that it had received, and for each
//! destination the messages that it kept. Its type keeps every field in the format's range.
//! [`Saved::of`] takes it from receipts and a log. [`Saved::restore`] makes receipts and a log of
//! it again; that log knows no RSNs.
//!
//! A checkpoint has two forms: in `SBC1` each payload has 64 bytes, in `SBC2` each comes after its
//! length. [`encode`] writes the second form, [`decode`] reads both, and [`migrate`] turns either
//! into the second.
//!
//! `decode` reads exactly the bytes that are the checkpoint of a saved process in one of the forms,
//! and no bytes are the checkpoint of two. It refuses any others by the first fault from left to
//! right. So what `encode` wrote is read back.
//!
//! ```
//! let saved = Saved::of(alloc, 1, 2, &state, &receipts, &log)?;
//! let bytes = encode(alloc, &saved)?;
//! let (receipts, log) = decode(alloc, &bytes)?.restore(alloc)?;
//! ```
#![tactic(auto)]

mod fault;
mod fields;
mod form;
mod kept;
mod laws;
mod migration;
mod payloads;
mod reader;
mod saved;
mod stored;
mod writer;

pub use fault::{SavedError, SavedFault};
pub use laws::{one_checkpoint, there_and_back, too_long, too_short};
pub use migration::migrate;
pub use reader::decode;
pub use saved::Saved;
pub use stored::Stored;
pub use writer::encode;
