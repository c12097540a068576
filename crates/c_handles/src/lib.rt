//! What the libraries for C have in common: boxes as pointers, the caller's buffers, and codes.
//!
//! Only plain types cross to C, and no generic one. So each library has handles of its own, and
//! this crate the work behind them. [`Loose`] is a box as a pointer, which a handle keeps until it
//! gives the box back. [`copy`] writes bytes into a buffer of the caller, or says how many there
//! are if the buffer is too short. [`code`] numbers a fault. The packets of a bundle are taken in
//! and given out one after another ([`bundle`], [`outbox`]).
//!
//! ```rust
//! let Loose { at, alloc } = Loose::of(gateway);
//! let gateway = Loose { at, alloc }.into_box();
//! code(copy(&bytes, out, size, GatewayFault::Room))
//! ```
#![tactic(auto)]

mod buffer;
pub mod bundle;
mod fault;
mod loose;
pub mod outbox;

pub use buffer::{copy, measure, write};
pub use fault::{Coded, code};
pub use loose::Loose;
