//! The gate that holds a process's sends until they may leave.
//!
//! A send that a process made while it worked on the message with RSN r may leave only when all
//! RSNs from 1 to r are acknowledged: r is its *position*. [`Gate`] holds sends by destination and
//! position, and counts how many were released to each destination. Positions never fall, so what
//! may leave is always at the front, and a release doesn't scan what stays. `hold` takes memory;
//! [`Gate::retract`] undoes it without.
//!
//! ```
//! let mut gate = Gate::new(alloc);
//! gate.hold(2, 1)?;
//! // once number 1 is acknowledged in receipts, gate.release(&receipts) is true,
//! // and gate.released(2) is 1
//! ```
#![tactic(auto)]

mod gate;

pub use gate::{Gate, Held};
