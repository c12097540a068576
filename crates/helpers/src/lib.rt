//! What a handler asks of the runtime: messages to other processes, and outputs.
//!
//! A handler calls helpers by number. Helper 1 sends 64 bytes, helper 2 outputs 64 bytes, helper 3 answers the
//! handler's own process number and helper 4 the sender's; these two only read [`Who`]. Helpers 5 and 6 send and output
//! as many bytes as the handler says, 0 to 256. [`Effects`] keeps what one call of a handler emits, without taking
//! memory. Each method's contract is the row of its helper: which code r0 gets, and what is appended, if anything.
//! [`Effects::refused`] counts refusals by cause. A [`Payload`] is the content of a message, 0 to 256 bytes.
//!
//! ```
//! let mut effects = Effects::new();
//! let who = Who { me: 1, from: 0, count: 2 };
//! let code = effects.send(who, 2, &[7; 64]);
//! // code is 0, and effects.sends() is one message to process 2
//! ```
#![tactic(auto)]

mod effects;
mod payload;
mod refused;

pub use effects::{Effects, Sent, Who};
pub use payload::Payload;
pub use refused::Refused;
