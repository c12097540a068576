//! The parts of a session: a process, the outside, and the wire.
//!
//! Each part keeps bytes and forgets histories. A [`Process`] has a state, receipts, an open job, a
//! [`Mode`] that says which part of a recovery it is in, an [`Outbox`] of what it sent, and a
//! [`Stable`], its checkpoint, which alone outlives a crash. The [`Outside`] has the inputs and the
//! outputs that it was shown, the [`Wire`] the packets on their way. A contract says what a call
//! makes of the part; `machine` puts the parts together, and says what that is in a session. A call
//! that is refused for lack of memory changes nothing.
//!
//! ```text
//! let mut process = Process::new(alloc, 1, 2, state_len)?;
//! process.begin(message);
//! // completion is the result of a handler call on the message
//! let key = process.commit(&completion, &mut wire, packet)?;
//! process.acknowledge(1);    // what the handler sent may leave
//! ```
#![tactic(auto)]

mod mail;
mod mode;
mod outbox;
mod outside;
mod process;
mod stable;
mod wire;

pub use mode::{Mode, Peers};
pub use outbox::Outbox;
pub use outside::Outside;
pub use process::Process;
pub use stable::Stable;
pub use wire::Wire;
