//! Handler calls as values that leave the session, and the plan of what a recovery replays.
//!
//! A [`Task`] is all that a handler takes, an [`Invocation`] a task with the buffers for what the
//! handler changes. Whoever has the handler calls it on these, and makes a [`Completion`] of them.
//! Nothing here knows a handler: `specs/Task` says what it means that handlers answer so.
//!
//! A [`Plan`] is what a recovered process receives again. [`collect`] takes it from the logs of all
//! senders: the messages with the RSNs after those that the process still has, without a gap.
//! [`same_is_found`] and [`plan_is_gathered`] say that this is the plan of the protocol's
//! definitions. The process's own log has lost its RSNs; [`resync`] restores them from a peer's
//! receipts.
//!
//! ```text
//! let mut plan = collect(alloc, &logs, 1, &receipts)?;
//! let next = plan.next_job();   // the number and the message that come next, if any
//! plan.advance(&completion);    // of a call on them
//! ```
#![tactic(auto)]

mod agreement;
mod collection;
mod completion;
mod invocation;
mod plan;
mod resynchronization;
mod spare;
mod task;

pub use agreement::{plan_is_gathered, same_is_found};
pub use collection::{collect, collect_from};
pub use completion::Completion;
pub use invocation::Invocation;
pub use plan::Plan;
pub use resynchronization::resync;
pub use spare::Spare;
pub use task::{Task, Ticket};
