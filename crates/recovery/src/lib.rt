//! A process of a cluster that comes back, from what is kept of it to a node that is up.
//!
//! It begins from the decoded bytes of its checkpoint and a new incarnation ([`Collecting::revive`]):
//! it asks each peer what that one's log holds for it, and takes in what comes, page by page. Its
//! host sends the packets that it gives, hands it those that came, and lets it ask again now and then.
//! When all have told, it recovers ([`Collecting::recover`]): the handler runs again on the messages
//! that it keeps ([`Replaying::job`], [`Replaying::work`]), and after the last of them it has replayed
//! all ([`Replaying::finish`]).
//!
//! Then it asks its peers and the gateway under which numbers they have its messages
//! ([`Restoring::begin`]): their answers come by pages ([`Restoring::receive`]), and what isn't answered
//! is asked again ([`Restoring::tick`]). When all have told all ([`Restoring::is_up`]), it is a node
//! ([`Restoring::into_node`]), and all that it sent may go out.
//!
//! A [`Lifecycle`] is a process in any of these stages, or up; [`Lifecycle::passed`] goes on from stage
//! to stage as far as it can.
//!
//! The promise: each call is none, one or more events of the process that crate `cluster` allows, and
//! what it then holds is what the cluster has of it, whatever failed. As long as it is exact, they are
//! acts by the rules for recoveries that don't meet. A call that is refused memory changes nothing; of a
//! restoring process only the first needs memory, and gives back what was handed in.
//!
//! Two that come back at the same time meet: one that hears the Ask of another answers that all that
//! its log held for it is lost, and the other doesn't wait for it. One that was told so isn't exact any
//! more, nor is one that had recovered already when it heard of the other. A restoring process that
//! hears such an Ask of a peer which it didn't know to come back waits for it anew, and isn't exact any
//! more.
//!
//! A packet that isn't the answer to what was asked last is dropped. A page that tells a restoring
//! process of more messages than it sent is taken, and it isn't exact any more; while failures come one
//! at a time no page of a peer does ([`pages_fit`]).
//!
//! A node that was suspended doesn't come back this way: it is resumed from its bytes as it was
//! ([`resume`]), so it asks nobody.
//!
//! ```text
//! let mut node = Collecting::revive(alloc, &kept, incarnation)?;
//! while let Some(packet) = node.take() {
//!     send(packet);
//! }
//! node.receive(alloc, &packet)?;
//! if node.has_all() {
//!     let mut node = node.recover(alloc)?;
//!     while let Some(job) = node.job() {
//!         let (state, given) = handle(node.state(), job);
//!         node.work(state, &given)?;
//!     }
//!     let mut node = Restoring::begin(alloc, node.finish())?;
//!     node.receive(alloc, &packet);
//!     if node.is_up() {
//!         let node = node.into_node();
//!     }
//! }
//! ```
#![tactic(auto)]

mod collected;
mod collection;
mod intake;
mod laws;
mod lifecycle;
mod moment;
mod overlap;
mod own;
mod plan;
mod queries;
mod replayed;
mod replays;
mod rest;
mod restoration;
mod restoration_laws;
mod restoration_queries;
mod resumption;

pub use collection::{Collecting, comes_back};
pub use laws::{
    comes_back_again, keeps_what_it_had, kept_revives, one_node, only_replays, others_stand,
    replaying_stands, written_revives,
};
pub use lifecycle::{Lifecycle, Stalled};
pub use moment::{Cause, Unrecovered};
pub use replayed::Replayed;
pub use replays::Replaying;
pub use restoration::Restoring;
pub use restoration_laws::{pages_fit, replayed_stands, restoring_stands};
pub use resumption::{Unresumed, resume, resume_sized};
