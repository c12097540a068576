//! A node that is up: one process of a cluster, as a value that its host calls.
//!
//! A [`Node`] knows no clock, socket, file or thread. Its host hands it the packets that arrive
//! ([`Node::receive`]), sends those that it gives ([`Node::take`]), runs its handler
//! ([`Node::work`]), now and then has it send again what isn't answered ([`Node::tick`]), and keeps
//! its checkpoints: [`Node::checkpoint`] makes one, [`Node::kept_bytes`] gives its bytes, and
//! [`Node::saved`] says that it is durable. Packets can be taken and given as bytes
//! ([`Node::receive_bytes`], [`Node::take_bytes`]), and [`Node::standing`] tells its status.
//!
//! Each call is zero or more acts of the node's process that the rules of crate `cluster` allow,
//! and the node then holds what the cluster has of that process. The acts of one node change
//! nothing of another ([`others_stand`]). So calls of hosts, in any order and with packets that come
//! late, twice or never, are a run of a cluster, which crate `node_laws` proves.
//!
//! A node keeps the [`Limits`] with which it is opened. A durable node sends only what its durable
//! checkpoint covers: [`Node::saved`] releases it, and acknowledgements don't.
//!
//! A node whose checkpoint covers all can be suspended ([`Node::suspend`]): its bytes are the whole
//! node but for its limits and the packets that wait. Crate `recovery` resumes it.
//!
//! A node answers recovering peers by pages of its log and of what it received. Its own recovery is
//! in crate `recovery`.
//!
//! ```text
//! let mut node = Node::open(alloc, Limits::usual(), 1, 2, 8)?;
//! node.receive(alloc, &packet)?;
//! while let Some(packet) = node.take() {
//!     send(packet);
//! }
//! ```
#![tactic(auto)]

mod answers;
mod bytes;
mod checkpoints;
mod commit;
mod job;
mod kept;
mod laws;
mod limit;
mod node;
mod page;
mod queries;
mod queue;
mod reception;
mod reentry;
mod status;
mod suspension;
mod transmission;

pub use commit::log;
pub use job::{Given, OpenJob};
pub use kept::MOST_KEPT;
pub use laws::{kept_stays, others_stand, woken_stands};
pub use limit::{Limits, PAGE, TICK};
pub use node::{MOST_GIVEN, MOST_RECEIVED, Node, WINDOW};
pub use page::{PAIR_BYTES, RESTORED_BYTES};
pub use queries::entries;
pub use queue::KeptQueue;
pub use reentry::Returned;
pub use status::{Stage, Standing};
pub use suspension::{SUSPENSION_MAGIC, Unsuspended};
