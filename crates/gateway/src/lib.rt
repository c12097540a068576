//! The gateway of a cluster, node 0: it takes inputs from outside and shows outputs, as a value
//! that its host calls.
//!
//! A [`Gateway`] knows no clock, socket, file or thread. Its host hands it messages from outside
//! ([`Gateway::input`]) and packets that arrive ([`Gateway::receive`], [`Gateway::receive_bytes`]),
//! sends the packets that it gives ([`Gateway::take`]), passes its outputs on
//! ([`Gateway::output`]), and now and then has it send again what isn't answered
//! ([`Gateway::tick`]). The gateway tells a recovering process what its log holds for it, a page at
//! a time.
//!
//! The host makes the changes of the [`Store`] ([`Gateway::changes`]) durable before it sends what
//! a call gave. A store and all changes since then are the store as it is now. After a crash the
//! gateway comes back from it ([`Gateway::revive`], [`Gateway::apply`]), and takes the place of the
//! earlier one in the cluster.
//!
//! Each call is zero or more acts of the gateway that the rules of crate `cluster` allow. The
//! gateway then agrees with the cluster: its logs are the cluster's inputs, it counts the outputs
//! that were shown of each process, and the outputs not yet taken are the last of those shown, in
//! order. A refusal changes nothing.
//!
//! ```text
//! let mut gateway = Gateway::open(alloc, 2, 60_000, 8)?;
//! let ssn = gateway.input(1, Payload::from_slice(b"hello"))?;
//! keep(gateway.changes(alloc));
//! while let Some(packet) = gateway.take() {
//!     send(packet);
//! }
//! ```
#![tactic(auto)]

mod answers;
mod bytes;
mod gateway;
mod reception;
mod revival;
mod written;

pub use gateway::Gateway;
pub use stores::{Change, Logged, Output, Peer, Store};
