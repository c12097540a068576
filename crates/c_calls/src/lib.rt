//! The handle of a node, the calls of one that is open, and the labels of packets.
//!
//! A program in C holds a node by a handle of zeros, which means closed. `c_cluster` opens handles,
//! and exports the functions here by one function each: a handle's call owes what the call of
//! [`process`] owes, or says why it wasn't made, which changes nothing. What a node gives is in
//! `c_cluster`, as a gateway is: here is what wrong bodies are tried on, each over the whole crate.
//!
//! ```rust
//! nodes::calls::receive_all(alloc, &mut node, &bundle, &mut tally)?;
//! nodes::calls::work(alloc, &mut node)?;
//! nodes::label::read(alloc, &packet, &mut label)?;
//! ```
#![tactic(auto)]

pub mod nodes;
