//! A node of a cluster.

pub mod calls;
pub mod fault;
pub mod handle;
pub mod label;
mod loose;
