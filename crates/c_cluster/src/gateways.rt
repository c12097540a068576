//! A gateway of a cluster.

mod calls;
pub mod exports;
pub mod fault;
pub mod handle;
mod lifetime;
mod loose;
mod results;
