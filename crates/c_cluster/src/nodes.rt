//! A node of a cluster.

pub mod exports;
mod laws;
mod lifetime;
pub mod node_job;
mod outcome;
mod results;
pub mod status;
pub mod suspension;
