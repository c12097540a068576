//! Form 3 of images: rules by number, one pass over the slots, and files.

pub mod access;
pub mod alu;
pub mod call;
mod distance;
pub mod exactness;
pub mod fault;
pub mod flat_laws;
pub mod frame;
pub mod image;
mod judgement;
mod kind;
pub mod laws;
pub mod memory;
pub mod narrowing;
pub mod pass;
mod propagation;
pub mod results;
pub mod rules;
mod sums;
pub mod verification;
pub mod ways;
