//! The buffers of a finished job, for a later one.

use helpers::{Effects, Payload};
use std::alloc::{AllocError, Global};
use world::Message;

/// The buffers of a finished job: for two states, a message, and its effects, which take four
/// kilobytes. A job that is made with them allocates none of its own.
#[derive(Drop)]
pub struct Spare {
    pub(crate) state: Vec<u8>,
    pub(crate) next: Vec<u8>,
    pub(crate) message: Box<Message>,
    pub(crate) effects: Box<Effects>,
}

impl Spare {
    // The buffers of a first job.
    pub(crate) fn new(alloc: Global) -> Result<Spare, AllocError> {
        let blank = Message {
            sender: 0,
            ssn: 0,
            payload: Payload::new(),
        };
        let message = Box::new(alloc, blank)?;
        let effects = Box::new(alloc, Effects::new())?;
        Ok(Spare {
            state: Vec::new(alloc),
            next: Vec::new(alloc),
            message,
            effects,
        })
    }
}
