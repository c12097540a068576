//! What a handler is called with, and what it sends.

use helpers::Payload;

/// A message that arrived and that the handler hasn't finished.
#[derive(Clone, Copy)]
pub struct OpenJob {
    pub sender: u8,
    pub ssn: u64,
    pub payload: Payload,
}

/// A message that a handler sends to another process, or to the gateway, 0.
#[derive(Clone, Copy)]
pub struct Given {
    pub to: u8,
    pub payload: Payload,
}
