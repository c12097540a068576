//! Messages between processes.

use helpers::Payload;

/// A message with the number that its sender gave it.
#[derive(Clone, Copy, PartialEq, Eq, Debug)]
pub struct Message {
    /// Who sent it: 0 for the outside, 1 to 15 for a process.
    pub sender: u8,
    /// Its number, from 1, among the messages of its sender to its receiver.
    pub ssn: u32,
    pub payload: Payload,
}

/// A message that the outside hands in.
#[derive(Clone, Copy, PartialEq, Eq, Debug)]
pub struct Feed {
    /// The number that tells it from every other feed. Each number is taken once.
    pub number: u32,
    /// The process that gets it, 1 to 15.
    pub dst: u8,
    pub payload: Payload,
}
