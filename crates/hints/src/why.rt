//! Why an order was refused.

use scenario::Order;
use world::{PhaseName, Refusal};

/// What a call may have done.
#[derive(Clone, Copy, PartialEq, Eq, Debug)]
pub enum Act {
    /// It took the packet of this key from the wire.
    Takes(usize),
    /// It ended a job of this process.
    Ends(u8),
}

/// Why an order was refused, in more detail than the refusal's number.
#[derive(Clone, Copy, PartialEq, Eq, Debug)]
pub enum Why {
    /// The process of the order, or one that it needs, is in this phase.
    Phase { process: u8, phase: PhaseName },
    /// The log of the sender has the message.
    Logged { from: u8, to: u8, ssn: u32 },
    /// The log of the sender doesn't have the message.
    Unlogged { from: u8, to: u8, ssn: u32 },
    /// The call of this entry, counted from 0, did this.
    Done { act: Act, entry: usize },
    /// Nothing more is found.
    Number,
}

/// A refused order, with its line, the refusal and the cause.
#[derive(Clone, Copy, PartialEq, Eq)]
pub struct Told {
    pub line: usize,
    pub order: Order,
    pub refusal: Refusal,
    pub why: Why,
}

/// The process of an order, or 0, and the key of its packet, or 0.
pub fn named_in(order: &Order) -> (u8, u32) {
    match *order {
        Order::Transmit { from, .. } => (from, 0),
        Order::Finish { process } | Order::Checkpoint { process } => (process, 0),
        Order::Crash { process } | Order::Recover { process } => (process, 0),
        Order::RecoverAlone { process } | Order::ReplayBegin { process } => (process, 0),
        Order::Resync { process, .. } => (process, 0),
        Order::Input { to, .. } | Order::Bytes { to, .. } | Order::Trim { to } => (to, 0),
        Order::Copy { key } | Order::Lose { key } | Order::Arrive { key } => (0, key),
        Order::Drive { .. } => (0, 0),
    }
}
