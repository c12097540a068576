//! Packets on the wire.

use crate::message::Message;

/// A packet on the wire.
#[derive(Clone, Copy, PartialEq, Eq, Debug)]
pub enum Packet {
    /// A message, for a process or for the outside (0).
    Delivery {
        to: u8,
        message: Message,
    },
    /// The receiver tells the sender under which number it received a message.
    Number {
        receiver: u8,
        sender: u8,
        ssn: u32,
        rsn: u32,
        incarnation: u32,
    },
    /// The sender tells the receiver that it recorded this number.
    Acknowledgement {
        sender: u8,
        receiver: u8,
        rsn: u32,
        incarnation: u32,
    },
}
