//! The label of a packet: what a host has to know of it, besides its bytes.

ghost use Rattle.std.specs.Prelude.{◌≡◌, MatchResult};
ghost use Rattle.c_calls.specs.Nodes.Label.{ssn_of, number_of, label_of, IsLabelled, IsUnlabelled};

use crate::nodes::fault::NodeFault;
use packets::{Body, NodePacket, PacketError, decode};
use std::alloc::Global;

/// The label of a packet, as a program in C reads it: five words of 8 bytes.
#[repr(C)]
#[derive(Clone, Copy)]
pub struct PacketLabel {
    /// The kind, 1 to 8.
    pub kind: u64,
    /// The process that sent it, or 0 for the gateway.
    pub from: u64,
    /// The process that it goes to, or 0 for the gateway.
    pub to: u64,
    /// The SSN of its message, or of the last message that is covered for good; else 0.
    pub ssn: u64,
    /// The RSN that it tells or acknowledges; else 0.
    pub number: u64,
}

impl PacketLabel {
    fn of(packet: &NodePacket) -> PacketLabel
        ensures { result ≡ label_of packet.now }
    {
        PacketLabel {
            kind: u64::from(packet.body.kind().number()),
            from: u64::from(packet.from),
            to: u64::from(packet.to),
            ssn: ssn_of(&packet.body),
            number: number_of(&packet.body),
        }
    }
}

fn ssn_of(body: &Body) -> u64
    ensures { result ≡ ssn_of body.now }
{
    match body {
        Body::Delivery { ssn, .. } | Body::Number { ssn, .. } => *ssn,
        Body::Saved { covered } => *covered,
        _ => 0,
    }
}

fn number_of(body: &Body) -> u64
    ensures { result ≡ number_of body.now }
{
    match body {
        Body::Number { number, .. } | Body::Acknowledgement { number, .. } => *number,
        _ => 0,
    }
}

/// Reads the label of the packet in these bytes.
pub fn read(alloc: Global, bytes: &[u8], label: &mut PacketLabel) -> Result<(), NodeFault>
    ensures { MatchResult result (λ _. IsLabelled bytes.now label.new) (IsUnlabelled bytes.now label.old label.new) }
{
    match decode(alloc, bytes) {
        Ok(packet) => {
            *label = PacketLabel::of(&packet);
            Ok(())
        }
        Err(PacketError::Memory) => Err(NodeFault::Memory),
        Err(PacketError::Fault(fault)) => Err(NodeFault::Bytes(fault.number())),
    }
}
