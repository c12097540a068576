//! Packets as bytes.

ghost use Rattle.std.specs.Prelude.{◌≡◌, None, IfNone, IfSome, IfOk, IfErr, OnOk, OnErr};
ghost use Rattle.packets.specs.declared.packet.NodePacket.{NodePacket};
ghost use Rattle.packets.specs.Format.{IsPacket};
ghost use Rattle.packets.specs.Faults.{IsReason};
ghost use Rattle.node.specs.Calls.{handed};
ghost use Rattle.node.specs.Stands.{IsHanded, Takes};
ghost use Rattle.node.specs.Bytes.{IsTaken, GivesBytes};

use crate::node::Node;
use packets::{PacketError, decode, encode, one_packet};
use std::alloc::{AllocError, Global};

impl Node {
    /// Takes the bytes of a packet as [`Node::receive`] takes the packet. Any other bytes are
    /// refused by the first of their faults. A refusal changes nothing.
    pub fn receive_bytes(&mut self, alloc: Global, bytes: &[u8]) -> Result<(), PacketError>
        // Bytes that are taken are those of one packet.
        ensures found { OnOk result ((p : NodePacket) × IsPacket p bytes.now) }
        ensures value { OnOk result ((p : NodePacket) → IsPacket p bytes.now → self.new ≡ handed p self.old) }
        ensures acts { OnOk result ((p : NodePacket) → IsPacket p bytes.now → IsHanded p self.old self.new) }
        // The bytes of a packet are taken, unless memory runs out.
        ensures only { (p : NodePacket) → IsPacket p bytes.now → IsTaken result }
        ensures refused { IfErr result (λ e. IsReason e bytes.now) }
        ensures err { OnErr result (self.new ≡ self.old) }
    {
        one_packet();
        let packet = decode(alloc, bytes)?;
        self.receive(alloc, &packet)?;
        Ok(())
    }

    /// Takes the first packet that waits, if there is one, as bytes. A refusal, which is by memory,
    /// changes nothing.
    pub fn take_bytes(&mut self, alloc: Global) -> Result<Option<Vec<u8>>, AllocError>
        ensures none { IfOk result (λ o. IfNone o (Takes None self.old self.new)) }
        ensures some { IfOk result (λ o. IfSome o (λ v. GivesBytes v.items self.old self.new)) }
        ensures err { OnErr result (self.new ≡ self.old) }
    {
        let Some(packet) = self.out.front() else {
            return Ok(None);
        };
        let bytes = encode(alloc, packet)?;
        let _ = self.out.pop();
        Ok(Some(bytes))
    }
}
