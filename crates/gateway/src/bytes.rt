//! Packets that come as bytes.

ghost use Rattle.std.specs.Prelude.{◌≡◌, IfErr, OnOk, OnErr};
ghost use Rattle.packets.specs.declared.packet.NodePacket.{NodePacket};
ghost use Rattle.packets.specs.Format.{IsPacket};
ghost use Rattle.packets.specs.Faults.{IsReason};
ghost use Rattle.gateway.specs.Bytes.{IsTaken};
ghost use Rattle.gateway.specs.Calls.{handed};
ghost use Rattle.gateway.specs.Since.{KeepsSince};
ghost use Rattle.gateway.specs.Stands.{IsHanded};

use crate::gateway::Gateway;
use packets::{PacketError, decode, one_packet};
use std::alloc::Global;

impl Gateway {
    /// Takes the bytes of a packet as [`Gateway::receive`] takes the packet. Any other bytes are
    /// refused by the first of their faults. A refusal changes nothing.
    pub fn receive_bytes(&mut self, alloc: Global, bytes: &[u8]) -> Result<(), PacketError>
        // Bytes that are taken are those of one packet.
        ensures found { OnOk result ((p : NodePacket) × IsPacket p bytes.now) }
        ensures value { OnOk result ((p : NodePacket) → IsPacket p bytes.now → self.new ≡ handed p self.old) }
        ensures since { OnOk result (KeepsSince self.old self.new) }
        ensures acts { OnOk result ((p : NodePacket) → IsPacket p bytes.now → IsHanded p self.old self.new) }
        // The bytes of a packet are taken, unless memory runs out.
        ensures only { (p : NodePacket) → IsPacket p bytes.now → IsTaken result }
        ensures refused { IfErr result (λ e. IsReason e bytes.now) }
        ensures err { OnErr result (self.new ≡ self.old) }
    {
        one_packet();
        let packet = decode(alloc, bytes)?;
        self.receive(alloc, &packet)?;
        Ok(())
    }
}
