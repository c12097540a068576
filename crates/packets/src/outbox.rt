//! The packets that wait to be sent.

ghost use Rattle.std.specs.Prelude.{◌≡◌, List, [], ◌∷◌, length, true, IfOk, MatchOption};
ghost use Rattle.packets.specs.declared.packet.NodePacket.{NodePacket};
ghost use Rattle.packets.specs.Outbox.{pushed, Pops};

use crate::packet::NodePacket;
use std::alloc::{AllocError, Global};
use std::collections::VecDeque;
use std::marker::Model;

/// This many packets wait at most.
pub const OUTBOX: usize = 4096;

/// Packets in the order in which they came. The memory for all of them is taken at the start. A
/// packet that finds no room is lost, as any packet may be.
#[derive(Drop)]
pub struct PacketQueue {
    packets: VecDeque<NodePacket>,
}

impl Model for PacketQueue {
    ghost use Rattle.std.specs.Prelude.{List};
    ghost use Rattle.std.specs.VecDeque.{deque_len, deque_capacity};
    ghost use Rattle.packets.specs.declared.packet.NodePacket.{NodePacket};
    ghost use Rattle.packets.specs.Outbox.{HasRoom};

    ghost Value = { List NodePacket };

    ghost view = { λ o. o.packets.items };

    ghost invariant = { λ o. HasRoom (deque_len o.packets) (deque_capacity o.packets) };
}

impl PacketQueue {
    /// An empty outbox.
    pub fn new(alloc: Global) -> Result<PacketQueue, AllocError>
        ensures { IfOk result (λ o. o ≡ []) }
    {
        Ok(PacketQueue {
            packets: VecDeque::with_capacity(alloc, OUTBOX)?,
        })
    }

    /// Whether no packet waits.
    pub fn is_empty(&self) -> bool
        ensures yes { result ≡ true → self.now ≡ [] }
        ensures no { self.now ≡ [] → result ≡ true }
    {
        self.packets.is_empty()
    }

    /// Appends a packet, if there is room.
    pub fn push(&mut self, packet: NodePacket)
        ensures { self.new ≡ pushed packet self.old }
    {
        if self.packets.len() < OUTBOX {
            self.packets.push_back_reserved(packet);
        }
    }

    /// Takes the first packet, if there is one.
    pub fn pop(&mut self) -> Option<NodePacket>
        ensures { Pops result self.old self.new }
    {
        self.packets.pop_front()
    }

    /// The first packet, if there is one.
    pub fn front(&self) -> Option<&NodePacket>
        ensures { MatchOption result (self.now ≡ []) (λ x. (rest : List NodePacket) × (self.now ≡ x.now ∷ rest)) }
    {
        self.packets.front()
    }

    /// Drops all packets.
    pub fn clear(&mut self)
        ensures { self.new ≡ [] }
    {
        self.packets.clear();
    }

    /// How many packets wait.
    pub fn len(&self) -> usize
        ensures { result ≡ length self.now }
    {
        self.packets.len()
    }
}
