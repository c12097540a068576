//! A node takes a packet.

ghost use Rattle.std.specs.Prelude.{◌≡◌, ◌≤◌, ◌<◌, ◌+◌, ◌-◌, length, false, OnOk, OnErr};
ghost use Rattle.rsn.specs.Receipts.{numbers_of};
ghost use Rattle.node.specs.Node.{IsPeer, IsPositive, tells, counted, covered_of};
ghost use Rattle.node.specs.Calls.{delivered, recorded_by, acknowledged_by, dropped_by, handed, is_for, takes_more};
ghost use Rattle.node.specs.Stands.{IsHanded};

use crate::job::OpenJob;
use crate::node::{MOST_RECEIVED, Node};
use helpers::Payload;
use packets::{Body, NodePacket};
use std::alloc::{AllocError, Global};

impl Node {
    /// Takes a packet. It drops one that isn't from another node of this cluster to this one, or
    /// has a field out of range; and any packet while the node waits until its checkpoint is
    /// durable. A refusal changes nothing.
    pub fn receive(&mut self, alloc: Global, packet: &NodePacket) -> Result<(), AllocError>
        ensures value { OnOk result (self.new ≡ handed packet.now self.old) }
        ensures acts { OnOk result (IsHanded packet.now self.old self.new) }
        ensures err { OnErr result (self.new ≡ self.old) }
    {
        // For the proof: reading a field gives the invariant.
        let _me = self.me;
        self.hand(alloc, packet)
    }

    fn hand(&mut self, alloc: Global, packet: &NodePacket) -> Result<(), AllocError>
        ensures value { OnOk result (self.new ≡ handed packet.now self.old) }
        ensures err { OnErr result (self.new ≡ self.old) }
    {
        if !self.accepts(packet) {
            return Ok(());
        }
        let from = packet.from;
        match &packet.body {
            Body::Delivery {
                incarnation,
                ssn,
                payload,
            } => self.receive_delivery(from, *incarnation, *ssn, *payload),
            Body::Number {
                incarnation,
                ssn,
                number,
            } => self.receive_number(from, *incarnation, *ssn, *number),
            Body::Acknowledgement {
                incarnation,
                number,
            } => self.receive_acknowledgement(*incarnation, *number),
            Body::Saved { covered } => self.receive_saved(from, *covered),
            Body::Ask { incarnation, above } => {
                return self.receive_ask(alloc, from, *incarnation, *above);
            }
            Body::Resume {
                incarnation,
                kept,
                above,
            } => return self.receive_resume(alloc, from, *incarnation, *kept, *above),
            _ => {}
        }
        Ok(())
    }

    /// Whether a packet is from another node of this cluster to this one, each field is in range,
    /// and the node takes what arrives.
    fn accepts(&self, packet: &NodePacket) -> bool
        ensures { result ≡ is_for self.now packet.now }
    {
        !self.frozen
            && packet.count == self.count
            && packet.to == self.me
            && packet.from <= self.count
            && packet.from != self.me
            && packet.body.is_in_range()
    }

    /// Takes a message of `from`, in its incarnation `life`.
    fn receive_delivery(&mut self, from: u8, life: u64, ssn: u64, payload: Payload)
        requires peer { IsPeer self.old.me self.old.count from }
        requires live { self.old.frozen ≡ false }
        ensures { self.new ≡ delivered from life ssn payload self.old }
    {
        if self.working.is_some() || life != self.heard[from as usize] {
            return;
        }
        let covered = self.covered[from as usize];
        if ssn <= covered {
            return self.put(from, Body::Saved { covered });
        }
        let place = ssn - covered - 1;
        let known = self.receipts.numbers(from).len() as u64;
        if place < known {
            return self.tell(from, ssn);
        }
        if place == known && self.takes_more() {
            self.working = Some(OpenJob {
                sender: from,
                ssn,
                payload,
            });
        }
    }

    /// Whether the limits allow one message more.
    fn takes_more(&self) -> bool
        ensures { result ≡ takes_more self.now }
    {
        let behind = self.receipts.length();
        self.waiting < self.limits.numbers
            && behind < self.limits.receipts
            && self.base + (behind as u64) < MOST_RECEIVED
    }

    /// Tells a sender the RSN of its message, which came after the checkpoint.
    pub(crate) fn tell(&mut self, to: u8, ssn: u64)
        requires to { IsPeer self.old.me self.old.count to }
        requires above { covered_of to self.old < ssn }
        requires known { ssn - covered_of to self.old - 1 < length (numbers_of to self.old.receipts) }
        ensures { self.new ≡ tells to ssn self.old }
    {
        let place = ssn - self.covered[to as usize] - 1;
        let number = self.base + self.receipts.numbers(to)[place as usize] as u64;
        let incarnation = self.life;
        self.put(
            to,
            Body::Number {
                incarnation,
                ssn,
                number,
            },
        );
    }

    /// Takes an RSN, which `from` in its incarnation `life` gave the node's message.
    fn receive_number(&mut self, from: u8, life: u64, ssn: u64, rsn: u64)
        requires peer { IsPeer self.old.me self.old.count from }
        requires life { IsPositive life }
        requires number { IsPositive rsn }
        ensures { self.new ≡ recorded_by from life ssn rsn self.old }
    {
        if life != self.heard[from as usize] || !self.logs[from as usize].is_kept(ssn) {
            return;
        }
        self.logs[from as usize].record(ssn, rsn);
        self.put(
            from,
            Body::Acknowledgement {
                incarnation: life,
                number: rsn,
            },
        );
    }

    /// Takes an acknowledgement: the RSN `rsn` is in the log of its sender. Releases what waited
    /// for it, unless the node is durable.
    fn receive_acknowledgement(&mut self, life: u64, rsn: u64)
        ensures { self.new ≡ acknowledged_by life rsn self.old }
    {
        let last = self.base + self.receipts.length() as u64;
        if life != self.life || rsn <= self.base || last < rsn {
            return;
        }
        let behind = (rsn - self.base) as u32;
        if !self.receipts.is_acknowledged(behind) {
            self.acknowledge(behind);
            self.release();
        }
    }

    /// Acknowledges the RSN at this distance from the checkpoint.
    fn acknowledge(&mut self, behind: u32)
        requires { (1 ≤ behind) × (behind ≤ length self.old.receipts.senders) }
        ensures { self.new ≡ counted behind self.old }
    {
        self.receipts.acknowledge(behind);
        self.waiting = self.waiting.saturating_sub(1);
    }

    /// Drops the first messages to `from`, which are covered for good.
    fn receive_saved(&mut self, from: u8, covered: u64)
        requires { from ≤ self.old.count }
        ensures { self.new ≡ dropped_by from covered self.old }
    {
        self.logs[from as usize].drop_to(covered);
    }
}
