//! The gateway takes a packet.

ghost use Rattle.std.specs.Prelude.{◌≡◌, ◌≤◌, ◌<◌, ◌^◌, length, OnOk, OnErr};
ghost use Rattle.stores.specs.Store.{IsOf};
ghost use Rattle.gateway.specs.Gateway.{IsPositive};
ghost use Rattle.gateway.specs.Calls.{is_for, arrived, says_shown, recorded_by, dropped_by, handed};
ghost use Rattle.gateway.specs.Stands.{IsHanded};
ghost use Rattle.gateway.specs.Since.{KeepsSince, IsShort};

use crate::gateway::Gateway;
use packets::{Body, NodePacket};
use std::alloc::{AllocError, Global};
use stores::{Change, Output};

impl Gateway {
    /// Takes a packet. It drops one that isn't from a process of this cluster to the gateway. A
    /// refusal changes nothing.
    pub fn receive(&mut self, alloc: Global, packet: &NodePacket) -> Result<(), AllocError>
        ensures value { OnOk result (self.new ≡ handed packet.now self.old) }
        ensures since { OnOk result (KeepsSince self.old self.new) }
        ensures acts { OnOk result (IsHanded packet.now self.old self.new) }
        ensures err { OnErr result (self.new ≡ self.old) }
    {
        let _len = longest(&packet.body);
        self.hand(alloc, packet)
    }

    fn hand(&mut self, alloc: Global, packet: &NodePacket) -> Result<(), AllocError>
        ensures ok { OnOk result (self.new ≡ handed packet.now self.old) }
        ensures err { OnErr result (self.new ≡ self.old) }
    {
        let process = packet.from;
        if !self.is_for(packet) {
            return Ok(());
        }
        match &packet.body {
            Body::Delivery {
                incarnation,
                ssn,
                payload,
            } => {
                let _len = payload.len();
                let output = Output {
                    process,
                    ssn: *ssn,
                    payload: *payload,
                };
                self.receive_delivery(*incarnation, output)
            }
            Body::Number {
                incarnation,
                ssn,
                number,
            } => self.receive_number(process, *incarnation, *ssn, *number),
            Body::Saved { covered } => self.receive_saved(process, *covered),
            Body::Ask { incarnation, above } => {
                self.receive_ask(alloc, process, *incarnation, *above)
            }
            Body::Resume {
                incarnation,
                kept,
                above,
            } => self.receive_resume(alloc, process, *incarnation, *kept, *above),
            _ => Ok(()),
        }
    }

    /// Whether the packet is from a process of this cluster to the gateway, and its fields are in
    /// range.
    fn is_for(&self, packet: &NodePacket) -> bool
        ensures { result ≡ is_for self.now packet.now }
    {
        packet.count == self.store.count()
            && packet.to == 0
            && packet.from > 0
            && packet.from <= packet.count
            && packet.body.is_in_range()
    }

    /// Takes a message: shows it if it is the next of its process, and answers its process if it is
    /// or was shown.
    fn receive_delivery(&mut self, incarnation: u64, output: Output) -> Result<(), AllocError>
        requires of { IsOf output.process self.old.store }
        requires small { output.ssn < 2 ^ 63 }
        requires short { length output.payload ≤ 256 }
        ensures ok { OnOk result (self.new ≡ arrived incarnation output self.old) }
        ensures err { OnErr result (self.new ≡ self.old) }
    {
        let process = output.process;
        let heard = self.store.peer(process).heard();
        let next = self.store.peer(process).shown() + 1;
        if incarnation != heard || output.ssn > next {
            return Ok(());
        }
        if output.ssn < next {
            self.say_shown(process);
            return Ok(());
        }
        self.happen(Change::Shown(output))?;
        self.say_shown(process);
        Ok(())
    }

    /// Tells a process how many of its outputs were shown.
    fn say_shown(&mut self, process: u8)
        requires { IsOf process self.old.store }
        ensures { self.new ≡ says_shown process self.old }
    {
        let covered = self.store.peer(process).shown();
        self.put(process, Body::Saved { covered });
    }

    /// Takes an RSN, which `process` in this incarnation gave the message.
    fn receive_number(
        &mut self,
        process: u8,
        incarnation: u64,
        ssn: u64,
        number: u64,
    ) -> Result<(), AllocError>
        requires of { IsOf process self.old.store }
        requires incarnation { IsPositive incarnation }
        requires positive { 0 < number }
        requires small { number < 2 ^ 63 }
        ensures ok { OnOk result (self.new ≡ recorded_by process incarnation ssn number self.old) }
        ensures err { OnErr result (self.new ≡ self.old) }
    {
        let peer = self.store.peer(process);
        if incarnation != peer.heard() || !peer.is_kept(ssn) {
            return Ok(());
        }
        self.happen(Change::Numbered {
            process,
            ssn,
            number,
        })?;
        self.put(
            process,
            Body::Acknowledgement {
                incarnation,
                number,
            },
        );
        Ok(())
    }

    /// Drops the first messages to a process, which are covered for good.
    fn receive_saved(&mut self, process: u8, covered: u64) -> Result<(), AllocError>
        requires { IsOf process self.old.store }
        ensures ok { OnOk result (self.new ≡ dropped_by process covered self.old) }
        ensures err { OnErr result (self.new ≡ self.old) }
    {
        let peer = self.store.peer(process);
        let ssn = covered.min(peer.last());
        if ssn <= peer.dropped() {
            return Ok(());
        }
        self.happen(Change::Dropped { process, ssn })
    }
}

/// For the proof: this gives the limit of a payload's length.
fn longest(body: &Body) -> usize
    ensures { IsShort body.now }
{
    match body {
        Body::Delivery { payload, .. } => payload.len(),
        _ => 0,
    }
}
