//! A recovering process answers a peer that is recovering too.

ghost use Rattle.std.specs.Prelude.{◌≡◌, ℕ, suc, ◌≤◌, length};
ghost use Rattle.recovery.specs.Own.{posts, IsShort};
ghost use Rattle.recovery.specs.Overlap.{loss_of, meets, asked_by, handed};

use crate::own::Own;
use packets::{Body, Flags, NodePacket, Page};
use std::alloc::Global;

impl Own {
    /// A process that has recovered takes a packet: it answers an Ask, and drops anything else.
    pub(crate) fn receive(&mut self, alloc: Global, packet: &NodePacket)
        ensures value { self.new ≡ handed packet.now self.old }
        ensures wide { (length self.old.heard ≡ suc self.old.count) × (length self.old.logs ≡ suc self.old.count) }
        ensures same { (self.new.me ≡ self.old.me) × ((self.new.count ≡ self.old.count) × (self.new.base ≡ self.old.base)) }
        ensures short { (k : ℕ) → IsShort self.old.logs k → IsShort self.new.logs k }
    {
        // For the proof: reading a field gives the invariant.
        let _known = self.heard.len();
        if !self.is_for(packet) || !packet.body.is_in_range() {
            return;
        }
        match &packet.body {
            Body::Ask { incarnation, above } => {
                self.receive_ask(alloc, packet.from, *incarnation, *above);
            }
            _ => {}
        }
    }

    /// Takes an Ask: `from` is recovering in its incarnation `life`, and asks what the log holds
    /// for it above this RSN. Answers that all of it is lost; drops an Ask of an earlier
    /// incarnation.
    pub(crate) fn receive_ask(&mut self, alloc: Global, from: u8, life: u64, above: u64)
        requires { from ≤ self.old.count }
        ensures value { self.new ≡ asked_by from life above self.old }
        ensures same { (self.new.me ≡ self.old.me) × ((self.new.count ≡ self.old.count) × (self.new.base ≡ self.old.base)) }
        ensures short { (k : ℕ) → IsShort self.old.logs k → IsShort self.new.logs k }
    {
        let heard = self.heard(from);
        if life < heard {
            return;
        }
        if heard < life {
            self.meet(from, life);
        }
        self.lose(alloc, from, life, above);
    }

    /// Hears a newer incarnation of a peer: forgets all its RSNs. Failures overlap, so the process
    /// is no longer exact.
    fn meet(&mut self, from: u8, life: u64)
        requires { from ≤ self.old.count }
        ensures value { self.new ≡ meets from life self.old }
        ensures short { (k : ℕ) → IsShort self.old.logs k → IsShort self.new.logs k }
    {
        self.hear(from, life);
        self.exact = false;
        self.logs[from as usize].forget_above(0);
    }

    /// Tells a peer in its incarnation `life` that all is lost that the log held for it above this
    /// RSN.
    pub(crate) fn lose(&mut self, alloc: Global, to: u8, life: u64, above: u64)
        ensures { self.new ≡ posts to (loss_of life above self.old) self.old }
    {
        let body = Body::Told {
            incarnation: life,
            teller: self.life,
            above,
            flags: Flags::new(true, true, false),
            entries: Page::new(alloc),
        };
        self.put(to, body);
    }
}
