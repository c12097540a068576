//! What a process takes from its peers after its replay.

ghost use Rattle.std.specs.Prelude.{◌≡◌, ◌≤◌, ◌+◌, suc, length, slice_index_or};
ghost use Rattle.packets.specs.Outbox.{Pops};
ghost use Rattle.recovery.specs.Own.{is_for, hears, posts};
ghost use Rattle.recovery.specs.Overlap.{asked_by};
ghost use Rattle.recovery.specs.Intake.{keeps, sent_to, takes_in, trusts, noted, returns, AscendFrom, IsSmallPair};
ghost use Rattle.std.specs.List.{AllByRecursion};

use crate::own::Own;
use crate::replayed::Replayed;
use node::{KeptQueue, Node, Returned};
use packets::{Body, Flags, NodePacket, Pair};
use std::alloc::Global;

impl Replayed {
    /// The number of its process.
    pub fn me(&self) -> u8
        ensures value { result ≡ self.now.own.me }
        ensures within { (1 ≤ result) × (result ≤ self.now.own.count) }
    {
        self.own.me()
    }

    /// The number of processes.
    pub fn count(&self) -> u8
        ensures value { result ≡ self.now.own.count }
        ensures few { result ≤ 15 }
        ensures wide { (length self.now.own.heard ≡ suc self.now.own.count) × (length self.now.own.logs ≡ suc self.now.own.count) }
        ensures lost { length self.now.own.lost ≡ suc self.now.own.count }
    {
        self.own.count
    }

    /// Its incarnation.
    pub fn incarnation(&self) -> u64
        ensures { result ≡ self.now.own.life }
    {
        self.own.life
    }

    /// How many messages it keeps.
    pub fn kept(&self) -> u64
        ensures { result ≡ keeps self.now }
    {
        self.own.base() + u64::from(self.receipts.length())
    }

    /// Whether a packet is from another node of this cluster to this one.
    pub fn is_for(&self, packet: &NodePacket) -> bool
        ensures { result ≡ is_for self.now.own packet.now }
    {
        self.own.is_for(packet)
    }

    /// The greatest incarnation of a peer that it heard.
    pub fn heard(&self, peer: u8) -> u64
        requires { peer ≤ self.now.own.count }
        ensures { result ≡ slice_index_or self.now.own.heard peer 0 }
    {
        self.own.heard(peer)
    }

    /// Hears this incarnation of a peer.
    pub fn hear(&mut self, peer: u8, life: u64)
        requires { peer ≤ self.old.own.count }
        ensures { self.new ≡ record self.old { own = hears peer life self.old.own } }
    {
        self.own.hear(peer, life);
    }

    /// By peer: whether it said that it lost what it had.
    pub fn lost(&self) -> &[bool]
        ensures { result.now ≡ self.now.own.lost }
    {
        self.own.lost.as_slice()
    }

    /// Whether failures came one at a time, as far as it knows.
    pub fn is_exact(&self) -> bool
        ensures { result ≡ self.now.own.exact }
    {
        self.own.exact
    }

    /// Takes a page's word whether its teller is exact.
    pub fn trust(&mut self, flags: Flags)
        ensures { self.new ≡ record self.old { own = trusts flags self.old.own } }
    {
        self.own.exact = self.own.exact && flags.exact();
    }

    /// Takes an Ask: a peer is recovering in its incarnation `life`, and asks what the log holds
    /// for it above this RSN. Answers that all of it is lost.
    pub fn receive_ask(&mut self, alloc: Global, from: u8, life: u64, above: u64)
        requires { from ≤ self.old.own.count }
        ensures { self.new ≡ record self.old { own = asked_by from life above self.old.own } }
    {
        self.own.receive_ask(alloc, from, life, above);
    }

    /// How many messages it sent to a peer.
    pub fn sent(&self, to: u8) -> u64
        requires { to ≤ self.now.own.count }
        ensures { result ≡ sent_to to self.now.own }
    {
        let log = &self.own.logs[to as usize];
        log.dropped() + log.len() as u64
    }

    /// Drops from its log for a peer what is covered for good, and enters the RSNs of a page of
    /// that peer.
    pub fn take_in(&mut self, to: u8, covered: u64, pairs: &[Pair])
        requires to { to ≤ self.old.own.count }
        requires page { AscendFrom 0 pairs.now }
        requires numbers { AllByRecursion IsSmallPair pairs.now }
        ensures { self.new ≡ record self.old { own = takes_in to covered pairs.now self.old.own } }
    {
        let log = &mut self.own.logs[to as usize];
        log.drop_to(covered);
        note(log, pairs);
    }

    /// Puts a packet into the outbox.
    pub fn put(&mut self, to: u8, body: Body)
        ensures { self.new ≡ record self.old { own = posts to body self.old.own } }
    {
        self.own.put(to, body);
    }

    /// Takes the first packet that waits, if there is one.
    pub fn pop(&mut self) -> Option<NodePacket>
        ensures packet { Pops result self.old.own.out self.new.own.out }
        ensures rest { self.new ≡ record self.old { own = record self.old.own { out = self.new.own.out } } }
    {
        self.own.pop()
    }

    /// The node of the process, after its peers have told their RSNs; `resumed` says whose Resume
    /// it obeyed. All that it sent is released, or if it is durable, what its checkpoint covers.
    /// The packets that still wait are questions of its recovery, and are dropped.
    pub fn into_node(self, resumed: Vec<bool>) -> Node
        requires { length resumed.items ≡ suc self.own.count }
        ensures { result ≡ returns resumed.items self }
    {
        let Replayed { own, receipts } = self;
        let Own {
            limits,
            me,
            count,
            life,
            state,
            base,
            covered,
            logs,
            heard,
            lost: _,
            exact,
            mut out,
        } = own;
        out.clear();
        Node::returned(Returned {
            limits,
            me,
            count,
            life,
            state,
            base,
            covered,
            receipts,
            logs,
            heard,
            resumed,
            exact,
            out,
        })
    }
}

/// Enters the RSNs of a page, as far as the log has these messages.
fn note(log: &mut KeptQueue, pairs: &[Pair])
    requires page { AscendFrom 0 pairs.now }
    requires numbers { AllByRecursion IsSmallPair pairs.now }
    ensures { log.new ≡ noted pairs.now log.old }
{
    // For the proof: there are as many RSNs as messages.
    let _known = log.len();
    for pair in pairs {
        if log.is_kept(pair.ssn) {
            log.record(pair.ssn, pair.number);
        }
    }
}
