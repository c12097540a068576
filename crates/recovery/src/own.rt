//! The part of a recovering process that all its stages share.

ghost use Rattle.std.specs.Prelude.{◌≡◌, ℕ, ◌≤◌, ◌+◌, ◌++◌, ◌^◌, length, map, true, false, Some, slice_get, slice_index_or, slice_set, IfOk, OnOk, OnErr};
ghost use Rattle.packets.specs.Outbox.{Pops};
ghost use Rattle.node.specs.Limit.{AreAllowed};
ghost use Rattle.node.specs.Queue.{no_queue};
ghost use Rattle.node.specs.Node.{IsPositive};
ghost use Rattle.recovery.specs.Own.{posts, with_own, queue_of, comes_back, own_of, is_for, hears, learns, IsShort, MayGive, ran};

use node::{Given, KeptQueue, Limits, MOST_RECEIVED, log};
use packets::{Body, Flags, Kept, KeptLog, NodePacket, PacketQueue};
use std::alloc::{AllocError, Global};
use std::marker::Model;

/// The limits of the process, its number, the number of processes, its incarnation, its state, and
/// its logs.
#[derive(Drop)]
pub(crate) struct Own {
    pub(crate) limits: Limits,
    pub(crate) me: u8,
    pub(crate) count: u8,
    pub(crate) life: u64,
    pub(crate) state: Vec<u8>,
    /// How many messages its checkpoint covers, and how many of these came from each sender.
    pub(crate) base: u64,
    pub(crate) covered: Vec<u64>,
    /// By destination: what it sent.
    pub(crate) logs: Vec<KeptQueue>,
    /// By peer: the greatest incarnation that it heard.
    pub(crate) heard: Vec<u64>,
    /// By peer: whether it said that it lost what it had.
    pub(crate) lost: Vec<bool>,
    /// Whether failures came one at a time, as far as it knows.
    pub(crate) exact: bool,
    pub(crate) out: PacketQueue,
}

impl Model for Own {
    ghost use Rattle.recovery.specs.Own.{TheOwn, IsOwn};

    ghost Value = { TheOwn };

    ghost view = { λ o. record { limits = o.limits; me = o.me; count = o.count; life = o.life; state = o.state.items; base = o.base; covered = o.covered.items; logs = o.logs.items; heard = o.heard.items; lost = o.lost.items; exact = o.exact; out = o.out } };

    ghost invariant = { λ o. IsOwn o.limits o.me o.count o.life o.base o.covered.items o.heard.items o.lost.items o.logs.items };
}

impl Own {
    /// From the kept state of a process, with these limits and in this incarnation. It has heard
    /// the gateway, and no peer yet.
    pub(crate) fn kept(
        alloc: Global,
        limits: Limits,
        kept: &Kept,
        life: u64,
    ) -> Result<Own, AllocError>
        requires limits { AreAllowed limits }
        requires kept { comes_back kept.now ≡ true }
        requires life { IsPositive life }
        ensures { IfOk result (λ o. o ≡ own_of limits kept.now life) }
    {
        let me = kept.me;
        let state = Vec::from_slice(alloc, kept.state.as_slice())?;
        let covered = counts(alloc, kept.counts.as_slice(), me as usize)?;
        let logs = queues(alloc, kept.logs.as_slice(), me as usize)?;
        let mut heard = Vec::new(alloc);
        heard.resize(kept.count as usize + 1, 0)?;
        heard[0] = 1;
        let mut lost = Vec::new(alloc);
        lost.resize(kept.count as usize + 1, false)?;
        let out = PacketQueue::new(alloc)?;
        Ok(Own {
            limits,
            me,
            count: kept.count,
            life,
            state,
            base: kept.length,
            covered,
            logs,
            heard,
            lost,
            exact: true,
            out,
        })
    }

    /// The number of its process.
    pub(crate) fn me(&self) -> u8
        ensures value { result ≡ self.now.me }
        ensures within { (1 ≤ result) × (result ≤ self.now.count) }
    {
        self.me
    }

    /// The number of processes.
    pub(crate) fn count(&self) -> u8
        ensures value { result ≡ self.now.count }
        ensures few { result ≤ 15 }
        ensures logs { length self.now.logs ≡ self.now.count + 1 }
    {
        self.count
    }

    /// How many messages its checkpoint covers.
    pub(crate) fn base(&self) -> u64
        ensures value { result ≡ self.now.base }
        ensures young { result ≤ MOST_RECEIVED }
    {
        self.base
    }

    /// How many of these came from each sender.
    pub(crate) fn covered(&self) -> &[u64]
        ensures value { result.now ≡ self.now.covered }
        ensures wide { length result.now ≡ self.now.count + 1 }
        ensures low { (q : ℕ) → slice_index_or result.now q 0 ≤ self.now.base }
    {
        self.covered.as_slice()
    }

    /// Whether a packet is from another node of this cluster to this one.
    pub(crate) fn is_for(&self, packet: &NodePacket) -> bool
        ensures { result ≡ is_for self.now packet.now }
    {
        packet.count == self.count
            && packet.to == self.me
            && packet.from <= self.count
            && packet.from != self.me
    }

    /// The greatest incarnation of a peer that it heard.
    pub(crate) fn heard(&self, peer: u8) -> u64
        requires { peer ≤ self.now.count }
        ensures { result ≡ slice_index_or self.now.heard peer 0 }
    {
        self.heard[peer as usize]
    }

    /// Hears this incarnation of a peer.
    pub(crate) fn hear(&mut self, peer: u8, life: u64)
        requires { peer ≤ self.old.count }
        ensures { self.new ≡ hears peer life self.old }
    {
        self.heard[peer as usize] = life;
    }

    /// Hears this incarnation of a peer, which hasn't said yet that it lost anything.
    pub(crate) fn hear_anew(&mut self, peer: u8, life: u64)
        requires { peer ≤ self.old.count }
        ensures { self.new ≡ record (hears peer life self.old) { lost = slice_set self.old.lost peer false } }
    {
        self.hear(peer, life);
        self.lost[peer as usize] = false;
    }

    /// Takes the flags of a Told from this incarnation of a peer. If the peer lost what it had, or
    /// isn't exact, this process isn't exact either.
    pub(crate) fn learn(&mut self, peer: u8, life: u64, flags: Flags)
        requires { peer ≤ self.old.count }
        ensures { self.new ≡ learns peer life flags self.old }
    {
        self.hear(peer, life);
        self.exact = self.exact && !flags.lost() && flags.exact();
        self.lost[peer as usize] = flags.lost();
    }

    /// The handler ran on the message with this RSN: takes its state, and logs what it sent. A
    /// refusal changes nothing.
    pub(crate) fn run(
        &mut self,
        state: Vec<u8>,
        given: &[Given],
        number: u64,
    ) -> Result<(), AllocError>
        requires given { MayGive self.old given.now }
        requires room { IsShort self.old.logs MOST_RECEIVED }
        ensures ok { OnOk result (self.new ≡ ran number state.items given.now self.old) }
        ensures short { OnOk result ((k : ℕ) → IsShort self.old.logs k → IsShort self.new.logs (k + 1)) }
        ensures err { OnErr result (self.new ≡ self.old) }
    {
        log(&mut self.logs, given, number)?;
        self.state = state;
        Ok(())
    }

    /// Takes the first packet that waits, if there is one.
    pub(crate) fn pop(&mut self) -> Option<NodePacket>
        ensures packet { Pops result self.old.out self.new.out }
        ensures rest { self.new ≡ record self.old { out = self.new.out } }
    {
        self.out.pop()
    }

    /// Puts a packet into the outbox.
    pub(crate) fn put(&mut self, to: u8, body: Body)
        ensures { self.new ≡ posts to body self.old }
    {
        let packet = NodePacket {
            count: self.count,
            from: self.me,
            to,
            body,
        };
        self.out.push(packet);
    }
}

/// The counts by peer, with 0 for the process itself.
fn counts(alloc: Global, counts: &[u64], me: usize) -> Result<Vec<u64>, AllocError>
    requires { me ≤ length counts.now }
    ensures { IfOk result (λ v. v.items ≡ with_own 0 me counts.now) }
{
    let (before, behind) = counts.split_at(me);
    let mut all = Vec::from_slice(alloc, before)?;
    all.push(0)?;
    all.extend_from_slice(behind)?;
    Ok(all)
}

/// The logs by peer, with an empty one for the process itself.
fn queues(alloc: Global, logs: &[KeptLog], me: usize) -> Result<Vec<KeptQueue>, AllocError>
    requires inside { me ≤ length logs.now }
    requires room { (i : ℕ) (l : KeptLog) → slice_get logs.now i ≡ Some l → (1 ≤ l.first) × (l.first + length l.payloads ≤ 2 ^ 63) }
    ensures { IfOk result (λ v. v.items ≡ with_own no_queue me (map queue_of logs.now)) }
{
    let (before, behind) = logs.split_at(me);
    let mut queues = Vec::new(alloc);
    add(alloc, &mut queues, before)?;
    queues.push(KeptQueue::new(alloc))?;
    add(alloc, &mut queues, behind)?;
    Ok(queues)
}

/// Appends these logs.
fn add(alloc: Global, queues: &mut Vec<KeptQueue>, logs: &[KeptLog]) -> Result<(), AllocError>
    requires { (i : ℕ) (l : KeptLog) → slice_get logs.now i ≡ Some l → (1 ≤ l.first) × (l.first + length l.payloads ≤ 2 ^ 63) }
    ensures { OnOk result (queues.new.items ≡ queues.old.items ++ map queue_of logs.now) }
{
    for log in logs {
        let queue = KeptQueue::kept(alloc, log.first, log.payloads.as_slice())?;
        queues.push(queue)?;
    }
    Ok(())
}
