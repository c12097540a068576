//! The state of a node in memory.

ghost use Rattle.std.specs.Prelude.{◌≡◌, ◌≤◌, ◌+◌, [], replicate, true, IfOk, OnOk};
ghost use Rattle.node.specs.Limit.{AreAllowed};
ghost use Rattle.node.specs.Queue.{no_queue};
ghost use Rattle.node.specs.Node.{new_node, posts, CanSay};
ghost use Rattle.node.specs.Stands.{StandsFirst, Takes};

use crate::job::OpenJob;
use crate::limit::Limits;
use crate::queue::KeptQueue;
use limits::PROCESSES;
use packets::{Body, NodePacket, PacketQueue};
use rsn::Receipts;
use std::alloc::{AllocError, Global};
use std::marker::Model;

/// With this many RSNs that aren't acknowledged no node takes a message, whatever its limits are.
pub const WINDOW: u32 = 256;

/// How many messages a handler sends in one call at most, outputs included.
pub const MOST_GIVEN: usize = 16;

const _: () = prove!(MOST_GIVEN == 2 * limits::EFFECTS);

/// How many messages a process receives in all its lives at most.
pub const MOST_RECEIVED: u64 = 0x0400_0000_0000_0000;

/// One process of a cluster.
#[derive(Drop)]
pub struct Node {
    pub(crate) limits: Limits,
    pub(crate) me: u8,
    pub(crate) count: u8,
    pub(crate) life: u64,
    pub(crate) state: Vec<u8>,
    /// How many messages its checkpoint covers, and how many of these came from each sender.
    pub(crate) base: u64,
    pub(crate) covered: Vec<u64>,
    /// What it received since then.
    pub(crate) receipts: Receipts,
    /// How many of its RSNs aren't acknowledged.
    pub(crate) waiting: u32,
    /// By destination: what it sent.
    pub(crate) logs: Vec<KeptQueue>,
    /// By peer: the greatest incarnation that it heard.
    pub(crate) heard: Vec<u64>,
    /// By peer: whether it obeyed the Resume of that incarnation.
    pub(crate) resumed: Vec<bool>,
    /// Whether failures came one at a time, as far as it knows.
    pub(crate) exact: bool,
    pub(crate) working: Option<OpenJob>,
    /// Whether it waits until its checkpoint is durable. Until then it takes, does and sends
    /// nothing.
    pub(crate) frozen: bool,
    pub(crate) out: PacketQueue,
}

impl Model for Node {
    ghost use Rattle.node.specs.Node.{TheNode, IsWithin};

    ghost Value = { TheNode };

    ghost view = { λ n. record { limits = n.limits; me = n.me; count = n.count; life = n.life; state = n.state.items; base = n.base; covered = n.covered.items; receipts = n.receipts; logs = n.logs.items; waiting = n.waiting; heard = n.heard.items; resumed = n.resumed.items; exact = n.exact; working = n.working; frozen = n.frozen; out = n.out } };

    ghost invariant = { λ n. IsWithin n.limits n.me n.count n.base n.covered.items n.heard.items n.resumed.items n.receipts n.logs.items n.working n.frozen n.waiting n.life n.out };
}

impl Node {
    /// The process `me` of `count`, which received nothing, with a state of `state_len` zeros. It
    /// keeps these limits for life.
    pub fn open(
        alloc: Global,
        limits: Limits,
        me: u8,
        count: u8,
        state_len: u16,
    ) -> Result<Node, AllocError>
        requires limits { AreAllowed limits }
        requires own { (1 ≤ me) × (me ≤ count) }
        requires few { count ≤ PROCESSES }
        ensures value { IfOk result (λ n. n ≡ new_node limits me count (replicate state_len 0)) }
        ensures stands { IfOk result (λ n. StandsFirst n me count (replicate state_len 0)) }
    {
        let state = zeros(alloc, state_len as usize)?;
        Node::open_with(alloc, limits, me, count, &state)
    }

    /// The process `me` of `count`, which received nothing, with this opening state. It keeps these
    /// limits for life.
    pub fn open_with(
        alloc: Global,
        limits: Limits,
        me: u8,
        count: u8,
        state: &[u8],
    ) -> Result<Node, AllocError>
        requires limits { AreAllowed limits }
        requires own { (1 ≤ me) × (me ≤ count) }
        requires few { count ≤ PROCESSES }
        ensures value { IfOk result (λ n. n ≡ new_node limits me count state.now) }
        ensures stands { IfOk result (λ n. StandsFirst n me count state.now) }
    {
        let state = Vec::from_slice(alloc, state)?;
        let receipts = Receipts::new(alloc, &[])?;
        let out = PacketQueue::new(alloc)?;
        let mut covered = Vec::new(alloc);
        let mut heard = Vec::new(alloc);
        let mut resumed = Vec::new(alloc);
        let mut logs = Vec::new(alloc);
        fill(
            alloc,
            &mut covered,
            &mut heard,
            &mut resumed,
            &mut logs,
            count,
        )?;
        Ok(Node {
            limits,
            me,
            count,
            life: 1,
            state,
            base: 0,
            covered,
            receipts,
            waiting: 0,
            logs,
            heard,
            resumed,
            exact: true,
            working: None,
            frozen: false,
            out,
        })
    }

    /// Takes the first packet that waits to be sent, if there is one.
    pub fn take(&mut self) -> Option<NodePacket>
        ensures { Takes result self.old self.new }
    {
        self.out.pop()
    }

    /// The number of its process.
    pub(crate) fn me(&self) -> u8
        ensures value { result ≡ self.now.me }
        ensures within { (1 ≤ result) × (result ≤ self.now.count) }
    {
        self.me
    }

    /// The number of processes.
    pub(crate) fn count(&self) -> u8
        ensures value { result ≡ self.now.count }
        ensures few { result ≤ PROCESSES }
    {
        self.count
    }

    /// Puts a packet into the outbox.
    pub(crate) fn put(&mut self, to: u8, body: Body)
        requires { CanSay self.old to body }
        ensures { self.new ≡ posts to body self.old }
    {
        let packet = NodePacket {
            count: self.count,
            from: self.me,
            to,
            body,
        };
        self.out.push(packet);
    }
}

/// `many` zero bytes.
fn zeros(alloc: Global, many: usize) -> Result<Vec<u8>, AllocError>
    ensures { IfOk result (λ v. v.items ≡ replicate many 0) }
{
    let mut bytes = Vec::new(alloc);
    bytes.resize(many, 0)?;
    Ok(bytes)
}

/// Fills what a node that received nothing has by process.
fn fill(
    alloc: Global,
    covered: &mut Vec<u64>,
    heard: &mut Vec<u64>,
    resumed: &mut Vec<bool>,
    logs: &mut Vec<KeptQueue>,
    count: u8,
) -> Result<(), AllocError>
    requires { (covered.old.items ≡ []) × (heard.old.items ≡ []) × (resumed.old.items ≡ []) × (logs.old.items ≡ []) }
    ensures covered { OnOk result (covered.new.items ≡ replicate (count + 1) 0) }
    ensures heard { OnOk result ((heard.new.items ≡ replicate (count + 1) 1) × (resumed.new.items ≡ replicate (count + 1) true)) }
    ensures logs { OnOk result (logs.new.items ≡ replicate (count + 1) no_queue) }
{
    let many = count as usize + 1;
    covered.resize(many, 0)?;
    heard.resize(many, 1)?;
    resumed.resize(many, true)?;
    add_queues(alloc, logs, many)
}

/// Adds `many` empty queues to none.
fn add_queues(alloc: Global, logs: &mut Vec<KeptQueue>, many: usize) -> Result<(), AllocError>
    requires { logs.old.items ≡ [] }
    ensures { OnOk result (logs.new.items ≡ replicate many no_queue) }
{
    for made in 0..many {
        logs.push(KeptQueue::new(alloc))?;
    }
    Ok(())
}
