//! A node makes a checkpoint, which becomes durable.

ghost use Rattle.std.specs.Prelude.{◌≡◌, ◌≤◌, ◌<◌, ◌+◌, ◌^◌, ℕ, [], length, slice_index_or, true, OnOk, OnErr, IfOk};
ghost use Rattle.rsn.specs.Receipts.{numbers_of};
ghost use Rattle.node.specs.Node.{IsPeer};
ghost use Rattle.node.specs.Checkpoints.{may_freeze, froze, counts_from, thawed, says_covered, says_below, thaws, saved};
ghost use Rattle.node.specs.Stands.{Acts, Saves};

use crate::node::Node;
use packets::Body;
use rsn::Receipts;
use std::alloc::{AllocError, Global};

impl Node {
    /// Makes a checkpoint of what the node has received and sent. The node takes, does and sends
    /// nothing until [`Node::saved`] says that it is durable. Answers whether a checkpoint was
    /// made: none is while a job is open, or while the node waits for an earlier one.
    pub fn checkpoint(&mut self) -> bool
        ensures made { result ≡ may_freeze self.old }
        ensures value { self.new ≡ froze self.old }
        ensures acts { Acts self.old self.new }
    {
        let may = !self.frozen && self.working.is_none();
        if may {
            self.frozen = true;
        }
        may
    }

    /// The checkpoint that was made is durable. It covers all that the node received: releases what
    /// waited, and tells its peers. Answers whether the node waited for a checkpoint. A refusal
    /// changes nothing.
    pub fn saved(&mut self, alloc: Global) -> Result<bool, AllocError>
        ensures waited { IfOk result (λ b. b ≡ self.old.frozen) }
        ensures value { OnOk result (self.new ≡ saved self.old) }
        ensures acts { OnOk result (Saves self.old self.new) }
        ensures err { OnErr result (self.new ≡ self.old) }
    {
        if !self.frozen {
            return Ok(false);
        }
        let receipts = Receipts::new(alloc, &[])?;
        self.cover(receipts);
        self.release();
        self.say_covered();
        Ok(true)
    }

    /// The checkpoint covers all that was received; nothing was since.
    fn cover(&mut self, none: Receipts)
        requires { none ≡ record { senders = []; acknowledged = [] } }
        ensures { self.new ≡ thawed self.old }
    {
        let received = self.receipts.length();
        count(&mut self.covered, &self.receipts);
        self.base += received as u64;
        self.receipts = none;
        self.waiting = 0;
        self.frozen = false;
    }

    /// Tells each peer how many of its messages the checkpoint covers.
    fn say_covered(&mut self)
        ensures { self.new ≡ says_below self.old.me (self.old.count + 1) self.old }
    {
        let me = self.me();
        for to in 0..self.count() + 1 {
            if to != me {
                self.say(to);
            }
        }
    }

    fn say(&mut self, to: u8)
        requires { IsPeer self.old.me self.old.count to }
        ensures { self.new ≡ says_covered to self.old }
    {
        let covered = self.covered[to as usize];
        if covered > 0 {
            self.put(to, Body::Saved { covered });
        }
    }
}

/// Adds the received messages to the counts by sender.
pub(crate) fn count(covered: &mut Vec<u64>, receipts: &Receipts)
    requires few { length covered.old.items ≤ 16 }
    requires room { (q : ℕ) → slice_index_or covered.old.items q 0 + length (numbers_of q receipts.now) < 2 ^ 64 }
    ensures { covered.new.items ≡ counts_from 0 receipts.now covered.old.items }
{
    for q in 0..covered.len() {
        covered[q] += receipts.numbers(q as u8).len() as u64;
    }
}
