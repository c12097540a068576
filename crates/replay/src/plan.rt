//! What a recovery replays.

ghost use Rattle.std.specs.Prelude.{◌≡◌, ◌==◌, ◌≤◌, ◌+◌, ◌*◌, Some, length};
ghost use Rattle.replay.specs.Plan.{ThePlan, next_of};

use crate::completion::Completion;
use limits::{PARTIES, RECEIPTS, SENDS};
use std::marker::Model;
use world::Message;

/// The messages that a process receives again after its checkpoint, in the order of their RSNs and
/// without a gap. [`collect`](crate::collect) makes it.
#[derive(Drop)]
pub struct Plan {
    before: u32,
    messages: Vec<Message>,
    replayed: u32,
    probes: u32,
}

impl Model for Plan {
    ghost use Rattle.std.specs.Prelude.{◌*◌, ◌≤◌, length};
    ghost use Rattle.limits.specs.declared.TheConstants.{PARTIES, RECEIPTS, SENDS};
    ghost use Rattle.replay.specs.Plan.{ThePlan};

    ghost Value = { ThePlan };

    ghost view = { λ p. record { before = p.before; messages = p.messages.items; replayed = p.replayed; probes = p.probes } };

    ghost invariant = { λ p. record { before : p.before ≤ RECEIPTS; few : length p.messages.items ≤ PARTIES * SENDS; within : p.replayed ≤ length p.messages.items } };
}

impl Plan {
    pub(crate) fn new(before: u32, messages: Vec<Message>, probes: u32) -> Plan
        requires before { before ≤ RECEIPTS }
        requires few { length messages.items ≤ PARTIES * SENDS }
        ensures { result ≡ record { before = before; messages = messages.items; replayed = 0; probes = probes } }
    {
        Plan {
            before,
            messages,
            replayed: 0,
            probes,
        }
    }

    /// The RSN and the message that are replayed next. None at the end.
    pub fn next_job(&self) -> Option<(u32, Message)>
        ensures { result ≡ next_of self.now }
    {
        let next = self.messages.get(self.replayed as usize)?;
        let message = *next;
        Some((self.before + self.replayed + 1, message))
    }

    /// Goes on to the message after the one of this handler call.
    pub fn advance(&mut self, done: &Completion)
        requires { next_of self.old ≡ Some (done.now.task.rsn, done.now.task.message) }
        ensures { self.new ≡ record self.old { replayed = self.old.replayed + 1 } }
    {
        self.replayed = done.task().rsn() - self.before;
    }

    /// How many messages were collected.
    pub fn len(&self) -> u32
        ensures { result ≡ length self.now.messages }
    {
        self.messages.len() as u32
    }

    /// Whether no message was collected.
    pub fn is_empty(&self) -> bool
        ensures { result ≡ (length self.now.messages == 0) }
    {
        self.messages.is_empty()
    }

    /// How often a log was asked for an RSN while the messages were collected.
    pub fn probes(&self) -> u32
        ensures { result ≡ self.now.probes }
    {
        self.probes
    }
}
