//! A process that replays the messages that it keeps.

ghost use Rattle.std.specs.Prelude.{◌≡◌, ◌-◌, length, true, OnOk, OnErr};
ghost use Rattle.recovery.specs.Own.{MayGive};
ghost use Rattle.recovery.specs.Replays.{next_job, is_over, did_replay};
ghost use Rattle.recovery.specs.Overlap.{handed};
ghost use Rattle.recovery.specs.StandsAtReplay.{Owes, Handles, Takes, IsHanded, Ends, replayed_of};

use crate::own::Own;
use crate::replayed::Replayed;
use node::{Given, OpenJob};
use packets::NodePacket;
use rsn::Receipts;
use std::alloc::{AllocError, Global};
use std::marker::Model;

/// A process that recovered: its handler runs again on the messages that it keeps after its
/// checkpoint. Meanwhile it takes no packet, except that it answers a peer that is recovering too.
#[derive(Drop)]
pub struct Replaying {
    pub(crate) own: Own,
    /// These messages, and how many of them are replayed.
    pub(crate) plan: Vec<OpenJob>,
    pub(crate) done: usize,
    /// The receipts of all of them.
    pub(crate) receipts: Receipts,
}

impl Model for Replaying {
    ghost use Rattle.recovery.specs.Replays.{TheReplaying, IsReplaying};

    ghost Value = { TheReplaying };

    ghost view = { λ n. record { own = n.own; plan = n.plan.items; done = n.done } };

    ghost invariant = { λ n. IsReplaying n.own n.plan.items n.done n.receipts };
}

impl Replaying {
    /// The message that the handler is to run on, if one is left.
    pub fn job(&self) -> Option<OpenJob>
        ensures { result ≡ next_job self.now }
    {
        self.plan.get(self.done).copied()
    }

    /// The state that the handler is to run on.
    pub fn state(&self) -> &[u8]
        ensures { result.now ≡ self.now.own.state }
    {
        self.own.state.as_slice()
    }

    /// How many messages are still to be replayed.
    pub fn left(&self) -> usize
        ensures { result ≡ length self.now.plan - self.now.done }
    {
        self.plan.len() - self.done
    }

    /// Whether all are replayed.
    pub fn is_over(&self) -> bool
        ensures { result ≡ is_over self.now }
    {
        self.left() == 0
    }

    /// The handler ran on the next message: `state` is the state that it left; what it sent is
    /// logged, and not sent. Does nothing if no message is left. A refusal, which is by memory,
    /// changes nothing.
    pub fn work(&mut self, state: Vec<u8>, given: &[Given]) -> Result<(), AllocError>
        requires { MayGive self.old.own given.now }
        ensures value { OnOk result (self.new ≡ did_replay state.items given.now (next_job self.old) self.old) }
        ensures acts { OnOk result (Owes (Handles state.items given.now self.old) self.old self.new) }
        ensures err { OnErr result (self.new ≡ self.old) }
    {
        // For the proof: the count shows that each destination has a log.
        let _count = self.own.count();
        self.replay(state, given)
    }

    /// Takes the first packet that waits to be sent, if there is one.
    pub fn take(&mut self) -> Option<NodePacket>
        ensures { Takes result self.old self.new }
    {
        self.own.pop()
    }

    /// Takes a packet: answers the Ask of a peer that is recovering too, that what the log held for
    /// it is lost, and drops anything else.
    pub fn receive(&mut self, alloc: Global, packet: &NodePacket)
        ensures value { self.new ≡ record self.old { own = handed packet.now self.old.own } }
        ensures acts { IsHanded packet.now self.old self.new }
    {
        self.own.receive(alloc, packet);
    }

    /// The process after its replay, which has to be over.
    pub fn finish(self) -> Replayed
        requires { is_over self ≡ true }
        ensures value { result ≡ replayed_of self }
        ensures stands { Ends self result }
    {
        let Replaying {
            own,
            plan: _,
            done: _,
            receipts,
        } = self;
        Replayed::new(own, receipts)
    }

    fn replay(&mut self, state: Vec<u8>, given: &[Given]) -> Result<(), AllocError>
        requires { MayGive self.old.own given.now }
        ensures ok { OnOk result (self.new ≡ did_replay state.items given.now (next_job self.old) self.old) }
        ensures err { OnErr result (self.new ≡ self.old) }
    {
        if self.is_over() {
            return Ok(());
        }
        let number = self.own.base() + self.done as u64 + 1;
        self.own.run(state, given, number)?;
        self.done += 1;
        Ok(())
    }
}
