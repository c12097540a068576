//! A saved process.

ghost use Rattle.std.specs.Prelude.{◌≡◌, ◌+◌, ◌≤◌, true, length, map, IfOk};
ghost use Rattle.std.specs.List.{list_all, AllByRecursion};
ghost use Rattle.checkpoint.specs.declared.form.CheckpointForm.TheVariants.{Second};
ghost use Rattle.checkpoint.specs.Saved.{nothing_kept, KeptFits, Fits, is_sender, kept_of, saved_of, receipts_again, log_again};
ghost use Rattle.sender_log.specs.Log.{queue_of};

use crate::kept::KeptMessages;
use limits::{PROCESSES, RECEIPTS, STATE_BYTES};
use rsn::Receipts;
use sender_log::Log;
use std::alloc::{AllocError, Global};
use std::marker::Model;

/// A process as it was when it was saved.
#[derive(Drop)]
pub struct Saved {
    me: u8,
    count: u8,
    state: Vec<u8>,
    senders: Vec<u8>,
    queues: Vec<KeptMessages>,
}

impl Model for Saved {
    ghost use Rattle.checkpoint.specs.declared.form.CheckpointForm.TheVariants.{Second};
    ghost use Rattle.checkpoint.specs.Saved.{TheSaved, Fits};

    ghost Value = { TheSaved };

    ghost view = { λ s. record { me = s.me; count = s.count; state = s.state.items; senders = s.senders.items; queues = s.queues.items } };

    ghost invariant = { λ s. Fits Second (record { me = s.me; count = s.count; state = s.state.items; senders = s.senders.items; queues = s.queues.items }) };
}

impl Saved {
    /// The process `me` of `n` with this state of 0 to 1,024 bytes, these receipts, and this log of
    /// `me` among `n` processes. RSNs in the log are not saved.
    pub fn of(
        alloc: Global,
        me: u8,
        n: u8,
        state: &[u8],
        receipts: &Receipts,
        log: &Log,
    ) -> Result<Saved, AllocError>
        requires own { (1 ≤ me) × (me ≤ n) }
        requires count { n ≤ PROCESSES }
        requires state { length state.now ≤ STATE_BYTES }
        requires senders { list_all (is_sender me n) receipts.now.senders ≡ true }
        requires owner { log.now.owner ≡ me }
        requires queues { length log.now.queues ≡ n + 1 }
        ensures { IfOk result (λ s. s ≡ saved_of me n state.now receipts.now log.now) }
    {
        let state = Vec::from_slice(alloc, state)?;
        let senders = senders_of(alloc, receipts)?;
        let queues = queues_of(alloc, n, log)?;
        Ok(Saved {
            me,
            count: n,
            state,
            senders,
            queues,
        })
    }

    /// A process from its parts. It keeps nothing for itself.
    pub(crate) fn new(
        me: u8,
        count: u8,
        state: Vec<u8>,
        senders: Vec<u8>,
        queues: Vec<KeptMessages>,
    ) -> Saved
        requires { Fits Second (record { me = me; count = count; state = state.items; senders = senders.items; queues = queues.items }) }
        ensures { result ≡ record { me = me; count = count; state = state.items; senders = senders.items; queues = queues.items } }
    {
        Saved {
            me,
            count,
            state,
            senders,
            queues,
        }
    }

    /// The number of the process, 1 to `count()`.
    pub fn me(&self) -> u8
        ensures value { result ≡ self.now.me }
        ensures fits { Fits Second self.now }
    {
        self.me
    }

    /// How many processes there are, 1 to 15.
    pub fn count(&self) -> u8
        ensures value { result ≡ self.now.count }
        ensures fits { Fits Second self.now }
    {
        self.count
    }

    /// The state, 0 to 1,024 bytes.
    pub fn state(&self) -> &[u8]
        ensures value { result.now ≡ self.now.state }
        ensures fits { Fits Second self.now }
    {
        self.state.as_slice()
    }

    /// How many messages had been received, 0 to 65,536.
    pub fn length(&self) -> u32
        ensures value { result ≡ length self.now.senders }
        ensures fits { Fits Second self.now }
    {
        self.senders.len() as u32
    }

    /// The senders of the messages that had been received.
    pub(crate) fn senders(&self) -> &[u8]
        ensures value { result.now ≡ self.now.senders }
        ensures fits { Fits Second self.now }
    {
        self.senders.as_slice()
    }

    /// What is kept for 0, 1, .. `count()`.
    pub(crate) fn queues(&self) -> &[KeptMessages]
        ensures { result.now ≡ self.now.queues }
    {
        self.queues.as_slice()
    }

    /// Receipts of the messages that had been received, all acknowledged, and a log of the messages
    /// that are kept, without RSNs.
    pub fn restore(&self, alloc: Global) -> Result<(Receipts, Log), AllocError>
        ensures receipts { IfOk result (λ r. r.0 ≡ receipts_again self.now) }
        ensures log { IfOk result (λ r. r.1 ≡ log_again self.now) }
    {
        let receipts = Receipts::new(alloc, self.senders())?;
        let me = self.me();
        let queues = self.queues();
        let mut log = Log::new(alloc, me, self.count())?;
        for dst in 0..self.count() + 1 {
            let kept = &queues[dst as usize];
            if dst != me {
                kept.restore(&mut log, dst)?;
            }
        }
        Ok((receipts, log))
    }
}

/// The senders of all messages that were received.
fn senders_of(alloc: Global, receipts: &Receipts) -> Result<Vec<u8>, AllocError>
    ensures items { IfOk result (λ v. v.items ≡ receipts.now.senders) }
    ensures bound { length receipts.now.senders ≤ RECEIPTS }
{
    let count = receipts.length();
    let mut senders = Vec::with_capacity(alloc, count as usize)?;
    for place in 0..count {
        senders.push(receipts.sender(place + 1))?;
    }
    Ok(senders)
}

/// What a log keeps for 0, 1, .. n.
fn queues_of(alloc: Global, n: u8, log: &Log) -> Result<Vec<KeptMessages>, AllocError>
    requires count { n ≤ PROCESSES }
    requires queues { length log.now.queues ≡ n + 1 }
    ensures items { IfOk result (λ v. v.items ≡ map kept_of log.now.queues) }
    ensures own { kept_of (queue_of log.now.owner log.now) ≡ nothing_kept }
    ensures fits { IfOk result (λ v. AllByRecursion (KeptFits Second) v.items) }
{
    let owner = log.owner();
    let mut queues = Vec::with_capacity(alloc, n as usize + 1)?;
    for dst in 0..n + 1 {
        let kept = if dst == owner {
            KeptMessages::nothing(alloc)
        } else {
            KeptMessages::of(alloc, log, dst)?
        };
        queues.push(kept)?;
    }
    Ok(queues)
}
