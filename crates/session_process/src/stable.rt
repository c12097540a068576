//! Stable storage of one process: what outlives a crash.

ghost use Rattle.std.specs.Prelude.{◌≡◌, ◌+◌, ◌≤◌, ◌<◌, ◌==◌, true, length, count_by, IfOk};
ghost use Rattle.std.specs.List.{list_all};
ghost use Rattle.checkpoint.specs.declared.form.CheckpointForm.TheVariants.{Second};
ghost use Rattle.checkpoint.specs.Format.{IsCheckpoint};
ghost use Rattle.checkpoint.specs.Saved.{Fits, is_sender, saved_of, receipts_again};
ghost use Rattle.session_process.specs.Outbox.{outbox_again};

use crate::outbox::Outbox;
use checkpoint::{Saved, Stored};
use limits::{PARTIES, PROCESSES, RECEIPTS, STATE_BYTES};
use rsn::Receipts;
use std::alloc::{AllocError, Global};
use std::marker::Model;

/// The checkpoint of a process, kept as bytes, and how many messages of each sender it covers.
#[derive(Drop)]
pub struct Stable {
    saved: Stored,
    counts: [u32; PARTIES],
}

impl Model for Stable {
    ghost use Rattle.checkpoint.specs.Saved.{TheSaved};
    ghost use Rattle.session_process.specs.Stable.{IsStable};

    ghost Value = { TheSaved };

    ghost view = { λ s. s.saved };

    ghost invariant = { λ s. IsStable s.saved s.counts };
}

impl Stable {
    /// The checkpoint of the process `me` of `n`: its state, 0 to 1,024 bytes, its receipts, and
    /// the log of what it sent.
    pub fn of(
        alloc: Global,
        me: u8,
        n: u8,
        state: &[u8],
        receipts: &Receipts,
        outbox: &Outbox,
    ) -> Result<Stable, AllocError>
        requires own { (1 ≤ me) × (me ≤ n) }
        requires count { n ≤ PROCESSES }
        requires state { length state.now ≤ STATE_BYTES }
        requires senders { list_all (is_sender me n) receipts.now.senders ≡ true }
        requires owner { outbox.now.log.owner ≡ me }
        requires queues { length outbox.now.log.queues ≡ n + 1 }
        requires made { outbox.now.made ≡ length receipts.now.senders }
        ensures { IfOk result (λ s. s ≡ saved_of me n state.now receipts.now outbox.now.log) }
    {
        let parsed = Saved::of(alloc, me, n, state, receipts, outbox.log())?;
        let saved = Stored::of(alloc, &parsed)?;
        let mut counts = [0; PARTIES];
        for sender in 0..n + 1 {
            counts[sender as usize] = receipts.next(sender) - 1;
        }
        Ok(Stable { saved, counts })
    }

    /// The checkpoint's bytes, in the second form.
    pub fn bytes(&self) -> &[u8]
        ensures { IsCheckpoint Second self.now result.now }
    {
        self.saved.bytes()
    }

    /// How many messages it covers.
    pub fn length(&self) -> u32
        ensures value { result ≡ length self.now.senders }
        ensures bound { result ≤ RECEIPTS }
    {
        self.saved.length()
    }

    /// How many messages of this sender it covers.
    pub fn count_of(&self, sender: u8) -> u32
        requires { sender < PARTIES }
        ensures value { result ≡ count_by (λ s. s == sender) self.now.senders }
        ensures bound { result ≤ RECEIPTS }
    {
        // For the proof: it covers at most 65,536 messages, and no more of one sender.
        let _covered = self.length();
        self.counts[sender as usize]
    }

    /// The state.
    pub fn state(&self) -> &[u8]
        ensures { result.now ≡ self.now.state }
    {
        self.saved.state()
    }

    /// Receipts of what it covers, all acknowledged, and what was sent for that, without RSNs and
    /// with a shut gate.
    pub fn restore(&self, alloc: Global) -> Result<(Receipts, Outbox), AllocError>
        ensures receipts { IfOk result (λ r. r.0 ≡ receipts_again self.now) }
        ensures outbox { IfOk result (λ r. r.1 ≡ outbox_again self.now) }
        ensures fits { Fits Second self.now }
    {
        let (receipts, log) = self.saved.restore(alloc)?;
        Ok((receipts, Outbox::restored(alloc, log, self.length())))
    }
}
