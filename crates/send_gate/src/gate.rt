//! The sends that wait, and those that were released.

ghost use Rattle.std.specs.Prelude.{◌≡◌, ◌+◌, ◌-◌, ◌<◌, ◌≤◌, ℕ, [], ◌∷◌, ◌++◌, ◌==◌, ◌&&◌, nat_lt, nat_le, length, take, slice_get, slice_index_or, slice_set, count_by, replicate, true, false, OnOk, OnErr};
ghost use Rattle.std.specs.List.{filter, list_any, All};
ghost use Rattle.rsn.specs.Receipts.{run_of};

use limits::{PARTIES, SENDS};
use rsn::Receipts;
use std::alloc::{AllocError, Global};
use std::collections::VecDeque;
use std::marker::Model;

/// A send that waits: its destination, and the RSN of the message that caused it.
#[derive(Clone, Copy, Debug, PartialEq, Eq)]
pub struct Held {
    pub dst: u8,
    pub rsn: u32,
}

/// The sends that wait, in the order in which they were held, and how many were released to each
/// destination, 0 to 15.
#[derive(Drop)]
pub struct Gate {
    waiting: VecDeque<Held>,
    released: [u32; PARTIES],
}

impl Model for Gate {
    ghost use Rattle.std.specs.Prelude.{ℕ, ◌+◌, ◌<◌, ◌≤◌, slice_index_or};
    ghost use Rattle.send_gate.specs.Gate.{TheGate, InOrder, WithinLimit};

    ghost Value = { TheGate };

    ghost view = { λ g. record { waiting = g.waiting.items; released = g.released } };

    ghost invariant = { λ g. record { order : InOrder g.waiting.items; limit : WithinLimit g.waiting.items g.released } };
}

impl Gate {
    ghost use Rattle.send_gate.specs.Gate.{TheGate, count_to, Releases};
    ghost use Rattle.send_gate.specs.Inside.Gate.{ReleasesNext};

    /// Nothing held and nothing released.
    pub fn new(alloc: Global) -> Gate
        ensures { result ≡ record { waiting = []; released = replicate PARTIES 0 } }
    {
        Gate {
            waiting: VecDeque::new(alloc),
            released: [0; PARTIES],
        }
    }

    /// Holds a send to this destination. The process made it while it worked on the message with
    /// this RSN.
    pub fn hold(&mut self, dst: u8, rsn: u32) -> Result<(), AllocError>
        requires dst { dst < PARTIES }
        requires order { All (λ h. h.rsn ≤ rsn) self.old.waiting }
        requires room { slice_index_or self.old.released dst 0 + count_to dst self.old.waiting < SENDS }
        ensures ok { OnOk result (self.new ≡ record { waiting = self.old.waiting ++ (record { dst = dst; rsn = rsn }) ∷ []; released = self.old.released }) }
        ensures err { OnErr result (self.new ≡ self.old) }
    {
        self.waiting.push_back(Held { dst, rsn })?;
        Ok(())
    }

    /// The send that was held last, if any waits.
    pub fn last(&self) -> Option<Held>
        ensures { result ≡ slice_get self.now.waiting (length self.now.waiting - 1) }
    {
        self.waiting.back().copied()
    }

    /// Undoes the last `hold`. If no send waits, nothing changes.
    pub fn retract(&mut self)
        ensures { self.new ≡ record { waiting = take (length self.old.waiting - 1) self.old.waiting; released = self.old.released } }
    {
        let _ = self.waiting.pop_back();
    }

    /// Sets how many sends to a destination were released, as after a recovery. No send may wait.
    pub fn restore(&mut self, dst: u8, count: u32)
        requires dst { dst < PARTIES }
        requires none { self.old.waiting ≡ [] }
        requires bound { count ≤ SENDS }
        ensures { self.new ≡ record { waiting = []; released = slice_set self.old.released dst count } }
    {
        self.released[dst as usize] = count;
    }

    /// Whether a send at this position may leave: all RSNs up to it are acknowledged.
    pub fn is_open(&self, rsn: u32, receipts: &Receipts) -> bool
        ensures { result ≡ nat_le rsn (run_of receipts.now.acknowledged) }
    {
        rsn <= receipts.run_length()
    }

    /// Releases the sends that may leave: those at whose position, and below, all RSNs are
    /// acknowledged. Answers whether there were any.
    pub fn release(&mut self, receipts: &Receipts) -> bool
        ensures value { result ≡ list_any (λ h. nat_le h.rsn (run_of receipts.now.acknowledged)) self.old.waiting }
        ensures after { Releases (run_of receipts.now.acknowledged) self.old self.new }
    {
        let run = receipts.run_length();
        let mut any = false;
        while self.release_next(run) {
            any = true;
        }
        any
    }

    /// Releases the send that waited longest, if its position is in the run.
    fn release_next(&mut self, run: u32) -> bool
        ensures { ReleasesNext result run self.old self.new }
    {
        match self.waiting.front() {
            Some(held) if held.rsn <= run => {
                let dst = held.dst as usize;
                self.released[dst] += 1;
                let _ = self.waiting.pop_front();
                true
            }
            _ => false,
        }
    }

    /// How many sends to this destination were released.
    pub fn released(&self, dst: u8) -> u32
        requires { dst < PARTIES }
        ensures { result ≡ slice_index_or self.now.released dst 0 }
    {
        self.released[dst as usize]
    }
}
