//! What a node sends, and sends again.

ghost use Rattle.std.specs.Prelude.{◌≡◌, ◌≤◌, ◌<◌, ◌+◌, ◌^◌, length, true};
ghost use Rattle.rsn.specs.Receipts.{numbers_of, acknowledged_of, run_of};
ghost use Rattle.node.specs.Node.{IsPeer, log_at, covered_of};
ghost use Rattle.node.specs.Queue.{is_kept, number_of};
ghost use Rattle.node.specs.Transmission.{delivers, first_to_send, many_to_send, sends_on, freed, unlocked, released_to, released, resent, renumbered, is_told_at, ticked};
ghost use Rattle.node.specs.Stands.{Acts};

use crate::node::{MOST_RECEIVED, Node};
use packets::Body;

impl Node {
    /// Sends again what isn't answered: to each peer the first messages that are released and have
    /// no RSN, and the first of its RSNs that aren't acknowledged. It sends nothing while the node
    /// waits until its checkpoint is durable.
    pub fn tick(&mut self)
        ensures value { self.new ≡ ticked self.old }
        ensures acts { Acts self.old self.new }
    {
        if self.frozen {
            return;
        }
        let me = self.me();
        for to in 0..self.count() + 1 {
            if to != me {
                self.resend(to);
                self.renumber(to);
            }
        }
    }

    /// Releases what no longer waits, and sends the first of it.
    pub(crate) fn release(&mut self)
        ensures { self.new ≡ released self.old }
    {
        let me = self.me();
        for to in 0..self.count() + 1 {
            if to != me {
                self.release_to(to);
            }
        }
    }

    fn release_to(&mut self, to: u8)
        requires { IsPeer self.old.me self.old.count to }
        ensures { self.new ≡ released_to to self.old }
    {
        let above = self.unlock(to);
        self.send(to, above);
    }

    /// Releases what no longer waits to one destination. Answers how many were released before.
    fn unlock(&mut self, to: u8) -> u64
        requires { to ≤ self.old.count }
        ensures before { result ≡ (log_at self.old.logs to).released }
        ensures after { self.new ≡ unlocked to self.old }
    {
        let freed = self.freed();
        let before = self.logs[to as usize].released();
        self.logs[to as usize].release(freed);
        before
    }

    /// The RSN up to which messages release what they sent: of a durable node those that its
    /// checkpoint covers, of another those whose RSNs are acknowledged.
    fn freed(&self) -> u64
        ensures { result ≡ freed self.now }
    {
        if self.limits.durable {
            return self.base;
        }
        self.base + self.receipts.run_length() as u64
    }

    /// Sends the first released messages after this SSN.
    fn send(&mut self, to: u8, above: u64)
        requires { IsPeer self.old.me self.old.count to }
        ensures { self.new ≡ sends_on to above self.old }
    {
        let (first, many) = self.to_be_sent(to, above);
        for sent in 0..many {
            self.deliver(to, first + sent + 1);
        }
    }

    /// The SSN after which they begin, and how many there are.
    fn to_be_sent(&self, to: u8, above: u64) -> (u64, u64)
        requires { to ≤ self.now.count }
        ensures first { result.0 ≡ first_to_send above (log_at self.now.logs to) }
        ensures many { result.1 ≡ many_to_send self.now.limits.tick above (log_at self.now.logs to) }
        ensures sent { (log_at self.now.logs to).released ≤ (log_at self.now.logs to).dropped + length (log_at self.now.logs to).payloads }
        ensures small { (log_at self.now.logs to).dropped + length (log_at self.now.logs to).payloads < 2 ^ 63 }
    {
        let queue = &self.logs[to as usize];
        let first = queue.dropped().max(above);
        let tick = self.limits.tick as u64;
        let many = queue.released().saturating_sub(first).min(tick);
        (first, many)
    }

    /// Sends a message that is kept.
    fn deliver(&mut self, to: u8, ssn: u64)
        requires to { IsPeer self.old.me self.old.count to }
        requires kept { is_kept ssn (log_at self.old.logs to) ≡ true }
        ensures { self.new ≡ delivers to ssn self.old }
    {
        let payload = self.logs[to as usize].payload(ssn);
        // For the proof: this gives the limit of its length.
        let _bytes = payload.len();
        let incarnation = self.life;
        self.put(
            to,
            Body::Delivery {
                incarnation,
                ssn,
                payload,
            },
        );
    }

    /// Sends the first released messages without an RSN again.
    fn resend(&mut self, to: u8)
        requires { IsPeer self.old.me self.old.count to }
        ensures { self.new ≡ resent to self.old }
    {
        let (first, last) = self.released_span(to);
        let mut left = self.limits.tick;
        for before in first..last {
            if left == 0 {
                return;
            }
            if self.number_of(to, before + 1).is_none() {
                self.deliver(to, before + 1);
                left -= 1;
            }
        }
    }

    /// How many were dropped, and how many released.
    fn released_span(&self, to: u8) -> (u64, u64)
        requires { to ≤ self.now.count }
        ensures dropped { result.0 ≡ (log_at self.now.logs to).dropped }
        ensures released { result.1 ≡ (log_at self.now.logs to).released }
        ensures sent { (log_at self.now.logs to).released ≤ (log_at self.now.logs to).dropped + length (log_at self.now.logs to).payloads }
        ensures small { (log_at self.now.logs to).dropped + length (log_at self.now.logs to).payloads < 2 ^ 63 }
    {
        let queue = &self.logs[to as usize];
        (queue.dropped(), queue.released())
    }

    /// The RSN of a message that is kept, if it is known.
    fn number_of(&self, to: u8, ssn: u64) -> Option<u64>
        requires to { to ≤ self.now.count }
        requires kept { is_kept ssn (log_at self.now.logs to) ≡ true }
        ensures { result ≡ number_of ssn (log_at self.now.logs to) }
    {
        self.logs[to as usize].number(ssn)
    }

    /// Tells the first of a peer's RSNs that aren't acknowledged again.
    fn renumber(&mut self, to: u8)
        requires { IsPeer self.old.me self.old.count to }
        ensures { self.new ≡ renumbered to self.old }
    {
        let (first, last, covered) = self.told_span(to);
        let mut left = self.limits.tick;
        for place in first..last {
            if left == 0 {
                return;
            }
            if !self.is_told_at(to, place) {
                self.tell(to, covered + place as u64 + 1);
                left -= 1;
            }
        }
    }

    /// How many of a peer's messages are acknowledged without a gap, how many there are, and how
    /// many the checkpoint covers.
    fn told_span(&self, to: u8) -> (u32, u32, u64)
        requires { to ≤ self.now.count }
        ensures first { result.0 ≡ run_of (acknowledged_of to self.now.receipts) }
        ensures last { result.1 ≡ length (numbers_of to self.now.receipts) }
        ensures covered { result.2 ≡ covered_of to self.now }
        ensures small { (result.2 ≤ MOST_RECEIVED) × (result.1 ≤ 65536) }
    {
        let first = self.receipts.run_length_of(to);
        let last = self.receipts.numbers(to).len() as u32;
        (first, last, self.covered[to as usize])
    }

    /// Whether the RSN of a peer's message is acknowledged.
    fn is_told_at(&self, to: u8, place: u32) -> bool
        requires to { to ≤ self.now.count }
        requires known { place < length (numbers_of to self.now.receipts) }
        ensures { result ≡ is_told_at to place self.now }
    {
        let number = self.receipts.numbers(to)[place as usize];
        self.receipts.is_acknowledged(number)
    }
}
