//! A process that restores its RSNs: it asks its peers under which RSNs they have its messages.

ghost use Rattle.std.specs.Prelude.{◌≡◌, ◌≢◌, ◌≤◌, ◌<◌, ◌+◌, ◌&&◌, length, replicate, slice_set, nat_le, true, IfOk, IfErr};
ghost use Rattle.std.specs.List.{AllByRecursion};
ghost use Rattle.recovery.specs.Intake.{AscendFrom, IsSmallPair, sent_to};
ghost use Rattle.recovery.specs.Restoration.{asks, asked, begins, begun, answers, is_reply, page_of, unless_doubted, told, greeted, last_ssn, waits_anew, asked_by, handed, is_up, up};
ghost use Rattle.recovery.specs.RestorationStands.{Begins, Acts, IsHanded, Takes, IsUp};

use crate::replayed::Replayed;
use node::Node;
use packets::{Body, Flags, NodePacket, Pair};
use std::alloc::{AllocError, Global};
use std::marker::Model;

/// A process after its replay, and what its peers have told since.
#[derive(Drop)]
pub struct Restoring {
    pub(crate) replayed: Replayed,
    /// By peer: the SSN up to which it told the RSNs, and whether it told all. For the process
    /// itself there is nothing to tell.
    pub(crate) above: Vec<u64>,
    pub(crate) answered: Vec<bool>,
}

impl Model for Restoring {
    ghost use Rattle.recovery.specs.Restoration.{TheRestoring, IsRestoring};

    ghost Value = { TheRestoring };

    ghost view = { λ n. record { own = n.replayed.own; receipts = n.replayed.receipts; above = n.above.items; answered = n.answered.items } };

    ghost invariant = { λ n. IsRestoring n.replayed.own n.above.items n.answered.items };
}

impl Restoring {
    /// Begins after the replay, and asks all peers except those that said that they lost what they
    /// had. If memory is refused, the process is given back.
    pub fn begin(alloc: Global, replayed: Replayed) -> Result<Restoring, Replayed>
        ensures value { IfOk result (λ n. n ≡ begun replayed) }
        ensures acts { IfOk result (λ n. Begins replayed n) }
        ensures err { IfErr result (λ r. r ≡ replayed) }
    {
        let me = replayed.me();
        let count = replayed.count();
        match none_told(alloc, me, count, replayed.lost()) {
            Ok((above, answered)) => {
                let mut node = Restoring {
                    replayed,
                    above,
                    answered,
                };
                node.ask_all();
                Ok(node)
            }
            Err(_) => Err(replayed),
        }
    }

    /// Takes the first packet that waits to be sent, if there is one.
    pub fn take(&mut self) -> Option<NodePacket>
        ensures { Takes result self.old self.new }
    {
        self.replayed.pop()
    }

    /// Asks the peers again that haven't told all.
    pub fn tick(&mut self)
        ensures value { self.new ≡ asked self.old }
        ensures acts { Acts self.old self.new }
    {
        // For the proof: reading a field gives the invariant.
        let _known = self.answered.len();
        self.ask_all();
    }

    /// Takes a packet: the answer of a peer to the last question, or the Ask of a peer that is
    /// recovering too, which it answers. It drops anything else.
    pub fn receive(&mut self, alloc: Global, packet: &NodePacket)
        ensures value { self.new ≡ handed packet.now self.old }
        ensures acts { IsHanded packet.now self.old self.new }
    {
        // For the proof: reading a field gives the invariant.
        let _known = self.answered.len();
        self.hand(alloc, packet);
    }

    /// Whether all peers have told all, the gateway too.
    pub fn is_up(&self) -> bool
        ensures { result ≡ is_up self.now }
    {
        self.answered.iter().all(|answered| *answered)
    }

    /// The node of the process, if all have told all. All that it sent is released: `Node::tick`
    /// sends what has no RSN.
    pub fn into_node(self) -> Node
        requires { is_up self ≡ true }
        ensures value { result ≡ up self }
        ensures stands { IsUp self result }
    {
        let Restoring {
            replayed,
            above: _,
            answered,
        } = self;
        replayed.into_node(answered)
    }

    fn ask_all(&mut self)
        ensures { self.new ≡ asked self.old }
    {
        for to in 0..self.replayed.count() + 1 {
            self.ask(to);
        }
    }

    fn ask(&mut self, to: u8)
        requires { to ≤ self.old.own.count }
        ensures { self.new ≡ asks to self.old }
    {
        if !self.answered[to as usize] {
            let body = Body::Resume {
                incarnation: self.replayed.incarnation(),
                kept: self.replayed.kept(),
                above: self.above[to as usize],
            };
            self.replayed.put(to, body);
        }
    }

    fn hand(&mut self, alloc: Global, packet: &NodePacket)
        ensures { self.new ≡ handed packet.now self.old }
    {
        if !self.replayed.is_for(packet) || !packet.body.is_in_range() {
            return;
        }
        let from = packet.from;
        match &packet.body {
            Body::Restored {
                incarnation,
                teller,
                covered,
                above,
                flags,
                pairs,
            } => {
                let pairs = pairs.as_slice();
                let fits = self.is_answer(from, *incarnation, *teller, *covered, *above, pairs);
                let whole = from != 0 || flags.done();
                if whole && self.is_reply(from, *incarnation, *teller, *above) {
                    self.take_page(from, *teller, *covered, *above, *flags, pairs, fits);
                }
            }
            Body::Ask { incarnation, above } => {
                self.receive_ask(alloc, from, *incarnation, *above);
            }
            _ => {}
        }
    }

    /// Whether a page answers the last question, whatever it tells.
    fn is_reply(&self, from: u8, life: u64, teller: u64, above: u64) -> bool
        requires { from ≤ self.now.own.count }
        ensures { result ≡ is_reply from life teller above self.now }
    {
        life == self.replayed.incarnation()
            && self.replayed.heard(from) <= teller
            && !self.answered[from as usize]
            && above == self.above[from as usize]
    }

    /// Takes the page of a peer. If it tells of more messages than were sent, failures overlapped,
    /// and the process lost what it had sent then: it is no longer exact.
    fn take_page(
        &mut self,
        from: u8,
        teller: u64,
        covered: u64,
        above: u64,
        flags: Flags,
        pairs: &[Pair],
        fits: bool,
    )
        requires from { from ≤ self.old.own.count }
        requires page { AscendFrom 0 pairs.now }
        requires numbers { AllByRecursion IsSmallPair pairs.now }
        ensures { self.new ≡ unless_doubted fits (page_of from teller covered above flags pairs.now self.old) }
    {
        if from == 0 {
            self.greet(covered, flags);
        } else {
            self.tell(from, teller, covered, above, flags, pairs);
        }
        if !fits {
            self.replayed.trust(Flags::new(true, false, false));
        }
    }

    /// Whether a page answers the last question, and tells of no more messages than were sent.
    fn is_answer(
        &self,
        from: u8,
        life: u64,
        teller: u64,
        covered: u64,
        above: u64,
        pairs: &[Pair],
    ) -> bool
        requires { from ≤ self.now.own.count }
        ensures { result ≡ answers from life teller covered above pairs.now self.now }
    {
        self.is_reply(from, life, teller, above)
            && covered <= self.replayed.sent(from)
            && last_ssn(0, pairs) <= self.replayed.sent(from)
    }

    /// Takes a page of a process, and asks for the next one if it isn't the last.
    fn tell(
        &mut self,
        from: u8,
        teller: u64,
        covered: u64,
        above: u64,
        flags: Flags,
        pairs: &[Pair],
    )
        requires from { from ≤ self.old.own.count }
        requires page { AscendFrom 0 pairs.now }
        requires numbers { AllByRecursion IsSmallPair pairs.now }
        ensures { self.new ≡ told from teller covered above flags pairs.now self.old }
    {
        self.replayed.take_in(from, covered, pairs);
        self.replayed.hear(from, teller);
        self.replayed.trust(flags);
        if flags.done() {
            self.answered[from as usize] = true;
        } else {
            self.above[from as usize] = last_ssn(above, pairs);
            self.ask(from);
        }
    }

    /// Takes the answer of the gateway: how many outputs were shown.
    fn greet(&mut self, covered: u64, flags: Flags)
        ensures { self.new ≡ greeted covered flags self.old }
    {
        self.replayed.take_in(0, covered, &[]);
        self.replayed.trust(flags);
        self.answered[0] = true;
    }

    /// Takes an Ask: `from` is recovering too, in its incarnation `life`, and asks what the log
    /// holds for it above this RSN. Answers that all of it is lost, and waits for it again.
    fn receive_ask(&mut self, alloc: Global, from: u8, life: u64, above: u64)
        requires low { from ≤ self.old.own.count }
        requires other { from ≢ self.old.own.me }
        ensures { self.new ≡ asked_by from life above self.old }
    {
        if self.replayed.heard(from) < life {
            self.wait_anew(from);
        }
        self.replayed.receive_ask(alloc, from, life, above);
    }

    fn wait_anew(&mut self, from: u8)
        requires low { from ≤ self.old.own.count }
        requires other { from ≢ self.old.own.me }
        ensures { self.new ≡ waits_anew from self.old }
    {
        self.above[from as usize] = 0;
        self.answered[from as usize] = false;
    }
}

/// By peer: the SSN 0, and whether the peer isn't waited for, which is so for the process itself
/// and for peers that lost what they had.
fn none_told(
    alloc: Global,
    me: u8,
    count: u8,
    lost: &[bool],
) -> Result<(Vec<u64>, Vec<bool>), AllocError>
    requires few { (me ≤ count) × (count ≤ 15) }
    requires wide { me < length lost.now }
    ensures above { IfOk result (λ t. t.0.items ≡ replicate (count + 1) 0) }
    ensures answered { IfOk result (λ t. t.1.items ≡ slice_set lost.now me true) }
{
    let wide = count as usize + 1;
    let mut above = Vec::new(alloc);
    above.resize(wide, 0)?;
    let mut answered = Vec::from_slice(alloc, lost)?;
    answered[me as usize] = true;
    Ok((above, answered))
}

/// The SSN of the last pair, or `above` if there is none.
fn last_ssn(above: u64, pairs: &[Pair]) -> u64
    ensures { result ≡ last_ssn above pairs.now }
{
    match pairs.last() {
        Some(pair) => pair.ssn,
        None => above,
    }
}
