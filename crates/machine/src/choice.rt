//! Useful calls: those that bring the work forward.

ghost use Rattle.std.specs.Prelude.{◌≡◌, ◌≢◌, ℕ, ◌+◌, ◌<◌, ◌≤◌, length, IfNone, IfSome, None, Some, true};
ghost use Rattle.world.specs.History.{rsn_of};
ghost use Rattle.world.specs.World.{World};
ghost use Rattle.world.specs.Bounds.{WIRE, any_below};
ghost use Rattle.world.specs.Refusals.{refusal_of};
ghost use Rattle.world.specs.Useful.{belongs, is_unacknowledged, is_useful, wants, works_on};
ghost use Rattle.session_process.specs.declared.mode.Mode.TheVariants.{Live};
ghost use Rattle.machine.specs.Fields.{IsCarried};
ghost use Rattle.machine.specs.Simulation.{Stands, process_at, is_up_at};
ghost use Rattle.machine.specs.Work.{phase_of};
ghost use Rattle.machine.specs.Choice.{IsPick, IsMove, ArePeers, IsWanted, NoneWanted, next_ssn};

use crate::machine::Machine;
use rsn::Judgement;
use world::{Call, Message, Packet};

impl Machine {
    /// A useful call that could be refused only for lack of memory, if the journal has this room;
    /// `None` only if there is none. A packet that can arrive comes first, then a message that can
    /// be replayed, then RSNs that can be restored, then a message that can go on the wire. Takes
    /// no memory.
    pub fn pick(&self, room: u32) -> Option<Call>
        ensures some { IfSome result (λ call. (w : World) → Stands self.now w → IsPick w room call) }
        ensures none { IfNone result ((w : World) → Stands self.now w → (call : Call) → ¬ IsPick w room call) }
        ensures moves { IfSome result IsMove }
    {
        if let Some(key) = self.pick_arrival(room) {
            return Some(Call::Arrive { key });
        }
        if let Some(process) = self.pick_replay(room) {
            return Some(Call::ReplayBegin { process });
        }
        if let Some((process, peer)) = self.pick_resync(room) {
            return Some(Call::Resync { process, peer });
        }
        self.pick_transmit(room)
    }

    // A process whose next job can be started.
    fn pick_replay(&self, room: u32) -> Option<u8>
        ensures some { IfSome result (λ p. (w : World) → Stands self.now w → IsPick w room (Call.ReplayBegin p)) }
        ensures none { IfNone result ((w : World) → Stands self.now w → (p : ℕ) → ¬ IsPick w room (Call.ReplayBegin p)) }
    {
        for p in 1..self.count() + 1 {
            if self.replay_begin_cause(room, p).is_none() {
                return Some(p);
            }
        }
        None
    }

    // A process that can restore its RSNs from a peer, and the peer.
    fn pick_resync(&self, room: u32) -> Option<(u8, u8)>
        ensures some { IfSome result (λ x. (w : World) → Stands self.now w → IsPick w room (Call.Resync x.0 x.1)) }
        ensures none { IfNone result ((w : World) → Stands self.now w → (p r : ℕ) → ¬ IsPick w room (Call.Resync p r)) }
    {
        for process in 1..self.count() + 1 {
            if let Some(peer) = self.resync_peer(room, process) {
                return Some((process, peer));
            }
        }
        None
    }

    // A peer from which this process can restore its RSNs.
    fn resync_peer(&self, room: u32, p: u8) -> Option<u8>
        requires { (0 < p) × (p ≤ length self.now.processes) }
        ensures some { IfSome result (λ r. (w : World) → Stands self.now w → IsPick w room (Call.Resync p r)) }
        ensures none { IfNone result ((w : World) → Stands self.now w → (r : ℕ) → ¬ IsPick w room (Call.Resync p r)) }
    {
        for r in 1..self.count() + 1 {
            if self.resync_cause(room, p, r).is_none() {
                return Some(r);
            }
        }
        None
    }

    // The key of a packet that can be taken from the wire.
    fn pick_arrival(&self, room: u32) -> Option<usize>
        ensures some { IfSome result (λ key. (w : World) → Stands self.now w → refusal_of w room (Call.Arrive key) ≡ None) }
        ensures none { IfNone result ((w : World) → Stands self.now w → (key : ℕ) → refusal_of w room (Call.Arrive key) ≢ None) }
    {
        for key in self.wire.keys() {
            if self.arrive_cause(room, *key).is_none() {
                return Some(*key);
            }
        }
        None
    }

    // A message that it is useful to put on the wire.
    fn pick_transmit(&self, room: u32) -> Option<Call>
        ensures some { IfSome result (λ call. (w : World) → Stands self.now w → IsPick w room call) }
        ensures none { IfNone result ((w : World) → Stands self.now w → (p d i : ℕ) → ¬ IsPick w room (Call.Transmit p d i)) }
        ensures moves { IfSome result IsMove }
    {
        let count = self.processes.len() as u8;
        if self.place_cause(room).is_some() {
            return None;
        }
        for from in 0..count + 1 {
            if let Some((to, ssn)) = self.wanted_of(from) {
                return Some(Call::Transmit { from, to, ssn });
            }
        }
        None
    }

    // A message of this sender that it is useful to put on the wire: its receiver and its SSN.
    fn wanted_of(&self, from: u8) -> Option<(u8, u32)>
        requires { from ≤ length self.now.processes }
        ensures some { IfSome result (λ x. ArePeers self.now from x.0 × IsWanted self.now from x.0 x.1) }
        ensures none { IfNone result ((to : ℕ) → ArePeers self.now from to → NoneWanted self.now from to) }
    {
        if !self.is_up(from) {
            return None;
        }
        for to in 0..self.count() + 1 {
            if to == from || !self.is_up(to) {
                continue;
            }
            if let Some(ssn) = self.wanted_between(from, to) {
                return Some((to, ssn));
            }
        }
        None
    }

    // The SSN of one between these two: the sender's next, or one that the receiver has under an
    // RSN that isn't acknowledged.
    fn wanted_between(&self, from: u8, to: u8) -> Option<u32>
        requires { ArePeers self.now from to }
        ensures some { IfSome result (λ ssn. IsWanted self.now from to ssn) }
        ensures none { IfNone result (NoneWanted self.now from to) }
    {
        let next = self.next_ssn(from, to);
        if self.is_wanted(from, to, next) {
            return Some(next);
        }
        if to == 0 {
            return None;
        }
        self.wanted_again(from, to)
    }

    // The SSN of one that the receiver has, the latest first. It doesn't look at the messages of
    // this sender that are acknowledged without a gap.
    fn wanted_again(&self, from: u8, to: u8) -> Option<u32>
        requires peers { ArePeers self.now from to }
        requires inside { 0 < to }
        ensures some { IfSome result (λ ssn. IsWanted self.now from to ssn) }
        ensures none { IfNone result ((w : World) → Stands self.now w → (ssn : ℕ) → ssn ≢ next_ssn w from to → is_useful w (Call.Transmit from to ssn) ≢ true) }
    {
        let receipts = self.process(to).receipts();
        let run = receipts.run_length_of(from);
        let mut ssn = receipts.next(from) - 1;
        while ssn > run {
            if self.is_wanted(from, to, ssn) {
                return Some(ssn);
            }
            ssn -= 1;
        }
        None
    }

    // Whether it is useful to put the message with this SSN on the wire.
    fn is_wanted(&self, from: u8, to: u8, ssn: u32) -> bool
        requires peers { ArePeers self.now from to }
        requires ssn { 0 < ssn }
        ensures { (w : World) → Stands self.now w → result ≡ is_useful w (Call.Transmit from to ssn) }
    {
        if ssn > self.released(from, to) || !self.log(from).is_logged(to, ssn) {
            return false;
        }
        if !self.wants(from, to, ssn) {
            return false;
        }
        !self.is_on_wire(from, to, ssn)
    }

    // The SSN of this sender's next message.
    fn next_ssn(&self, from: u8, to: u8) -> u32
        requires { ArePeers self.now from to }
        ensures value { (w : World) → Stands self.now w → result ≡ next_ssn w from to }
        ensures some { 0 < result }
    {
        if to == 0 {
            return self.outside.shown_of(from) + 1;
        }
        self.process(to).receipts().next(from)
    }

    // Whether the receiver wants the message with this SSN.
    fn wants(&self, from: u8, to: u8, ssn: u32) -> bool
        requires peers { ArePeers self.now from to }
        requires ssn { 0 < ssn }
        ensures { (w : World) → Stands self.now w → result ≡ wants w from to ssn }
    {
        let is_next = ssn == self.next_ssn(from, to);
        if to == 0 {
            return is_next;
        }
        if is_next {
            return !works_on(self.process(to).working(), from, ssn);
        }
        match self.number_of(from, to, ssn) {
            Some(rsn) => !self.process(to).receipts().is_acknowledged(rsn),
            None => false,
        }
    }

    // The RSN under which a process has the message with this SSN.
    fn number_of(&self, from: u8, to: u8, ssn: u32) -> Option<u32>
        requires inside { (0 < to) × (to ≤ length self.now.processes) }
        requires up { is_up_at self.now to ≡ true }
        requires from { from ≤ length self.now.processes }
        requires ssn { 0 < ssn }
        ensures value { (w : World) → Stands self.now w → result ≡ rsn_of (w.history to) from ssn }
        ensures bound { IfSome result (λ rsn. (1 ≤ rsn) × (rsn ≤ length (process_at self.now to).receipts.senders)) }
    {
        match self.process(to).receipts().judge(from, ssn) {
            Judgement::Duplicate(rsn) => Some(rsn),
            _ => None,
        }
    }

    // Whether a packet on the wire belongs to the message with this SSN.
    fn is_on_wire(&self, from: u8, to: u8, ssn: u32) -> bool
        requires peers { ArePeers self.now from to }
        requires ssn { 0 < ssn }
        ensures { (w : World) → Stands self.now w → result ≡ any_below (λ key. belongs w from to ssn (w.wire key)) WIRE }
    {
        for key in self.wire.keys() {
            if let Some(packet) = self.wire.peek(*key) {
                if self.belongs(from, to, ssn, packet) {
                    return true;
                }
            }
        }
        false
    }

    // Whether this packet belongs to it: it is the message, tells its present RSN, or acknowledges
    // that.
    fn belongs(&self, from: u8, to: u8, ssn: u32, packet: &Packet) -> bool
        requires peers { ArePeers self.now from to }
        requires ssn { 0 < ssn }
        requires carried { IsCarried (length self.now.processes) packet.now }
        ensures { (w : World) → Stands self.now w → result ≡ belongs w from to ssn (Some packet.now) }
    {
        match packet {
            Packet::Delivery {
                to: target,
                message,
            } => { *target == to && message.sender == from && message.ssn == ssn }
            Packet::Number {
                receiver,
                sender,
                ssn: place,
                incarnation,
                ..
            } => {
                *receiver == to
                    && *sender == from
                    && *place == ssn
                    && *incarnation == self.process(*receiver).incarnation()
            }
            Packet::Acknowledgement {
                sender,
                receiver,
                rsn,
                incarnation,
            } => {
                *receiver == to
                    && *sender == from
                    && *incarnation == self.process(*receiver).incarnation()
                    && self.number_of(from, *receiver, ssn) == Some(*rsn)
            }
        }
    }
}

// Whether the open job is on this message.
fn works_on(working: Option<Message>, from: u8, ssn: u32) -> bool
    ensures { result ≡ works_on (phase_of 0 Live working) from ssn }
{
    match working {
        Some(message) => message.sender == from && message.ssn == ssn,
        None => false,
    }
}
