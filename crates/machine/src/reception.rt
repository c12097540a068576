//! Arrivals: packets that reach their receivers.

ghost use Rattle.std.specs.Prelude.{◌≡◌, ◌≢◌, ℕ, ◌+◌, ◌<◌, ◌≤◌, ◌↔◌, length, IfNone, IfOk, IsSome, OnOk, OnErr, Ok, Err, Some, None, true, false, slice_index_or, option_and_then};
ghost use Rattle.sender_log.specs.Queue.{is_logged};
ghost use Rattle.sender_log.specs.Log.{queue_of};
ghost use Rattle.sender_log.specs.declared.error.LogError.TheVariants.{NotLogged};
ghost use Rattle.world.specs.World.{World};
ghost use Rattle.world.specs.Answers.{target_of};
ghost use Rattle.world.specs.Refusals.{refusal_of, cause_of, is_to_busy, starts, one_if};
ghost use Rattle.machine.specs.Fields.{IsCarried};
ghost use Rattle.machine.specs.Simulation.{Stands, Simulates, answering, log_at, is_up_at, IsTold};
ghost use Rattle.machine.specs.Arrival.{answer_of, IsJobFor, IsJobOf};
ghost use Rattle.machine.specs.Reception.{IsJudged, IsNumbered, MayArrive, Drops, Records, IsNumber, IsAcknowledgement};

use crate::arrival::Arrival;
use crate::machine::Machine;
use limits::ENTRIES;
use replay::Invocation;
use rsn::Judgement;
use sender_log::LogError;
use world::{Call, Message, Packet, Refusal};

impl Machine {
    // What a message is to its receiver. The outside judges by what it was shown.
    fn judge(&self, to: u8, message: &Message) -> Judgement
        requires to { to ≤ length self.now.processes }
        requires up { is_up_at self.now to ≡ true }
        requires from { (message.now.sender ≤ length self.now.processes) × (0 < message.now.ssn) }
        ensures verdict { (w : World) → Stands self.now w → IsJudged w to message.now result }
        ensures number { IsNumbered result }
    {
        if to > 0 {
            return self
                .process(to)
                .receipts()
                .judge(message.sender, message.ssn);
        }
        let shown = self.outside.shown_of(message.sender);
        if message.ssn <= shown {
            return Judgement::Duplicate(message.ssn);
        }
        if message.ssn == shown + 1 {
            return Judgement::Next;
        }
        Judgement::Early
    }

    // How many jobs the packet would start: one or none.
    fn started_by(&self, packet: &Packet) -> u32
        requires { IsCarried (length self.now.processes) packet.now }
        ensures value { (w : World) → Stands self.now w → result ≡ one_if (starts w (Some packet.now)) }
        ensures bound { result ≤ 1 }
    {
        match packet {
            Packet::Delivery { to, message } if *to > 0 && self.is_up(*to) => {
                match self.judge(*to, message) {
                    Judgement::Next => 1,
                    Judgement::Duplicate(_) => 0,
                    Judgement::Early => 0,
                }
            }
            _ => 0,
        }
    }

    /// Why a packet would not be taken from the wire.
    pub fn arrive_cause(&self, room: u32, key: usize) -> Option<Refusal>
        ensures none { IfNone result ((0 < room) × IsSome (slice_index_or self.now.slots key None)) }
        ensures cause { (w : World) → Stands self.now w → refusal_of w room (Call.Arrive key) ≡ option_and_then cause_of result }
        ensures told { IsTold result }
    {
        let Some(packet) = self.wire.peek(key) else {
            return Some(Refusal::NoPacket);
        };
        self.take_cause(room, packet)
    }

    // Why this packet on the wire would not be taken.
    fn take_cause(&self, room: u32, packet: &Packet) -> Option<Refusal>
        requires { IsCarried (length self.now.processes) packet.now }
        ensures none { IfNone result (0 < room) }
        ensures cause { (w : World) (key : ℕ) → Stands self.now w → slice_index_or self.now.slots key None ≡ Some packet.now → refusal_of w room (Call.Arrive key) ≡ option_and_then cause_of result }
        ensures told { IsTold result }
    {
        if self.is_to_busy(packet) {
            return Some(Refusal::Busy);
        }
        let jobs = self.open_jobs();
        // A packet starts at most one job, so it is judged only if one place is left.
        if room > jobs + 1 {
            return None;
        }
        if room <= jobs + self.started_by(packet) {
            return Some(Refusal::JournalFull);
        }
        None
    }

    // Whether the packet is a message for a process with an open job.
    fn is_to_busy(&self, packet: &Packet) -> bool
        requires { IsCarried (length self.now.processes) packet.now }
        ensures { (w : World) → Stands self.now w → result ≡ is_to_busy w (Some packet.now) }
    {
        match packet {
            Packet::Delivery { to, .. } if *to > 0 => self.process(*to).is_busy(),
            _ => false,
        }
    }

    /// Takes a packet from the wire to its receiver.
    pub fn arrive(&mut self, room: u32, key: usize) -> Result<Arrival<Invocation>, Refusal>
        requires { self.old.calls + room ≤ ENTRIES }
        ensures step { Simulates self.old self.new room (Call.Arrive key) (answering answer_of result) }
        ensures job { IfOk result (IsJobOf self.new) }
        ensures target { IfOk result (IsJobFor (slice_index_or self.old.slots key None)) }
        ensures calls { OnOk result (self.new.calls ≡ self.old.calls + 1) }
    {
        let Some(found) = self.wire.peek(key) else {
            return Err(Refusal::NoPacket);
        };
        if let Some(refusal) = self.take_cause(room, found) {
            return Err(refusal);
        }
        let packet = *found;
        if !self.is_up(target(&packet)) {
            self.drop_packet(key);
            return Ok(Arrival::Unreachable);
        }
        match packet {
            Packet::Delivery { to: 0, message } => self.show(room, key, message),
            Packet::Delivery { to, message } => self.receive(room, key, to, message),
            Packet::Number { .. } => self.note(room, key, packet),
            Packet::Acknowledgement { .. } => Ok(self.acknowledge(room, key, packet)),
        }
    }

    // An output arrives at the outside.
    fn show(
        &mut self,
        room: u32,
        key: usize,
        message: Message,
    ) -> Result<Arrival<Invocation>, Refusal>
        requires { MayArrive self.old room key (Packet.Delivery 0 message) }
        ensures step { Simulates self.old self.new room (Call.Arrive key) (answering answer_of result) }
        ensures job { IfOk result (IsJobOf self.new) }
        ensures calls { OnOk result (self.new.calls ≡ self.old.calls + 1) }
    {
        match self.judge(0, &message) {
            Judgement::Next => {
                self.outside.show(&message)?;
                self.wire.remove(key);
                self.calls += 1;
                Ok(Arrival::Shown(message.ssn))
            }
            Judgement::Duplicate(_) => {
                self.drop_packet(key);
                Ok(Arrival::ShownBefore)
            }
            Judgement::Early => {
                self.drop_packet(key);
                Ok(Arrival::Early)
            }
        }
    }

    // A message arrives at a process that has no open job.
    fn receive(
        &mut self,
        room: u32,
        key: usize,
        to: u8,
        message: Message,
    ) -> Result<Arrival<Invocation>, Refusal>
        requires to { 0 < to }
        requires may { MayArrive self.old room key (Packet.Delivery to message) }
        ensures step { Simulates self.old self.new room (Call.Arrive key) (answering answer_of result) }
        ensures job { IfOk result (IsJobOf self.new) }
        ensures target { IfOk result (IsJobFor (Some (Packet.Delivery to message))) }
        ensures calls { OnOk result (self.new.calls ≡ self.old.calls + 1) }
    {
        match self.judge(to, &message) {
            Judgement::Next => {
                let job = self.begin(to, &message)?;
                self.wire.remove(key);
                Ok(Arrival::Started(job))
            }
            Judgement::Duplicate(rsn) => {
                let number = Packet::Number {
                    receiver: to,
                    sender: message.sender,
                    ssn: message.ssn,
                    rsn,
                    incarnation: self.process(to).incarnation(),
                };
                self.wire.replace(key, number);
                self.calls += 1;
                Ok(Arrival::Duplicate(key))
            }
            Judgement::Early => {
                self.drop_packet(key);
                Ok(Arrival::Early)
            }
        }
    }

    // A packet leaves the wire, and nothing else changes.
    fn drop_packet(&mut self, key: usize)
        requires { self.old.calls < ENTRIES }
        ensures { Drops self.old self.new key }
    {
        self.wire.remove(key);
        self.calls += 1;
    }

    // Records the number of a message in its sender's log.
    fn record(&mut self, sender: u8, receiver: u8, ssn: u32, rsn: u32) -> Result<(), LogError>
        requires { sender ≤ length self.old.processes }
        ensures ok { OnOk result (Records self.old self.new sender receiver ssn rsn) }
        ensures logged { OnOk result (is_logged ssn (queue_of receiver (log_at self.old sender)) ≡ true) }
        ensures err { OnErr result (self.new ≡ self.old) }
        ensures cause { (result ≡ Err NotLogged) ↔ (is_logged ssn (queue_of receiver (log_at self.old sender)) ≡ false) }
    {
        if sender == 0 {
            return self.outside.record(receiver, ssn, rsn);
        }
        self.processes[sender as usize - 1].record(receiver, ssn, rsn)
    }

    // A number arrives at the sender of its message.
    fn note(
        &mut self,
        room: u32,
        key: usize,
        packet: Packet,
    ) -> Result<Arrival<Invocation>, Refusal>
        requires may { MayArrive self.old room key packet }
        requires number { IsNumber packet }
        ensures step { Simulates self.old self.new room (Call.Arrive key) (answering answer_of result) }
        ensures job { IfOk result (IsJobOf self.new) }
        ensures calls { OnOk result (self.new.calls ≡ self.old.calls + 1) }
    {
        let Packet::Number {
            receiver,
            sender,
            ssn,
            rsn,
            incarnation,
        } = packet
        else {
            unreachable!()
        };
        if incarnation != self.process(receiver).incarnation() {
            self.drop_packet(key);
            return Ok(Arrival::Stale);
        }
        match self.record(sender, receiver, ssn, rsn) {
            Ok(()) => {
                let acknowledgement = Packet::Acknowledgement {
                    sender,
                    receiver,
                    rsn,
                    incarnation,
                };
                self.wire.replace(key, acknowledgement);
                self.calls += 1;
                Ok(Arrival::Numbered(key))
            }
            Err(LogError::NotLogged) => {
                self.drop_packet(key);
                Ok(Arrival::Stale)
            }
            Err(LogError::Memory) => Err(Refusal::Memory),
        }
    }

    // An acknowledgement arrives at the receiver, which releases the sends that waited for it
    // (`Process::acknowledge`).
    fn acknowledge(&mut self, room: u32, key: usize, packet: Packet) -> Arrival<Invocation>
        requires may { MayArrive self.old room key packet }
        requires acknowledgement { IsAcknowledgement packet }
        ensures step { Simulates self.old self.new room (Call.Arrive key) (Ok (answer_of result)) }
        ensures job { IsJobOf self.new result }
        ensures calls { self.new.calls ≡ self.old.calls + 1 }
    {
        let Packet::Acknowledgement {
            receiver,
            rsn,
            incarnation,
            ..
        } = packet
        else {
            unreachable!()
        };
        let process = self.process(receiver);
        if incarnation != process.incarnation() || rsn > process.length() {
            self.drop_packet(key);
            return Arrival::Stale;
        }
        self.processes[receiver as usize - 1].acknowledge(rsn);
        self.wire.remove(key);
        self.calls += 1;
        Arrival::Acknowledged
    }
}

// The receiver of a packet.
fn target(packet: &Packet) -> u8
    ensures { result ≡ target_of packet.now }
{
    match packet {
        Packet::Delivery { to, .. } => *to,
        Packet::Number { sender, .. } => *sender,
        Packet::Acknowledgement { receiver, .. } => *receiver,
    }
}
