//! Inputs, and packets that are put on the wire or lost.

ghost use Rattle.std.specs.Prelude.{◌≡◌, ◌≢◌, ◌+◌, ◌<◌, ◌≤◌, length, IfNone, OnOk, None, slice_index_or, option_and_then};
ghost use Rattle.world.specs.World.{World};
ghost use Rattle.world.specs.Refusals.{refusal_of, cause_of};
ghost use Rattle.machine.specs.Simulation.{Stands, Simulates, answering, IsTold};
ghost use Rattle.machine.specs.Transmission.{placing, released_at, MayLeave};

use crate::machine::Machine;
use helpers::Payload;
use limits::{ENTRIES, PACKETS};
use world::{Answer, Call, Feed, Message, Packet, Refusal};

impl Machine {
    /// Why an input would be refused.
    pub fn input_cause(&self, room: u32, feed: &Feed) -> Option<Refusal>
        ensures none { IfNone result ((0 < feed.now.dst) × (feed.now.dst ≤ length self.now.processes) × (0 < room)) }
        ensures cause { (w : World) → Stands self.now w → refusal_of w room (Call.Input feed.now.dst feed.now.number feed.now.payload) ≡ option_and_then cause_of result }
        ensures told { IsTold result }
    {
        if !self.is_inside(feed.dst) {
            return Some(Refusal::NoSuchProcess);
        }
        if room <= self.open_jobs() {
            return Some(Refusal::JournalFull);
        }
        if self.outside.is_taken(feed.number) {
            return Some(Refusal::FeedTaken);
        }
        None
    }

    /// Logs a message of the outside for a process, and answers its SSN.
    pub fn input(&mut self, room: u32, feed: &Feed) -> Result<u32, Refusal>
        requires { self.old.calls + room ≤ ENTRIES }
        ensures step { Simulates self.old self.new room (Call.Input feed.now.dst feed.now.number feed.now.payload) (answering Answer.Logged result) }
        ensures calls { OnOk result (self.new.calls ≡ self.old.calls + 1) }
    {
        if let Some(refusal) = self.input_cause(room, feed) {
            return Err(refusal);
        }
        let ssn = self.outside.input(feed.dst, feed.number, &feed.payload)?;
        self.calls += 1;
        Ok(ssn)
    }

    // Why one more packet would not be put on the wire.
    pub(crate) fn place_cause(&self, room: u32) -> Option<Refusal>
        ensures { result ≡ placing self.now room }
    {
        if room <= self.open_jobs() {
            return Some(Refusal::JournalFull);
        }
        if self.wire.len() >= PACKETS - self.live_jobs() as usize {
            return Some(Refusal::WireFull);
        }
        None
    }

    /// Why a message would not be put on the wire.
    pub fn transmit_cause(&self, room: u32, from: u8, to: u8, ssn: u32) -> Option<Refusal>
        ensures none { IfNone result (MayLeave self.now from to ssn × (0 < room)) }
        ensures cause { (w : World) → Stands self.now w → refusal_of w room (Call.Transmit from to ssn) ≡ option_and_then cause_of result }
        ensures told { IsTold result }
    {
        let count = self.processes.len();
        if from as usize > count || to as usize > count {
            return Some(Refusal::NoSuchProcess);
        }
        if !self.is_up(from) {
            return Some(Refusal::NotUp);
        }
        if from == to {
            return Some(Refusal::SameProcess);
        }
        if ssn > self.released(from, to) {
            return Some(Refusal::NotReleased);
        }
        if ssn == 0 || !self.log(from).is_logged(to, ssn) {
            return Some(Refusal::NotLogged);
        }
        self.place_cause(room)
    }

    // How many messages to this destination are released. The outside releases all its inputs.
    pub(crate) fn released(&self, from: u8, to: u8) -> u32
        requires { (from ≢ to) × (from ≤ length self.now.processes) × (to ≤ length self.now.processes) }
        ensures { result ≡ released_at self.now from to }
    {
        if from == 0 {
            return self.outside.log().last(to);
        }
        self.process(from).outbox().gate().released(to)
    }

    /// Puts a logged and released message on the wire, and answers the packet's key.
    pub fn transmit(&mut self, room: u32, from: u8, to: u8, ssn: u32) -> Result<usize, Refusal>
        requires { self.old.calls + room ≤ ENTRIES }
        ensures step { Simulates self.old self.new room (Call.Transmit from to ssn) (answering Answer.Placed result) }
        ensures calls { OnOk result (self.new.calls ≡ self.old.calls + 1) }
    {
        if let Some(refusal) = self.transmit_cause(room, from, to, ssn) {
            return Err(refusal);
        }
        let Some((bytes, _)) = self.log(from).entry(to, ssn) else {
            return Err(Refusal::NotLogged);
        };
        let message = Message {
            sender: from,
            ssn,
            payload: Payload::from_slice(bytes),
        };
        let key = self.wire.place(Packet::Delivery { to, message })?;
        self.calls += 1;
        Ok(key)
    }

    /// Why a packet would not be copied.
    pub fn copy_cause(&self, room: u32, key: usize) -> Option<Refusal>
        ensures none { IfNone result ((slice_index_or self.now.slots key None ≢ None) × (0 < room)) }
        ensures cause { (w : World) → Stands self.now w → refusal_of w room (Call.Copy key) ≡ option_and_then cause_of result }
        ensures told { IsTold result }
    {
        if self.wire.peek(key).is_none() {
            return Some(Refusal::NoPacket);
        }
        self.place_cause(room)
    }

    /// Puts a copy of a packet on the wire, and answers its key.
    pub fn copy(&mut self, room: u32, key: usize) -> Result<usize, Refusal>
        requires { self.old.calls + room ≤ ENTRIES }
        ensures step { Simulates self.old self.new room (Call.Copy key) (answering Answer.Placed result) }
        ensures calls { OnOk result (self.new.calls ≡ self.old.calls + 1) }
    {
        if let Some(refusal) = self.copy_cause(room, key) {
            return Err(refusal);
        }
        let Some(packet) = self.wire.get(key) else {
            return Err(Refusal::NoPacket);
        };
        let new = self.wire.place(packet)?;
        self.calls += 1;
        Ok(new)
    }

    /// Why the wire would not lose a packet.
    pub fn lose_cause(&self, room: u32, key: usize) -> Option<Refusal>
        ensures none { IfNone result (0 < room) }
        ensures cause { (w : World) → Stands self.now w → refusal_of w room (Call.Lose key) ≡ option_and_then cause_of result }
        ensures told { IsTold result }
    {
        if self.wire.peek(key).is_none() {
            return Some(Refusal::NoPacket);
        }
        if room <= self.open_jobs() {
            return Some(Refusal::JournalFull);
        }
        None
    }

    /// The wire loses a packet, which arrives nowhere.
    pub fn lose(&mut self, room: u32, key: usize) -> Result<(), Refusal>
        requires { self.old.calls + room ≤ ENTRIES }
        ensures step { Simulates self.old self.new room (Call.Lose key) (answering (λ _. Answer.Lost) result) }
        ensures calls { OnOk result (self.new.calls ≡ self.old.calls + 1) }
    {
        if let Some(refusal) = self.lose_cause(room, key) {
            return Err(refusal);
        }
        self.wire.remove(key);
        self.calls += 1;
        Ok(())
    }
}
