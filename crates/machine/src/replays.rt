//! Replayed jobs and restored RSNs.

ghost use Rattle.std.specs.Prelude.{◌≡◌, ◌+◌, ◌<◌, ◌≤◌, ◌&&◌, nat_lt, nat_le, length, true, IfNone, IfOk, OnOk, OnErr, option_and_then};
ghost use Rattle.world.specs.World.{World};
ghost use Rattle.world.specs.Phases.{has, todo_of};
ghost use Rattle.world.specs.Refusals.{refusal_of, cause_of};
ghost use Rattle.sender_log.specs.Queue.{known};
ghost use Rattle.sender_log.specs.Log.{queue_of};
ghost use Rattle.machine.specs.Arrival.{IsHandedOut};
ghost use Rattle.machine.specs.Simulation.{Stands, Simulates, answering, process_at, log_at, IsTold};
ghost use Rattle.machine.specs.Work.{is_to_do};
ghost use Rattle.machine.specs.Replays.{MayReplay, MayResync, ArePeersLeft, renumbered_at};

use crate::machine::Machine;
use limits::ENTRIES;
use replay::Invocation;
use session_process::{Mode, Peers};
use std::alloc::AllocError;
use world::{Answer, Call, Refusal};

impl Machine {
    /// Why no job would be replayed.
    pub fn replay_begin_cause(&self, room: u32, p: u8) -> Option<Refusal>
        ensures none { IfNone result (MayReplay self.now p × (0 < room)) }
        ensures cause { (w : World) → Stands self.now w → refusal_of w room (Call.ReplayBegin p) ≡ option_and_then cause_of result }
        ensures told { IsTold result }
    {
        if !self.is_inside(p) {
            return Some(Refusal::NoSuchProcess);
        }
        let process = self.process(p);
        if process.working().is_some() {
            return Some(Refusal::Busy);
        }
        if process.mode().next_job().is_none() {
            return Some(Refusal::WrongPhase);
        }
        if room <= self.open_jobs() + 1 {
            return Some(Refusal::JournalFull);
        }
        None
    }

    /// Opens the next job of a process that replays.
    pub fn replay_begin(&mut self, room: u32, p: u8) -> Result<Invocation, Refusal>
        requires { self.old.calls + room ≤ ENTRIES }
        ensures step { Simulates self.old self.new room (Call.ReplayBegin p) (answering (λ job. Answer.Started job.serial) result) }
        ensures job { IfOk result (IsHandedOut self.new) }
        ensures target { IfOk result (λ job. job.who.me ≡ p) }
        ensures calls { OnOk result (self.new.calls ≡ self.old.calls + 1) }
    {
        if let Some(refusal) = self.replay_begin_cause(room, p) {
            return Err(refusal);
        }
        let Some(message) = self.process(p).mode().next_job() else {
            return Err(Refusal::WrongPhase);
        };
        // No plan has another sender, so this refuses nothing.
        if message.sender > self.count() || message.sender == p {
            return Err(Refusal::WrongPhase);
        }
        self.begin(p, &message)
    }

    /// Whether a process still has to restore its RSNs from this peer.
    pub fn is_to_do(&self, p: u8, r: u8) -> bool
        requires { (1 ≤ p) × (p ≤ length self.now.processes) }
        ensures todo { (w : World) → Stands self.now w → result ≡ has (todo_of (w.phase p)) r }
        ensures value { result ≡ (nat_lt 0 r && nat_le r (length self.now.processes) && is_to_do (process_at self.now p).mode r) }
    {
        match self.process(p).mode() {
            Mode::Resync(todo) => r > 0 && r <= self.count() && todo.has(r),
            _ => false,
        }
    }

    /// Why RSNs would not be restored.
    pub fn resync_cause(&self, room: u32, p: u8, r: u8) -> Option<Refusal>
        ensures none { IfNone result (MayResync self.now p r × (0 < room)) }
        ensures cause { (w : World) → Stands self.now w → refusal_of w room (Call.Resync p r) ≡ option_and_then cause_of result }
        ensures told { IsTold result }
    {
        if !self.is_inside(p) || !self.is_inside(r) {
            return Some(Refusal::NoSuchProcess);
        }
        if p == r {
            return Some(Refusal::SameProcess);
        }
        if !self.is_up(r) {
            return Some(Refusal::PeerNotUp);
        }
        if !self.is_to_do(p, r) {
            return Some(Refusal::WrongPhase);
        }
        if room <= self.open_jobs() {
            return Some(Refusal::JournalFull);
        }
        None
    }

    /// Gives the messages of p to r the RSNs under which r received them, and answers how many got
    /// one. After the last peer p is up, and all that it sent is released.
    pub fn resync(&mut self, room: u32, p: u8, r: u8) -> Result<u32, Refusal>
        requires { self.old.calls + room ≤ ENTRIES }
        ensures step { Simulates self.old self.new room (Call.Resync p r) (answering Answer.Restored result) }
        ensures calls { OnOk result (self.new.calls ≡ self.old.calls + 1) }
    {
        if let Some(refusal) = self.resync_cause(room, p, r) {
            return Err(refusal);
        }
        let left = self.peers_left(p, r);
        let count = self.restore_numbers(p, r)?;
        let alloc = self.alloc;
        self.processes[p as usize - 1].settle(alloc, left);
        self.calls += 1;
        Ok(count)
    }

    // The peers that are left to a process, without this one.
    fn peers_left(&self, p: u8, r: u8) -> Peers
        requires { (1 ≤ p) × (p ≤ length self.now.processes) }
        ensures { ArePeersLeft self.now p r result }
    {
        let mut left = Peers::none();
        for q in 1..self.count() + 1 {
            left.set(q, q != r && self.is_to_do(p, q));
        }
        left
    }

    // Gives the messages of p to r their RSNs.
    fn restore_numbers(&mut self, p: u8, r: u8) -> Result<u32, AllocError>
        requires { MayResync self.old p r }
        ensures count { IfOk result (λ n. n ≡ known (queue_of r (log_at self.new p)).numbers) }
        ensures ok { OnOk result (self.new ≡ renumbered_at p r self.old) }
        ensures err { OnErr result (self.new ≡ self.old) }
    {
        let higher = if p < r { r } else { p };
        let (front, back) = self.processes.split_at_mut(higher as usize - 1);
        if p < r {
            return front[p as usize - 1].resync(r, p, back[0].receipts());
        }
        back[0].resync(r, p, front[r as usize - 1].receipts())
    }
}
