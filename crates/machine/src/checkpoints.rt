//! Checkpoints, and the log entries that they make superfluous.

ghost use Rattle.std.specs.Prelude.{◌≡◌, suc, ◌+◌, ◌<◌, ◌≤◌, length, true, None, IfNone, OnOk, option_and_then};
ghost use Rattle.world.specs.World.{World};
ghost use Rattle.world.specs.Refusals.{refusal_of, cause_of};
ghost use Rattle.machine.specs.Simulation.{Stands, Simulates, answering, process_at, is_up_at, IsTold};
ghost use Rattle.machine.specs.Checkpoints.{IsSavedOf, covered_at, dropped_by, dropped_to, trimmed_to, without_covered};

use crate::machine::Machine;
use limits::{ENTRIES, SENDS};
use world::{Answer, Call, Refusal};

impl Machine {
    /// Why a process would not be saved.
    pub fn checkpoint_cause(&self, room: u32, p: u8) -> Option<Refusal>
        ensures none { IfNone result ((0 < p) × (p ≤ length self.now.processes) × (0 < room) × (is_up_at self.now p ≡ true) × ((process_at self.now p).working ≡ None)) }
        ensures cause { (w : World) → Stands self.now w → refusal_of w room (Call.Checkpoint p) ≡ option_and_then cause_of result }
        ensures told { IsTold result }
    {
        if !self.is_inside(p) {
            return Some(Refusal::NoSuchProcess);
        }
        if !self.is_up(p) {
            return Some(Refusal::NotUp);
        }
        if self.process(p).is_busy() {
            return Some(Refusal::Busy);
        }
        if room <= self.open_jobs() {
            return Some(Refusal::JournalFull);
        }
        None
    }

    /// Saves a process, and answers how many messages its checkpoint covers.
    pub fn checkpoint(&mut self, room: u32, p: u8) -> Result<u32, Refusal>
        requires { self.old.calls + room ≤ ENTRIES }
        ensures step { Simulates self.old self.new room (Call.Checkpoint p) (answering Answer.Saved result) }
        ensures calls { OnOk result (self.new.calls ≡ self.old.calls + 1) }
    {
        if let Some(refusal) = self.checkpoint_cause(room, p) {
            return Err(refusal);
        }
        let stable = self.process(p).snapshot(self.alloc, p, self.count())?;
        let process = &mut self.processes[p as usize - 1];
        process.save(stable);
        self.calls += 1;
        Ok(self.process(p).length())
    }

    /// The bytes of a process's latest checkpoint, in the second form (docs/FORMATS.md).
    pub fn saved(&self, p: u8) -> &[u8]
        requires { (1 ≤ p) × (p ≤ length self.now.processes) }
        ensures { (w : World) → Stands self.now w → IsSavedOf w p result.now }
    {
        // For the proof: a read of a field gives the invariant, here of each checkpoint.
        let _alloc = &self.alloc;
        self.process(p).stable().bytes()
    }

    /// Why no log would be trimmed.
    pub fn trim_cause(&self, room: u32, d: u8) -> Option<Refusal>
        ensures none { IfNone result ((d ≤ length self.now.processes) × (0 < room)) }
        ensures cause { (w : World) → Stands self.now w → refusal_of w room (Call.Trim d) ≡ option_and_then cause_of result }
        ensures told { IsTold result }
    {
        if d as usize > self.processes.len() {
            return Some(Refusal::NoSuchProcess);
        }
        if room <= self.open_jobs() {
            return Some(Refusal::JournalFull);
        }
        None
    }

    /// Each sender that is up drops its messages to d that d's checkpoint covers, or if d is the
    /// outside those that were shown. Answers how many. It takes no memory.
    pub fn trim(&mut self, room: u32, d: u8) -> Result<u32, Refusal>
        requires { self.old.calls + room ≤ ENTRIES }
        ensures step { Simulates self.old self.new room (Call.Trim d) (answering Answer.Trimmed result) }
        ensures calls { OnOk result (self.new.calls ≡ self.old.calls + 1) }
    {
        // For the proof: a read of a field gives the invariant, here how wide each log is.
        let _alloc = &self.alloc;
        if let Some(refusal) = self.trim_cause(room, d) {
            return Err(refusal);
        }
        let count = self.drop_all(d);
        self.calls += 1;
        Ok(count)
    }

    // How many messages of s the destination d has for good.
    fn covered(&self, s: u8, d: u8) -> u32
        requires { (s ≤ length self.now.processes) × (d ≤ length self.now.processes) }
        ensures value { result ≡ covered_at self.now s d }
        ensures bound { result ≤ ENTRIES + 1 }
    {
        if d == 0 {
            return self.outside.shown_of(s);
        }
        self.process(d).stable().count_of(s)
    }

    // Drops from all logs what d has for good.
    fn drop_all(&mut self, d: u8) -> u32
        requires { d ≤ length self.old.processes }
        ensures after { self.new ≡ trimmed_to d self.old (suc (length self.old.processes)) }
        ensures value { result ≡ dropped_to d self.old (suc (length self.old.processes)) }
    {
        let mut dropped = 0;
        for s in 0..self.count() + 1 {
            dropped += self.drop_covered(s, d);
        }
        dropped
    }

    // Drops from the log of s what d has for good, if s is up.
    fn drop_covered(&mut self, s: u8, d: u8) -> u32
        requires { (s ≤ length self.old.processes) × (d ≤ length self.old.processes) }
        ensures after { self.new ≡ without_covered self.old d s }
        ensures value { result ≡ dropped_by self.old d s }
        ensures bound { result ≤ SENDS + 1 }
    {
        if s == d || !self.is_up(s) {
            return 0;
        }
        let covered = self.covered(s, d);
        if s == 0 {
            return self.outside.trim(d, covered);
        }
        self.processes[s as usize - 1].trim(d, covered)
    }
}
