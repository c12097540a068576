//! Crashes and recoveries.

ghost use Rattle.std.specs.Prelude.{◌≡◌, ◌+◌, ◌<◌, ◌≤◌, length, map, true, false, IfNone, IfOk, OnOk, Ok, option_and_then};
ghost use Rattle.world.specs.World.{World};
ghost use Rattle.world.specs.Refusals.{refusal_of, cause_of, others_up};
ghost use Rattle.replay.specs.Plan.{IsPlan, found};
ghost use Rattle.session_process.specs.Mode.{is_lost};
ghost use Rattle.machine.specs.Simulation.{Stands, Simulates, answering, process_at, is_up_at, IsTold};
ghost use Rattle.machine.specs.Recoveries.{MayRecover, MaySettle, IsLeftOf, SettlesAt, returning, ArePeersOf, forgotten, logs_of, recovery_of};

use crate::machine::Machine;
use limits::{ENTRIES, PARTIES};
use replay::{Plan, collect_from};
use rsn::Receipts;
use session_process::{Outbox, Peers};
use std::alloc::{AllocError, Global};
use world::{Answer, Call, Refusal};

/// What is left of a crashed process: what its checkpoint has, and the later messages that logs
/// have.
#[derive(Drop)]
pub struct Remains {
    state: Vec<u8>,
    receipts: Receipts,
    outbox: Outbox,
    plan: Plan,
}

impl Machine {
    /// Why a process would not crash.
    pub fn crash_cause(&self, room: u32, p: u8) -> Option<Refusal>
        requires { room ≤ ENTRIES }
        ensures none { IfNone result ((0 < p) × (p ≤ length self.now.processes) × (0 < room) × (is_lost (process_at self.now p).mode ≡ false)) }
        ensures cause { (w : World) → Stands self.now w → refusal_of w room (Call.Crash p) ≡ option_and_then cause_of result }
        ensures told { IsTold result }
    {
        if !self.is_inside(p) {
            return Some(Refusal::NoSuchProcess);
        }
        let process = self.process(p);
        if process.mode().is_lost() {
            return Some(Refusal::NotUp);
        }
        let own = process.working().is_some() as u32;
        if room + own <= self.open_jobs() {
            return Some(Refusal::JournalFull);
        }
        None
    }

    /// A process loses all but its checkpoint and its incarnation, which goes up by one. Answers
    /// the new incarnation.
    pub fn crash(&mut self, room: u32, p: u8) -> Result<u32, Refusal>
        requires { self.old.calls + room ≤ ENTRIES }
        ensures step { Simulates self.old self.new room (Call.Crash p) (answering Answer.Crashed result) }
        ensures calls { OnOk result (self.new.calls ≡ self.old.calls + 1) }
    {
        if let Some(refusal) = self.crash_cause(room, p) {
            return Err(refusal);
        }
        let receipts = Receipts::new(self.alloc, &[])?;
        let outbox = Outbox::new(self.alloc, p, self.count())?;
        let process = &mut self.processes[p as usize - 1];
        process.crash(receipts, outbox);
        self.calls += 1;
        Ok(self.process(p).incarnation())
    }

    /// Whether all processes but this one are up.
    pub fn others_are_up(&self, p: u8) -> bool
        ensures { (w : World) → Stands self.now w → result ≡ others_up w p }
    {
        for q in 1..self.count() + 1 {
            if q != p && !self.is_up(q) {
                return false;
            }
        }
        true
    }

    /// Why a process would not recover.
    pub fn recover_cause(&self, room: u32, p: u8) -> Option<Refusal>
        ensures none { IfNone result ((0 < p) × (p ≤ length self.now.processes) × (0 < room) × (is_lost (process_at self.now p).mode ≡ true)) }
        ensures cause { (w : World) → Stands self.now w → refusal_of w room (Call.Recover p) ≡ option_and_then cause_of result }
        ensures told { IsTold result }
    {
        if !self.is_inside(p) {
            return Some(Refusal::NoSuchProcess);
        }
        if !self.others_are_up(p) {
            return Some(Refusal::PeerNotUp);
        }
        self.return_cause(room, p)
    }

    /// Why a process would not recover alone.
    pub fn recover_alone_cause(&self, room: u32, p: u8) -> Option<Refusal>
        ensures none { IfNone result ((0 < p) × (p ≤ length self.now.processes) × (0 < room) × (is_lost (process_at self.now p).mode ≡ true)) }
        ensures cause { (w : World) → Stands self.now w → refusal_of w room (Call.RecoverAlone p) ≡ option_and_then cause_of result }
        ensures told { IsTold result }
    {
        if !self.is_inside(p) {
            return Some(Refusal::NoSuchProcess);
        }
        self.return_cause(room, p)
    }

    // Why a process would not recover, whatever the other processes do.
    fn return_cause(&self, room: u32, p: u8) -> Option<Refusal>
        requires { (0 < p) × (p ≤ length self.now.processes) }
        ensures { result ≡ returning self.now room p }
    {
        if !self.process(p).mode().is_lost() {
            return Some(Refusal::NotDown);
        }
        if room <= self.open_jobs() {
            return Some(Refusal::JournalFull);
        }
        None
    }

    /// A process restores its checkpoint, and plans to replay the messages that senders logged
    /// under the next RSNs. Answers how many messages it keeps. All others have to be up.
    pub fn recover(&mut self, room: u32, p: u8) -> Result<u32, Refusal>
        requires { self.old.calls + room ≤ ENTRIES }
        ensures step { Simulates self.old self.new room (Call.Recover p) (answering Answer.Kept result) }
        ensures calls { OnOk result (self.new.calls ≡ self.old.calls + 1) }
    {
        if let Some(refusal) = self.recover_cause(room, p) {
            return Err(refusal);
        }
        self.bring_back(room, p, false)
    }

    /// As `recover`, but in whatever state the other processes are.
    pub fn recover_alone(&mut self, room: u32, p: u8) -> Result<u32, Refusal>
        requires { self.old.calls + room ≤ ENTRIES }
        ensures step { Simulates self.old self.new room (Call.RecoverAlone p) (answering Answer.Kept result) }
        ensures calls { OnOk result (self.new.calls ≡ self.old.calls + 1) }
    {
        if let Some(refusal) = self.recover_alone_cause(room, p) {
            return Err(refusal);
        }
        self.bring_back(room, p, true)
    }

    // A process comes back. It takes its memory first.
    fn bring_back(&mut self, room: u32, p: u8, alone: bool) -> Result<u32, Refusal>
        requires { MayRecover self.old room p alone }
        ensures step { Simulates self.old self.new room (recovery_of p alone) (answering Answer.Kept result) }
        ensures calls { OnOk result (self.new.calls ≡ self.old.calls + 1) }
    {
        let Ok(remains) = self.remains_of(p) else {
            return Err(Refusal::Memory);
        };
        Ok(self.put_back(room, p, alone, remains))
    }

    // What is left of a process that is down.
    fn remains_of(&self, p: u8) -> Result<Remains, AllocError>
        requires { (1 ≤ p) × (p ≤ length self.now.processes) }
        ensures { IfOk result (IsLeftOf self.now p) }
    {
        let stable = self.process(p).stable();
        let state = Vec::from_slice(self.alloc, stable.state())?;
        let (receipts, outbox) = stable.restore(self.alloc)?;
        let plan = self.plan(p, &receipts)?;
        Ok(Remains {
            state,
            receipts,
            outbox,
            plan,
        })
    }

    // Puts a process back from what is left of it. Answers how many messages it keeps.
    fn put_back(&mut self, room: u32, p: u8, alone: bool, remains: Remains) -> u32
        requires may { MayRecover self.old room p alone }
        requires left { IsLeftOf self.old p remains }
        ensures step { Simulates self.old self.new room (recovery_of p alone) (Ok (Answer.Kept result)) }
        ensures calls { self.new.calls ≡ self.old.calls + 1 }
    {
        let kept = remains.receipts.length() + remains.plan.len();
        let is_whole = remains.plan.is_empty();
        self.forget_after(p, kept);
        let process = &mut self.processes[p as usize - 1];
        let Remains {
            state,
            receipts,
            outbox,
            plan,
        } = remains;
        process.recover(state, receipts, outbox, plan, alone);
        if is_whole {
            self.settle(p, alone);
        }
        self.calls += 1;
        kept
    }

    // The plan of p after these receipts: the messages to p that any log has under the next RSNs,
    // up to the first gap.
    fn plan(&self, p: u8, receipts: &Receipts) -> Result<Plan, AllocError>
        ensures plan { IfOk result (λ plan. IsPlan (found (logs_of self.now) p) receipts.now.senders plan.messages) }
        ensures start { IfOk result (λ plan. (plan.before ≡ length receipts.now.senders) × (plan.replayed ≡ 0)) }
    {
        let mut logs = [self.outside.log(); PARTIES];
        for (place, process) in self.processes.iter().enumerate() {
            logs[place + 1] = process.outbox().log();
        }
        collect_from(self.alloc, &logs[..self.processes.len() + 1], p, receipts)
    }

    // All senders forget the RSNs above this one of their messages to p.
    fn forget_after(&mut self, p: u8, rsn: u32)
        ensures { self.new ≡ forgotten p rsn self.old }
    {
        self.outside.unnumber_after(p, rsn);
        for process in self.processes.iter_mut() {
            process.unnumber_after(p, rsn);
        }
    }

    // A process has replayed all. It begins to restore its RSNs, or if it has no peers is up.
    pub(crate) fn settle(&mut self, p: u8, alone: bool)
        requires { MaySettle self.old p }
        ensures { SettlesAt p alone self.old self.new }
    {
        let alloc = self.alloc;
        let peers = self.peers(p, alone);
        self.processes[p as usize - 1].settle(alloc, peers);
    }

    // The peers from whose receipts a process restores its RSNs: all others, or if it came back
    // alone those that are up.
    fn peers(&self, p: u8, alone: bool) -> Peers
        ensures { ArePeersOf self.now p alone result }
    {
        let mut peers = Peers::none();
        for q in 1..self.count() + 1 {
            peers.set(q, q != p && (!alone || self.is_up(q)));
        }
        peers
    }
}
