//! A machine, and how it is read.

ghost use Rattle.std.specs.Prelude.{◌≡◌, ℕ, ◌+◌, ◌<◌, ◌≤◌, ◌&&◌, [], true, false, IfOk, is_some, count_by, length, nat_lt, nat_le};
ghost use Rattle.std.specs.List.{All};
ghost use Rattle.world.specs.Phases.{name_of, is_down};
ghost use Rattle.world.specs.World.{World};
ghost use Rattle.world.specs.Logs.{state_of, length_of};
ghost use Rattle.machine.specs.Dispatch.{receiver_of};
ghost use Rattle.machine.specs.Simulation.{Stands, process_at, log_at, is_up_at};
ghost use Rattle.machine.specs.Transmission.{live};
ghost use Rattle.machine.specs.Openings.{Opens, AreIdle};
ghost use Rattle.machine.specs.Readings.{ReceiptsStand, LogStands, GateStands};

use helpers::Who;
use limits::{PROCESSES, STATE_BYTES};
use replay::Spare;
use rsn::Receipts;
use send_gate::Gate;
use sender_log::Log;
use session_process::{Mode, Outside, Process, Wire};
use std::alloc::{AllocError, Global};
use std::marker::Model;
use world::{Message, Packet, PhaseName, Refusal};

/// Processes 1 to n, the outside and the wire.
#[derive(Drop)]
pub struct Machine {
    pub(crate) alloc: Global,
    /// How many bytes the state of each process has.
    pub(crate) lengths: Vec<u16>,
    pub(crate) processes: Vec<Process>,
    pub(crate) outside: Outside,
    pub(crate) wire: Wire,
    pub(crate) started: u32,
    pub(crate) calls: u32,
    /// The buffers of the job that was finished last.
    pub(crate) spare: Option<Spare>,
}

impl Model for Machine {
    ghost use Rattle.machine.specs.Simulation.{TheMachine};

    ghost Value = { TheMachine };

    ghost use Rattle.machine.specs.Fields.{view_of, IsSound};

    ghost view = { view_of };

    ghost invariant = { IsSound };
}

// For each of these lengths a process that received nothing, numbered from 1.
fn idle_processes(alloc: Global, lengths: &[u16]) -> Result<Vec<Process>, AllocError>
    requires few { length lengths.now ≤ PROCESSES }
    requires short { All (λ len. len ≤ STATE_BYTES) lengths.now }
    ensures { IfOk result (λ v. AreIdle (length lengths.now) lengths.now v.items) }
{
    let n = lengths.len() as u8;
    let mut processes = Vec::new(alloc);
    for len in lengths {
        let me = processes.len() as u8 + 1;
        processes.push(Process::new(alloc, me, n, *len)?)?;
    }
    Ok(processes)
}

impl Machine {
    /// A machine of 1 to 15 processes with states of these lengths. They have received nothing.
    pub fn open(alloc: Global, lengths: Vec<u16>) -> Result<Machine, Refusal>
        requires { All (λ len. len ≤ STATE_BYTES) lengths.items }
        ensures { Opens lengths.items result }
    {
        let count = lengths.len();
        if count == 0 || count > PROCESSES {
            return Err(Refusal::NoSuchProcess);
        }
        let processes = idle_processes(alloc, lengths.as_slice())?;
        let outside = Outside::new(alloc, count as u8)?;
        Ok(Machine {
            alloc,
            lengths,
            processes,
            outside,
            wire: Wire::new(alloc),
            started: 0,
            calls: 0,
            spare: None,
        })
    }

    /// How many processes there are, 1 to 15.
    pub fn count(&self) -> u8
        ensures value { result ≡ length self.now.processes }
        ensures some { (1 ≤ result) × (result ≤ PROCESSES) }
    {
        self.processes.len() as u8
    }

    /// How many calls were accepted.
    pub fn calls(&self) -> u32
        ensures { result ≡ self.now.calls }
    {
        self.calls
    }

    /// The outputs that the outside was shown, in order.
    pub fn shown(&self) -> &[Message]
        ensures { (w : World) → Stands self.now w → result.now ≡ w.shown }
    {
        self.outside.shown()
    }

    /// The packet under this key.
    pub fn packet(&self, key: usize) -> Option<Packet>
        ensures { (w : World) → Stands self.now w → result ≡ w.wire key }
    {
        self.wire.get(key)
    }

    /// The process for which the packet under this key is a message. 0 if it is an output, another
    /// packet, or none.
    pub fn receiver(&self, key: usize) -> u8
        ensures { (w : World) → Stands self.now w → result ≡ receiver_of (w.wire key) }
    {
        match self.wire.peek(key) {
            Some(Packet::Delivery { to, .. }) => *to,
            _ => 0,
        }
    }

    /// The state of a process, which is empty while the process is down.
    pub fn state(&self, p: u8) -> &[u8]
        requires { (1 ≤ p) × (p ≤ length self.now.processes) }
        ensures live { (w : World) → Stands self.now w → is_down (w.phase p) ≡ false → result.now ≡ state_of w p }
        ensures down { (w : World) → Stands self.now w → is_down (w.phase p) ≡ true → result.now ≡ [] }
    {
        self.process(p).state()
    }

    /// How many messages are in its state. While it is down, those of its checkpoint.
    pub fn length(&self, p: u8) -> u32
        requires { (1 ≤ p) × (p ≤ length self.now.processes) }
        ensures { (w : World) → Stands self.now w → result ≡ length_of w p }
    {
        let process = self.process(p);
        if process.mode().is_lost() {
            return process.stable().length();
        }
        process.length()
    }

    /// The name of its phase.
    pub fn phase(&self, p: u8) -> PhaseName
        requires { (1 ≤ p) × (p ≤ length self.now.processes) }
        ensures { (w : World) → Stands self.now w → result ≡ name_of (w.phase p) }
    {
        let process = self.process(p);
        match process.mode() {
            Mode::Live if process.working().is_some() => PhaseName::Busy,
            Mode::Live => PhaseName::Up,
            Mode::Down => PhaseName::Down,
            Mode::Replaying { .. } => PhaseName::Replaying,
            Mode::Resync(_) => PhaseName::Resync,
        }
    }

    /// Its incarnation, from 1.
    pub fn incarnation(&self, p: u8) -> u32
        requires { (1 ≤ p) × (p ≤ length self.now.processes) }
        ensures { (w : World) → Stands self.now w → result ≡ w.incarnation p }
    {
        self.process(p).incarnation()
    }

    /// The senders of the messages that it received, and which messages are acknowledged.
    pub fn receipts(&self, p: u8) -> &Receipts
        requires { (1 ≤ p) × (p ≤ length self.now.processes) }
        ensures { (w : World) → Stands self.now w → ReceiptsStand w p result.now }
    {
        self.process(p).receipts()
    }

    /// The messages that it sent, with their RSNs. 0 is the outside, which sent its inputs.
    pub fn log(&self, p: u8) -> &Log
        requires { p ≤ length self.now.processes }
        ensures value { result.now ≡ log_at self.now p }
        ensures sent { (w : World) → Stands self.now w → LogStands w p result.now }
    {
        if p == 0 {
            return self.outside.log();
        }
        self.process(p).outbox().log()
    }

    /// Its sends that wait, and how many were released to each destination.
    pub fn gate(&self, p: u8) -> &Gate
        requires { (1 ≤ p) × (p ≤ length self.now.processes) }
        ensures { (w : World) → Stands self.now w → GateStands w p result.now }
    {
        self.process(p).outbox().gate()
    }

    // The process with this number.
    pub(crate) fn process(&self, p: u8) -> &Process
        requires { (1 ≤ p) × (p ≤ length self.now.processes) }
        ensures value { result.now ≡ process_at self.now p }
        ensures few { length self.now.processes ≤ PROCESSES }
    {
        &self.processes[p as usize - 1]
    }

    // Whether this is a process and not the outside.
    pub(crate) fn is_inside(&self, p: u8) -> bool
        ensures { result ≡ (nat_lt 0 p && nat_le p (length self.now.processes)) }
    {
        p > 0 && p as usize <= self.processes.len()
    }

    /// How many jobs are open. A process has at most one.
    pub fn open_jobs(&self) -> u32
        ensures value { result ≡ count_by (λ x. is_some x.working) self.now.processes }
        ensures bound { result ≤ PROCESSES }
    {
        let open = self.processes.iter().filter(|p| p.working().is_some());
        open.count() as u32
    }

    // How many open jobs are of processes that are up.
    pub(crate) fn live_jobs(&self) -> u32
        ensures value { result ≡ live self.now }
        ensures bound { result ≤ PROCESSES }
    {
        let open = self.processes.iter().filter(|p| p.is_busy());
        open.count() as u32
    }

    // Whether this one is up. The outside always is.
    pub(crate) fn is_up(&self, p: u8) -> bool
        requires { p ≤ length self.now.processes }
        ensures { result ≡ is_up_at self.now p }
    {
        p == 0 || self.process(p).mode().is_live()
    }

    // How the process is called for a message of this sender.
    pub(crate) fn who(&self, me: u8, from: u8) -> Who
        ensures { result ≡ record { me = me; from = from; count = length self.now.processes } }
    {
        Who {
            me,
            from,
            count: self.count(),
        }
    }
}
