//! What can be read of a session of one caller.

ghost use Rattle.std.specs.Prelude.{◌≡◌, ◌≤◌, [], true, false, drop, length};
ghost use Rattle.world.specs.Phases.{name_of, is_down};
ghost use Rattle.world.specs.Bounds.{open_jobs};
ghost use Rattle.world.specs.Logs.{state_of, length_of};
ghost use Rattle.machine.specs.Checkpoints.{IsSavedOf};
ghost use Rattle.theorems.specs.Kept.{HasKept};
ghost use Rattle.theorems.specs.Orphans.{NoOrphan, ShownBegin};
ghost use Rattle.sessions.specs.Journal.{IsExact, IsLegal, is_exact, world_at};
ghost use Rattle.sessions.specs.Service.{KeepsPromises};
ghost use Rattle.sessions.specs.Logged.{logged};

use crate::service::Service;
use crate::slip::Slip;
use helpers::{Payload, Refused};
use limits::{ENTRIES, PROCESSES};
use world::{Message, PhaseName};

impl Service {
    /// How many processes there are, 1 to 15.
    pub fn count(&self) -> u8
        ensures value { result ≡ length self.now.images }
        ensures some { (1 ≤ result) × (result ≤ PROCESSES) }
    {
        self.machine.count()
    }

    /// The accepted calls with their answers, the first one first.
    pub fn journal(&self) -> &[Slip]
        ensures entries { result.now ≡ self.now.entries }
        ensures bound { length self.now.entries ≤ ENTRIES }
        ensures legal { IsLegal self.now }
        ensures kept { HasKept (world_at self.now) }
        ensures no_orphan { IsExact self.now → NoOrphan (world_at self.now) }
        ensures output_once { IsExact self.now → ShownBegin (world_at self.now) }
    {
        self.journal.as_slice()
    }

    /// States what its type keeps, whatever was called before. It does nothing.
    pub fn promises(&self)
        ensures { KeepsPromises self.now }
    {
        // For the proof: the contract of `journal` has each of the promises.
        let _entries = self.journal();
    }

    /// The state of a process, which is empty while the process is down.
    pub fn state(&self, p: u8) -> &[u8]
        requires { (1 ≤ p) × (p ≤ length self.now.images) }
        ensures live { is_down ((world_at self.now).phase p) ≡ false → result.now ≡ state_of (world_at self.now) p }
        ensures down { is_down ((world_at self.now).phase p) ≡ true → result.now ≡ [] }
    {
        self.machine.state(p)
    }

    /// How many messages are in its state. While it is down, those of its checkpoint.
    pub fn length(&self, p: u8) -> u32
        requires { (1 ≤ p) × (p ≤ length self.now.images) }
        ensures { result ≡ length_of (world_at self.now) p }
    {
        self.machine.length(p)
    }

    /// How many jobs are open.
    pub fn open_jobs(&self) -> u32
        ensures { result ≡ open_jobs (world_at self.now) }
    {
        self.machine.open_jobs()
    }

    /// The name of its phase.
    pub fn phase(&self, p: u8) -> PhaseName
        requires { (1 ≤ p) × (p ≤ length self.now.images) }
        ensures { result ≡ name_of ((world_at self.now).phase p) }
    {
        self.machine.phase(p)
    }

    /// The outputs that the outside was shown, in order. If failures came one at a time, each is
    /// there once, and its sender's history sends it.
    pub fn shown(&self) -> &[Message]
        ensures value { result.now ≡ (world_at self.now).shown }
        ensures no_orphan { IsExact self.now → NoOrphan (world_at self.now) }
        ensures output_once { IsExact self.now → ShownBegin (world_at self.now) }
    {
        self.machine.shown()
    }

    /// The outputs that were shown, without the first `since`.
    pub fn shown_since(&self, since: usize) -> &[Message]
        ensures value { result.now ≡ drop since (world_at self.now).shown }
        ensures no_orphan { IsExact self.now → NoOrphan (world_at self.now) }
        ensures output_once { IsExact self.now → ShownBegin (world_at self.now) }
    {
        let shown = self.shown();
        &shown[since.min(shown.len())..]
    }

    /// The payload of the message from one process to another with this SSN, if the log of its
    /// sender has it. Either may be the outside (0), whose messages are its inputs.
    pub fn logged(&self, from: u8, to: u8, ssn: u32) -> Option<Payload>
        ensures { result ≡ logged (world_at self.now) from to ssn }
    {
        let count = self.machine.count();
        if from > count || to > count || from == to {
            return None;
        }
        let (bytes, _) = self.machine.log(from).entry(to, ssn)?;
        Some(Payload::from_slice(bytes))
    }

    /// The bytes of a process's latest checkpoint, in the second form (docs/FORMATS.md).
    pub fn saved(&self, p: u8) -> &[u8]
        requires { (1 ≤ p) × (p ≤ length self.now.images) }
        ensures { IsSavedOf (world_at self.now) p result.now }
    {
        self.machine.saved(p)
    }

    /// Whether failures came one at a time: no process crashed while another wasn't up, and none
    /// came back alone.
    pub fn exact(&self) -> bool
        ensures { result ≡ is_exact self.now }
    {
        self.exact
    }

    /// How many sends and outputs of a process's handler the helpers refused, by cause, in the
    /// calls whose messages it received. A replay makes the same calls again and doesn't count. No
    /// contract covers it: it is only tested.
    pub fn refused(&self, process: u8) -> Refused {
        self.refused.of(process)
    }
}
