//! What can be read of a session of many callers.

ghost use Rattle.std.specs.Prelude.{◌≡◌, ◌≤◌, [], true, false, length};
ghost use Rattle.world.specs.Phases.{name_of, is_down};
ghost use Rattle.world.specs.Bounds.{open_jobs};
ghost use Rattle.world.specs.Logs.{state_of, length_of};
ghost use Rattle.machine.specs.Checkpoints.{IsSavedOf};
ghost use Rattle.theorems.specs.Kept.{HasKept};
ghost use Rattle.theorems.specs.Orphans.{NoOrphan, ShownBegin};
ghost use Rattle.sessions.specs.Journal.{IsExact, IsLegal, is_exact, world_at};

use crate::session::Session;
use crate::slip::Slip;
use helpers::Refused;
use limits::ENTRIES;
use std::sync::ledger::Ledger;
use world::{Message, PhaseName};

impl<L: Ledger> Session<L> {
    /// The accepted calls with their answers, the first one first.
    pub fn journal(&self) -> &[Slip]
        ensures entries { result.now ≡ self.now.entries }
        ensures bound { length self.now.entries ≤ ENTRIES }
        ensures legal { IsLegal self.now }
        ensures kept { HasKept (world_at self.now) }
        ensures no_orphan { IsExact self.now → NoOrphan (world_at self.now) }
        ensures output_once { IsExact self.now → ShownBegin (world_at self.now) }
    {
        self.service.journal()
    }

    /// The state of a process, which is empty while the process is down.
    pub fn state(&self, p: u8) -> &[u8]
        requires { (1 ≤ p) × (p ≤ length self.now.images) }
        ensures live { is_down ((world_at self.now).phase p) ≡ false → result.now ≡ state_of (world_at self.now) p }
        ensures down { is_down ((world_at self.now).phase p) ≡ true → result.now ≡ [] }
    {
        self.service.state(p)
    }

    /// How many messages are in its state. While it is down, those of its checkpoint.
    pub fn length(&self, p: u8) -> u32
        requires { (1 ≤ p) × (p ≤ length self.now.images) }
        ensures { result ≡ length_of (world_at self.now) p }
    {
        self.service.length(p)
    }

    /// The name of its phase.
    pub fn phase(&self, p: u8) -> PhaseName
        requires { (1 ≤ p) × (p ≤ length self.now.images) }
        ensures { result ≡ name_of ((world_at self.now).phase p) }
    {
        self.service.phase(p)
    }

    /// The bytes of its latest checkpoint, in the second form (docs/FORMATS.md).
    pub fn saved(&self, p: u8) -> &[u8]
        requires { (1 ≤ p) × (p ≤ length self.now.images) }
        ensures { IsSavedOf (world_at self.now) p result.now }
    {
        self.service.saved(p)
    }

    /// The outputs that the outside was shown, in order. If failures came one at a time, each is
    /// there once, and its sender's history sends it.
    pub fn shown(&self) -> &[Message]
        ensures value { result.now ≡ (world_at self.now).shown }
        ensures no_orphan { IsExact self.now → NoOrphan (world_at self.now) }
        ensures output_once { IsExact self.now → ShownBegin (world_at self.now) }
    {
        self.service.shown()
    }

    /// How many jobs are open.
    pub fn open_jobs(&self) -> u32
        ensures { result ≡ open_jobs (world_at self.now) }
    {
        self.service.open_jobs()
    }

    /// Whether failures came one at a time: no process crashed while another wasn't up, and none
    /// came back alone.
    pub fn exact(&self) -> bool
        ensures { result ≡ is_exact self.now }
    {
        self.service.exact()
    }

    /// How many effects of a process's handler were refused, as a `Service` tells it.
    pub fn refused(&self, process: u8) -> Refused {
        self.service.refused(process)
    }
}
