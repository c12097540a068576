//! Calls that a session picks and makes itself.

ghost use Rattle.std.specs.Prelude.{◌≡◌, ℕ, ◌<◌, ◌≤◌, IfErr, IfNone, IfOk, IfSome, None, Option};
ghost use Rattle.world.specs.declared.refusal.Refusal.TheVariants.{Memory};
ghost use Rattle.machine.specs.Choice.{IsPick, IsMove};
ghost use Rattle.machine.specs.Dispatch.{TakesNoResult};
ghost use Rattle.sessions.specs.Journal.{world_at, room_at};
ghost use Rattle.sessions.specs.Driver.{Advances, Driven, IsDone, IsQuiet};
ghost use Rattle.sessions.specs.Service.{own_seat, seat_of};

use crate::service::Service;
use limits::ENTRIES;
use world::{Call, Refusal};

/// The room of an empty journal.
const ALL_ROOM: u32 = ENTRIES as u32;

impl Service {
    /// A useful call that could be refused only for lack of memory; `None` only if there is none.
    /// Takes no memory.
    pub fn pick(&self) -> Option<Call>
        ensures some { IfSome result (λ call. IsPick (world_at self.now) (room_at self.now) call) }
        ensures none { IfNone result (IsQuiet self.now) }
        ensures moves { IfSome result IsMove }
        ensures result { IfSome result TakesNoResult }
    {
        self.machine.pick(self.journal.room())
    }

    /// A useful call that could be refused only for a full journal or lack of memory; `None` only
    /// if there is none. If `pick` has none and this has one, the journal is full. Takes no memory.
    pub fn outstanding(&self) -> Option<Call>
        ensures some { IfSome result (λ call. IsPick (world_at self.now) ENTRIES call) }
        ensures none { IfNone result (IsDone self.now) }
        ensures moves { IfSome result IsMove }
    {
        self.machine.pick(ALL_ROOM)
    }

    /// Picks calls and makes them until no call can be picked or `budget` calls were accepted.
    /// Answers how many were accepted. A packet that can arrive comes first, then a message that
    /// can be replayed, then RSNs that can be restored, then a message that can go on the wire. It
    /// sends no message that is already on the wire, or that its receiver has under an acknowledged
    /// RSN. A job that starts is run and finished at once, even if that passes the budget. It
    /// refuses only for lack of memory: earlier calls stay accepted, and a job whose result was
    /// refused stays open.
    pub fn drive(&mut self, budget: u32) -> Result<u32, Refusal>
        ensures { Driven budget self.old self.new (own_seat self.old) (own_seat self.new) result }
    {
        self.drive_of(0, budget)
    }

    /// What `drive` does, as this worker.
    pub(crate) fn drive_of(&mut self, worker: u8, budget: u32) -> Result<u32, Refusal>
        ensures { Driven budget self.old self.new (seat_of worker self.old) (seat_of worker self.new) result }
    {
        let mut accepted = 0;
        while accepted < budget {
            let Some(call) = self.pick() else {
                return Ok(accepted);
            };
            accepted += self.advance(worker, &call)?;
        }
        Ok(accepted)
    }

    // Makes a picked call and finishes the job that it starts. Answers how many calls were
    // accepted.
    fn advance(&mut self, worker: u8, call: &Call) -> Result<u32, Refusal>
        requires pick { IsPick (world_at self.old) (room_at self.old) call.now }
        requires result { TakesNoResult call.now }
        ensures count { IfOk result (λ n. (0 < n) × (n ≤ 2)) }
        ensures ok { IfOk result (λ n. Advances 1 self.old self.new (seat_of worker self.old) (seat_of worker self.new) n None) }
        ensures err { IfErr result (λ r. (r ≡ Memory) × ((n : ℕ) × (left : Option ℕ) × Advances 1 self.old self.new (seat_of worker self.old) (seat_of worker self.new) n left)) }
    {
        let reply = self.call_of(worker, call)?;
        let Some(job) = reply.job else {
            return Ok(1);
        };
        // The handler runs outside of machine and session.
        let Err((refusal, _)) = self.finish_of(worker, Service::run(job)) else {
            return Ok(2);
        };
        Err(refusal)
    }
}
