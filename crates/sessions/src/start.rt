//! Calls that start a job, as a worker.

ghost use Rattle.std.specs.Prelude.{◌≡◌, ◌≤◌, IfOk, true, length};
ghost use Rattle.machine.specs.Simulation.{answering};
ghost use Rattle.world.specs.Useful.{may_call};
ghost use Rattle.sessions.specs.Journal.{HandsOut, IsOpenAt, world_at};
ghost use Rattle.sessions.specs.Job.{IsJobAt, arrival_of};
ghost use Rattle.sessions.specs.Service.{OwesAs};

use crate::handed::handed;
use crate::job::Job;
use crate::service::Service;
use crate::slip::Brief;
use limits::ENTRIES;
use machine::Arrival;
use world::{Answer, Call, Refusal};

impl Service {
    /// What `arrive` does, as this worker.
    pub(crate) fn arrive_of(&mut self, worker: u8, key: usize) -> Result<Arrival<Job>, Refusal>
        requires { may_call (world_at self.old) worker (Call.Arrive key) ≡ true }
        ensures adds { OwesAs worker self.old self.new (Call.Arrive key) (answering arrival_of result) }
        ensures job { IfOk result (HandsOut self.new) }
        ensures target { IfOk result (IsJobAt ((world_at self.old).wire key)) }
        ensures bound { length self.new.entries ≤ ENTRIES }
    {
        let call = Call::Arrive { key };
        let room = self.journal.room();
        let Ok(handler) = self.handler_for(&call) else {
            return Err(self.refusal(&call));
        };
        if !self.journal.reserve() {
            return Err(self.refusal(&call));
        }
        let arrival = self.machine.arrive(room, key)?;
        self.journal
            .append(worker, Brief::Arrive { key }, arrival.answer());
        Ok(handed(arrival, handler))
    }

    /// What `replay_begin` does, as this worker.
    pub(crate) fn replay_begin_of(&mut self, worker: u8, p: u8) -> Result<Job, Refusal>
        requires { may_call (world_at self.old) worker (Call.ReplayBegin p) ≡ true }
        ensures adds { OwesAs worker self.old self.new (Call.ReplayBegin p) (answering (λ job. Answer.Started job.task.serial) result) }
        ensures job { IfOk result (IsOpenAt self.new) }
        ensures target { IfOk result (λ job. job.task.who.me ≡ p) }
        ensures bound { length self.new.entries ≤ ENTRIES }
    {
        let call = Call::ReplayBegin { process: p };
        let room = self.journal.room();
        let Ok(handler) = self.handler_for(&call) else {
            return Err(self.refusal(&call));
        };
        if !self.journal.reserve() {
            return Err(self.refusal(&call));
        }
        let task = self.machine.replay_begin(room, p)?;
        let answer = Answer::Started(task.task().serial());
        self.journal
            .append(worker, Brief::ReplayBegin { process: p }, answer);
        let Some(handler) = handler else {
            unreachable!()
        };
        Ok(Job::new(task, handler))
    }
}
