//! Jobs that are held.

ghost use Rattle.std.specs.Prelude.{◌≡◌, Some, slice_set};
ghost use Rattle.runner.specs.Orders.{held_for, without_job};
ghost use Rattle.runner.specs.Inside.{position_of};

use crate::player::Player;
use sessions::Job;

impl Player {
    /// Holds a job, in place of an earlier one of its process.
    pub(crate) fn hold(&mut self, job: Job)
        ensures { position_of self.new ≡ record (position_of self.old) { held = slice_set self.old.held.items job.task.who.me (Some job) } }
    {
        let place = job.task().who().me as usize;
        self.held[place] = Some(job);
    }

    /// Gives up the job that is held for a process.
    pub(crate) fn take(&mut self, process: u8) -> Option<Job>
        ensures job { result ≡ held_for (position_of self.old) process }
        ensures rest { position_of self.new ≡ without_job (position_of self.old) process }
    {
        let place = process as usize;
        if place >= self.held.len() {
            return None;
        }
        self.held[place].take()
    }
}
