//! Calls that are given as values.

ghost use Rattle.std.specs.Prelude.{◌≡◌, ◌+◌, ◌≤◌, IfOk, OnOk, option_and_then};
ghost use Rattle.world.specs.World.{World};
ghost use Rattle.world.specs.Refusals.{refusal_of, cause_of};
ghost use Rattle.world.specs.Legal.{is_single};
ghost use Rattle.machine.specs.Arrival.{answer_of};
ghost use Rattle.machine.specs.Simulation.{Stands, Simulates, answering, IsTold};
ghost use Rattle.machine.specs.Dispatch.{IsJobless, OpensJob, TakesNoResult, answer_in, job_in};

use crate::arrival::Arrival;
use crate::machine::Machine;
use limits::ENTRIES;
use replay::Invocation;
use world::{Answer, Call, Feed, Refusal};

/// The result of an accepted call: the answer that a journal keeps, and the job that it started.
#[derive(Drop)]
pub struct Reply<J: Drop> {
    pub answer: Answer,
    pub job: Option<J>,
}

impl Reply<Invocation> {
    // The reply to an arrival.
    fn of(arrival: Arrival<Invocation>) -> Reply<Invocation>
        ensures answer { result.answer ≡ answer_of arrival }
        ensures job { result.job ≡ job_in arrival }
    {
        let answer = arrival.answer();
        let job = match arrival {
            Arrival::Started(job) => Some(job),
            _ => None,
        };
        Reply { answer, job }
    }
}

impl Machine {
    /// Why a call would be refused, lack of memory apart. It isn't for a finish, which is refused
    /// by its result.
    pub fn cause(&self, room: u32, call: &Call) -> Option<Refusal>
        requires result { TakesNoResult call.now }
        requires room { room ≤ ENTRIES }
        ensures cause { (w : World) → Stands self.now w → refusal_of w room call.now ≡ option_and_then cause_of result }
        ensures told { IsTold result }
    {
        match *call {
            Call::Input { to, feed, payload } => {
                let feed = Feed {
                    number: feed,
                    dst: to,
                    payload,
                };
                self.input_cause(room, &feed)
            }
            Call::Transmit { from, to, ssn } => self.transmit_cause(room, from, to, ssn),
            Call::Copy { key } => self.copy_cause(room, key),
            Call::Lose { key } => self.lose_cause(room, key),
            Call::Arrive { key } => self.arrive_cause(room, key),
            Call::Finish { .. } => unreachable!(),
            Call::Checkpoint { process } => self.checkpoint_cause(room, process),
            Call::Trim { to } => self.trim_cause(room, to),
            Call::Crash { process } => self.crash_cause(room, process),
            Call::Recover { process } => self.recover_cause(room, process),
            Call::RecoverAlone { process } => self.recover_alone_cause(room, process),
            Call::ReplayBegin { process } => self.replay_begin_cause(room, process),
            Call::Resync { process, peer } => self.resync_cause(room, process, peer),
        }
    }

    /// Makes a call by the method of its name, and answers what the journal keeps of it and the job
    /// that it started. It isn't for a finish, which takes a result: see `finish`.
    pub fn step(&mut self, room: u32, call: &Call) -> Result<Reply<Invocation>, Refusal>
        requires result { TakesNoResult call.now }
        requires room { self.old.calls + room ≤ ENTRIES }
        ensures step { Simulates self.old self.new room call.now (answering answer_in result) }
        ensures job { IfOk result (OpensJob self.old self.new call.now) }
        ensures calls { OnOk result (self.new.calls ≡ self.old.calls + 1) }
    {
        match *call {
            Call::Arrive { key } => {
                let arrival = self.arrive(room, key)?;
                Ok(Reply::of(arrival))
            }
            Call::ReplayBegin { process } => {
                let job = self.replay_begin(room, process)?;
                let answer = Answer::Started(job.task().serial());
                Ok(Reply {
                    answer,
                    job: Some(job),
                })
            }
            _ => {
                let answer = self.perform(room, call)?;
                Ok(Reply { answer, job: None })
            }
        }
    }

    // Makes a call that neither starts nor ends a job, and answers what the journal keeps of it.
    fn perform(&mut self, room: u32, call: &Call) -> Result<Answer, Refusal>
        requires jobless { IsJobless call.now }
        requires room { self.old.calls + room ≤ ENTRIES }
        ensures step { Simulates self.old self.new room call.now result }
        ensures calls { OnOk result (self.new.calls ≡ self.old.calls + 1) }
    {
        match *call {
            Call::Input { to, feed, payload } => {
                let feed = Feed {
                    number: feed,
                    dst: to,
                    payload,
                };
                Ok(Answer::Logged(self.input(room, &feed)?))
            }
            Call::Transmit { from, to, ssn } => {
                Ok(Answer::Placed(self.transmit(room, from, to, ssn)?))
            }
            Call::Copy { key } => Ok(Answer::Placed(self.copy(room, key)?)),
            Call::Lose { key } => {
                self.lose(room, key)?;
                Ok(Answer::Lost)
            }
            Call::Checkpoint { process } => Ok(Answer::Saved(self.checkpoint(room, process)?)),
            Call::Trim { to } => Ok(Answer::Trimmed(self.trim(room, to)?)),
            Call::Crash { process } => Ok(Answer::Crashed(self.crash(room, process)?)),
            Call::Recover { process } => Ok(Answer::Kept(self.recover(room, process)?)),
            Call::RecoverAlone { process } => Ok(Answer::Kept(self.recover_alone(room, process)?)),
            Call::Resync { process, peer } => {
                Ok(Answer::Restored(self.resync(room, process, peer)?))
            }
            _ => unreachable!(),
        }
    }

    /// Whether a call keeps failures single: no crash while another process isn't up, and no
    /// recovery alone.
    pub fn keeps_single(&self, call: &Call) -> bool
        ensures { (w : World) → Stands self.now w → result ≡ is_single w call.now }
    {
        match *call {
            Call::Crash { process } => self.others_are_up(process),
            Call::RecoverAlone { .. } => false,
            _ => true,
        }
    }
}
