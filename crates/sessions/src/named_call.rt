//! The calls of a session of one caller, each by its name. docs/FORMATS.md, "Refusals of a
//! session", says what each refuses, and in which order.

ghost use Rattle.std.specs.Prelude.{◌≡◌, IfOk};
ghost use Rattle.machine.specs.Simulation.{answering};
ghost use Rattle.machine.specs.Dispatch.{TakesNoResult};
ghost use Rattle.sessions.specs.Fields.{HasNumber, number_in, numbered};
ghost use Rattle.sessions.specs.Job.{IsJobAt, arrival_of};
ghost use Rattle.sessions.specs.Journal.{HandsOut, IsOpenAt, ReturnsTo, world_at};
ghost use Rattle.sessions.specs.Service.{Owes, Returns};

use crate::job::Job;
use crate::service::Service;
use machine::Arrival;
use world::{Answer, Call, Feed, Refusal};

// The number in an answer, 0 if it has none.
pub(crate) fn number_in(answer: &Answer) -> u32
    ensures { result ≡ number_in answer.now }
{
    match *answer {
        Answer::Logged(count)
        | Answer::Saved(count)
        | Answer::Trimmed(count)
        | Answer::Crashed(count)
        | Answer::Kept(count)
        | Answer::Restored(count) => count,
        _ => 0,
    }
}

impl Service {
    // Makes a call, and answers what the journal keeps of it. A job that the call starts is given up.
    fn answer_to(&mut self, call: &Call) -> Result<Answer, Refusal>
        requires { TakesNoResult call.now }
        ensures adds { Owes self.old self.new call.now result }
        ensures exactly { IfOk result (Returns self.old self.new call.now) }
    {
        let reply = self.call(call)?;
        Ok(reply.answer)
    }

    // Makes a call whose answer is a number, and answers that.
    fn number(&mut self, call: &Call) -> Result<u32, Refusal>
        requires number { HasNumber call.now }
        requires result { TakesNoResult call.now }
        ensures adds { Owes self.old self.new call.now (answering (numbered call.now) result) }
        ensures exactly { IfOk result (λ n. Returns self.old self.new call.now (numbered call.now n)) }
    {
        let answer = self.answer_to(call)?;
        Ok(number_in(&answer))
    }

    /// Logs a message of the outside for a process, and answers its SSN. A feed number is taken once.
    ///
    /// ```text
    /// let ssn = service.input(&Feed { number: 1, dst: 1, payload })?;
    /// ```
    pub fn input(&mut self, feed: &Feed) -> Result<u32, Refusal>
        ensures { Owes self.old self.new (Call.Input feed.now.dst feed.now.number feed.now.payload) (answering Answer.Logged result) }
    {
        self.number(&Call::Input {
            to: feed.dst,
            feed: feed.number,
            payload: feed.payload,
        })
    }

    /// Puts a logged and released message on the wire, and answers the key of its packet. 0 is the
    /// outside.
    ///
    /// ```text
    /// let key = service.transmit(0, 1, 1)?;
    /// ```
    pub fn transmit(&mut self, from: u8, to: u8, ssn: u32) -> Result<usize, Refusal>
        ensures { Owes self.old self.new (Call.Transmit from to ssn) (answering Answer.Placed result) }
    {
        let answer = self.answer_to(&Call::Transmit { from, to, ssn })?;
        let Answer::Placed(key) = answer else {
            unreachable!()
        };
        Ok(key)
    }

    /// Puts a packet on the wire a second time, and answers the key of the copy.
    ///
    /// ```text
    /// let copy = service.copy(key)?;
    /// ```
    pub fn copy(&mut self, key: usize) -> Result<usize, Refusal>
        ensures { Owes self.old self.new (Call.Copy key) (answering Answer.Placed result) }
    {
        let answer = self.answer_to(&Call::Copy { key })?;
        let Answer::Placed(copy) = answer else {
            unreachable!()
        };
        Ok(copy)
    }

    /// The wire loses a packet, which reaches nobody.
    ///
    /// ```text
    /// service.lose(copy)?;
    /// ```
    pub fn lose(&mut self, key: usize) -> Result<(), Refusal>
        ensures { Owes self.old self.new (Call.Lose key) (answering (λ _. Answer.Lost) result) }
    {
        self.answer_to(&Call::Lose { key })?;
        Ok(())
    }

    /// Takes a packet from the wire to its receiver, and answers what it did there. A message that
    /// is the next of its sender starts a job at a process.
    ///
    /// ```text
    /// if let Arrival::Started(job) = service.arrive(key)? {
    ///     let committed = service.finish(Service::run(job))?;
    /// }
    /// ```
    pub fn arrive(&mut self, key: usize) -> Result<Arrival<Job>, Refusal>
        ensures adds { Owes self.old self.new (Call.Arrive key) (answering arrival_of result) }
        ensures job { IfOk result (HandsOut self.new) }
        ensures target { IfOk result (IsJobAt ((world_at self.old).wire key)) }
    {
        self.arrive_of(0, key)
    }

    /// Saves a process, and answers how many messages its checkpoint covers.
    ///
    /// ```text
    /// let covered = service.checkpoint(1)?;
    /// ```
    pub fn checkpoint(&mut self, p: u8) -> Result<u32, Refusal>
        ensures { Owes self.old self.new (Call.Checkpoint p) (answering Answer.Saved result) }
    {
        self.number(&Call::Checkpoint { process: p })
    }

    /// Each sender that is up drops its messages to this one that its checkpoint covers, or if it
    /// is the outside (0) those that were shown. Answers how many.
    ///
    /// ```text
    /// let dropped = service.trim(1)?;
    /// ```
    pub fn trim(&mut self, to: u8) -> Result<u32, Refusal>
        ensures { Owes self.old self.new (Call.Trim to) (answering Answer.Trimmed result) }
    {
        self.number(&Call::Trim { to })
    }

    /// A process loses all but its checkpoint, and answers its new incarnation.
    ///
    /// ```text
    /// let incarnation = service.crash(1)?;
    /// ```
    pub fn crash(&mut self, p: u8) -> Result<u32, Refusal>
        ensures { Owes self.old self.new (Call.Crash p) (answering Answer.Crashed result) }
    {
        self.number(&Call::Crash { process: p })
    }

    /// A process comes back, and answers how many messages it keeps. Every other one has to be up.
    ///
    /// ```text
    /// let kept = service.recover(1)?;
    /// ```
    pub fn recover(&mut self, p: u8) -> Result<u32, Refusal>
        ensures adds { Owes self.old self.new (Call.Recover p) (answering Answer.Kept result) }
        ensures exactly { IfOk result (ReturnsTo self.old self.new p) }
    {
        self.number(&Call::Recover { process: p })
    }

    /// As `recover`, but in whatever state the other processes are. After it failures didn't come
    /// one at a time.
    ///
    /// ```text
    /// let kept = service.recover_alone(1)?;
    /// ```
    pub fn recover_alone(&mut self, p: u8) -> Result<u32, Refusal>
        ensures { Owes self.old self.new (Call.RecoverAlone p) (answering Answer.Kept result) }
    {
        self.number(&Call::RecoverAlone { process: p })
    }

    /// Starts the next job of a process that replays.
    ///
    /// ```text
    /// let job = service.replay_begin(1)?;
    /// ```
    pub fn replay_begin(&mut self, p: u8) -> Result<Job, Refusal>
        ensures adds { Owes self.old self.new (Call.ReplayBegin p) (answering (λ job. Answer.Started job.task.serial) result) }
        ensures job { IfOk result (IsOpenAt self.new) }
        ensures target { IfOk result (λ job. job.task.who.me ≡ p) }
    {
        self.replay_begin_of(0, p)
    }

    /// Gives the messages that a process sent to a peer the RSNs under which the peer received
    /// them, and answers how many got one.
    ///
    /// ```text
    /// let restored = service.resync(1, 2)?;
    /// ```
    pub fn resync(&mut self, p: u8, peer: u8) -> Result<u32, Refusal>
        ensures { Owes self.old self.new (Call.Resync p peer) (answering Answer.Restored result) }
    {
        self.number(&Call::Resync { process: p, peer })
    }
}
