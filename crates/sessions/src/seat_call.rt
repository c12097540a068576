//! The calls of a session by a seat, each by its name. docs/FORMATS.md, "Refusals of a session",
//! says what each refuses, and in which order.

ghost use Rattle.std.specs.Prelude.{◌≡◌, IfOk, true};
ghost use Rattle.machine.specs.Dispatch.{TakesNoResult};
ghost use Rattle.machine.specs.Simulation.{answering};
ghost use Rattle.world.specs.Useful.{may_call};
ghost use Rattle.sessions.specs.Fields.{HasNumber, numbered};
ghost use Rattle.sessions.specs.Job.{IsJobAt, arrival_of};
ghost use Rattle.sessions.specs.Journal.{Adds, HandsOut, IsOpenAt, ReturnsTo, world_at};
ghost use Rattle.sessions.specs.Service.{Returns};

use crate::job::Job;
use crate::named_call::number_in;
use crate::seat::Seat;
use crate::session::Session;
use machine::Arrival;
use std::sync::ledger::Ledger;
use world::{Answer, Call, Feed, Refusal};

impl<L: Ledger> Session<L> {
    // Makes a call, and answers what the journal keeps of it. A job that the call starts is given up.
    fn answer_to(&mut self, by: &mut Seat<L>, call: &Call) -> Result<Answer, Refusal>
        requires result { TakesNoResult call.now }
        requires may { may_call (world_at self.old) by.old.worker call.now ≡ true }
        ensures adds { Adds self.old self.new by.old by.new call.now result }
        ensures worker { by.new.worker ≡ by.old.worker }
        ensures exactly { IfOk result (Returns self.old self.new call.now) }
    {
        let reply = self.call(by, call)?;
        Ok(reply.answer)
    }

    // Makes a call whose answer is a number, and answers that.
    fn number(&mut self, by: &mut Seat<L>, call: &Call) -> Result<u32, Refusal>
        requires number { HasNumber call.now }
        requires result { TakesNoResult call.now }
        requires may { may_call (world_at self.old) by.old.worker call.now ≡ true }
        ensures adds { Adds self.old self.new by.old by.new call.now (answering (numbered call.now) result) }
        ensures worker { by.new.worker ≡ by.old.worker }
        ensures exactly { IfOk result (λ n. Returns self.old self.new call.now (numbered call.now n)) }
    {
        let answer = self.answer_to(by, call)?;
        Ok(number_in(&answer))
    }

    /// Logs a message of the outside for a process, and answers its SSN. A feed number is taken
    /// once. Any seat may call it.
    ///
    /// ```text
    /// let ssn = session.input(&mut seat, &Feed { number: 1, dst: 1, payload })?;
    /// ```
    pub fn input(&mut self, by: &mut Seat<L>, feed: &Feed) -> Result<u32, Refusal>
        ensures adds { Adds self.old self.new by.old by.new (Call.Input feed.now.dst feed.now.number feed.now.payload) (answering Answer.Logged result) }
        ensures worker { by.new.worker ≡ by.old.worker }
    {
        let call = Call::Input {
            to: feed.dst,
            feed: feed.number,
            payload: feed.payload,
        };
        self.number(by, &call)
    }

    /// Puts a logged and released message on the wire, and answers the key of its packet. 0 is the
    /// outside.
    ///
    /// ```text
    /// let key = session.transmit(&mut seat, 0, 1, 1)?;
    /// ```
    pub fn transmit(
        &mut self,
        by: &mut Seat<L>,
        from: u8,
        to: u8,
        ssn: u32,
    ) -> Result<usize, Refusal>
        requires { may_call (world_at self.old) by.old.worker (Call.Transmit from to ssn) ≡ true }
        ensures adds { Adds self.old self.new by.old by.new (Call.Transmit from to ssn) (answering Answer.Placed result) }
        ensures worker { by.new.worker ≡ by.old.worker }
    {
        let answer = self.answer_to(by, &Call::Transmit { from, to, ssn })?;
        let Answer::Placed(key) = answer else {
            unreachable!()
        };
        Ok(key)
    }

    /// Puts a packet on the wire a second time, and answers the key of the copy.
    ///
    /// ```text
    /// let copy = session.copy(&mut seat, key)?;
    /// ```
    pub fn copy(&mut self, by: &mut Seat<L>, key: usize) -> Result<usize, Refusal>
        requires { may_call (world_at self.old) by.old.worker (Call.Copy key) ≡ true }
        ensures adds { Adds self.old self.new by.old by.new (Call.Copy key) (answering Answer.Placed result) }
        ensures worker { by.new.worker ≡ by.old.worker }
    {
        let answer = self.answer_to(by, &Call::Copy { key })?;
        let Answer::Placed(copy) = answer else {
            unreachable!()
        };
        Ok(copy)
    }

    /// The wire loses a packet, which reaches nobody.
    ///
    /// ```text
    /// session.lose(&mut seat, copy)?;
    /// ```
    pub fn lose(&mut self, by: &mut Seat<L>, key: usize) -> Result<(), Refusal>
        requires { may_call (world_at self.old) by.old.worker (Call.Lose key) ≡ true }
        ensures adds { Adds self.old self.new by.old by.new (Call.Lose key) (answering (λ _. Answer.Lost) result) }
        ensures worker { by.new.worker ≡ by.old.worker }
    {
        self.answer_to(by, &Call::Lose { key })?;
        Ok(())
    }

    /// Takes a packet from the wire to its receiver, and answers what it did there. A message that
    /// is the next of its sender starts a job at a process.
    ///
    /// ```text
    /// if let Arrival::Started(job) = session.arrive(&mut seat, key)? {
    ///     let committed = session.finish(&mut seat, Service::run(job))?;
    /// }
    /// ```
    pub fn arrive(&mut self, by: &mut Seat<L>, key: usize) -> Result<Arrival<Job>, Refusal>
        requires { may_call (world_at self.old) by.old.worker (Call.Arrive key) ≡ true }
        ensures adds { Adds self.old self.new by.old by.new (Call.Arrive key) (answering arrival_of result) }
        ensures worker { by.new.worker ≡ by.old.worker }
        ensures job { IfOk result (HandsOut self.new) }
        ensures target { IfOk result (IsJobAt ((world_at self.old).wire key)) }
    {
        let arrival = self.service.arrive_of(by.worker(), key)?;
        by.answer(&mut self.book, 1);
        Ok(arrival)
    }

    /// Saves a process, and answers how many messages its checkpoint covers.
    ///
    /// ```text
    /// let covered = session.checkpoint(&mut seat, 1)?;
    /// ```
    pub fn checkpoint(&mut self, by: &mut Seat<L>, p: u8) -> Result<u32, Refusal>
        requires { may_call (world_at self.old) by.old.worker (Call.Checkpoint p) ≡ true }
        ensures adds { Adds self.old self.new by.old by.new (Call.Checkpoint p) (answering Answer.Saved result) }
        ensures worker { by.new.worker ≡ by.old.worker }
    {
        self.number(by, &Call::Checkpoint { process: p })
    }

    /// Each sender that is up drops its messages to this one that its checkpoint covers, or if it
    /// is the outside (0) those that were shown. Answers how many.
    ///
    /// ```text
    /// let dropped = session.trim(&mut seat, 1)?;
    /// ```
    pub fn trim(&mut self, by: &mut Seat<L>, to: u8) -> Result<u32, Refusal>
        requires { may_call (world_at self.old) by.old.worker (Call.Trim to) ≡ true }
        ensures adds { Adds self.old self.new by.old by.new (Call.Trim to) (answering Answer.Trimmed result) }
        ensures worker { by.new.worker ≡ by.old.worker }
    {
        self.number(by, &Call::Trim { to })
    }

    /// A process loses all but its checkpoint, and answers its new incarnation.
    ///
    /// ```text
    /// let incarnation = session.crash(&mut seat, 1)?;
    /// ```
    pub fn crash(&mut self, by: &mut Seat<L>, p: u8) -> Result<u32, Refusal>
        requires { may_call (world_at self.old) by.old.worker (Call.Crash p) ≡ true }
        ensures adds { Adds self.old self.new by.old by.new (Call.Crash p) (answering Answer.Crashed result) }
        ensures worker { by.new.worker ≡ by.old.worker }
    {
        self.number(by, &Call::Crash { process: p })
    }

    /// A process comes back, and answers how many messages it keeps. Every other one has to be up.
    ///
    /// ```text
    /// let kept = session.recover(&mut seat, 1)?;
    /// ```
    pub fn recover(&mut self, by: &mut Seat<L>, p: u8) -> Result<u32, Refusal>
        requires { may_call (world_at self.old) by.old.worker (Call.Recover p) ≡ true }
        ensures adds { Adds self.old self.new by.old by.new (Call.Recover p) (answering Answer.Kept result) }
        ensures worker { by.new.worker ≡ by.old.worker }
        ensures exactly { IfOk result (ReturnsTo self.old self.new p) }
    {
        self.number(by, &Call::Recover { process: p })
    }

    /// As `recover`, but in whatever state the other processes are. After it failures didn't come
    /// one at a time.
    ///
    /// ```text
    /// let kept = session.recover_alone(&mut seat, 1)?;
    /// ```
    pub fn recover_alone(&mut self, by: &mut Seat<L>, p: u8) -> Result<u32, Refusal>
        requires { may_call (world_at self.old) by.old.worker (Call.RecoverAlone p) ≡ true }
        ensures adds { Adds self.old self.new by.old by.new (Call.RecoverAlone p) (answering Answer.Kept result) }
        ensures worker { by.new.worker ≡ by.old.worker }
    {
        self.number(by, &Call::RecoverAlone { process: p })
    }

    /// Starts the next job of a process that replays.
    ///
    /// ```text
    /// let job = session.replay_begin(&mut seat, 1)?;
    /// ```
    pub fn replay_begin(&mut self, by: &mut Seat<L>, p: u8) -> Result<Job, Refusal>
        requires { may_call (world_at self.old) by.old.worker (Call.ReplayBegin p) ≡ true }
        ensures adds { Adds self.old self.new by.old by.new (Call.ReplayBegin p) (answering (λ job. Answer.Started job.task.serial) result) }
        ensures worker { by.new.worker ≡ by.old.worker }
        ensures job { IfOk result (IsOpenAt self.new) }
        ensures target { IfOk result (λ job. job.task.who.me ≡ p) }
    {
        let job = self.service.replay_begin_of(by.worker(), p)?;
        by.answer(&mut self.book, 1);
        Ok(job)
    }

    /// Gives the messages that a process sent to a peer the RSNs under which the peer received
    /// them, and answers how many got one.
    ///
    /// ```text
    /// let restored = session.resync(&mut seat, 1, 2)?;
    /// ```
    pub fn resync(&mut self, by: &mut Seat<L>, p: u8, peer: u8) -> Result<u32, Refusal>
        requires { may_call (world_at self.old) by.old.worker (Call.Resync p peer) ≡ true }
        ensures adds { Adds self.old self.new by.old by.new (Call.Resync p peer) (answering Answer.Restored result) }
        ensures worker { by.new.worker ≡ by.old.worker }
    {
        self.number(by, &Call::Resync { process: p, peer })
    }
}
