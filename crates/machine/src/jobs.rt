//! Jobs: how they are begun, compared and finished.

ghost use Rattle.std.specs.Prelude.{◌≡◌, ◌+◌, ◌≤◌, ◌↔◌, true, false, IsTrue, IfOk, IfErr, OnOk};
ghost use Rattle.world.specs.declared.refusal.Refusal.TheVariants.{Memory};
ghost use Rattle.machine.specs.Arrival.{Finishes};
ghost use Rattle.machine.specs.Jobs.{MayBegin, Begins, Matches};
ghost use Rattle.machine.specs.Simulation.{is_up_at};

use crate::arrival::Finished;
use crate::machine::Machine;
use limits::ENTRIES;
use replay::{Completion, Invocation, Ticket};
use world::{Message, Packet, Refusal};

impl Machine {
    // Opens a job of a process on a message. It takes its memory first.
    pub(crate) fn begin(&mut self, me: u8, message: &Message) -> Result<Invocation, Refusal>
        requires { MayBegin self.old me message.now }
        ensures ok { IfOk result (λ job. Begins self.old self.new me message.now job) }
        ensures err { IfErr result (λ r. (r ≡ Memory) × (self.new ≡ self.old)) }
    {
        let place = me as usize - 1;
        let who = self.who(me, message.sender);
        let process = self.process(me);
        let ticket = Ticket {
            serial: self.started + 1,
            incarnation: process.incarnation(),
            rsn: process.length() + 1,
        };
        let spare = self.spare.take();
        let begun = &self.processes[place];
        let job = Invocation::new(self.alloc, spare, ticket, begun.state(), *message, who)?;
        let process = &mut self.processes[place];
        process.begin(*message);
        self.started += 1;
        self.calls += 1;
        Ok(job)
    }

    /// The process that receives the message of a job, 1 to 15.
    pub fn receiver_of(done: &Completion) -> u8
        ensures { result ≡ done.now.task.who.me }
    {
        done.task().process()
    }

    /// Whether this is the result of the job that its process has open. All that the job took is
    /// compared, except its serial number.
    pub fn is_open(&self, done: &Completion) -> bool
        ensures { IsTrue result ↔ Matches self.now done.now.task }
    {
        let task = done.task();
        let me = task.process();
        if !self.is_inside(me) {
            return false;
        }
        let process = self.process(me);
        let message = task.message_ref();
        let from = message.sender;
        process.works_on(message)
            && process.incarnation() == task.incarnation()
            && process.length() + 1 == task.rsn()
            && process.state() == task.state()
            && task.who() == self.who(me, from)
    }

    /// Commits the result of the open job. Any other result is refused.
    pub fn finish(&mut self, done: Completion) -> Result<Finished, (Refusal, Completion)>
        requires { self.old.calls ≤ ENTRIES }
        ensures step { Finishes self.old self.new done result }
        ensures calls { OnOk result (self.new.calls ≡ self.old.calls + 1) }
    {
        if !self.is_open(&done) {
            return Err((Refusal::StaleJob, done));
        }
        if self.is_up(Machine::receiver_of(&done)) {
            return self.commit(done);
        }
        self.recall(done)
    }

    // Receives the message of a job: the process accepts the receipt, logs the handler's sends and
    // holds them until the RSN is acknowledged, takes the new state, and puts the RSN on the wire
    // to the sender.
    fn commit(&mut self, done: Completion) -> Result<Finished, (Refusal, Completion)>
        requires calls { self.old.calls ≤ ENTRIES }
        requires matches { Matches self.old done.task }
        requires up { is_up_at self.old done.task.who.me ≡ true }
        ensures step { Finishes self.old self.new done result }
        ensures calls { OnOk result (self.new.calls ≡ self.old.calls + 1) }
    {
        let task = done.task();
        let me = task.who().me;
        let message = task.message();
        let rsn = task.rsn();
        let number = Packet::Number {
            receiver: me,
            sender: message.sender,
            ssn: message.ssn,
            rsn,
            incarnation: task.incarnation(),
        };
        let process = &mut self.processes[me as usize - 1];
        // The process also puts the packet on the wire.
        let Ok(key) = process.commit(&done, &mut self.wire, number) else {
            return Err((Refusal::Memory, done));
        };
        self.calls += 1;
        self.spare = Some(done.into_spare());
        Ok(Finished::Committed { rsn, key })
    }

    // Replays the message of a job: the process accepts the receipt, logs the handler's sends as
    // acknowledged and without RSNs, and takes the new state. After the last message it restores
    // its RSNs, or is up.
    fn recall(&mut self, done: Completion) -> Result<Finished, (Refusal, Completion)>
        requires calls { self.old.calls ≤ ENTRIES }
        requires matches { Matches self.old done.task }
        requires down { is_up_at self.old done.task.who.me ≡ false }
        ensures step { Finishes self.old self.new done result }
        ensures calls { OnOk result (self.new.calls ≡ self.old.calls + 1) }
    {
        let me = done.task().who().me;
        let rsn = done.task().rsn();
        let process = &mut self.processes[me as usize - 1];
        if process.recall(&done).is_err() {
            return Err((Refusal::Memory, done));
        }
        if let Some(alone) = process.mode().is_replayed() {
            // See recoveries.rt.
            self.settle(me, alone);
        }
        self.calls += 1;
        self.spare = Some(done.into_spare());
        Ok(Finished::Replayed(rsn))
    }
}
