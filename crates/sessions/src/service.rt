//! Sessions of one caller.

ghost use Rattle.std.specs.Prelude.{◌≡◌, ◌↔◌, ◌≤◌, IfOk, IsTrue, [], true, length, map, option_copied};
ghost use Rattle.std.specs.List.{All};
ghost use Rattle.std.specs.Option.{option_map};
ghost use Rattle.interp.specs.Image.{image_in};
ghost use Rattle.world.specs.Useful.{may_call};
ghost use Rattle.machine.specs.Simulation.{answering};
ghost use Rattle.machine.specs.Dispatch.{TakesNoResult, answer_in};
ghost use Rattle.world.specs.History.{nth};
ghost use Rattle.world.specs.Refusals.{refusal_of, cause_of};
ghost use Rattle.sessions.specs.Fields.{lengths_of, starter};
ghost use Rattle.sessions.specs.Job.{HasCode, HasForm};
ghost use Rattle.sessions.specs.Journal.{Takes, room_at, world_at};
ghost use Rattle.sessions.specs.Driver.{StartsJob};
ghost use Rattle.sessions.specs.Service.{OpensAlone, Owes, OwesAs, Returns, own_seat, seat_of};

use crate::handed::joined;
use crate::job::{Done, Job};
use crate::journal::Journal;
use crate::refused::RefusedEffects;
use crate::slip::Brief;
use interp::Handler;
use limits::{ENTRIES, PROCESSES, STATE_BYTES};
use machine::{Finished, Machine, Reply};
use std::alloc::{AllocError, Global};
use std::marker::Model;
use std::sync::Arc;
use world::{Call, Refusal};

/// Processes 1 to n, with the journal of the calls that led to their present state. Its caller is
/// nobody, who may make any call.
#[derive(Drop)]
pub struct Service {
    pub(crate) images: Vec<Arc<Handler>>,
    pub(crate) machine: Machine,
    pub(crate) journal: Journal,
    pub(crate) exact: bool,
    pub(crate) refused: RefusedEffects,
}

impl Model for Service {
    ghost use Rattle.std.specs.Prelude.{◌≡◌, [], map};
    ghost use Rattle.interp.specs.Image.{image_in};
    ghost use Rattle.sessions.specs.Journal.{TheSession, is_exact_of};
    ghost use Rattle.sessions.specs.Fields.{IsSession};

    ghost Value = { TheSession };

    ghost view = { λ s. record { images = map image_in s.images.items; entries = s.journal.entries; seats = [] } };

    ghost invariant = { λ s. IsSession (map image_in s.images.items) s.machine s.journal.entries × (s.exact ≡ is_exact_of (map image_in s.images.items) s.journal.entries) };
}

// How many bytes the states of these handlers have.
fn lengths(alloc: Global, images: &[Arc<Handler>]) -> Result<Vec<u16>, AllocError>
    ensures values { IfOk result (λ v. v.items ≡ lengths_of (map image_in images.now)) }
    ensures short { IfOk result (λ v. All (λ len. len ≤ STATE_BYTES) v.items) }
{
    let mut lengths = Vec::new(alloc);
    for image in images {
        lengths.push(image.state_len())?;
    }
    Ok(lengths)
}

impl Service {
    /// Processes 1 to n with the handlers of these images, of any form. Each is up, in its first
    /// incarnation, with a state of zeros; the journal is empty. Refuses no images or more than 15
    /// (`NoSuchProcess`), and lack of memory.
    pub fn open(alloc: Global, images: Vec<Arc<Handler>>) -> Result<Service, Refusal>
        ensures { OpensAlone (map image_in images.items) result }
    {
        if images.is_empty() || images.len() > PROCESSES {
            return Err(Refusal::NoSuchProcess);
        }
        let lengths = lengths(alloc, images.as_slice())?;
        let machine = Machine::open(alloc, lengths)?;
        let journal = Journal::new(alloc);
        Ok(Service {
            images,
            machine,
            journal,
            exact: true,
            refused: RefusedEffects::new(),
        })
    }

    /// Makes a call, and answers what the journal keeps of it and the job that it started.
    /// docs/FORMATS.md, "Refusals of a session", says what each call refuses, and in which order.
    /// It isn't for a finish, which takes a result: see `finish`.
    ///
    /// A `Recover` answers how many messages the process keeps. If failures come one at a time,
    /// these are the longest unbroken run of messages that checkpoint and logs held with their
    /// RSNs. Whenever the process has as many messages again, its state is the one that it had
    /// after them.
    pub fn call(&mut self, call: &Call) -> Result<Reply<Job>, Refusal>
        requires { TakesNoResult call.now }
        ensures adds { Owes self.old self.new call.now (answering answer_in result) }
        ensures job { IfOk result (StartsJob self.old self.new call.now) }
        ensures exactly { IfOk result (λ reply. Returns self.old self.new call.now reply.answer) }
    {
        self.call_of(0, call)
    }

    /// Calls the handler of a job that a call started. It takes no session, so no session changes
    /// meanwhile.
    pub fn run(job: Job) -> Done
        ensures { result ≡ job }
    {
        job.run()
    }

    /// Commits the result of the open job of its process: the message is received, and its RSN goes
    /// on the wire; or the message is replayed. Refuses a result that isn't the open job's
    /// (`StaleJob`), and lack of memory. With a refusal the result comes back.
    pub fn finish(&mut self, done: Done) -> Result<Finished, (Refusal, Done)>
        ensures { Takes self.old self.new (own_seat self.old) (own_seat self.new) done result }
    {
        self.finish_of(0, done)
    }

    /// What `call` does, as this worker.
    pub(crate) fn call_of(&mut self, worker: u8, call: &Call) -> Result<Reply<Job>, Refusal>
        requires result { TakesNoResult call.now }
        requires may { may_call (world_at self.old) worker call.now ≡ true }
        ensures adds { OwesAs worker self.old self.new call.now (answering answer_in result) }
        ensures job { IfOk result (StartsJob self.old self.new call.now) }
        ensures exactly { IfOk result (λ reply. Returns self.old self.new call.now reply.answer) }
        ensures bound { length self.new.entries ≤ ENTRIES }
    {
        let room = self.journal.room();
        let Ok(handler) = self.handler_for(call) else {
            return Err(self.refusal(call));
        };
        let Some(brief) = self.journal.prepare(call) else {
            return Err(self.refusal(call));
        };
        let single = self.machine.keeps_single(call);
        // `step` calls the machine's method of the call's name.
        let reply = self.machine.step(room, call)?;
        self.exact = self.exact && single;
        self.journal.append(worker, brief, reply.answer);
        Ok(Reply {
            answer: reply.answer,
            job: joined(reply.job, handler),
        })
    }

    // The refusal of a call for which memory is short: the least cause, if there is one.
    pub(crate) fn refusal(&self, call: &Call) -> Refusal
        requires { TakesNoResult call.now }
        ensures { refusal_of (world_at self.now) (room_at self.now) call.now ≡ cause_of result }
    {
        let cause = self.machine.cause(self.journal.room(), call);
        cause.unwrap_or(Refusal::Memory)
    }

    // The handler of the process whose job a call starts, if it starts one.
    pub(crate) fn handler_for(&self, call: &Call) -> Result<Option<Arc<Handler>>, AllocError>
        ensures { IfOk result (λ handler. option_map image_in handler ≡ nth self.now.images (starter (world_at self.now) call.now)) }
    {
        let process = self.starter(call);
        match self.image(process) {
            Some(image) => Ok(Some(Arc::try_clone(image)?)),
            None => Ok(None),
        }
    }

    // The process whose job a call starts, if it starts one.
    fn starter(&self, call: &Call) -> u8
        ensures { result ≡ starter (world_at self.now) call.now }
    {
        match call {
            Call::Arrive { key } => self.machine.receiver(*key),
            Call::ReplayBegin { process } => *process,
            _ => 0,
        }
    }

    // The handler of a process. None for a number without one.
    fn image(&self, process: u8) -> Option<&Arc<Handler>>
        ensures { option_map image_in (option_copied result) ≡ nth self.now.images process }
    {
        if process == 0 {
            return None;
        }
        self.images.get(process as usize - 1)
    }

    // Whether the result is of the handler of its process, by form and instructions.
    fn is_of_its_handler(&self, done: &Done) -> bool
        ensures { IsTrue result ↔ HasCode (nth self.now.images done.now.task.who.me) done.now.image.code × HasForm (nth self.now.images done.now.task.who.me) done.now.image.form }
    {
        match self.image(done.task().process()) {
            Some(image) => image.same_code(done.handler()),
            None => false,
        }
    }

    /// What `finish` does, as this worker.
    pub(crate) fn finish_of(&mut self, worker: u8, done: Done) -> Result<Finished, (Refusal, Done)>
        ensures takes { Takes self.old self.new (seat_of worker self.old) (seat_of worker self.new) done result }
        ensures bound { length self.new.entries ≤ ENTRIES }
    {
        if !self.is_of_its_handler(&done) {
            return Err((Refusal::StaleJob, done));
        }
        if !self.journal.reserve() {
            if self.machine.is_open(done.completion()) {
                return Err((Refusal::Memory, done));
            }
            return Err((Refusal::StaleJob, done));
        }
        let process = done.task().process();
        let refused = done.effects().refused();
        // See machine/src/jobs.rt.
        let finished = done.commit(&mut self.machine)?;
        self.refused.count(process, finished, refused);
        let call = Brief::Finish { process };
        self.journal.append(worker, call, finished.answer());
        Ok(finished)
    }
}
