//! Handler calls that leave a session, and come back to it.

ghost use Rattle.std.specs.Prelude.{◌≡◌, ◌≤◌, ◌+◌, length, Ok, Err, IfOk, IfErr, OnOk};
ghost use Rattle.interp.specs.Image.{image_in, the_image};
ghost use Rattle.machine.specs.Arrival.{Finishes};
ghost use Rattle.sessions.specs.Job.{IsAnswer, answer_of, completed};

use helpers::Effects;
use interp::{CallEnd, Handler};
use limits::ENTRIES;
use machine::{Completion, Finished, Invocation, Machine, Serial};
use replay::Task;
use std::marker::Model;
use std::sync::Arc;
use world::Refusal;

/// A handler call that waits to be made: all that a handler takes, and the handler.
#[derive(Drop)]
pub struct Job {
    invocation: Invocation,
    handler: Arc<Handler>,
}

impl Model for Job {
    ghost use Rattle.std.specs.Prelude.{◌≡◌, length};
    ghost use Rattle.interp.specs.Image.{image_in};
    ghost use Rattle.sessions.specs.Job.{TheJob};

    ghost Value = { TheJob };

    ghost view = { λ j. record { task = j.invocation; image = image_in j.handler } };

    ghost invariant = { λ j. length j.invocation.state ≡ (image_in j.handler).len };
}

impl Job {
    pub(crate) fn new(invocation: Invocation, handler: Arc<Handler>) -> Job
        requires { length invocation.state ≡ (image_in handler).len }
        ensures { result ≡ record { task = invocation; image = image_in handler } }
    {
        Job {
            invocation,
            handler,
        }
    }

    /// What the handler takes.
    pub fn task(&self) -> &Task
        ensures { result.now ≡ self.now.task }
    {
        self.invocation.task()
    }

    /// The handler that is called.
    pub fn handler(&self) -> &Handler
        ensures { the_image result.now ≡ self.now.image }
    {
        &self.handler
    }

    /// Calls the handler. It takes no memory, and the result is of the same job.
    pub fn run(self) -> Done
        ensures { result ≡ self }
    {
        let Job {
            invocation,
            handler,
        } = self;
        let (task, mut next, mut effects) = invocation.into_parts();
        let end = handler.call(
            next.as_mut_slice(),
            task.payload(),
            task.who(),
            &mut effects,
        );
        let completion = Completion::new(task, next, effects);
        Done {
            completion,
            handler,
            end,
        }
    }
}

impl Serial for Job {
    ghost number = { λ job. job.task.serial };

    fn serial(&self) -> u32 {
        self.task().serial()
    }
}

/// A finished handler call: its job, and the handler's answer to that. Only `Job::run` makes one.
#[derive(Drop)]
pub struct Done {
    completion: Completion,
    handler: Arc<Handler>,
    end: CallEnd,
}

impl Model for Done {
    ghost use Rattle.interp.specs.Image.{image_in};
    ghost use Rattle.sessions.specs.Job.{TheJob, IsAnswer};

    ghost Value = { TheJob };

    ghost view = { λ d. record { task = d.completion.task; image = image_in d.handler } };

    ghost invariant = { λ d. IsAnswer (record { task = d.completion.task; image = image_in d.handler }) (record { state = d.completion.state; effects = d.completion.effects; r0 = d.end.r0; steps = d.end.steps }) };
}

impl Done {
    /// What the handler took.
    pub fn task(&self) -> &Task
        ensures { result.now ≡ self.now.task }
    {
        self.completion.task()
    }

    /// The handler that was called.
    pub fn handler(&self) -> &Handler
        ensures { the_image result.now ≡ self.now.image }
    {
        &self.handler
    }

    /// The state after the call.
    pub fn state(&self) -> &[u8]
        ensures value { result.now ≡ (answer_of self.now).state }
        ensures answer { IsAnswer self.now (answer_of self.now) }
    {
        self.completion.state()
    }

    /// The messages and outputs of the call.
    pub fn effects(&self) -> &Effects
        ensures value { result.now ≡ (answer_of self.now).effects }
        ensures answer { IsAnswer self.now (answer_of self.now) }
    {
        self.completion.effects()
    }

    /// The value of r0 at the exit, and how many steps were taken.
    pub fn end(&self) -> CallEnd
        ensures r0 { result.r0 ≡ (answer_of self.now).r0 }
        ensures steps { result.steps ≡ (answer_of self.now).steps }
        ensures answer { IsAnswer self.now (answer_of self.now) }
    {
        self.end
    }

    // What a machine takes of it.
    pub(crate) fn completion(&self) -> &Completion
        ensures value { result.now ≡ completed self.now }
        ensures answer { IsAnswer self.now (answer_of self.now) }
    {
        &self.completion
    }

    // Has a machine commit it. With a refusal it comes back.
    pub(crate) fn commit(self, machine: &mut Machine) -> Result<Finished, (Refusal, Done)>
        requires { machine.old.calls ≤ ENTRIES }
        ensures ok { IfOk result (λ finished. Finishes machine.old machine.new (completed self) (Ok finished)) }
        ensures calls { OnOk result (machine.new.calls ≡ machine.old.calls + 1) }
        ensures err { IfErr result (λ back. (back.1 ≡ self) × Finishes machine.old machine.new (completed self) (Err (back.0, completed self))) }
    {
        let Done {
            completion,
            handler,
            end,
        } = self;
        match machine.finish(completion) {
            Ok(finished) => Ok(finished),
            Err((refusal, completion)) => Err((
                refusal,
                Done {
                    completion,
                    handler,
                    end,
                },
            )),
        }
    }
}
