//! Finished handler calls.

ghost use Rattle.std.specs.Prelude.{◌≡◌, length};
ghost use Rattle.std.specs.Box.{box_value};
ghost use Rattle.replay.specs.Task.{TheCompletion};

use crate::spare::Spare;
use crate::task::Task;
use helpers::Effects;
use std::marker::Model;

/// A finished handler call: its task, and the state and the effects that the handler left.
#[derive(Drop)]
pub struct Completion {
    task: Task,
    next: Vec<u8>,
    effects: Box<Effects>,
}

impl Model for Completion {
    ghost use Rattle.std.specs.Prelude.{◌≡◌, length};
    ghost use Rattle.std.specs.Box.{box_value};
    ghost use Rattle.replay.specs.Task.{TheCompletion};

    ghost Value = { TheCompletion };

    ghost view = { λ d. record { task = d.task; state = d.next.items; effects = box_value d.effects } };

    ghost invariant = { λ d. length d.next.items ≡ length d.task.state };
}

impl Completion {
    /// The task with what the handler left. The state keeps its length.
    pub fn new(task: Task, next: Vec<u8>, effects: Box<Effects>) -> Completion
        requires { length next.items ≡ length task.state }
        ensures { result ≡ record { task = task; state = next.items; effects = box_value effects } }
    {
        Completion {
            task,
            next,
            effects,
        }
    }

    /// The task of the call.
    pub fn task(&self) -> &Task
        ensures value { result.now ≡ self.now.task }
        ensures size { length self.now.state ≡ length self.now.task.state }
    {
        &self.task
    }

    /// The state after the call.
    pub fn state(&self) -> &[u8]
        ensures { result.now ≡ self.now.state }
    {
        self.next.as_slice()
    }

    /// The messages and outputs of the call.
    pub fn effects(&self) -> &Effects
        ensures { result.now ≡ self.now.effects }
    {
        &self.effects
    }

    /// Its buffers, for a later call.
    pub fn into_spare(self) -> Spare {
        let Completion {
            task,
            next,
            effects,
        } = self;
        let (state, message) = task.into_places();
        Spare {
            state,
            next,
            message,
            effects,
        }
    }
}
