//! Handler calls that wait to be made.

ghost use Rattle.std.specs.Prelude.{◌≡◌, [], IfOk, OnOk};
ghost use Rattle.std.specs.Box.{box_value};
ghost use Rattle.replay.specs.Task.{TheTask, MayCall};

use crate::spare::Spare;
use crate::task::{Task, Ticket};
use helpers::{Effects, Who};
use std::alloc::{AllocError, Global};
use std::marker::Model;
use world::Message;

/// A handler call that waits to be made, with the buffer for the new state.
#[derive(Drop)]
pub struct Invocation {
    task: Task,
    next: Vec<u8>,
    effects: Box<Effects>,
}

impl Model for Invocation {
    ghost use Rattle.std.specs.Prelude.{◌≡◌};
    ghost use Rattle.replay.specs.Task.{TheTask};

    ghost Value = { TheTask };

    ghost view = { λ j. j.task };

    ghost invariant = { λ j. j.next.items ≡ j.task.state };
}

// Makes a list hold the bytes of a state.
fn refill(list: &mut Vec<u8>, state: &[u8]) -> Result<(), AllocError>
    ensures { OnOk result (list.new.items ≡ state.now) }
{
    list.clear();
    list.extend_from_slice(state)
}

impl Invocation {
    /// A call with a copy of this state. It takes over the buffers of an earlier one, or allocates
    /// them here, so that the call itself takes no memory.
    pub fn new(
        alloc: Global,
        spare: Option<Spare>,
        ticket: Ticket,
        state: &[u8],
        message: Message,
        who: Who,
    ) -> Result<Invocation, AllocError>
        requires { MayCall who }
        ensures { IfOk result (λ j. j ≡ record { serial = ticket.serial; incarnation = ticket.incarnation; rsn = ticket.rsn; state = state.now; message = message; who = who }) }
    {
        let spare = match spare {
            Some(spare) => spare,
            None => Spare::new(alloc)?,
        };
        let Spare {
            state: mut before,
            mut next,
            message: mut place,
            effects,
        } = spare;
        refill(&mut before, state)?;
        refill(&mut next, state)?;
        *place = message;
        let task = Task::new(ticket, before, place, who);
        Ok(Invocation {
            task,
            next,
            effects,
        })
    }

    /// The task of the call.
    pub fn task(&self) -> &Task
        ensures { result.now ≡ self.now }
    {
        &self.task
    }

    /// Its task, and what the handler changes: a copy of the state, and effects, of which there are
    /// none yet.
    pub fn into_parts(self) -> (Task, Vec<u8>, Box<Effects>)
        ensures task { result.0 ≡ self }
        ensures state { result.1.items ≡ self.state }
        ensures sends { (box_value result.2).sends ≡ [] }
        ensures outputs { (box_value result.2).outputs ≡ [] }
    {
        let Invocation {
            task,
            next,
            mut effects,
        } = self;
        effects.clear();
        (task, next, effects)
    }
}
