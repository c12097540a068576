//! Handler calls that are to be made outside of the process.

ghost use Rattle.std.specs.Prelude.{◌≡◌, length};
ghost use Rattle.std.specs.Box.{box_value};
ghost use Rattle.process.specs.Job.{array_size, shown_by, IsLaid};

use crate::call::{HandlerCall, HandlerTicket};
use crate::done::FinishedCall;
use crate::layout::{lay_flat, lay_span, shown};
use dense::ARRAY_BYTES;
use helpers::{Effects, Who};
use interp::Handler;
use limits::MEMORY_BYTES;
use std::marker::Model;

/// A call of a process's handler that is to be made, with room for its answer.
#[derive(Drop)]
pub struct HandlerJob {
    pub(crate) call: HandlerCall,
    pub(crate) next: Vec<u8>,
    pub(crate) effects: Box<Effects>,
}

impl Model for HandlerJob {
    ghost use Rattle.std.specs.Prelude.{◌≡◌};
    ghost use Rattle.process.specs.Job.{TheJob};

    ghost Value = { TheJob };

    ghost view = { λ j. j.call };

    ghost invariant = { λ j. j.next.items ≡ j.call.state };
}

impl HandlerJob {
    /// Which job of its process it is.
    pub fn ticket(&self) -> HandlerTicket
        ensures { result ≡ self.now.ticket }
    {
        self.call.ticket
    }

    /// The identity that the handler is called with, and the sender of the message.
    pub fn who(&self) -> Who
        ensures { result ≡ self.now.who }
    {
        self.call.who
    }

    /// The number of bytes of the message that the handler sees: 64 in form 1, all in other forms.
    pub fn message_len(&self) -> usize
        ensures { result ≡ length (shown_by self.now.image self.now.payload) }
    {
        match &*self.call.image {
            Handler::Flat(image) => shown(image, &self.call.payload).len(),
            Handler::Span(_) => self.call.payload.len(),
        }
    }

    /// The size in bytes of the array on which the handler runs.
    pub fn array_len(&self) -> usize
        ensures { result ≡ array_size self.now.image }
    {
        match &*self.call.image {
            Handler::Flat(_) => MEMORY_BYTES,
            Handler::Span(_) => ARRAY_BYTES,
        }
    }

    /// Writes message, state and stack into the array, for `call_flat` of its form or machine code.
    pub fn lay(&self, array: &mut [u8])
        requires { length array.old ≡ array_size self.now.image }
        ensures { IsLaid self.now.image self.now.state self.now.payload array.new }
    {
        let (state, payload) = (self.call.state.as_slice(), &self.call.payload);
        match &*self.call.image {
            Handler::Flat(image) => lay_flat(image, state, payload, array),
            Handler::Span(program) => lay_span(program, state, payload, array),
        }
    }

    /// Calls the handler. It takes no memory.
    pub fn run(self) -> FinishedCall
        ensures { result.job ≡ self }
    {
        let HandlerJob {
            call,
            mut next,
            mut effects,
        } = self;
        effects.clear();
        let state = next.as_mut_slice();
        let end = call
            .image
            .call(state, &call.payload, call.who, &mut effects);
        FinishedCall {
            call,
            next,
            effects,
            end,
        }
    }
}
