//! A call of a process's handler, with all that it takes.

ghost use Rattle.std.specs.Prelude.{◌≡◌, ◌↔◌, length, IsTrue};
ghost use Rattle.std.specs.Arc.{arc_value};
ghost use Rattle.interp.specs.Answer.{MayRunAs};
ghost use Rattle.interp.specs.Handler.{image_of};
ghost use Rattle.verifier.specs.AnyImage.{state_of};

use helpers::{Payload, Who};
use interp::Handler;
use std::marker::Model;
use std::sync::Arc;

/// Which job of a process it is.
#[derive(Clone, Copy, PartialEq, Eq)]
pub struct HandlerTicket {
    /// The incarnation of the process.
    pub incarnation: u64,
    /// How many messages it received before this one.
    pub received: u64,
}

/// The arguments of a call.
#[derive(Drop)]
pub struct HandlerCall {
    pub(crate) ticket: HandlerTicket,
    pub(crate) image: Arc<Handler>,
    pub(crate) who: Who,
    pub(crate) payload: Payload,
    pub(crate) state: Vec<u8>,
}

impl Model for HandlerCall {
    ghost use Rattle.std.specs.Prelude.{◌≡◌, length};
    ghost use Rattle.std.specs.Arc.{arc_value};
    ghost use Rattle.interp.specs.Handler.{image_of};
    ghost use Rattle.process.specs.Job.{TheJob, IsCallable};

    ghost Value = { TheJob };

    ghost view = { λ c. record { ticket = c.ticket; image = image_of (arc_value c.image); who = c.who; payload = c.payload; state = c.state.items } };

    ghost invariant = { λ c. IsCallable (image_of (arc_value c.image)) c.who c.state.items };
}

impl HandlerCall {
    ghost use Rattle.process.specs.Job.{IsSame};

    /// Whether it is this job, with this message and state, and a handler with the same code.
    pub(crate) fn is(
        &self,
        ticket: HandlerTicket,
        who: Who,
        payload: &Payload,
        state: &[u8],
    ) -> bool
        ensures { IsTrue result ↔ IsSame self.now ticket who payload.now state.now }
    {
        self.ticket == ticket
            && self.who == who
            && self.payload == *payload
            && self.state.as_slice() == state
    }
}
