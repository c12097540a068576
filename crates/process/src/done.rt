//! Answers of handler calls that were made outside of the process.

ghost use Rattle.std.specs.Prelude.{◌≡◌};
ghost use Rattle.std.specs.Box.{box_value};

use crate::call::{HandlerCall, HandlerTicket};
use helpers::Effects;
use interp::CallEnd;
use std::marker::Model;

/// The answer of a handler call. Only `HandlerJob::run` makes one.
#[derive(Drop)]
pub struct FinishedCall {
    pub(crate) call: HandlerCall,
    pub(crate) next: Vec<u8>,
    pub(crate) effects: Box<Effects>,
    pub(crate) end: CallEnd,
}

impl Model for FinishedCall {
    ghost use Rattle.std.specs.Box.{box_value};
    ghost use Rattle.process.specs.Job.{TheDone, IsAnswerTo};

    ghost Value = { TheDone };

    ghost view = { λ d. record { job = d.call; answer = record { state = d.next.items; effects = box_value d.effects; r0 = d.end.r0; steps = d.end.steps } } };

    ghost invariant = { λ d. IsAnswerTo d.call (record { state = d.next.items; effects = box_value d.effects; r0 = d.end.r0; steps = d.end.steps }) };
}

impl FinishedCall {
    /// Which job of its process it was.
    pub fn ticket(&self) -> HandlerTicket
        ensures { result ≡ self.now.job.ticket }
    {
        self.call.ticket
    }

    /// The state that the handler left.
    pub fn state(&self) -> &[u8]
        ensures { result.now ≡ self.now.answer.state }
    {
        self.next.as_slice()
    }

    /// The messages and outputs that the handler sent.
    pub fn effects(&self) -> &Effects
        ensures { result.now ≡ self.now.answer.effects }
    {
        &self.effects
    }

    /// The value of r0 at its exit, and how many steps it took.
    pub fn end(&self) -> CallEnd
        ensures r0 { result.r0 ≡ self.now.answer.r0 }
        ensures steps { result.steps ≡ self.now.answer.steps }
    {
        self.end
    }
}
