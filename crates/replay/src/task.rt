//! What a handler call takes.

ghost use Rattle.std.specs.Prelude.{◌≡◌};
ghost use Rattle.std.specs.Box.{box_value};
ghost use Rattle.replay.specs.Task.{TheTask, MayCall};

use helpers::{Payload, Who};
use std::marker::Model;
use world::Message;

/// What identifies a job in its session.
#[derive(Clone, Copy, PartialEq, Eq, Debug)]
pub struct Ticket {
    /// The job's number, from 1, among the jobs that the session started.
    pub serial: u32,
    /// The incarnation of its process.
    pub incarnation: u32,
    /// The RSN that its message gets.
    pub rsn: u32,
}

/// All that a handler takes: which job it is, the state, the message and `Who`.
#[derive(Drop)]
pub struct Task {
    ticket: Ticket,
    state: Vec<u8>,
    message: Box<Message>,
    who: Who,
}

impl Model for Task {
    ghost use Rattle.std.specs.Box.{box_value};
    ghost use Rattle.replay.specs.Task.{TheTask, MayCall};

    ghost Value = { TheTask };

    ghost view = { λ t. record {
      serial = t.ticket.serial;
      incarnation = t.ticket.incarnation;
      rsn = t.ticket.rsn;
      state = t.state.items;
      message = box_value t.message;
      who = t.who;
    } };

    ghost invariant = { λ t. MayCall t.who };
}

impl Task {
    pub(crate) fn new(ticket: Ticket, state: Vec<u8>, message: Box<Message>, who: Who) -> Task
        requires { MayCall who }
        ensures { result ≡ record { serial = ticket.serial; incarnation = ticket.incarnation; rsn = ticket.rsn; state = state.items; message = box_value message; who = who } }
    {
        Task {
            ticket,
            state,
            message,
            who,
        }
    }

    // Its buffers for a state and a message.
    pub(crate) fn into_places(self) -> (Vec<u8>, Box<Message>) {
        let Task { state, message, .. } = self;
        (state, message)
    }

    /// The job's number, from 1, among the jobs that the session started.
    pub fn serial(&self) -> u32
        ensures { result ≡ self.now.serial }
    {
        self.ticket.serial
    }

    /// The process whose handler is called, 1 to 15.
    pub fn process(&self) -> u8
        ensures { result ≡ self.now.who.me }
    {
        self.who.me
    }

    /// The incarnation of the process.
    pub fn incarnation(&self) -> u32
        ensures { result ≡ self.now.incarnation }
    {
        self.ticket.incarnation
    }

    /// The RSN that the message gets.
    pub fn rsn(&self) -> u32
        ensures { result ≡ self.now.rsn }
    {
        self.ticket.rsn
    }

    /// The state before the call.
    pub fn state(&self) -> &[u8]
        ensures { result.now ≡ self.now.state }
    {
        self.state.as_slice()
    }

    /// A copy of the message, with its sender and SSN.
    pub fn message(&self) -> Message
        ensures { result ≡ self.now.message }
    {
        *self.message
    }

    /// The message.
    pub fn message_ref(&self) -> &Message
        ensures { result.now ≡ self.now.message }
    {
        &self.message
    }

    /// The bytes of the message.
    pub fn payload(&self) -> &Payload
        ensures { result.now ≡ self.now.message.payload }
    {
        &self.message.payload
    }

    /// Which process is called, for whose message, and among how many.
    pub fn who(&self) -> Who
        ensures value { result ≡ self.now.who }
        ensures callable { MayCall self.now.who }
    {
        self.who
    }
}
