//! Sent messages: logged, and held at the gate.

ghost use Rattle.std.specs.Prelude.{◌≡◌, ◌<◌, ◌≤◌, length, slice_index_or, true, OnOk, OnErr};
ghost use Rattle.std.specs.List.{All};
ghost use Rattle.sender_log.specs.Log.{IsDestination, queue_of};
ghost use Rattle.send_gate.specs.Gate.{count_to};
ghost use Rattle.session_process.specs.declared.mail.Mail.{Mail};
ghost use Rattle.session_process.specs.Mail.{HasRoom, HasRoomFor, Posts, PostsAll, Follows, WithdrawsLast};

use helpers::{Effects, Payload};
use limits::PARTIES;
use send_gate::Gate;
use sender_log::Log;
use std::alloc::AllocError;

/// Sent messages: the log keeps them, and the gate holds those that may not leave yet.
#[derive(Drop)]
pub struct Mail {
    pub log: Log,
    pub gate: Gate,
}

impl Mail {
    /// Logs a message to a destination, and holds it until the message with this RSN is
    /// acknowledged. A message to a number that is no destination is dropped. A refusal changes
    /// nothing.
    fn post(&mut self, dst: u8, rsn: u32, payload: &Payload) -> Result<(), AllocError>
        requires narrow { length self.old.log.queues ≤ PARTIES }
        requires order { All (λ h. h.rsn ≤ rsn) self.old.gate.waiting }
        requires room { HasRoomFor dst self.old }
        ensures ok { OnOk result (Posts dst rsn payload.now self.old self.new) }
        ensures err { OnErr result (self.new ≡ self.old) }
    {
        if !self.log.is_destination(dst) {
            return Ok(());
        }
        self.gate.hold(dst, rsn)?;
        if self.log.append(dst, payload.as_slice()).is_err() {
            self.gate.retract();
            return Err(AllocError);
        }
        Ok(())
    }

    /// Posts the effects of a handler: its messages to processes, and its outputs to the outside. A
    /// refusal leaves a part of them posted.
    pub fn post_all(&mut self, rsn: u32, effects: &Effects) -> Result<(), AllocError>
        requires narrow { length self.old.log.queues ≤ PARTIES }
        requires below { All (λ h. h.rsn < rsn) self.old.gate.waiting }
        requires room { HasRoom self.old }
        ensures ok { OnOk result (PostsAll effects.now rsn self.old self.new) }
        ensures err { OnErr result (Follows rsn self.old self.new) }
    {
        for sent in effects.sends() {
            if sent.dst != 0 {
                self.post(sent.dst, rsn, &sent.payload)?;
            }
        }
        for output in effects.outputs() {
            self.post(0, rsn, output)?;
        }
        Ok(())
    }

    /// Takes back what was posted under this RSN.
    pub fn withdraw(&mut self, rsn: u32)
        requires { (m : Mail) × Follows rsn m self.old }
        ensures { (m : Mail) → Follows rsn m self.old → self.new ≡ m }
    {
        while self.withdraw_last(rsn) {}
    }

    /// Takes the last message back, if it was posted under this RSN.
    fn withdraw_last(&mut self, rsn: u32) -> bool
        requires { (m : Mail) × Follows rsn m self.old }
        ensures { WithdrawsLast result rsn self.old self.new }
    {
        match self.gate.last() {
            Some(held) if held.rsn == rsn => {
                self.gate.retract();
                self.log.retract(held.dst);
                true
            }
            _ => false,
        }
    }
}
