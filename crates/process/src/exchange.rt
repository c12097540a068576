//! Handler calls that are made outside of the process.

ghost use Rattle.std.specs.Prelude.{◌≡◌, ◌≤◌, ◌+◌, ◌↔◌, IfOk, IfErr, IfNone, IfSome, OnOk, OnErr, IsTrue};
ghost use Rattle.process.specs.Process.{TheProcess};
ghost use Rattle.node.specs.declared.node.TheConstants.{MOST_GIVEN};
ghost use Rattle.process.specs.Holds.{entries_of};
ghost use Rattle.process.specs.Work.{Rests, Works, given_of};
ghost use Rattle.process.specs.Job.{HasNext, IsNext, TakesBack, IsJobOf, IsCallOf, IsAnswered, WorksAs, IsUndone, IsUnanswered, ticket_at};

use crate::call::{HandlerCall, HandlerTicket};
use crate::done::FinishedCall;
use crate::fault::Undone;
use crate::job::HandlerJob;
use crate::process::Member;
use crate::work::given;
use helpers::{Effects, Who};
use node::OpenJob;
use std::alloc::{AllocError, Global};
use std::sync::Arc;

impl Member {
    /// The next call of the handler, to be made outside: on the message of the open job, or on the
    /// next one of the replay. There is none if [`Member::work`] would run none. It stays the next
    /// call until its answer is handed back.
    pub fn job(&self, alloc: Global) -> Result<Option<HandlerJob>, AllocError>
        ensures some { IfOk result (λ o. IfSome o (IsJobOf self.now)) }
        ensures none { IfOk result (λ o. IfNone o (Rests self.now)) }
        ensures memory { OnErr result (HasNext self.now) }
    {
        let Some((message, who)) = self.next_call() else {
            return Ok(None);
        };
        let state = Vec::from_slice(alloc, self.state())?;
        let next = Vec::from_slice(alloc, self.state())?;
        let effects = Box::new(alloc, Effects::new())?;
        let call = HandlerCall {
            ticket: self.ticket(),
            image: Arc::try_clone(&self.image)?,
            who,
            payload: message.payload,
            state,
        };
        Ok(Some(HandlerJob {
            call,
            next,
            effects,
        }))
    }

    /// Takes the answer of a call that was made, as if [`Member::work`] had made it. A refusal
    /// changes nothing.
    pub fn done(&mut self, alloc: Global, done: &FinishedCall) -> Result<(), Undone>
        ensures ok { OnOk result (Works self.old self.new) }
        ensures few { OnOk result (entries_of self.new ≤ entries_of self.old + MOST_GIVEN) }
        ensures refused { IfErr result (IsUndone self.old done.now.job) }
        ensures err { OnErr result (self.new ≡ self.old) }
    {
        let Some((message, who)) = self.next_call() else {
            return Err(Undone::Absent);
        };
        if !self.has(&done.call, &message, who) {
            return Err(Undone::Other);
        }
        self.take_answer(alloc, who, done.next.as_slice(), &done.effects)?;
        Ok(())
    }

    /// Takes the state, messages and outputs that a call left, whatever they are: of machine code,
    /// or of anything of which nothing is proved. If the handler would leave the same, the process
    /// has worked. A refusal changes nothing.
    pub fn done_unchecked(
        &mut self,
        alloc: Global,
        ticket: HandlerTicket,
        state: &[u8],
        effects: &Effects,
    ) -> Result<(), Undone>
        ensures ok { OnOk result (IsAnswered ticket state.now effects.now self.old self.new) }
        ensures works { OnOk result (WorksAs state.now effects.now self.old self.new) }
        ensures few { OnOk result (entries_of self.new ≤ entries_of self.old + MOST_GIVEN) }
        ensures refused { IfErr result (IsUnanswered self.old ticket state.now) }
        ensures err { OnErr result (self.new ≡ self.old) }
    {
        let Some((message, who)) = self.next_call() else {
            return Err(Undone::Absent);
        };
        if self.ticket() != ticket {
            return Err(Undone::Other);
        }
        if state.len() != self.image.state_len() as usize {
            return Err(Undone::State);
        }
        self.take_answer(alloc, who, state, effects)?;
        Ok(())
    }

    /// Takes what a call of the next job left. A refusal changes nothing.
    fn take_answer(
        &mut self,
        alloc: Global,
        who: Who,
        state: &[u8],
        effects: &Effects,
    ) -> Result<(), AllocError>
        requires { (message : OpenJob) × IsNext self.old message who }
        ensures ok { OnOk result (TakesBack state.now (given_of who effects.now) self.old self.new) }
        ensures few { OnOk result (entries_of self.new ≤ entries_of self.old + MOST_GIVEN) }
        ensures err { OnErr result (self.new ≡ self.old) }
    {
        let state = Vec::from_slice(alloc, state)?;
        let given = given(alloc, who, effects)?;
        self.take_back(alloc, state, &given, effects.refused())
    }

    /// The ticket of the next job.
    fn ticket(&self) -> HandlerTicket
        ensures { result ≡ ticket_at self.now.lifecycle }
    {
        let standing = self.standing();
        HandlerTicket {
            incarnation: standing.incarnation,
            received: standing.length,
        }
    }

    /// Whether the next call is this one, on this message.
    fn has(&self, call: &HandlerCall, message: &OpenJob, who: Who) -> bool
        ensures { IsTrue result ↔ IsCallOf self.now message.now who call.now }
    {
        call.is(self.ticket(), who, &message.payload, self.state())
            && self.image.same_code(&call.image)
    }
}
