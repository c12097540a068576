//! A process runs its handler.

ghost use Rattle.std.specs.Prelude.{◌≡◌, ◌+◌, ◌++◌, ◌≤◌, None, Some, length, map, true, false, IfOk, IfNone, IfSome, OnOk, OnErr};
ghost use Rattle.node.specs.declared.node.TheConstants.{MOST_GIVEN};
ghost use Rattle.process.specs.Process.{state_of};
ghost use Rattle.process.specs.Job.{IsCallable, TakesBack, HasNext, IsNext};
ghost use Rattle.process.specs.Holds.{entries_of};
ghost use Rattle.process.specs.Work.{job_at, is_other, given_of, sent_by, shown_of, TakesIn, MayTakeIn, Works, Rests};

use crate::process::Member;
use helpers::{Effects, Payload, Refused, Sent, Who};
use node::{Given, OpenJob};
use recovery::Lifecycle;
use std::alloc::{AllocError, Global};

impl Member {
    /// The message that the handler is to run on, and the identity that it is called with: the
    /// message of the open job, or the next one of the replay, if there is one.
    fn next_job(&self) -> Option<(OpenJob, Who)>
        ensures { result ≡ job_at self.now.lifecycle }
    {
        match &self.lifecycle {
            Lifecycle::Up(node) => {
                let job = node.job()?;
                Some((job, node.who(job.sender)))
            }
            Lifecycle::Replaying(process) => {
                let job = process.job()?;
                Some((job, process.who(job.sender)))
            }
            _ => None,
        }
    }

    /// Runs the handler on the message of the open job, or on the next one of the replay. Answers
    /// whether there was one. A refusal changes nothing.
    pub fn work(&mut self, alloc: Global) -> Result<bool, AllocError>
        ensures works { IfOk result (λ b. b ≡ true → Works self.old self.new) }
        ensures rests { IfOk result (λ b. b ≡ false → Rests self.old × (self.new ≡ self.old)) }
        ensures few { OnOk result (entries_of self.new ≤ entries_of self.old + MOST_GIVEN) }
        // If there is none, memory isn't refused.
        ensures memory { OnErr result (HasNext self.old) }
        ensures err { OnErr result (self.new ≡ self.old) }
    {
        if self.is_idle() {
            return Ok(false);
        }
        self.run(alloc)
    }

    /// Whether there is no message to run on.
    fn is_idle(&self) -> bool
        ensures { result ≡ true → job_at self.now.lifecycle ≡ None }
    {
        self.next_job().is_none()
    }

    /// The same as [`Member::work`]. A host often asks when there is nothing to run on, so the
    /// part that needs stack space is kept apart here.
    #[inline(never)]
    fn run(&mut self, alloc: Global) -> Result<bool, AllocError>
        ensures works { IfOk result (λ b. b ≡ true → Works self.old self.new) }
        ensures rests { IfOk result (λ b. b ≡ false → Rests self.old × (self.new ≡ self.old)) }
        ensures few { OnOk result (entries_of self.new ≤ entries_of self.old + MOST_GIVEN) }
        ensures memory { OnErr result (HasNext self.old) }
        ensures err { OnErr result (self.new ≡ self.old) }
    {
        let Some((job, who)) = self.next_call() else {
            return Ok(false);
        };
        let mut state = Vec::from_slice(alloc, self.state())?;
        self.effects.clear();
        let _end = self
            .image
            .call(state.as_mut_slice(), &job.payload, who, &mut self.effects);
        let given = given(alloc, who, &self.effects)?;
        let refused = self.effects.refused();
        self.take_back(alloc, state, &given, refused)?;
        Ok(true)
    }

    /// The message that the handler is to run on, and the identity that it is called with, if there
    /// is such a message, the state has the image's length, and the handler may be run as this
    /// process.
    pub fn next_call(&self) -> Option<(OpenJob, Who)>
        ensures none { IfNone result (Rests self.now) }
        ensures next { IfSome result (λ c. IsNext self.now c.0 c.1) }
    {
        let (job, who) = self.next_job()?;
        if self.state().len() != self.image.state_len() as usize || !self.image.may_run_as(who) {
            return None;
        }
        Some((job, who))
    }

    /// Takes the answer of a call. A refusal changes nothing. What helpers refused is counted,
    /// except in a replay, since an earlier incarnation counted it.
    pub(crate) fn take_back(
        &mut self,
        alloc: Global,
        state: Vec<u8>,
        given: &[Given],
        refused: Refused,
    ) -> Result<(), AllocError>
        requires { MayTakeIn self.old.lifecycle given.now }
        ensures ok { OnOk result (TakesBack state.items given.now self.old self.new) }
        ensures few { OnOk result (entries_of self.new ≤ entries_of self.old + MOST_GIVEN) }
        ensures err { OnErr result (self.new ≡ self.old) }
    {
        let refused = counted(&self.lifecycle, self.refused, refused);
        take_in(&mut self.lifecycle, state, given)?;
        self.refused = refused;
        let _held = self.pass(alloc);
        Ok(())
    }
}

/// The earlier count, plus this one unless the call was a replay.
fn counted(lifecycle: &Lifecycle, before: Refused, refused: Refused) -> Refused {
    let mut all = before;
    if lifecycle.is_up() {
        all.add(refused);
    }
    all
}

/// Takes the state that the handler left, and what it sent. A refusal changes nothing.
fn take_in(lifecycle: &mut Lifecycle, state: Vec<u8>, given: &[Given]) -> Result<(), AllocError>
    requires { MayTakeIn lifecycle.old given.now }
    ensures ok { OnOk result (TakesIn state.items given.now lifecycle.old lifecycle.new) }
    ensures err { OnErr result (lifecycle.new ≡ lifecycle.old) }
{
    match lifecycle {
        Lifecycle::Up(node) => node.work(state, given),
        Lifecycle::Replaying(process) => process.work(state, given),
        _ => Ok(()),
    }
}

/// The messages that a handler sent to other processes, and after them its outputs, for the
/// gateway.
pub(crate) fn given(alloc: Global, who: Who, effects: &Effects) -> Result<Vec<Given>, AllocError>
    ensures value { IfOk result (λ v. v.items ≡ given_of who effects.now) }
    ensures few { IfOk result (λ v. length v.items ≤ MOST_GIVEN) }
{
    let (sends, outputs) = (effects.sends(), effects.outputs());
    let mut given = Vec::with_capacity(alloc, sends.len() + outputs.len())?;
    add_sent(&mut given, who, sends)?;
    if who.me != 0 {
        add_shown(&mut given, outputs)?;
    }
    Ok(given)
}

/// Appends the messages for other processes.
fn add_sent(given: &mut Vec<Given>, who: Who, sends: &[Sent]) -> Result<(), AllocError>
    ensures { OnOk result (given.new.items ≡ given.old.items ++ sent_by who sends.now) }
{
    for sent in sends {
        if is_other(who, sent.dst) {
            given.push(Given {
                to: sent.dst,
                payload: sent.payload,
            })?;
        }
    }
    Ok(())
}

/// Appends the outputs.
fn add_shown(given: &mut Vec<Given>, outputs: &[Payload]) -> Result<(), AllocError>
    ensures { OnOk result (given.new.items ≡ given.old.items ++ map shown_of outputs.now) }
{
    for payload in outputs {
        given.push(Given {
            to: 0,
            payload: *payload,
        })?;
    }
    Ok(())
}

/// Whether this is another process.
fn is_other(who: Who, to: u8) -> bool
    ensures { result ≡ is_other who to }
{
    0 < to && to <= who.count && to != who.me
}
