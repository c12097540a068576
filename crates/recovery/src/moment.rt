//! A process recovers: from collecting to replaying.

ghost use Rattle.std.specs.Prelude.{◌≡◌, ◌≤◌, ◌<◌, length, true, IfOk, IfErr};
ghost use Rattle.node.specs.Stands.{Each};
ghost use Rattle.recovery.specs.Plan.{has_all, Plans, Fits, Overruns};
ghost use Rattle.recovery.specs.Moment.{Recovered};
ghost use Rattle.recovery.specs.Replays.{receipts_of};
ghost use Rattle.recovery.specs.StandsAtReplay.{ComesBack};
ghost use Rattle.recovery.specs.declared.moment.Cause.TheVariants.{TooMany};

use crate::collection::Collecting;
use crate::replays::Replaying;
use node::OpenJob;
use rsn::{LIMIT, Receipts, SENDERS};
use std::alloc::{AllocError, Global};

/// Why a process can't recover.
#[derive(Clone, Copy)]
pub enum Cause {
    /// Memory ran out.
    Memory,
    /// It would keep more messages than a process takes.
    TooMany,
}

/// A process that couldn't recover, unchanged, and why.
#[derive(Drop)]
pub struct Unrecovered {
    pub collecting: Collecting,
    pub cause: Cause,
}

impl Collecting {
    /// If all peers have told all, the process keeps what its checkpoint covers and the messages of
    /// its plan, which it replays. A refusal gives the process back.
    pub fn recover(self, alloc: Global) -> Result<Replaying, Unrecovered>
        requires { has_all self ≡ true }
        ensures value { IfOk result (λ r. Recovered self r) }
        ensures few { IfOk result (λ r. length r.plan ≤ LIMIT) }
        ensures acts { IfOk result (λ r. ComesBack self r) }
        ensures err { IfErr result (λ e. e.collecting ≡ self) }
        ensures cause { IfErr result (λ e. e.cause ≡ TooMany → Overruns self) }
    {
        match self.keep(alloc) {
            Ok((plan, receipts)) => Ok(self.turn(plan, receipts)),
            Err(cause) => Err(Unrecovered {
                collecting: self,
                cause,
            }),
        }
    }

    /// The messages of its plan, and their receipts.
    fn keep(&self, alloc: Global) -> Result<(Vec<OpenJob>, Receipts), Cause>
        ensures plans { IfOk result (λ k. Plans self.now k.0.items) }
        ensures fits { IfOk result (λ k. Fits self.now k.0.items) }
        ensures receipts { IfOk result (λ k. k.1 ≡ receipts_of k.0.items) }
        ensures cause { IfErr result (λ e. e ≡ TooMany → Overruns self.now) }
    {
        // For the proof: the count shows that each sender has a place in the receipts.
        let _few = self.own.count();
        let Ok(followed) = self.follow(alloc) else {
            return Err(Cause::Memory);
        };
        let Some(plan) = followed else {
            return Err(Cause::TooMany);
        };
        match received(alloc, plan.as_slice()) {
            Ok(receipts) => Ok((plan, receipts)),
            Err(_) => Err(Cause::Memory),
        }
    }

    /// The process with these messages to replay.
    fn turn(self, plan: Vec<OpenJob>, receipts: Receipts) -> Replaying
        requires fits { Fits self plan.items }
        requires receipts { receipts ≡ receipts_of plan.items }
        ensures { result ≡ record { own = self.own; plan = plan.items; done = 0 } }
    {
        let Collecting { own, told: _ } = self;
        Replaying {
            own,
            plan,
            done: 0,
            receipts,
        }
    }
}

/// Receipts of messages, all of them acknowledged.
fn received(alloc: Global, jobs: &[OpenJob]) -> Result<Receipts, AllocError>
    requires few { length jobs.now ≤ LIMIT }
    requires senders { Each (λ (j : OpenJob). j.sender < SENDERS) jobs.now }
    ensures { IfOk result (λ r. r ≡ receipts_of jobs.now) }
{
    let mut receipts = Receipts::new(alloc, &[])?;
    for job in jobs {
        let number = receipts.accept(job.sender)?;
        receipts.acknowledge(number);
    }
    Ok(receipts)
}
