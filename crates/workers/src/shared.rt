//! What workers share.

ghost use Rattle.std.specs.Prelude.{◌≡◌, ◌+◌, ◌≤◌, true, length, drop};
ghost use Rattle.sessions.specs.Journal.{TheSession, world_at};
ghost use Rattle.workers.specs.Continues.{Begins, Continues, are_allowed};
ghost use Rattle.workers.specs.Shares.{GoesOn};

use crate::turn::{Turn, finish_job, take_turn};
use sessions::{Done, Seat, Session};
use std::marker::{Brand, PhantomData};
use std::sync::ledger::Ledger;
use world::{Feed, Refusal};

/// What the lock of workers guards: a session, alone or with what is known of it.
pub trait Shared<L: Ledger> {
    // The session.
    ghost session: { Self → TheSession };

    /// One turn of a seat: inputs the feed, if there is one, then picks a call and makes it. A feed
    /// whose number is taken is counted. Any other refusal is returned.
    fn take_turn(
        &mut self,
        seat: &mut Seat<L>,
        feed: Option<Feed>,
        doubled: &mut u32,
    ) -> Result<Turn, Refusal>
        ensures seat { GoesOn seat.old seat.new }
        ensures most { seat.new.answered ≤ seat.old.answered + 2 }
        ensures session { Continues (session self.old) (session self.new) };

    /// Commits the result of a job that a seat started.
    fn take_result(&mut self, seat: &mut Seat<L>, done: Done) -> Result<(), Refusal>
        ensures seat { GoesOn seat.old seat.new }
        ensures most { seat.new.answered ≤ seat.old.answered + 1 }
        ensures session { Continues (session self.old) (session self.new) };
}

impl<L: Ledger> Shared<L> for Session<L> {
    ghost session = { λ s. s };

    fn take_turn(
        &mut self,
        seat: &mut Seat<L>,
        feed: Option<Feed>,
        doubled: &mut u32,
    ) -> Result<Turn, Refusal> {
        take_turn(self, seat, feed, doubled)
    }

    fn take_result(&mut self, seat: &mut Seat<L>, done: Done) -> Result<(), Refusal> {
        finish_job(self, seat, done)
    }
}

/// The session with which a run began.
pub(crate) trait Start {
    ghost use Rattle.sessions.specs.Journal.{TheSession};

    ghost session: { TheSession };
}

impl Start for Brand {
    ghost use Rattle.std.specs.Prelude.{[]};

    ghost session = { record { images = []; entries = []; seats = [] } };
}

/// A session during a run. It continues the one with which the run began.
#[derive(Drop)]
pub(crate) struct Running<L: Ledger, B: Start> {
    pub session: Session<L>,
    pub start: PhantomData<B>,
    ghost images: { session.images ≡ B.session.images },
    ghost entries: { Begins B.session.entries session.entries },
    ghost allowed: { are_allowed (world_at B.session) (drop (length B.session.entries) session.entries) ≡ true },
}

impl<L: Ledger, B: Start> Shared<L> for Running<L, B> {
    ghost session = { λ r. r.session };

    fn take_turn(
        &mut self,
        seat: &mut Seat<L>,
        feed: Option<Feed>,
        doubled: &mut u32,
    ) -> Result<Turn, Refusal> {
        take_turn(&mut self.session, seat, feed, doubled)
    }

    fn take_result(&mut self, seat: &mut Seat<L>, done: Done) -> Result<(), Refusal> {
        finish_job(&mut self.session, seat, done)
    }
}
