//! The loop of one worker.

ghost use Rattle.std.specs.Prelude.{◌≡◌, ◌≢◌, ◌+◌, ◌<◌, ◌≤◌, IfNone, Some};
ghost use Rattle.sessions.specs.declared.share.End.TheVariants.{Budget};
ghost use Rattle.workers.specs.Shares.{GoesOn, IsServed};

use crate::feed::{Item, next_feed};
use crate::shared::Shared;
use crate::turn::Turn;
use crate::turnstile::Turnstile;
use crossbeam_channel::Receiver;
use sessions::{End, Job, Seat, Service, Share};
use std::sync::ledger::Ledger;
use std::sync::{Mutex, Wait};
use std::{hint, thread};
use world::{Feed, Refusal};

/// A worker ends after this many turns in a row with nothing to do, while a job is open and no feed
/// is left.
const PATIENCE: u32 = 1_000_000;

/// A waiting worker yields its processor after each of its first `EAGER` turns, and then after
/// every `SELDOM`-th. If all processors are busy, a yield costs many milliseconds, so there are
/// few.
const EAGER: u32 = 100;

const SELDOM: u32 = 10_000;

/// How many spins a waiting worker leaves the lock free between two turns.
const PAUSE: u32 = 64;

/// Takes turns at the session until nothing is left to do, `budget` of its calls were accepted, or
/// a call is refused. In a turn it takes the next item, until it has taken the last, gives the feed
/// to `input`, and picks a call and makes it. It runs a job that starts without the lock, and
/// brings its result back. [`End`] says how it ends. It waits for items, for the lock, and for jobs
/// of others. It knows what the lock guards only by [`Shared`], so all that it does there are turns
/// and results, and each call that they make is one that a worker may make.
pub fn worker<L: Ledger, S: Shared<L>, R: Wait, G: Turnstile>(
    rt: &R,
    seat: Seat<L>,
    session: &Mutex<S>,
    items: Receiver<Item>,
    turnstile: &G,
    budget: u32,
) -> Share<L>
    ensures { IsServed budget seat result }
{
    serve(rt, seat, session, &items, turnstile, budget)
}

/// What [`worker`] does, on a channel from which others receive too.
pub(crate) fn serve<L: Ledger, S: Shared<L>, R: Wait, G: Turnstile>(
    rt: &R,
    seat: Seat<L>,
    session: &Mutex<S>,
    items: &Receiver<Item>,
    turnstile: &G,
    budget: u32,
) -> Share<L>
    ensures { IsServed budget seat result }
{
    let mut seat = seat;
    let start = seat.answered();
    let mut doubled = 0;
    let mut is_fed = true;
    let mut idle = 0;
    for _ in rt.forever() {
        if seat.answered() - start >= budget {
            return Share {
                seat,
                doubled,
                end: End::Budget,
            };
        }
        let feed = if is_fed { next_feed(rt, items) } else { None };
        is_fed = feed.is_some();
        let turned = turn(rt, &mut seat, session, turnstile, feed, &mut doubled);
        if let Some(end) = end_of(turned, is_fed, &mut idle) {
            return Share { seat, doubled, end };
        }
        if idle > 0 {
            rest(idle);
        }
    }
    unreachable!()
}

// How a worker ends after this turn, if it does. Counts the turns in a row in which it only waits.
fn end_of(turned: Result<Turn, Refusal>, is_fed: bool, idle: &mut u32) -> Option<End>
    requires { idle.old < PATIENCE }
    ensures unspent { result ≢ Some Budget }
    ensures patient { IfNone result (idle.new < PATIENCE) }
{
    match turned {
        Err(refusal) => return Some(End::Refused(refusal)),
        Ok(Turn::Quiet) if !is_fed => return Some(End::Quiet),
        Ok(Turn::Waiting) if !is_fed => *idle += 1,
        Ok(_) => *idle = 0,
    }
    if *idle == PATIENCE {
        return Some(End::Stalled);
    }
    None
}

// Leaves the lock free for a while, and after some turns without a call yields the processor too.
fn rest(idle: u32) {
    for _ in 0..PAUSE {
        hint::spin_loop();
    }
    if idle < EAGER || idle % SELDOM == 0 {
        thread::yield_now();
    }
}

// One turn, with the job that it starts.
fn turn<L: Ledger, S: Shared<L>, R: Wait, G: Turnstile>(
    rt: &R,
    seat: &mut Seat<L>,
    session: &Mutex<S>,
    turnstile: &G,
    feed: Option<Feed>,
    doubled: &mut u32,
) -> Result<Turn, Refusal>
    ensures seat { GoesOn seat.old seat.new }
    ensures most { seat.new.answered ≤ seat.old.answered + 3 }
{
    let taken = session.lock(rt).take_turn(seat, feed, doubled)?;
    let Turn::Started(job) = taken else {
        return Ok(taken);
    };
    carry_out(rt, seat, session, turnstile, job)?;
    Ok(Turn::Made)
}

// Runs a job without the lock, and brings its result back.
fn carry_out<L: Ledger, S: Shared<L>, R: Wait, G: Turnstile>(
    rt: &R,
    seat: &mut Seat<L>,
    session: &Mutex<S>,
    turnstile: &G,
    job: Job,
) -> Result<(), Refusal>
    ensures seat { GoesOn seat.old seat.new }
    ensures most { seat.new.answered ≤ seat.old.answered + 1 }
{
    let serial = job.task().serial();
    turnstile.between(serial);
    let done = Service::run(job);
    session.lock(rt).take_result(seat, done)?;
    turnstile.committed(serial);
    Ok(())
}
