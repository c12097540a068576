//! One turn under the lock.

ghost use Rattle.std.specs.Prelude.{◌≡◌, ◌+◌, ◌≤◌};
ghost use Rattle.workers.specs.Continues.{Continues};
ghost use Rattle.workers.specs.Shares.{GoesOn};

use sessions::{Done, Job, Seat, Session};
use std::sync::ledger::Ledger;
use world::{Feed, Refusal};

/// The outcome of a turn.
#[derive(Drop)]
pub enum Turn {
    /// A call was made.
    Made,
    /// A call was made, and started this job.
    Started(Job),
    /// No call could be picked, and a job was open.
    Waiting,
    /// No call could be picked, and no job was open.
    Quiet,
}

/// Inputs the feed, if there is one. A feed whose number is taken is counted. Any other refusal is
/// returned.
fn take_feed<L: Ledger>(
    session: &mut Session<L>,
    seat: &mut Seat<L>,
    feed: Option<Feed>,
    doubled: &mut u32,
) -> Result<(), Refusal>
    ensures seat { GoesOn seat.old seat.new }
    ensures most { seat.new.answered ≤ seat.old.answered + 1 }
    ensures session { Continues session.old session.new }
{
    let Some(feed) = feed else {
        return Ok(());
    };
    match session.input(seat, &feed) {
        Err(Refusal::FeedTaken) => {
            *doubled = doubled.saturating_add(1);
            Ok(())
        }
        Err(refusal) => Err(refusal),
        Ok(_) => Ok(()),
    }
}

/// Inputs the feed, if there is one, then picks a call and makes it. A feed whose number is taken
/// is counted. Any other refusal is returned.
pub(crate) fn take_turn<L: Ledger>(
    session: &mut Session<L>,
    seat: &mut Seat<L>,
    feed: Option<Feed>,
    doubled: &mut u32,
) -> Result<Turn, Refusal>
    ensures seat { GoesOn seat.old seat.new }
    ensures most { seat.new.answered ≤ seat.old.answered + 2 }
    ensures session { Continues session.old session.new }
{
    take_feed(session, seat, feed, doubled)?;
    let Some(call) = session.pick() else {
        return Ok(if session.open_jobs() == 0 {
            Turn::Quiet
        } else {
            Turn::Waiting
        });
    };
    let started = session.make(seat, &call)?;
    Ok(started.map_or(Turn::Made, Turn::Started))
}

/// Commits the result of a job.
pub(crate) fn finish_job<L: Ledger>(
    session: &mut Session<L>,
    seat: &mut Seat<L>,
    done: Done,
) -> Result<(), Refusal>
    ensures seat { GoesOn seat.old seat.new }
    ensures most { seat.new.answered ≤ seat.old.answered + 1 }
    ensures session { Continues session.old session.new }
{
    match session.finish(seat, done) {
        Ok(_) => Ok(()),
        Err((refusal, _done)) => Err(refusal),
    }
}
