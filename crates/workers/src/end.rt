//! The end of a run.

ghost use Rattle.std.specs.Prelude.{◌≡◌, ◌+◌, length};
ghost use Rattle.sessions.specs.Journal.{IsLegal};
ghost use Rattle.sessions.specs.Seats.{answered_by};
ghost use Rattle.sessions.specs.Shares.{answers_of};

use limits::SEATS;
use sessions::{Seat, Session, Share};
use std::sync::Mutex;
use std::sync::ledger::Ledger;

/// A session that workers no longer share, what they handed back, and the other seats.
#[derive(Drop)]
pub struct Closed<L: Ledger> {
    pub session: Session<L>,
    pub shares: Vec<Share<L>>,
    pub seats: Vec<Seat<L>>,
}

/// Shows that the journal is as long as all seats have answered together, if these are all 17.
pub(crate) fn settled<L: Ledger>(
    session: Session<L>,
    shares: Vec<Share<L>>,
    seats: Vec<Seat<L>>,
) -> Closed<L>
    requires { L.parts ≡ SEATS }
    ensures session { result.session ≡ session }
    ensures shares { result.shares.items ≡ shares.items }
    ensures seats { result.seats.items ≡ seats.items }
    ensures legal { IsLegal result.session }
    ensures all { length shares.items + length seats.items ≡ SEATS → length result.session.entries ≡ answers_of shares.items + answered_by seats.items }
{
    let mut session = session;
    let mut shares = shares;
    let mut seats = seats;
    session.settle(shares.as_mut_slice(), seats.as_mut_slice());
    Closed {
        session,
        shares,
        seats,
    }
}

/// Takes the session out of its lock. If all 17 seats are handed in, with those in the shares, the
/// journal is as long as they have answered together. Takes no memory.
pub fn close<L: Ledger>(
    session: Mutex<Session<L>>,
    shares: Vec<Share<L>>,
    seats: Vec<Seat<L>>,
) -> Closed<L>
    requires { L.parts ≡ SEATS }
    ensures shares { result.shares.items ≡ shares.items }
    ensures seats { result.seats.items ≡ seats.items }
    ensures legal { IsLegal result.session }
    ensures all { length shares.items + length seats.items ≡ SEATS → length result.session.entries ≡ answers_of shares.items + answered_by seats.items }
{
    settled(session.into_inner(), shares, seats)
}
