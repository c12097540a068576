//! A run of many workers.

ghost use Rattle.std.specs.Prelude.{◌≡◌, ◌+◌, ◌-◌, ◌<◌, ◌≤◌, ℕ, ◌⊎◌, ◌++◌, [], length, vec_len, vec_capacity, take, drop, slice_set, None, IfOk, IfErr, OnOk};
ghost use Rattle.std.specs.Bool.{OnTrue, OnFalse};
ghost use Rattle.std.specs.Thread.{IsSync};
ghost use Rattle.sessions.specs.Journal.{IsLegal};
ghost use Rattle.sessions.specs.Seats.{answered_by, listed, seat_at, seats_from};
ghost use Rattle.sessions.specs.Shares.{answers_of};
ghost use Rattle.workers.specs.Shares.{AreServed, IsServed};
ghost use Rattle.workers.specs.Continues.{Continues};
ghost use Rattle.workers.specs.Runs.{CanRun, IsCause, manned, unmanned, number_of};

use crate::end::{Closed, settled};
use crate::feed::{Item, channel_of};
use crate::shared::{Running, Start};
use crate::turnstile::Turnstile;
use crate::work::serve;
use crossbeam_channel::Receiver;
use limits::{SEATS, WORKERS};
use sessions::{Seat, Session, Share};
use std::alloc::{AllocError, Global};
use std::marker::{Brand, PhantomData};
use std::sync::ledger::Ledger;
use std::sync::{Mutex, Wait};
use std::thread;
use std::thread::Threads;
use thiserror::Error;
use world::Feed;

/// Why no worker was started. If both causes hold, the first is told.
#[derive(Clone, Copy, PartialEq, Eq, Debug, Error)]
pub enum RunError {
    #[error("there are no workers or more than 16, or a seat is out")]
    Workers,
    #[error("out of memory")]
    Memory,
}

impl RunError {
    /// Its number, 1 or 2.
    pub fn number(self) -> u8
        ensures { result ≡ number_of self }
    {
        match self {
            RunError::Workers => 1,
            RunError::Memory => 2,
        }
    }
}

/// Seats, of which the last get workers, and the shares of workers that have ended.
#[derive(Drop)]
struct Crew<L: Ledger> {
    seats: Vec<Seat<L>>,
    shares: Vec<Share<L>>,
}

// Room for all seats, and for a share of each worker.
fn places_for<L: Ledger>(alloc: Global, workers: u8) -> Result<Crew<L>, AllocError>
    ensures none { IfOk result (λ c. (c.seats.items ≡ []) × (c.shares.items ≡ [])) }
    ensures places { IfOk result (λ c. (SEATS ≤ vec_capacity c.seats) × (workers ≤ vec_capacity c.shares)) }
{
    let seats = Vec::with_capacity(alloc, SEATS)?;
    let shares = Vec::with_capacity(alloc, workers as usize)?;
    Ok(Crew { seats, shares })
}

// Takes this worker's seat, if it isn't out, and adds it to these.
fn sit_at<L: Ledger>(session: &mut Session<L>, worker: u8, seats: &mut Vec<Seat<L>>)
    requires { vec_len seats.old < vec_capacity seats.old }
    ensures seats { seats.new.items ≡ seats.old.items ++ listed (seat_at session.old.seats worker) }
    ensures len { vec_len seats.new ≤ vec_len seats.old + 1 }
    ensures capacity { vec_capacity seats.new ≡ vec_capacity seats.old }
    ensures entries { session.new.entries ≡ session.old.entries }
    ensures images { session.new.images ≡ session.old.images }
    ensures out { session.new.seats ≡ slice_set session.old.seats worker None }
{
    let Some(seat) = session.sit(worker) else {
        return;
    };
    seats.push_reserved(seat);
}

// Takes `count` seats from this worker's on, and adds those that aren't out to these.
fn sit_from<L: Ledger>(session: &mut Session<L>, worker: u8, count: u8, seats: &mut Vec<Seat<L>>)
    requires within { worker + count ≤ SEATS }
    requires room { vec_len seats.old + count ≤ vec_capacity seats.old }
    ensures seats { seats.new.items ≡ seats.old.items ++ seats_from session.old.seats worker count }
    ensures len { vec_len seats.new ≤ vec_len seats.old + count }
    ensures capacity { vec_capacity seats.new ≡ vec_capacity seats.old }
    ensures entries { session.new.entries ≡ session.old.entries }
    ensures images { session.new.images ≡ session.old.images }
    ensures others { (k : ℕ) → (k < worker) ⊎ (worker + count ≤ k) → seat_at session.new.seats k ≡ seat_at session.old.seats k }
{
    for place in 0..count {
        sit_at(session, worker + place, seats);
    }
}

// Shows that the journal is as long as these seats have answered, if they are all.
fn audit<L: Ledger>(session: &mut Session<L>, seats: &mut Vec<Seat<L>>)
    requires { L.parts ≡ SEATS }
    ensures session { session.new ≡ session.old }
    ensures seats { seats.new.items ≡ seats.old.items }
    ensures all { length seats.old.items ≡ SEATS → length session.old.entries ≡ answered_by seats.old.items }
{
    let mut none: [Share<L>; 0] = [];
    session.settle(&mut none, seats.as_mut_slice());
}

// Whether this many workers can run.
fn is_ready<L: Ledger>(workers: u8, session: &Session<L>) -> bool
    ensures can { OnTrue result (CanRun workers session.now) }
    ensures cannot { OnFalse result (¬ CanRun workers session.now) }
    ensures places { length session.now.seats ≡ SEATS }
{
    session.is_whole() && workers > 0 && workers <= WORKERS as u8
}

// Takes all seats, those of the workers last.
fn man<L: Ledger>(session: &mut Session<L>, seats: &mut Vec<Seat<L>>, workers: u8)
    requires parts { L.parts ≡ SEATS }
    requires can { CanRun workers session.old }
    requires places { length session.old.seats ≡ SEATS }
    requires none { seats.old.items ≡ [] }
    requires room { SEATS ≤ vec_capacity seats.old }
    ensures seats { seats.new.items ≡ unmanned workers session.old.seats ++ manned workers session.old.seats }
    ensures others { length (unmanned workers session.old.seats) ≡ SEATS - workers }
    ensures theirs { length (manned workers session.old.seats) ≡ workers }
    ensures answered { length session.old.entries ≡ answered_by (unmanned workers session.old.seats) + answered_by (manned workers session.old.seats) }
    ensures images { session.new.images ≡ session.old.images }
    ensures entries { session.new.entries ≡ session.old.entries }
{
    sit_from(session, 0, 1, seats);
    sit_from(session, workers + 1, WORKERS as u8 - workers, seats);
    sit_from(session, 1, workers, seats);
    audit(session, seats);
}

// Starts a worker in a thread of its own for each of the last seats.
fn serve_all<
    L: Ledger + Send + Sync,
    B: Start + Send + Sync,
    R: Threads + Wait + Sync,
    G: Turnstile,
>(
    rt: &R,
    workers: usize,
    crew: Crew<L>,
    session: &Mutex<Running<L, B>>,
    items: &Receiver<Item>,
    turnstile: &G,
    budget: u32,
) -> Crew<L>
    requires seats { workers ≤ length crew.seats.items }
    requires none { crew.shares.items ≡ [] }
    requires room { workers ≤ vec_capacity crew.shares }
    ensures seats { result.seats.items ≡ take (length crew.seats.items - workers) crew.seats.items }
    ensures shares { AreServed budget (drop (length crew.seats.items - workers) crew.seats.items) result.shares.items }
    ensures len { vec_len result.shares ≡ workers }
    ensures capacity { vec_capacity result.shares ≡ vec_capacity crew.shares }
{
    let mut crew = crew;
    if workers == 0 {
        return crew;
    }
    let Some(seat) = crew.seats.pop() else {
        unreachable!()
    };
    let others = workers - 1;
    let (share, mut crew) = thread::join(
        rt,
        move || -> Share<L>
            ensures { IsServed budget seat result }
        { serve(rt, seat, session, items, turnstile, budget) },
        move || -> Crew<L>
            requires { IsSync R.row × IsSync G.row × (others ≤ length crew.seats.items) × (crew.shares.items ≡ []) × (others ≤ vec_capacity crew.shares) }
            ensures seats { result.seats.items ≡ take (length crew.seats.items - others) crew.seats.items }
            ensures shares { AreServed budget (drop (length crew.seats.items - others) crew.seats.items) result.shares.items }
            ensures len { vec_len result.shares ≡ others }
            ensures capacity { vec_capacity result.shares ≡ vec_capacity crew.shares }
        { serve_all(rt, others, crew, session, items, turnstile, budget) },
    );
    crew.shares.push_reserved(share);
    crew
}

// Runs workers on the session that `B` names.
fn run_from<
    L: Ledger + Send + Sync,
    B: Start + Send + Sync,
    R: Threads + Wait + Sync,
    G: Turnstile,
>(
    rt: &R,
    alloc: Global,
    workers: u8,
    session: Session<L>,
    feeds: &[Feed],
    budget: u32,
    turnstile: &G,
) -> Result<Closed<L>, (RunError, Session<L>)>
    requires parts { L.parts ≡ SEATS }
    requires start { session ≡ B.session }
    ensures can { OnOk result (CanRun workers session) }
    ensures served { IfOk result (λ c. AreServed budget (manned workers session.seats) c.shares.items) }
    ensures workers { IfOk result (λ c. vec_len c.shares ≡ workers) }
    ensures others { IfOk result (λ c. c.seats.items ≡ unmanned workers session.seats) }
    ensures legal { IfOk result (λ c. IsLegal c.session) }
    ensures continues { IfOk result (λ c. Continues session c.session) }
    ensures all { IfOk result (λ c. length c.session.entries ≡ answers_of c.shares.items + answered_by c.seats.items) }
    ensures grew { IfOk result (λ c. length c.session.entries + answered_by (manned workers session.seats) ≡ length session.entries + answers_of c.shares.items) }
    ensures refused { IfErr result (λ e. (e.1 ≡ session) × IsCause e.0 (CanRun workers session)) }
{
    if !is_ready(workers, &session) {
        return Err((RunError::Workers, session));
    }
    let Ok(mut crew) = places_for(alloc, workers) else {
        return Err((RunError::Memory, session));
    };
    let Ok((to, items)) = channel_of(rt, alloc, feeds, workers) else {
        return Err((RunError::Memory, session));
    };
    let mut session = session;
    man(&mut session, &mut crew.seats, workers);
    let lock = Mutex::new(Running::<L, B> {
        session,
        start: PhantomData,
    });
    let count = workers as usize;
    let crew = serve_all(rt, count, crew, &lock, &items, turnstile, budget);
    // `to` stays open until all workers have ended: only the last items tell them that no feed
    // comes.
    drop(to);
    let Running { session, .. } = lock.into_inner();
    Ok(settled(session, crew.shares, crew.seats))
}

/// Runs 1 to 16 workers on the feeds, each in a thread of its own until it ends. Before the first
/// one starts, the channel has each feed and then an item [`Item::Last`] for each worker. All seats
/// are taken. Those of the workers 1, 2, .. come back in the shares, in this order, and the others
/// unchanged. With a refusal the session comes back unchanged.
pub fn run<L: Ledger + Send + Sync, R: Threads + Wait + Sync, G: Turnstile>(
    rt: &R,
    alloc: Global,
    workers: u8,
    session: Session<L>,
    feeds: &[Feed],
    budget: u32,
    turnstile: &G,
) -> Result<Closed<L>, (RunError, Session<L>)>
    requires { L.parts ≡ SEATS }
    ensures can { OnOk result (CanRun workers session) }
    ensures served { IfOk result (λ c. AreServed budget (manned workers session.seats) c.shares.items) }
    ensures workers { IfOk result (λ c. vec_len c.shares ≡ workers) }
    ensures others { IfOk result (λ c. c.seats.items ≡ unmanned workers session.seats) }
    ensures legal { IfOk result (λ c. IsLegal c.session) }
    ensures continues { IfOk result (λ c. Continues session c.session) }
    ensures all { IfOk result (λ c. length c.session.entries ≡ answers_of c.shares.items + answered_by c.seats.items) }
    ensures grew { IfOk result (λ c. length c.session.entries + answered_by (manned workers session.seats) ≡ length session.entries + answers_of c.shares.items) }
    ensures refused { IfErr result (λ e. (e.1 ≡ session) × IsCause e.0 (CanRun workers session)) }
{
    run_from::<L, Brand, R, G>(rt, alloc, workers, session, feeds, budget, turnstile)
}
