//! Runs by workers.

ghost use Rattle.std.specs.Prelude.{◌≡◌, ◌↔◌, ◌≤◌, ◌+◌, ◌++◌, All, IfOk, IsTrue, OnErr, OnOk, [], length, map, string_bytes};
ghost use Rattle.interp.specs.Image.{image_in};
ghost use Rattle.machine.specs.Openings.{AreFew};
ghost use Rattle.scenario.specs.Process.{names_of};
ghost use Rattle.sessions.specs.Journal.{IsLegal};
ghost use Rattle.sessions.specs.Seats.{answered_by, new_seats};
ghost use Rattle.sessions.specs.Shares.{answers_of};
ghost use Rattle.workers.specs.Continues.{Continues};
ghost use Rattle.workers.specs.Runs.{CanRun, manned};
ghost use Rattle.workers.specs.Shares.{AreServed};
ghost use Rattle.live.specs.Inside.{HasMemory, ended_of};
ghost use Rattle.live.specs.Live.{IsLive};
ghost use Rattle.results.specs.Results.{results_text};

use crate::ended::{Ended, ends_of};
use crate::feeds::feeds_of;
use indexmap::IndexMap;
use interp::Handler;
use limits::{SEATS, WORKERS};
use results::{note_refused, push_results};
use scenario::{NamedProcess, Scenario};
use sessions::{End, Session, Share};
use std::alloc::{AllocError, Global};
use std::marker::Brand;
use std::sync::ledger::{Blank, Ledger};
use std::sync::{Arc, Wait};
use std::thread::Threads;
use workers::{Closed, Open, RunError, run};
use world::{Feed, Refusal};

/// Whether memory ran out for none of these workers.
fn have_memory<L: Ledger>(shares: &[Share<L>]) -> bool
    ensures { IsTrue result ↔ All HasMemory shares.now }
{
    shares.iter().all(|share| !matches!(share.end, End::Refused(Refusal::Memory)))
}

/// Writes the trace and the report of a session that workers ran. If memory ran out for one of them, it writes nothing.
fn push_closed<L: Ledger>(
    alloc: Global,
    out: &mut String,
    processes: &IndexMap<String, NamedProcess>,
    closed: &Closed<L>,
) -> Result<(), AllocError>
    requires { length processes.now.entries ≡ length closed.now.session.images }
    ensures written { OnOk result (string_bytes out.new ≡ string_bytes out.old ++ results_text (names_of processes.now) closed.now.session.images closed.now.session.entries) }
    ensures served { OnOk result (All HasMemory closed.now.shares.items) }
    ensures unchanged { OnErr result (string_bytes out.new ≡ string_bytes out.old) }
{
    if !have_memory(closed.shares.as_slice()) {
        return Err(AllocError);
    }
    push_results(alloc, out, processes, closed.session.service())
}

/// A session of this ledger, before the first call.
fn opened<L: Ledger>(
    alloc: Global,
    blank: Blank,
    images: Vec<Arc<Handler>>,
) -> Result<Session<L>, AllocError>
    requires name { blank.name ≡ L.name }
    requires parts { (blank.parts ≡ L.parts) × (blank.parts ≡ SEATS) }
    requires few { AreFew (map image_in images.items) }
    ensures { IfOk result (λ s. s ≡ record { images = map image_in images.items; entries = []; seats = new_seats SEATS }) }
{
    match Session::open(alloc, blank, images) {
        Ok(session) => Ok(session),
        // These images are few, so only memory is refused.
        Err(_) => Err(AllocError),
    }
}

/// Runs workers on a session.
fn served<L: Ledger + Send + Sync, R: Threads + Wait + Sync>(
    rt: &R,
    alloc: Global,
    session: Session<L>,
    feeds: &[Feed],
    workers: u8,
    budget: u32,
) -> Result<Closed<L>, AllocError>
    requires parts { L.parts ≡ SEATS }
    requires can { CanRun workers session }
    ensures legal { IfOk result (λ c. IsLegal c.session) }
    ensures continues { IfOk result (λ c. Continues session c.session) }
    ensures served { IfOk result (λ c. AreServed budget (manned workers session.seats) c.shares.items) }
    ensures grew { IfOk result (λ c. length c.session.entries + answered_by (manned workers session.seats) ≡ length session.entries + answers_of c.shares.items) }
{
    let (error, _session) = match run(rt, alloc, workers, session, feeds, budget, &Open) {
        Ok(closed) => return Ok(closed),
        Err(refused) => refused,
    };
    match error {
        RunError::Memory => Err(AllocError),
        RunError::Workers => unreachable!(),
    }
}

/// Writes what workers leave, and answers how they ended.
fn tell_closed<L: Ledger>(
    alloc: Global,
    out: &mut String,
    note: &mut String,
    processes: &IndexMap<String, NamedProcess>,
    closed: &Closed<L>,
) -> Result<Vec<Ended>, AllocError>
    requires { length processes.now.entries ≡ length closed.now.session.images }
    ensures ended { IfOk result (λ ended. ended.items ≡ map ended_of closed.now.shares.items) }
    ensures written { OnOk result (string_bytes out.new ≡ string_bytes out.old ++ results_text (names_of processes.now) closed.now.session.images closed.now.session.entries) }
    ensures served { OnOk result (All HasMemory closed.now.shares.items) }
    ensures unchanged { OnErr result (string_bytes out.new ≡ string_bytes out.old) }
{
    let ended = ends_of(alloc, closed.shares.as_slice())?;
    note_refused(alloc, note, processes, closed.session.service());
    push_closed(alloc, out, processes, closed)?;
    Ok(ended)
}

/// Runs workers on a new session of this ledger.
fn live_in<L: Ledger + Send + Sync, R: Threads + Wait + Sync>(
    rt: &R,
    alloc: Global,
    blank: Blank,
    scenario: &Scenario,
    images: Vec<Arc<Handler>>,
    workers: u8,
    budget: u32,
    out: &mut String,
    note: &mut String,
) -> Result<Vec<Ended>, AllocError>
    requires name { blank.name ≡ L.name }
    requires parts { (blank.parts ≡ L.parts) × (blank.parts ≡ SEATS) }
    requires few { AreFew (map image_in images.items) }
    requires named { length scenario.now.processes.entries ≡ length images.items }
    requires workers { (1 ≤ workers) × (workers ≤ WORKERS) }
    ensures written { IfOk result (λ ended. IsLive (names_of scenario.now.processes) (map image_in images.items) workers budget ended.items (string_bytes out.old) (string_bytes out.new)) }
    ensures unchanged { OnErr result (string_bytes out.new ≡ string_bytes out.old) }
{
    let feeds = feeds_of(alloc, scenario.steps.as_slice())?;
    let session: Session<L> = opened(alloc, blank, images)?;
    let closed = served(rt, alloc, session, feeds.as_slice(), workers, budget)?;
    tell_closed(alloc, out, note, &scenario.processes, &closed)
}

/// Runs workers, 1 to 16, on a session of these images, 1 to 15, one for each process of the scenario.
/// They hand in the messages of its lines, numbered from 1; each ends after as many calls as the
/// budget, and up to two more. Writes the trace and the report (docs/FORMATS.md) of the session that
/// they leave, and answers how each ended, in the order of their numbers. If memory runs out, also for
/// one of them, nothing is written. The note says what helpers refused.
pub fn live<R: Threads + Wait + Sync>(
    rt: &R,
    alloc: Global,
    scenario: &Scenario,
    images: Vec<Arc<Handler>>,
    workers: u8,
    budget: u32,
    out: &mut String,
    note: &mut String,
) -> Result<Vec<Ended>, AllocError>
    requires few { AreFew (map image_in images.items) }
    requires named { length scenario.now.processes.entries ≡ length images.items }
    requires workers { (1 ≤ workers) × (workers ≤ WORKERS) }
    ensures written { IfOk result (λ ended. IsLive (names_of scenario.now.processes) (map image_in images.items) workers budget ended.items (string_bytes out.old) (string_bytes out.new)) }
    ensures unchanged { OnErr result (string_bytes out.new ≡ string_bytes out.old) }
{
    let blank = Blank::new(SEATS as u64);
    live_in::<Brand, R>(
        rt, alloc, blank, scenario, images, workers, budget, out, note,
    )
}
