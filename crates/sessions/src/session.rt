//! Sessions of many callers.

ghost use Rattle.std.specs.Prelude.{◌≡◌, ◌↔◌, ◌+◌, ◌≤◌, IfErr, IfNone, IfOk, IfSome, IsTrue, None, Some, [], true, length, map, slice_set};
ghost use Rattle.interp.specs.Image.{image_in};
ghost use Rattle.world.specs.Useful.{may_call};
ghost use Rattle.world.specs.declared.refusal.Refusal.TheVariants.{Memory};
ghost use Rattle.machine.specs.Simulation.{answering};
ghost use Rattle.machine.specs.Dispatch.{TakesNoResult, answer_in};
ghost use Rattle.machine.specs.Choice.{IsPick, IsMove};
ghost use Rattle.sessions.specs.Driver.{Driven, IsQuiet, Makes, StartsJob};
ghost use Rattle.sessions.specs.Seats.{AreSeats, IsWhole, answered_by, new_seats, seat_at};
ghost use Rattle.sessions.specs.Service.{Returns, alone};
ghost use Rattle.sessions.specs.Shares.{answers_of};
ghost use Rattle.sessions.specs.Journal.{IsLegal, world_at, room_at, Adds, Takes, OpensWith};

use crate::job::{Done, Job};
use crate::seat::{Seat, settle};
use crate::service::Service;
use crate::share::Share;
use interp::Handler;
use limits::SEATS;
use machine::{Finished, Reply};
use std::alloc::{AllocError, Global};
use std::marker::Model;
use std::sync::Arc;
use std::sync::ledger::{Blank, Book, Ledger, Share as Part};
use world::{Call, Refusal};

/// A service that many may call, the book that counts their accepted calls, and the seats that are
/// not taken. `L` names the session's ledger, which has a part for each seat.
#[derive(Drop)]
pub struct Session<L: Ledger> {
    pub(crate) service: Service,
    pub(crate) book: Book<L>,
    seats: Vec<Option<Seat<L>>>,
}

impl<L: Ledger> Model for Session<L> {
    ghost use Rattle.std.specs.Prelude.{◌≡◌, length};
    ghost use Rattle.sessions.specs.Journal.{TheSession};
    ghost use Rattle.sessions.specs.Seats.{AreSeats};

    ghost Value = { TheSession };

    ghost view = { λ s. record { images = s.service.images; entries = s.service.entries; seats = s.seats.items } };

    ghost invariant = { λ s. AreSeats s.seats.items × (s.book.total ≡ length s.service.entries) };
}

// A seat for each part of the ledger.
fn seats_of<L: Ledger>(
    alloc: Global,
    mut parts: Part<L>,
) -> Result<Vec<Option<Seat<L>>>, AllocError>
    requires { (parts.parts ≡ SEATS) × (parts.amount ≡ 0) }
    ensures { IfOk result (λ v. v.items ≡ new_seats SEATS) }
{
    let mut seats = Vec::new(alloc);
    for worker in 0..SEATS as u8 {
        let part = parts.split_off(1, 0);
        seats.push(Some(Seat::new(worker, part)))?;
    }
    Ok(seats)
}

// The session of this service with its seats, unless memory ran out.
fn seated<L: Ledger>(
    service: Service,
    book: Book<L>,
    seats: Result<Vec<Option<Seat<L>>>, AllocError>,
) -> Result<Session<L>, Refusal>
    requires seats { IfOk seats (λ v. v.items ≡ new_seats SEATS) }
    requires empty { (service.entries ≡ []) × (book.total ≡ 0) }
    ensures ok { IfOk result (λ s. s ≡ record service { seats = new_seats SEATS }) }
    ensures err { IfErr result (λ r. r ≡ Memory) }
{
    match seats {
        Ok(seats) => Ok(Session {
            service,
            book,
            seats,
        }),
        Err(_) => Err(Refusal::Memory),
    }
}

impl<L: Ledger> Session<L> {
    /// Processes 1 to n with these images. Each is up, in its first incarnation, with a state of
    /// zeros; the journal is empty, and there are 17 seats. Refuses no images or more than 15
    /// (`NoSuchProcess`), and lack of memory.
    pub fn open(
        alloc: Global,
        blank: Blank,
        images: Vec<Arc<Handler>>,
    ) -> Result<Session<L>, Refusal>
        requires name { blank.name ≡ L.name }
        requires parts { (blank.parts ≡ L.parts) × (L.parts ≡ SEATS) }
        ensures { OpensWith (map image_in images.items) result }
    {
        let service = Service::open(alloc, images)?;
        let (book, parts) = blank.open::<L>();
        seated(service, book, seats_of(alloc, parts))
    }

    /// Takes out the seat of this worker, 0 to 16. `None` if it is out already.
    pub fn sit(&mut self, worker: u8) -> Option<Seat<L>>
        ensures seat { result ≡ seat_at self.old.seats worker }
        ensures out { self.new ≡ record self.old { seats = slice_set self.old.seats worker None } }
        ensures worker { IfSome result (λ s. s.worker ≡ worker) }
    {
        let place = worker as usize;
        if place >= self.seats.len() {
            return None;
        }
        self.seats[place].take()
    }

    /// Takes a seat back.
    pub fn rise(&mut self, seat: Seat<L>)
        ensures { self.new ≡ record self.old { seats = slice_set self.old.seats seat.worker (Some seat) } }
    {
        let worker = seat.worker() as usize;
        self.seats[worker] = Some(seat);
    }

    /// Whether no seat is out.
    pub fn is_whole(&self) -> bool
        ensures whole { IsTrue result ↔ IsWhole self.now.seats }
        ensures places { length self.now.seats ≡ SEATS }
    {
        self.seats.iter().all(|seat| seat.is_some())
    }

    /// Shows that the journal is as long as all seats have answered together, if those of the
    /// shares and the others are all 17. Takes no memory.
    pub fn settle(&mut self, shares: &mut [Share<L>], seats: &mut [Seat<L>])
        requires { L.parts ≡ SEATS }
        ensures session { self.new ≡ self.old }
        ensures shares { shares.new ≡ shares.old }
        ensures seats { seats.new ≡ seats.old }
        ensures legal { IsLegal self.new }
        ensures all { length shares.old + length seats.old ≡ SEATS → length self.old.entries ≡ answers_of shares.old + answered_by seats.old }
    {
        settle(&mut self.book, shares, seats);
        let _entries = self.service.journal();
    }

    /// What the callers share.
    pub fn service(&self) -> &Service
        ensures { result.now ≡ alone self.now }
    {
        // For the proof: a service has no seats, as its fields' laws tell.
        let _ = &self.service.exact;
        &self.service
    }

    /// A useful call that could be refused only for lack of memory; `None` only if there is none.
    /// Takes no memory.
    pub fn pick(&self) -> Option<Call>
        ensures some { IfSome result (λ call. IsPick (world_at self.now) (room_at self.now) call) }
        ensures none { IfNone result (IsQuiet self.now) }
        ensures moves { IfSome result IsMove }
        ensures result { IfSome result TakesNoResult }
    {
        self.service.pick()
    }

    /// Makes a call as a [`Service`] does: any that has a method of its own.
    pub fn call(&mut self, by: &mut Seat<L>, call: &Call) -> Result<Reply<Job>, Refusal>
        requires result { TakesNoResult call.now }
        requires may { may_call (world_at self.old) by.old.worker call.now ≡ true }
        ensures adds { Adds self.old self.new by.old by.new call.now (answering answer_in result) }
        ensures worker { by.new.worker ≡ by.old.worker }
        ensures job { IfOk result (StartsJob self.old self.new call.now) }
        ensures exactly { IfOk result (λ reply. Returns self.old self.new call.now reply.answer) }
    {
        let reply = self.service.call_of(by.worker(), call)?;
        by.answer(&mut self.book, 1);
        Ok(reply)
    }

    /// Makes a picked call, and answers the job that it starts. It refuses only for lack of memory,
    /// and then nothing has changed.
    pub fn make(&mut self, by: &mut Seat<L>, call: &Call) -> Result<Option<Job>, Refusal>
        requires pick { IsPick (world_at self.old) (room_at self.old) call.now }
        requires result { TakesNoResult call.now }
        ensures makes { Makes self.old self.new by.old by.new call.now result }
        ensures worker { by.new.worker ≡ by.old.worker }
        ensures answered { by.old.answered ≤ by.new.answered }
    {
        let reply = self.call(by, call)?;
        Ok(reply.job)
    }

    /// Commits the result of the open job of its process, as a [`Service`] does. Any seat may do
    /// so.
    pub fn finish(&mut self, by: &mut Seat<L>, done: Done) -> Result<Finished, (Refusal, Done)>
        ensures takes { Takes self.old self.new by.old by.new done result }
        ensures worker { by.new.worker ≡ by.old.worker }
    {
        let finished = self.service.finish_of(by.worker(), done)?;
        by.answer(&mut self.book, 1);
        Ok(finished)
    }

    /// Picks calls and makes them, as a [`Service`] does.
    pub fn drive(&mut self, by: &mut Seat<L>, budget: u32) -> Result<u32, Refusal>
        ensures { Driven budget self.old self.new by.old by.new result }
    {
        let before = self.service.journal().len();
        let driven = self.service.drive_of(by.worker(), budget);
        let added = self.service.journal().len() - before;
        by.answer(&mut self.book, added as u32);
        driven
    }
}
