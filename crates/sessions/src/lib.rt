//! Sessions: processes that exchange messages, and the journal of their calls.
//!
//! A [`Service`] takes calls one at a time. A call that it accepts adds one entry to its journal; a
//! call that it refuses changes nothing and tells the least number whose cause holds. Its type
//! keeps that the journal is legal, so that each entry is a step of the world from the opening, and
//! that the journal leads to where the session is: states, lengths and phases are those of the
//! world after the last entry. Handlers run outside of it: a call hands out the job that it starts,
//! and `finish` takes the result back. The type of [`Done`] keeps that this is the handler's answer
//! to its job. Only `drive` does both itself.
//!
//! `specs/Fold` says what the handlers of images make of a history: the state, and what was sent.
//! [`handlers_grow`] says of them what the laws of `theorems` ask of handlers.
//!
//! ```text
//! let mut service = Service::open(alloc, images)?;
//! let ssn = service.input(&Feed { number: 1, dst: 1, payload })?;
//! let key = service.transmit(0, 1, ssn)?;
//! if let Arrival::Started(job) = service.arrive(key)? {
//!     let committed = service.finish(Service::run(job))?;
//! }
//! let accepted = service.drive(65_536)?;
//! ```
//!
//! Each call has a method of its name, with an answer of its own. `call` takes any of them as a
//! value.
//!
//! A [`Session`] is a service that many threads call. A [`Seat`] makes each call: the entry has its
//! worker, and the seat counts it. The seats hold the parts of a ledger whose book, kept next to
//! the service, has the journal's length as its total. So each entry was counted by a seat,
//! whichever threads hold the seats.
//!
//! ```text
//! let mut session = Session::<L>::open(alloc, blank, images)?;
//! let mut seat = session.sit(0)?;
//! let ssn = session.input(&mut seat, &Feed { number: 1, dst: 1, payload })?;
//! let accepted = session.drive(&mut seat, 65_536)?;
//! let incarnation = session.crash(&mut seat, 1)?;
//! ```
#![tactic(auto)]

mod driver;
mod fold;
mod handed;
mod job;
mod journal;
mod named_call;
mod queries;
mod refused;
mod seat;
mod seat_call;
mod service;
mod session;
mod share;
mod slip;
mod start;
mod view;

pub use fold::handlers_grow;
pub use job::{Done, Job};
pub use machine::{Arrival, Finished, Reply};
pub use seat::Seat;
pub use service::Service;
pub use session::Session;
pub use share::{End, Share};
pub use slip::{Slip, copied};
