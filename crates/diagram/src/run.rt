//! Runs, as pictures show them.

use helpers::Payload;
use world::{Entry, Message};

/// An accepted call or a refused order: its line in the scenario, from 1, and the number of the
/// refusal.
pub type Moment = (usize, Option<u8>);

/// What happened in a run, in the order of time.
#[derive(Clone, Copy)]
pub struct Run<'a> {
    /// The accepted calls with their answers.
    pub entries: &'a [Entry],
    /// One for each of these calls, and one for each refused order.
    pub moments: &'a [Moment],
    /// The payload of the message that each of these calls put on the wire, if it did.
    pub sent: &'a [Option<Payload>],
    /// The outputs that were shown.
    pub shown: &'a [Message],
}
