//! What a worker hands back at its end.

use crate::seat::Seat;
use std::sync::ledger::Ledger;
use world::Refusal;

/// How a worker ended.
#[derive(Clone, Copy, PartialEq, Eq, Debug)]
pub enum End {
    /// No call could be picked, no job was open, and no feed was left.
    Quiet,
    /// Its budget of accepted calls is used up. There may be up to two more calls, since a turn
    /// that has begun is completed.
    Budget,
    /// A call was refused, and not for a feed number that is taken.
    Refused(Refusal),
    /// No call could be picked for long, while another worker's job stayed open.
    Stalled,
}

/// What a worker hands back: its seat, how many feeds had a number that was taken, and how it
/// ended.
#[derive(Drop)]
pub struct Share<L: Ledger> {
    pub seat: Seat<L>,
    pub doubled: u32,
    pub end: End,
}
