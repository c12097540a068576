//! What the line and boxes of a process show.

use crate::sign::Sign;

/// The phase that a line shows.
#[derive(Clone, Copy, PartialEq, Eq)]
pub enum Phase {
    Up,
    Down,
    /// Messages up to the RSN `kept` are replayed. `alone`: the process came back alone.
    Replaying { kept: u32, alone: bool },
    /// RSNs are to be restored from `left` more peers.
    Restoring { left: usize },
}

impl Phase {
    /// The style of the line.
    pub(crate) fn class(self) -> &'static str {
        match self {
            Phase::Up => "up",
            Phase::Down => "down",
            Phase::Replaying { .. } | Phase::Restoring { .. } => "back",
        }
    }
}

/// A handler call that has begun.
#[derive(Clone, Copy)]
pub struct OpenCall {
    pub serial: u32,
    /// The column where it began.
    pub column: usize,
    /// The sender of its message. A replayed message has none.
    pub sender: Option<u8>,
}

impl OpenCall {
    /// The style of its box.
    pub(crate) fn class(&self) -> &'static str {
        match self.sender {
            Some(_) => "call",
            None => "again",
        }
    }

    /// The legend's sign for it.
    pub(crate) fn sign(&self) -> Sign {
        match self.sender {
            Some(_) => Sign::Call,
            None => Sign::Replayed,
        }
    }
}

/// The line of a process or of the outside, at a moment.
#[derive(Clone, Copy)]
pub struct Lane {
    pub phase: Phase,
    /// Where its phase began, in pixels to the right.
    pub since: usize,
    pub job: Option<OpenCall>,
    /// How many messages its latest checkpoint covers.
    pub saved: u32,
}

impl Lane {
    /// A line that begins here, in pixels to the right.
    pub(crate) fn new(since: usize) -> Lane {
        Lane {
            phase: Phase::Up,
            since,
            job: None,
            saved: 0,
        }
    }
}
