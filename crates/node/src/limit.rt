//! The limits of a node.

ghost use Rattle.std.specs.Prelude.{◌≡◌, ◌↔◌, IsTrue};
ghost use Rattle.node.specs.Limit.{usual, AreAllowed};

use crate::node::WINDOW;
use packets::LEAST_PAGE;

/// The size of the largest packet in bytes, by default.
pub const PAGE: u16 = 60_000;

/// How many packets to a peer one tick or one release sends, by default.
pub const TICK: u32 = 8;

/// The limits of a node for all its life. Kept state doesn't hold them: a process may come back
/// with others.
#[derive(Clone, Copy)]
pub struct Limits {
    /// The size of its largest packet in bytes, at least [`LEAST_PAGE`].
    pub page: u16,
    /// How many packets to a peer one tick or one release sends, at least 1.
    pub tick: u32,
    /// With this many RSNs that aren't acknowledged it takes no message: 1 to [`WINDOW`].
    pub numbers: u32,
    /// With this many messages since its checkpoint it takes no message: 1 to 65,536.
    pub receipts: u32,
    /// Its sends leave when a durable checkpoint covers them, and not before.
    pub durable: bool,
}

impl Limits {
    /// The default limits, of a node that isn't durable.
    pub fn usual() -> Limits
        ensures { result ≡ usual }
    {
        Limits {
            page: PAGE,
            tick: TICK,
            numbers: WINDOW,
            receipts: rsn::LIMIT as u32,
            durable: false,
        }
    }

    /// Whether each limit is in range.
    pub fn are_allowed(&self) -> bool
        ensures { IsTrue result ↔ AreAllowed self.now }
    {
        usize::from(self.page) >= LEAST_PAGE
            && 1 <= self.tick
            && 1 <= self.numbers
            && self.numbers <= WINDOW
            && 1 <= self.receipts
            && self.receipts as usize <= rsn::LIMIT
    }
}
