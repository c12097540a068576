//! What helpers refused.

ghost use Rattle.std.specs.Prelude.{◌≡◌, ◌+◌, min};

/// How many sends and outputs were refused, by cause. A refused one has no effect, and its handler goes on.
#[derive(Clone, Copy, Debug, Default, PartialEq, Eq)]
pub struct Refused {
    /// Sends to a number that is no other process: code 1.
    pub no_peer: u32,
    /// Sends and outputs after the eighth of a call: code 2.
    pub full: u32,
    /// Sends and outputs of more than 256 bytes: code 3.
    pub long: u32,
}

impl Refused {
    /// Counts an answer with this code. Code 0 is no refusal.
    pub(crate) fn count(&mut self, code: u64) {
        match code {
            1 => self.no_peer = self.no_peer.saturating_add(1),
            2 => self.full = self.full.saturating_add(1),
            3 => self.long = self.long.saturating_add(1),
            _ => (),
        }
    }

    /// Adds the other's counts. No count goes above `u32::MAX`.
    pub fn add(&mut self, other: Refused)
        ensures no_peer { self.new.no_peer ≡ min (self.old.no_peer + other.no_peer) 4294967295 }
        ensures full { self.new.full ≡ min (self.old.full + other.full) 4294967295 }
        ensures long { self.new.long ≡ min (self.old.long + other.long) 4294967295 }
    {
        self.no_peer = self.no_peer.saturating_add(other.no_peer);
        self.full = self.full.saturating_add(other.full);
        self.long = self.long.saturating_add(other.long);
    }

    /// The sum over all causes.
    pub fn total(&self) -> u64
        ensures { result ≡ self.now.no_peer + self.now.full + self.now.long }
    {
        u64::from(self.no_peer) + u64::from(self.full) + u64::from(self.long)
    }
}
