//! What a host reads of a recovering process.

ghost use Rattle.std.specs.Prelude.{◌≡◌, ◌∷◌, [], List, ◌+◌, ◌≤◌, MatchOption};
ghost use Rattle.packets.specs.declared.packet.NodePacket.{NodePacket};
ghost use Rattle.rsn.specs.declared.receipts.TheConstants.{LIMIT};
ghost use Rattle.recovery.specs.Queries.{bits_of, is_asked, standing_in, collecting_standing, replaying_standing, replayed_standing};

use crate::collection::Collecting;
use crate::own::Own;
use crate::replayed::Replayed;
use crate::replays::Replaying;
use helpers::Who;
use node::{Stage, Standing, entries};
use packets::NodePacket;

impl Own {
    /// The status in a stage, with this many messages since its checkpoint, and this many to
    /// replay.
    pub(crate) fn standing(&self, stage: Stage, receipts: u64, replays: u64) -> Standing
        requires { receipts ≤ LIMIT }
        ensures { result ≡ standing_in stage receipts replays self.now }
    {
        let base = self.base();
        Standing {
            length: base + receipts,
            base,
            incarnation: self.life,
            stage,
            exact: self.exact,
            receipts,
            entries: entries(&self.logs),
            packets: self.out.len() as u64,
            replays,
            waited_for: 0,
        }
    }
}

impl Collecting {
    /// The first packet that waits, if there is one.
    pub fn front(&self) -> Option<&NodePacket>
        ensures { MatchOption result (self.now.own.out ≡ []) (λ x. (rest : List NodePacket) × (self.now.own.out ≡ x.now ∷ rest)) }
    {
        self.own.out.front()
    }

    /// The state of its checkpoint.
    pub fn state(&self) -> &[u8]
        ensures { result.now ≡ self.now.own.state }
    {
        self.own.state.as_slice()
    }

    /// The status: it waits for the peers that haven't told all.
    pub fn standing(&self) -> Standing
        ensures { result ≡ collecting_standing self.now }
    {
        let mut standing = self.own.standing(Stage::Collecting, 0, 0);
        standing.waited_for = self.waited_for();
        standing
    }

    fn waited_for(&self) -> u64
        ensures { result ≡ bits_of (is_asked self.now) (self.now.own.count + 1) }
    {
        let mut peers = 0;
        let mut bit = 1;
        for peer in 0..self.own.count() + 1 {
            if self.is_asked(peer) {
                peers += bit;
            }
            bit *= 2;
        }
        peers
    }

    /// Whether a peer hasn't told all.
    fn is_asked(&self, peer: u8) -> bool
        requires { peer ≤ self.now.own.count }
        ensures { result ≡ is_asked self.now peer }
    {
        peer != self.own.me() && !self.told[peer as usize].done
    }
}

impl Replaying {
    /// The first packet that waits, if there is one.
    pub fn front(&self) -> Option<&NodePacket>
        ensures { MatchOption result (self.now.own.out ≡ []) (λ x. (rest : List NodePacket) × (self.now.own.out ≡ x.now ∷ rest)) }
    {
        self.own.out.front()
    }

    /// The caller's identity for a handler call on a message of this sender.
    pub fn who(&self, from: u8) -> Who
        ensures { result ≡ record { me = self.now.own.me; from = from; count = self.now.own.count } }
    {
        Who {
            me: self.own.me,
            from,
            count: self.own.count,
        }
    }

    /// The status: the replayed messages came after its checkpoint.
    pub fn standing(&self) -> Standing
        ensures { result ≡ replaying_standing self.now }
    {
        let left = self.left() as u64;
        self.own.standing(Stage::Replaying, self.done as u64, left)
    }
}

impl Replayed {
    /// The first packet that waits, if there is one.
    pub fn front(&self) -> Option<&NodePacket>
        ensures { MatchOption result (self.now.own.out ≡ []) (λ x. (rest : List NodePacket) × (self.now.own.out ≡ x.now ∷ rest)) }
    {
        self.own.out.front()
    }

    /// The state that its handler left last.
    pub fn state(&self) -> &[u8]
        ensures { result.now ≡ self.now.own.state }
    {
        self.own.state.as_slice()
    }

    /// The status: it has nothing left to replay.
    pub fn standing(&self) -> Standing
        ensures { result ≡ replayed_standing self.now }
    {
        let receipts = u64::from(self.receipts.length());
        self.own.standing(Stage::Replaying, receipts, 0)
    }
}
