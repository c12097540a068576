//! What a host reads of a process that restores its RSNs.

ghost use Rattle.std.specs.Prelude.{◌≡◌, ◌∷◌, [], List, ◌+◌, ◌≤◌, MatchOption};
ghost use Rattle.packets.specs.declared.packet.NodePacket.{NodePacket};
ghost use Rattle.recovery.specs.Queries.{bits_of};
ghost use Rattle.recovery.specs.RestorationQueries.{is_asked, restoring_standing};

use crate::restoration::Restoring;
use node::{Stage, Standing};
use packets::NodePacket;

impl Restoring {
    /// The first packet that waits, if there is one.
    pub fn front(&self) -> Option<&NodePacket>
        ensures { MatchOption result (self.now.own.out ≡ []) (λ x. (rest : List NodePacket) × (self.now.own.out ≡ x.now ∷ rest)) }
    {
        self.replayed.front()
    }

    /// The state that its handler left last.
    pub fn state(&self) -> &[u8]
        ensures { result.now ≡ self.now.own.state }
    {
        self.replayed.state()
    }

    /// The status: it waits for the peers that haven't told all.
    pub fn standing(&self) -> Standing
        ensures { result ≡ restoring_standing self.now }
    {
        let mut standing = self.replayed.standing();
        standing.stage = Stage::Resuming;
        standing.waited_for = self.waited_for();
        standing
    }

    fn waited_for(&self) -> u64
        ensures { result ≡ bits_of (is_asked self.now) (self.now.own.count + 1) }
    {
        let mut peers = 0;
        let mut bit = 1;
        for peer in 0..self.replayed.count() + 1 {
            if self.is_asked(peer) {
                peers += bit;
            }
            bit *= 2;
        }
        peers
    }

    /// Whether a peer hasn't told all.
    fn is_asked(&self, peer: u8) -> bool
        requires { peer ≤ self.now.own.count }
        ensures { result ≡ is_asked self.now peer }
    {
        !self.answered[peer as usize]
    }
}
