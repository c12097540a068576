//! What the host of a node, or its owner, reads of it.

ghost use Rattle.std.specs.Prelude.{◌≡◌, ◌∷◌, [], List, MatchOption};
ghost use Rattle.packets.specs.declared.packet.NodePacket.{NodePacket};
ghost use Rattle.packets.specs.Format.{Fits};
ghost use Rattle.node.specs.Status.{entries_kept};

use crate::job::OpenJob;
use crate::node::Node;
use crate::queue::KeptQueue;
use helpers::Who;
use packets::NodePacket;

impl Node {
    /// The first packet that waits, if there is one.
    pub fn front(&self) -> Option<&NodePacket>
        ensures { MatchOption result (self.now.out ≡ []) (λ x. ((rest : List NodePacket) × (self.now.out ≡ x.now ∷ rest)) × Fits x.now) }
    {
        // For the proof: reading a field gives the invariant.
        let _me = self.me;
        self.out.front()
    }

    /// The open job, if there is one.
    pub fn job(&self) -> Option<OpenJob>
        ensures { result ≡ self.now.working }
    {
        self.working
    }

    /// The caller's identity for a handler call on a message of this sender.
    pub fn who(&self, from: u8) -> Who
        ensures { result ≡ record { me = self.now.me; from = from; count = self.now.count } }
    {
        Who {
            me: self.me,
            from,
            count: self.count,
        }
    }
}

/// How many messages these queues keep, or the greatest number if there are more.
pub fn entries(logs: &[KeptQueue]) -> u64
    ensures { result ≡ entries_kept logs.now }
{
    let mut entries: u64 = 0;
    for log in logs {
        entries = entries.saturating_add(log.len() as u64);
    }
    entries
}
