//! A process that has finished its replay.

ghost use Rattle.std.specs.Prelude.{◌≡◌};
ghost use Rattle.recovery.specs.Overlap.{handed};
ghost use Rattle.recovery.specs.Replayed.{IsReplayed, IsHanded};

use crate::own::Own;
use packets::NodePacket;
use rsn::Receipts;
use std::alloc::Global;
use std::marker::Model;

/// The process, and what it received after its checkpoint, all of it acknowledged.
#[derive(Drop)]
pub struct Replayed {
    pub(crate) own: Own,
    pub(crate) receipts: Receipts,
}

impl Model for Replayed {
    ghost use Rattle.recovery.specs.Replayed.{TheReplayed, IsReplayed};

    ghost Value = { TheReplayed };

    ghost view = { λ n. record { own = n.own; receipts = n.receipts } };

    ghost invariant = { λ n. IsReplayed n.own n.receipts };
}

impl Replayed {
    /// From its parts.
    pub(crate) fn new(own: Own, receipts: Receipts) -> Replayed
        requires { IsReplayed own receipts }
        ensures { result ≡ record { own = own; receipts = receipts } }
    {
        Replayed { own, receipts }
    }

    /// Takes a packet: answers the Ask of a peer that is recovering too, that what the log held for
    /// it is lost, and drops anything else.
    pub fn receive(&mut self, alloc: Global, packet: &NodePacket)
        ensures value { self.new ≡ record self.old { own = handed packet.now self.old.own } }
        ensures acts { IsHanded packet.now self.old self.new }
    {
        self.own.receive(alloc, packet);
    }
}
