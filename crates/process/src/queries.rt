//! What a host reads of a process.

ghost use Rattle.std.specs.Prelude.{◌≡◌, ◌≤◌, ◌∷◌, [], List, MatchOption};
ghost use Rattle.packets.specs.declared.packet.NodePacket.{NodePacket};
ghost use Rattle.interp.specs.Handler.{image_of};
ghost use Rattle.process.specs.Process.{out_of, state_of};
ghost use Rattle.node.specs.declared.node.TheConstants.{WINDOW};
ghost use Rattle.process.specs.Calls.{standing_at};
ghost use Rattle.process.specs.Bounds.{IsBounded, waiting_of};

use crate::process::Member;
use helpers::Refused;
use interp::Handler;
use limits::PROCESSES;
use node::{MOST_GIVEN, MOST_KEPT, Stage, Standing};
use packets::NodePacket;
use recovery::Lifecycle;
use rsn::LIMIT;

/// The stored state of a process has at most this many messages in its logs: fewer than
/// [`node::MOST_KEPT`] for each peer.
pub const MOST_STORED: usize = 0xF_0000_0000;

const _: () = prove!(MOST_STORED == PROCESSES * MOST_KEPT);

/// The logs of a process keep at most this many messages: those that are stored of it, and those
/// that its messages since its checkpoint sent.
pub const MOST_ENTRIES: usize = 0xF_0010_0000;

const _: () = prove!(MOST_ENTRIES == MOST_STORED + MOST_GIVEN * LIMIT);

impl Member {
    /// Its handler.
    pub fn handler(&self) -> &Handler
        ensures { image_of result.now ≡ self.now.image }
    {
        &self.image
    }

    /// How many sends and outputs helpers refused its handler since it was opened or revived, by
    /// cause. It is for people: no contract says anything of it, and it is only tested. It includes
    /// the calls that a host handed back by [`Member::done`].
    pub fn refused(&self) -> Refused {
        self.refused
    }

    /// The first packet that waits, if there is one.
    pub fn front(&self) -> Option<&NodePacket>
        ensures { MatchOption result (out_of self.now.lifecycle ≡ []) (λ x. (rest : List NodePacket) × (out_of self.now.lifecycle ≡ x.now ∷ rest)) }
    {
        match &self.lifecycle {
            Lifecycle::Up(process) => process.front(),
            Lifecycle::Collecting(process) => process.front(),
            Lifecycle::Replaying(process) => process.front(),
            Lifecycle::Replayed(process) => process.front(),
            Lifecycle::Restoring(process) => process.front(),
            Lifecycle::Passing => None,
        }
    }

    /// The state that its handler left last; while it collects, the state of its checkpoint.
    pub fn state(&self) -> &[u8]
        ensures { result.now ≡ state_of self.now.lifecycle }
    {
        match &self.lifecycle {
            Lifecycle::Up(process) => process.state(),
            Lifecycle::Collecting(process) => process.state(),
            Lifecycle::Replaying(process) => process.state(),
            Lifecycle::Replayed(process) => process.state(),
            Lifecycle::Restoring(process) => process.state(),
            Lifecycle::Passing => &[],
        }
    }

    /// The status. However long the process runs, these numbers have limits: messages since its
    /// checkpoint, with those that it has still to replay; messages in its logs; packets that wait;
    /// and RSNs that wait for their acknowledgement.
    pub fn standing(&self) -> Standing
        ensures value { result ≡ standing_at self.now.lifecycle }
        ensures bounded { IsBounded result }
        ensures waits { waiting_of self.now.lifecycle ≤ WINDOW }
    {
        standing(&self.lifecycle)
    }
}

fn standing(lifecycle: &Lifecycle) -> Standing
    ensures { result ≡ standing_at lifecycle.now }
{
    match lifecycle {
        Lifecycle::Up(process) => process.standing(),
        Lifecycle::Collecting(process) => process.standing(),
        Lifecycle::Replaying(process) => process.standing(),
        Lifecycle::Replayed(process) => process.standing(),
        Lifecycle::Restoring(process) => process.standing(),
        Lifecycle::Passing => NONE,
    }
}

/// The status of nothing.
const NONE: Standing = Standing {
    length: 0,
    base: 0,
    incarnation: 0,
    stage: Stage::Up,
    exact: true,
    receipts: 0,
    entries: 0,
    packets: 0,
    replays: 0,
    waited_for: 0,
};
