//! The status of a node.

ghost use Rattle.std.specs.Prelude.{◌≡◌};

use crate::node::Node;
use crate::queries::entries;

/// What a process is doing. A node that is up is in one of the first three stages.
#[derive(Clone, Copy, PartialEq, Eq)]
pub enum Stage {
    /// It takes messages.
    Up,
    /// It works on a message.
    Busy,
    /// It waits until its checkpoint is durable.
    Frozen,
    /// It asks its peers what their logs hold for it.
    Collecting,
    /// It replays the messages that it keeps.
    Replaying,
    /// It asks its peers which of its messages they have.
    Resuming,
}

impl Stage {
    ghost use Rattle.node.specs.Status.{stage_number};

    /// Its number, 0 to 5.
    pub fn number(self) -> u8
        ensures { result ≡ stage_number self }
    {
        match self {
            Stage::Up => 0,
            Stage::Busy => 1,
            Stage::Frozen => 2,
            Stage::Collecting => 3,
            Stage::Replaying => 4,
            Stage::Resuming => 5,
        }
    }
}

/// The status of a node, for its host.
#[derive(Clone, Copy, PartialEq, Eq)]
pub struct Standing {
    /// How many messages it received, and how many of these its checkpoint covers.
    pub length: u64,
    pub base: u64,
    pub incarnation: u64,
    pub stage: Stage,
    /// Whether failures came one at a time, as far as it knows.
    pub exact: bool,
    /// Messages since its checkpoint.
    pub receipts: u64,
    /// Messages in its logs, or the greatest number if there are more.
    pub entries: u64,
    /// Packets that wait to be taken.
    pub packets: u64,
    /// Messages that it has still to replay.
    pub replays: u64,
    /// Peers whose answers it waits for: bit q is peer q.
    pub waited_for: u64,
}

impl Node {
    ghost use Rattle.node.specs.Status.{standing_of, stage_at};

    /// The status of the node. One that is up has nothing to replay, and waits for no peer.
    pub fn standing(&self) -> Standing
        ensures { result ≡ standing_of self.now }
    {
        let receipts = self.receipts.length() as u64;
        Standing {
            length: self.base + receipts,
            base: self.base,
            incarnation: self.life,
            stage: self.stage(),
            exact: self.exact,
            receipts,
            entries: entries(&self.logs),
            packets: self.out.len() as u64,
            replays: 0,
            waited_for: 0,
        }
    }

    /// The state that its handler left last.
    pub fn state(&self) -> &[u8]
        ensures { result.now ≡ self.now.state }
    {
        self.state.as_slice()
    }

    fn stage(&self) -> Stage
        ensures { result ≡ stage_at self.now.frozen self.now.working }
    {
        if self.frozen {
            return Stage::Frozen;
        }
        match self.working {
            Some(_) => Stage::Busy,
            None => Stage::Up,
        }
    }
}
