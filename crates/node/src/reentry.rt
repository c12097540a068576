//! A process that came back becomes a node.

ghost use Rattle.std.specs.Prelude.{◌≡◌, map};
ghost use Rattle.node.specs.Queue.{released_again};
ghost use Rattle.node.specs.Reentry.{AreWithin, node_of};

use crate::limit::Limits;
use crate::node::Node;
use crate::queue::KeptQueue;
use packets::PacketQueue;
use rsn::Receipts;

/// A process that has finished its recovery: the RSNs that its peers gave are in its logs again,
/// and all that it received is acknowledged.
#[derive(Drop)]
pub struct Returned {
    pub limits: Limits,
    pub me: u8,
    pub count: u8,
    pub life: u64,
    pub state: Vec<u8>,
    /// How many messages its checkpoint covers, and how many of these came from each sender.
    pub base: u64,
    pub covered: Vec<u64>,
    /// What it received since then.
    pub receipts: Receipts,
    /// By destination: what it sent.
    pub logs: Vec<KeptQueue>,
    /// By peer: the greatest incarnation that it heard.
    pub heard: Vec<u64>,
    /// By peer: whether it obeyed the Resume of that incarnation.
    pub resumed: Vec<bool>,
    /// Whether failures came one at a time, as far as it knows.
    pub exact: bool,
    pub out: PacketQueue,
}

impl Node {
    /// The node of a process that came back. It is up, and what it sent is released: all of it, or
    /// if it is durable, what its checkpoint covers.
    pub fn returned(process: Returned) -> Node
        requires { AreWithin process }
        ensures { result ≡ node_of process }
    {
        let Returned {
            limits,
            me,
            count,
            life,
            state,
            base,
            covered,
            receipts,
            mut logs,
            heard,
            resumed,
            exact,
            out,
        } = process;
        release_again(&mut logs, limits.durable);
        Node {
            limits,
            me,
            count,
            life,
            state,
            base,
            covered,
            receipts,
            waiting: 0,
            logs,
            heard,
            resumed,
            exact,
            working: None,
            frozen: false,
            out,
        }
    }
}

/// Releases all messages of these queues, unless the node is durable.
fn release_again(logs: &mut Vec<KeptQueue>, durable: bool)
    ensures { logs.new.items ≡ map (released_again durable) logs.old.items }
{
    for place in 0..logs.len() {
        logs[place].release_again(durable);
    }
}
