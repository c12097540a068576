//! The status of a handle's process, in numbers.

ghost use Rattle.std.specs.Prelude.{◌≡◌, OnErr};
ghost use Rattle.c_calls.specs.Nodes.Answers.{Results};
ghost use Rattle.c_calls.specs.Nodes.Calls.{WasClosed};
ghost use Rattle.c_cluster.specs.Nodes.Status.{words_of, IsStanding};

use c_calls::nodes::fault::NodeFault;
use c_calls::nodes::handle::NodeHandle;
use node::Standing;
use std::alloc::Global;

/// The status of a node, as a program in C reads it: ten words of 8 bytes.
#[repr(C)]
#[derive(Clone, Copy)]
pub struct NodeStanding {
    /// How many messages it received.
    pub length: u64,
    /// How many of these its checkpoint covers.
    pub base: u64,
    pub incarnation: u64,
    /// 0 up, 1 busy, 2 frozen, 3 collecting, 4 replaying, 5 resuming.
    pub stage: u64,
    /// 1 if failures came one at a time, as far as it knows, else 0.
    pub exact: u64,
    /// Messages since the checkpoint.
    pub receipts: u64,
    /// Messages in its logs.
    pub entries: u64,
    /// Packets that wait to be taken.
    pub packets: u64,
    /// Messages that it has still to replay.
    pub replays: u64,
    /// Peers whose answers it waits for: bit q is peer q.
    pub waited_for: u64,
}

impl NodeStanding {
    fn of(standing: &Standing) -> NodeStanding
        ensures { result ≡ words_of standing.now }
    {
        NodeStanding {
            length: standing.length,
            base: standing.base,
            incarnation: standing.incarnation,
            stage: u64::from(standing.stage.number()),
            exact: u64::from(standing.exact),
            receipts: standing.receipts,
            entries: standing.entries,
            packets: standing.packets,
            replays: standing.replays,
            waited_for: standing.waited_for,
        }
    }
}

/// How many effects of its handler helpers refused with this code.
pub(crate) fn refused(alloc: Global, handle: &mut NodeHandle, code: u32) -> u64
    ensures { handle.new.process.value ≡ handle.old.process.value }
{
    let Some(process) = handle.take(alloc) else {
        return 0;
    };
    let refused = process.refused();
    handle.put(process);
    u64::from(match code {
        1 => refused.no_peer,
        2 => refused.full,
        3 => refused.long,
        _ => 0,
    })
}

/// Writes the status.
pub(crate) fn standing(
    alloc: Global,
    handle: &mut NodeHandle,
    out: &mut NodeStanding,
) -> Result<(), NodeFault>
    ensures standing { Results result handle.old.process.value handle.new.process.value (IsStanding out.new) WasClosed }
    ensures kept { OnErr result (out.new ≡ out.old) }
{
    let Some(process) = handle.take(alloc) else {
        return Err(NodeFault::Handle);
    };
    let standing = process.standing();
    *out = NodeStanding::of(&standing);
    handle.put(process);
    Ok(())
}
