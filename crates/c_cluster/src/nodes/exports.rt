//! The functions for C. Code 0 means done, any other code is the number of a fault; the contracts
//! say what that means for handle and buffers.

ghost use Rattle.std.specs.Prelude.{◌≡◌};
ghost use Rattle.c_calls.specs.Nodes.Answers.{Answers, AnswersOfBytes};
ghost use Rattle.c_handles.specs.Buffer.{OnFault};
ghost use Rattle.c_calls.specs.Nodes.Bundles.{AreReceived, AreUnreceived};
ghost use Rattle.c_calls.specs.Nodes.Calls.{IsClosed, WasClosed, IsReceived, IsUnreceived, HasWorked, HasNotWorked, HasTicked, IsHeldBack, HasSaved, HasNotSaved};
ghost use Rattle.c_cluster.specs.Nodes.Results.{AreTaken, AreUntaken, IsTaken, IsUntaken, IsMade, IsUnmade, IsRead, IsUnread};
ghost use Rattle.c_cluster.specs.Nodes.NodeJob.{ticket_from, IsGiven, IsNotGiven, IsDone, IsNotDone};
ghost use Rattle.c_cluster.specs.Nodes.Lifetime.{limits_from, AnswersOpening, AnswersOpeningWith, AnswersRevival};
ghost use Rattle.c_cluster.specs.Nodes.Status.{IsStanding};
ghost use Rattle.c_calls.specs.Nodes.Label.{AnswersLabel};

use crate::nodes::lifetime::NodeLimits;
use crate::nodes::node_job::NodeJob;
use crate::nodes::status::NodeStanding;
use crate::nodes::{lifetime, node_job, results, status};
use c_calls::nodes::fault::code_of_bytes;
use c_calls::nodes::handle::NodeHandle;
use c_calls::nodes::label::PacketLabel;
use c_calls::nodes::{calls, label};
use c_handles::bundle::BundleTally;
use c_handles::code;
use process::HandlerTicket;
use std::alloc::Global;

/// Opens the process `me` of `n`, which received nothing, with the image file of its handler. The
/// handle has to be closed.
#[unsafe(no_mangle)]
pub extern "C" fn sblog_node_open(
    alloc: Global,
    image: &[u8],
    me: u8,
    n: u8,
    page: u32,
    tick: u32,
    numbers: u32,
    receipts: u32,
    durable: u32,
    node: &mut NodeHandle,
) -> u32
    ensures { AnswersOpening image.now me n (limits_from page tick numbers receipts durable) result node.old.process.value node.new.process.value }
{
    let limits = NodeLimits {
        page,
        tick,
        numbers,
        receipts,
        durable,
    };
    code(lifetime::open(alloc, image, me, n, limits, node))
}

/// The same with this opening state in place of zeros. It has to be as long as the image's state.
#[unsafe(no_mangle)]
pub extern "C" fn sblog_node_open_with(
    alloc: Global,
    image: &[u8],
    me: u8,
    n: u8,
    page: u32,
    tick: u32,
    numbers: u32,
    receipts: u32,
    durable: u32,
    state: &[u8],
    node: &mut NodeHandle,
) -> u32
    ensures { AnswersOpeningWith image.now me n (limits_from page tick numbers receipts durable) state.now result node.old.process.value node.new.process.value }
{
    let limits = NodeLimits {
        page,
        tick,
        numbers,
        receipts,
        durable,
    };
    code(lifetime::open_with(alloc, image, me, n, limits, state, node))
}

/// Opens a process with the image file of its handler, from its kept state, in this incarnation. If
/// the kept bytes are refused, writes the number of their fault.
#[unsafe(no_mangle)]
pub extern "C" fn sblog_node_revive(
    alloc: Global,
    image: &[u8],
    kept: &[u8],
    incarnation: u64,
    page: u32,
    tick: u32,
    numbers: u32,
    receipts: u32,
    durable: u32,
    node: &mut NodeHandle,
    fault: &mut u32,
) -> u32
    ensures { AnswersRevival image.now kept.now incarnation (limits_from page tick numbers receipts durable) result node.old.process.value node.new.process.value fault.old fault.new }
{
    let limits = NodeLimits {
        page,
        tick,
        numbers,
        receipts,
        durable,
    };
    let done = lifetime::revive(alloc, image, kept, incarnation, limits, node);
    code_of_bytes(done, fault)
}

/// Closes a handle, and gives the memory of its process back.
#[unsafe(no_mangle)]
pub extern "C" fn sblog_node_close(alloc: Global, node: &mut NodeHandle) -> u32
    ensures { Answers result node.old.process.value node.new.process.value IsClosed WasClosed }
{
    code(calls::close(alloc, node))
}

/// Hands the process a packet that arrived. If the bytes are not a packet, writes the number of
/// their fault.
#[unsafe(no_mangle)]
pub extern "C" fn sblog_node_receive(
    alloc: Global,
    node: &mut NodeHandle,
    packet: &[u8],
    fault: &mut u32,
) -> u32
    ensures { AnswersOfBytes result node.old.process.value node.new.process.value fault.old fault.new (IsReceived packet.now) (IsUnreceived packet.now) }
{
    code_of_bytes(calls::receive(alloc, node, packet), fault)
}

/// Hands the process each packet of a bundle, from the first on, and runs the handler after each that
/// it takes. Counts the packets that it took, that are no packets, and for which there was no memory.
/// The bytes are those of a bundle after its head; others are refused whole.
#[unsafe(no_mangle)]
pub extern "C" fn sblog_node_receive_all(
    alloc: Global,
    node: &mut NodeHandle,
    bundle: &[u8],
    tally: &mut BundleTally,
) -> u32
    ensures received { Answers result node.old.process.value node.new.process.value (AreReceived bundle.now tally.new) (AreUnreceived bundle.now) }
    ensures kept { OnFault result (tally.new ≡ tally.old) }
{
    code(calls::receive_all(alloc, node, bundle, tally))
}

/// Takes the first packet that waits: writes its bytes, its length, and its receiver.
#[unsafe(no_mangle)]
pub extern "C" fn sblog_node_take(
    alloc: Global,
    node: &mut NodeHandle,
    out: &mut [u8],
    size: &mut usize,
    to: &mut u8,
) -> u32
    ensures taken { Answers result node.old.process.value node.new.process.value (IsTaken out.old out.new size.new to.new) (IsUntaken out.old out.new size.old size.new) }
    ensures kept { OnFault result (to.new ≡ to.old) }
{
    code(results::take(alloc, node, out, size, to))
}

/// Takes the first packets that wait, as many as go to the same process and fit: writes them as those
/// of a bundle, their length in bytes, their receiver, and their number. No contract says that it takes
/// all that fit, since memory may run out.
#[unsafe(no_mangle)]
pub extern "C" fn sblog_node_take_all(
    alloc: Global,
    node: &mut NodeHandle,
    out: &mut [u8],
    size: &mut usize,
    to: &mut u8,
    count: &mut u64,
) -> u32
    ensures taken { Answers result node.old.process.value node.new.process.value (AreTaken out.old out.new size.new to.new count.new) (AreUntaken out.old out.new size.old size.new) }
    ensures kept { OnFault result ((to.new ≡ to.old) × (count.new ≡ count.old)) }
{
    code(results::take_all(alloc, node, out, size, to, count))
}

/// Runs the handler on the message that was received, or on the next one of the replay.
#[unsafe(no_mangle)]
pub extern "C" fn sblog_node_work(alloc: Global, node: &mut NodeHandle) -> u32
    ensures { Answers result node.old.process.value node.new.process.value HasWorked HasNotWorked }
{
    code(calls::work(alloc, node))
}

/// Gives out the next call of the handler, to be made outside: writes its array, the length of
/// that, and the words of the call. It stays the next call until `sblog_node_done` takes its
/// answer.
#[unsafe(no_mangle)]
pub extern "C" fn sblog_node_job(
    alloc: Global,
    node: &mut NodeHandle,
    array: &mut [u8],
    size: &mut usize,
    job: &mut NodeJob,
) -> u32
    ensures given { Answers result node.old.process.value node.new.process.value (IsGiven array.old array.new size.new job.new) (IsNotGiven array.old array.new size.old size.new) }
    ensures kept { OnFault result (job.new ≡ job.old) }
{
    code(node_job::job(alloc, node, array, size, job))
}

/// Takes what that call left in its array and its record, whatever made the call.
#[unsafe(no_mangle)]
pub extern "C" fn sblog_node_done(
    alloc: Global,
    node: &mut NodeHandle,
    incarnation: u64,
    received: u64,
    array: &[u8],
    left: &[u8],
) -> u32
    ensures { Answers result node.old.process.value node.new.process.value (IsDone (ticket_from incarnation received) array.now left.now) (IsNotDone (ticket_from incarnation received) array.now left.now) }
{
    let ticket = HandlerTicket {
        incarnation,
        received,
    };
    code(node_job::done(alloc, node, ticket, array, left))
}

/// Sends again what isn't answered. If the process couldn't go on to its next stage, it tries
/// again; as long as it can't, the code is that of memory or of a limit.
#[unsafe(no_mangle)]
pub extern "C" fn sblog_node_tick(alloc: Global, node: &mut NodeHandle) -> u32
    ensures { Answers result node.old.process.value node.new.process.value HasTicked IsHeldBack }
{
    code(calls::tick(alloc, node))
}

/// Makes a checkpoint: writes its bytes, and their number. The node then waits until
/// `sblog_node_saved`.
#[unsafe(no_mangle)]
pub extern "C" fn sblog_node_checkpoint(
    alloc: Global,
    node: &mut NodeHandle,
    out: &mut [u8],
    size: &mut usize,
) -> u32
    ensures { Answers result node.old.process.value node.new.process.value (IsMade out.old out.new size.new) (IsUnmade out.old out.new size.old size.new) }
{
    code(results::checkpoint(alloc, node, out, size))
}

/// Tells the process that its checkpoint is durable.
#[unsafe(no_mangle)]
pub extern "C" fn sblog_node_saved(alloc: Global, node: &mut NodeHandle) -> u32
    ensures { Answers result node.old.process.value node.new.process.value HasSaved HasNotSaved }
{
    code(calls::saved(alloc, node))
}

/// Writes the status of the process.
#[unsafe(no_mangle)]
pub extern "C" fn sblog_node_standing(
    alloc: Global,
    node: &mut NodeHandle,
    out: &mut NodeStanding,
) -> u32
    ensures standing { Answers result node.old.process.value node.new.process.value (IsStanding out.new) WasClosed }
    ensures kept { OnFault result (out.new ≡ out.old) }
{
    code(status::standing(alloc, node, out))
}

/// How many sends and outputs of its handler helpers refused in this incarnation with this code: 1
/// for no other process, 2 for more than 8 in a call, 3 for more than 256 bytes. It is 0 for any
/// other code, and for a closed handle. No contract says how many.
#[unsafe(no_mangle)]
pub extern "C" fn sblog_node_refused(alloc: Global, node: &mut NodeHandle, code: u32) -> u64
    ensures { node.new.process.value ≡ node.old.process.value }
{
    status::refused(alloc, node, code)
}

/// Writes the state that its handler left last, and its length in bytes.
#[unsafe(no_mangle)]
pub extern "C" fn sblog_node_state(
    alloc: Global,
    node: &mut NodeHandle,
    out: &mut [u8],
    size: &mut usize,
) -> u32
    ensures { Answers result node.old.process.value node.new.process.value (IsRead out.old out.new size.new) (IsUnread out.old out.new size.old size.new) }
{
    code(results::state(alloc, node, out, size))
}

/// Writes the label of a packet of a node or the gateway: what a host has to know of it, to say when
/// it goes and what it answers. If the bytes are not a packet, writes the number of their fault.
#[unsafe(no_mangle)]
pub extern "C" fn sblog_packet_label(
    alloc: Global,
    packet: &[u8],
    label: &mut PacketLabel,
    fault: &mut u32,
) -> u32
    ensures { AnswersLabel packet.now result label.old label.new fault.old fault.new }
{
    code_of_bytes(label::read(alloc, packet, label), fault)
}
