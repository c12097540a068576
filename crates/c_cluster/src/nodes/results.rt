//! What the process of a handle gives: packets, checkpoints, its state.

ghost use Rattle.std.specs.Prelude.{◌≡◌, MatchResult, OnErr};
ghost use Rattle.c_calls.specs.Nodes.Answers.{Results};
ghost use Rattle.c_cluster.specs.Nodes.Results.{AreTaken, AreUntaken, IsTaken, IsUntaken, IsMade, IsUnmade, IsRead, IsUnread, Makes, DoesNotMake};

use c_calls::nodes::fault::NodeFault;
use c_calls::nodes::handle::NodeHandle;
use c_handles::copy;
use c_handles::outbox::{Outgoing, Ungiven, give_all, give_first};
use process::Member;
use std::alloc::{AllocError, Global};

/// The packets of a process that wait.
struct Outbox;

impl Outgoing<Member> for Outbox {
    ghost use Rattle.std.specs.Prelude.{◌≡◌, []};
    ghost use Rattle.process.specs.Process.{out_of};
    ghost use Rattle.c_cluster.specs.Nodes.Results.{Leaves, Waits};

    ghost waits = { λ p to bytes. Waits to bytes p };

    ghost is_empty = { λ p. out_of p.lifecycle ≡ [] };

    ghost leaves = { Leaves };

    fn first(alloc: Global, sender: &Member) -> Result<Option<(u8, Vec<u8>)>, AllocError> {
        let Some(packet) = sender.front() else {
            return Ok(None);
        };
        let to = packet.to;
        match sender.front_bytes(alloc)? {
            Some(bytes) => Ok(Some((to, bytes))),
            None => Ok(None),
        }
    }

    fn take_first(sender: &mut Member) {
        let _packet = sender.take();
    }
}

/// Writes the first packet that waits, and its receiver. If the buffer is long enough, the packet
/// is taken.
pub(crate) fn take(
    alloc: Global,
    handle: &mut NodeHandle,
    out: &mut [u8],
    size: &mut usize,
    to: &mut u8,
) -> Result<(), NodeFault>
    ensures taken { Results result handle.old.process.value handle.new.process.value (IsTaken out.old out.new size.new to.new) (IsUntaken out.old out.new size.old size.new) }
    ensures kept { OnErr result (to.new ≡ to.old) }
{
    let Some(mut process) = handle.take(alloc) else {
        return Err(NodeFault::Handle);
    };
    let given = give_first::<Member, Outbox>(alloc, &mut process, out, size, to);
    handle.put(process);
    match given {
        Ok(()) => Ok(()),
        Err(Ungiven::Memory) => Err(NodeFault::Memory),
        Err(Ungiven::Absent) => Err(NodeFault::Absent),
        Err(Ungiven::Room) => Err(NodeFault::Room),
    }
}

/// Writes the first packets that wait, as those of a bundle, and their receiver: as many as go to the
/// same process and fit. They are taken.
pub(crate) fn take_all(
    alloc: Global,
    handle: &mut NodeHandle,
    out: &mut [u8],
    size: &mut usize,
    to: &mut u8,
    count: &mut u64,
) -> Result<(), NodeFault>
    ensures taken { Results result handle.old.process.value handle.new.process.value (AreTaken out.old out.new size.new to.new count.new) (AreUntaken out.old out.new size.old size.new) }
    ensures kept { OnErr result ((to.new ≡ to.old) × (count.new ≡ count.old)) }
{
    let Some(mut process) = handle.take(alloc) else {
        return Err(NodeFault::Handle);
    };
    let given = give_all::<Member, Outbox>(alloc, &mut process, out, size, to, count);
    handle.put(process);
    match given {
        Ok(_all) => Ok(()),
        Err(Ungiven::Memory) => Err(NodeFault::Memory),
        Err(Ungiven::Absent) => Err(NodeFault::Absent),
        Err(Ungiven::Room) => Err(NodeFault::Room),
    }
}

/// Writes the bytes of a checkpoint. If the buffer is long enough, the process waits until they are
/// durable.
pub(crate) fn checkpoint(
    alloc: Global,
    handle: &mut NodeHandle,
    out: &mut [u8],
    size: &mut usize,
) -> Result<(), NodeFault>
    ensures { Results result handle.old.process.value handle.new.process.value (IsMade out.old out.new size.new) (IsUnmade out.old out.new size.old size.new) }
{
    let Some(mut process) = handle.take(alloc) else {
        return Err(NodeFault::Handle);
    };
    let made = checkpoint_of(alloc, &mut process, out, size);
    handle.put(process);
    made
}

fn checkpoint_of(
    alloc: Global,
    process: &mut Member,
    out: &mut [u8],
    size: &mut usize,
) -> Result<(), NodeFault>
    ensures { MatchResult result (λ _. Makes out.old out.new size.new process.old process.new) (DoesNotMake out.old out.new size.old size.new process.old process.new) }
{
    let bytes = match process.kept_bytes(alloc) {
        Ok(Some(bytes)) => bytes,
        Ok(None) => return Err(NodeFault::Unready),
        Err(_) => return Err(NodeFault::Memory),
    };
    copy(bytes.as_slice(), out, size, NodeFault::Room)?;
    let _made = process.freeze();
    Ok(())
}

/// Writes the state that its handler left last.
pub(crate) fn state(
    alloc: Global,
    handle: &mut NodeHandle,
    out: &mut [u8],
    size: &mut usize,
) -> Result<(), NodeFault>
    ensures { Results result handle.old.process.value handle.new.process.value (IsRead out.old out.new size.new) (IsUnread out.old out.new size.old size.new) }
{
    let Some(process) = handle.take(alloc) else {
        return Err(NodeFault::Handle);
    };
    let read = copy(process.state(), out, size, NodeFault::Room);
    handle.put(process);
    read
}
