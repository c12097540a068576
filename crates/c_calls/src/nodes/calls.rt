//! Calls of the process of a handle.

ghost use Rattle.std.specs.Prelude.{◌≡◌, OnErr};
ghost use Rattle.c_calls.specs.Nodes.Answers.{Results};
ghost use Rattle.c_handles.specs.Bundle.{IsFrontReceived};
ghost use Rattle.c_calls.specs.Nodes.Bundles.{Serves, AreReceived, AreUnreceived};
ghost use Rattle.c_calls.specs.Nodes.Calls.{IsClosed, WasClosed, IsReceived, IsUnreceived, HasWorked, HasNotWorked, HasTicked, IsHeldBack, HasSaved, HasNotSaved};

use crate::nodes::fault::NodeFault;
use crate::nodes::handle::NodeHandle;
use c_handles::bundle::{BundleTally, NOT_BUNDLE, first_of, is_bundle};
use packets::PacketError;
use process::Cause;
use std::alloc::Global;

/// Closes a handle, and gives the memory of its process back.
pub fn close(alloc: Global, handle: &mut NodeHandle) -> Result<(), NodeFault>
    ensures { Results result handle.old.process.value handle.new.process.value IsClosed WasClosed }
{
    match handle.take(alloc) {
        Some(_process) => Ok(()),
        None => Err(NodeFault::Handle),
    }
}

/// Hands the process a packet that arrived.
pub fn receive(alloc: Global, handle: &mut NodeHandle, packet: &[u8]) -> Result<(), NodeFault>
    ensures { Results result handle.old.process.value handle.new.process.value (IsReceived packet.now) (IsUnreceived packet.now) }
{
    let Some(mut process) = handle.take(alloc) else {
        return Err(NodeFault::Handle);
    };
    let received = process.receive_bytes(alloc, packet);
    handle.put(process);
    match received {
        Ok(()) => Ok(()),
        Err(PacketError::Memory) => Err(NodeFault::Memory),
        Err(PacketError::Fault(fault)) => Err(NodeFault::Bytes(fault.number())),
    }
}

/// Hands the process each packet of a bundle, and runs its handler after each that it takes.
pub fn receive_all(
    alloc: Global,
    handle: &mut NodeHandle,
    bundle: &[u8],
    tally: &mut BundleTally,
) -> Result<(), NodeFault>
    ensures received { Results result handle.old.process.value handle.new.process.value (AreReceived bundle.now tally.new) (AreUnreceived bundle.now) }
    ensures kept { OnErr result (tally.new ≡ tally.old) }
{
    if !handle.is_open() {
        return Err(NodeFault::Handle);
    }
    if !is_bundle(bundle) {
        return Err(NodeFault::Bytes(NOT_BUNDLE));
    }
    *tally = serve(alloc, handle, bundle);
    Ok(())
}

/// Does so with the packets at the front of some bytes, and counts them.
fn serve(alloc: Global, handle: &mut NodeHandle, bytes: &[u8]) -> BundleTally
    ensures { IsFrontReceived Serves bytes.now handle.old.process.value handle.new.process.value result }
{
    let mut tally = BundleTally {
        taken: 0,
        refused: 0,
        lost: 0,
    };
    let mut rest = bytes;
    while let Some((packet, after)) = first_of(rest) {
        match receive(alloc, handle, packet) {
            Ok(()) => {
                let _worked = work(alloc, handle);
                tally.taken += 1;
            }
            Err(why) => match why {
                NodeFault::Memory => tally.lost += 1,
                _ => tally.refused += 1,
            },
        }
        rest = after;
    }
    tally
}

/// Runs the handler of the process.
pub fn work(alloc: Global, handle: &mut NodeHandle) -> Result<(), NodeFault>
    ensures { Results result handle.old.process.value handle.new.process.value HasWorked HasNotWorked }
{
    let Some(mut process) = handle.take(alloc) else {
        return Err(NodeFault::Handle);
    };
    let worked = process.work(alloc);
    handle.put(process);
    match worked {
        Ok(true) => Ok(()),
        Ok(false) => Err(NodeFault::Absent),
        Err(_) => Err(NodeFault::Memory),
    }
}

/// Sends again what isn't answered, and goes on to the next stage if memory was refused for it
/// before.
pub fn tick(alloc: Global, handle: &mut NodeHandle) -> Result<(), NodeFault>
    ensures { Results result handle.old.process.value handle.new.process.value HasTicked IsHeldBack }
{
    let Some(mut process) = handle.take(alloc) else {
        return Err(NodeFault::Handle);
    };
    let ticked = process.tick(alloc);
    handle.put(process);
    match ticked {
        Ok(()) => Ok(()),
        Err(Cause::Memory) => Err(NodeFault::Memory),
        Err(Cause::TooMany) => Err(NodeFault::Limit),
    }
}

/// Tells the process that its checkpoint is durable.
pub fn saved(alloc: Global, handle: &mut NodeHandle) -> Result<(), NodeFault>
    ensures { Results result handle.old.process.value handle.new.process.value HasSaved HasNotSaved }
{
    let Some(mut process) = handle.take(alloc) else {
        return Err(NodeFault::Handle);
    };
    let saved = process.saved(alloc);
    handle.put(process);
    match saved {
        Ok(true) => Ok(()),
        Ok(false) => Err(NodeFault::Unready),
        Err(_) => Err(NodeFault::Memory),
    }
}
