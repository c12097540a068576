//! What the gateway of a handle gives: packets, outputs, its store and changes.

ghost use Rattle.std.specs.Prelude.{◌≡◌, MatchResult, OnErr};
ghost use Rattle.c_cluster.specs.Gateways.Bundles.{AreTaken, AreUntaken};
ghost use Rattle.c_cluster.specs.Gateways.Answers.{Does, Results};
ghost use Rattle.c_cluster.specs.Gateways.Results.{IsShown, IsStored, IsTaken, IsTold, IsUnshown, IsUnstored, IsUntaken, IsUntold, Shows, ShowsNot, Spells, Tells, WritesNot};
ghost use Rattle.stores.specs.Format.{IsStoreBytes};
ghost use Rattle.stores.specs.Changes.{AreChanges};

use crate::gateways::fault::GatewayFault;
use crate::gateways::handle::GatewayHandle;
use c_handles::outbox::{Outgoing, Ungiven, give_all, give_first};
use c_handles::{copy, measure, write};
use gateway::Gateway;
use std::alloc::{AllocError, Global};

/// The packets of a gateway that wait.
struct Outbox;

impl Outgoing<Gateway> for Outbox {
    ghost use Rattle.std.specs.Prelude.{◌≡◌, []};
    ghost use Rattle.gateway.specs.Written.{Waits};
    ghost use Rattle.c_cluster.specs.Gateways.Results.{Leaves};

    ghost waits = { λ g to bytes. Waits to bytes g };

    ghost is_empty = { λ g. g.out ≡ [] };

    ghost leaves = { Leaves };

    fn first(alloc: Global, sender: &Gateway) -> Result<Option<(u8, Vec<u8>)>, AllocError> {
        sender.first_bytes(alloc)
    }

    fn take_first(sender: &mut Gateway) {
        let _packet = sender.take();
    }
}

/// Takes the first packet that waits: writes its bytes, their number, and its receiver.
pub(crate) fn take(
    alloc: Global,
    handle: &mut GatewayHandle,
    out: &mut [u8],
    size: &mut usize,
    to: &mut u8,
) -> Result<(), GatewayFault>
    ensures taken { Results result handle.old.gateway.value handle.new.gateway.value (IsTaken out.old out.new size.new to.new) (IsUntaken out.old out.new size.old size.new) }
    ensures kept { OnErr result (to.new ≡ to.old) }
{
    let Some(mut gateway) = handle.take(alloc) else {
        return Err(GatewayFault::Handle);
    };
    let given = give_first::<Gateway, Outbox>(alloc, &mut gateway, out, size, to);
    handle.put(gateway);
    match given {
        Ok(()) => Ok(()),
        Err(Ungiven::Memory) => Err(GatewayFault::Memory),
        Err(Ungiven::Absent) => Err(GatewayFault::Absent),
        Err(Ungiven::Room) => Err(GatewayFault::Room),
    }
}

/// Takes the first packets that wait, as many as go to the same process and fit: writes them as those
/// of a bundle, and their receiver.
pub(crate) fn take_all(
    alloc: Global,
    handle: &mut GatewayHandle,
    out: &mut [u8],
    size: &mut usize,
    to: &mut u8,
    count: &mut u64,
) -> Result<(), GatewayFault>
    ensures taken { Results result handle.old.gateway.value handle.new.gateway.value (AreTaken out.old out.new size.new to.new count.new) (AreUntaken out.old out.new size.old size.new) }
    ensures kept { OnErr result ((to.new ≡ to.old) × (count.new ≡ count.old)) }
{
    let Some(mut gateway) = handle.take(alloc) else {
        return Err(GatewayFault::Handle);
    };
    let given = give_all::<Gateway, Outbox>(alloc, &mut gateway, out, size, to, count);
    handle.put(gateway);
    match given {
        Ok(_all) => Ok(()),
        Err(Ungiven::Memory) => Err(GatewayFault::Memory),
        Err(Ungiven::Absent) => Err(GatewayFault::Absent),
        Err(Ungiven::Room) => Err(GatewayFault::Room),
    }
}

/// Takes the first output that wasn't taken: writes its process, its SSN, its bytes and their
/// number.
fn show(
    gateway: &mut Gateway,
    process: &mut u8,
    ssn: &mut u64,
    out: &mut [u8],
    size: &mut usize,
) -> Result<(), GatewayFault>
    ensures shown { Does result gateway.old gateway.new (Shows process.new ssn.new out.old out.new size.new) (ShowsNot out.old out.new size.old size.new) }
    ensures kept { OnErr result ((process.new ≡ process.old) × (ssn.new ≡ ssn.old)) }
{
    let Some(output) = gateway.store().first_output() else {
        return Err(GatewayFault::Absent);
    };
    let bytes = output.payload.as_slice();
    measure(bytes, out, size, GatewayFault::Room)?;
    let _ = gateway.output()?;
    write(bytes, out, size);
    *process = output.process;
    *ssn = output.ssn;
    Ok(())
}

/// The same for the gateway of a handle.
pub(crate) fn output(
    alloc: Global,
    handle: &mut GatewayHandle,
    process: &mut u8,
    ssn: &mut u64,
    out: &mut [u8],
    size: &mut usize,
) -> Result<(), GatewayFault>
    ensures shown { Results result handle.old.gateway.value handle.new.gateway.value (IsShown process.new ssn.new out.old out.new size.new) (IsUnshown out.old out.new size.old size.new) }
    ensures kept { OnErr result ((process.new ≡ process.old) × (ssn.new ≡ ssn.old)) }
{
    let Some(mut gateway) = handle.take(alloc) else {
        return Err(GatewayFault::Handle);
    };
    let done = show(&mut gateway, process, ssn, out, size);
    handle.put(gateway);
    done
}

/// Writes the bytes of a gateway's store, and their number.
fn spell(
    alloc: Global,
    gateway: &Gateway,
    out: &mut [u8],
    size: &mut usize,
) -> Result<(), GatewayFault>
    ensures { MatchResult result (λ _. Spells out.old out.new size.new gateway.now) (WritesNot (IsStoreBytes gateway.now.store) out.old out.new size.old size.new) }
{
    let bytes = gateway.store_bytes(alloc)?;
    copy(&bytes, out, size, GatewayFault::Room)
}

/// The same for the gateway of a handle.
pub(crate) fn store(
    alloc: Global,
    handle: &mut GatewayHandle,
    out: &mut [u8],
    size: &mut usize,
) -> Result<(), GatewayFault>
    ensures { Results result handle.old.gateway.value handle.new.gateway.value (IsStored out.old out.new size.new) (IsUnstored out.old out.new size.old size.new) }
{
    let Some(gateway) = handle.take(alloc) else {
        return Err(GatewayFault::Handle);
    };
    let done = spell(alloc, &gateway, out, size);
    handle.put(gateway);
    done
}

/// Takes the changes of a gateway's store: writes their bytes, and their number.
fn tell(
    alloc: Global,
    gateway: &mut Gateway,
    out: &mut [u8],
    size: &mut usize,
) -> Result<(), GatewayFault>
    ensures { Does result gateway.old gateway.new (Tells out.old out.new size.new) (λ g. WritesNot (AreChanges g.changes) out.old out.new size.old size.new) }
{
    let bytes = gateway.changes_bytes(alloc)?;
    copy(&bytes, out, size, GatewayFault::Room)?;
    gateway.forget_changes();
    Ok(())
}

/// The same for the gateway of a handle.
pub(crate) fn changes(
    alloc: Global,
    handle: &mut GatewayHandle,
    out: &mut [u8],
    size: &mut usize,
) -> Result<(), GatewayFault>
    ensures { Results result handle.old.gateway.value handle.new.gateway.value (IsTold out.old out.new size.new) (IsUntold out.old out.new size.old size.new) }
{
    let Some(mut gateway) = handle.take(alloc) else {
        return Err(GatewayFault::Handle);
    };
    let done = tell(alloc, &mut gateway, out, size);
    handle.put(gateway);
    done
}
