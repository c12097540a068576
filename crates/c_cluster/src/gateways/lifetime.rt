//! Gateways that are opened, come back, and are closed.

ghost use Rattle.std.specs.Prelude.{◌≡◌, ◌↔◌, IsTrue, MatchResult, Some};
ghost use Rattle.c_cluster.specs.declared.gateways.fault.GatewayFault.TheVariants.{Memory};
ghost use Rattle.c_cluster.specs.Gateways.Answers.{Does, Results};
ghost use Rattle.c_cluster.specs.Gateways.Lifetime.{AreInside, AreLimits, IsApplied, IsLater, IsOpened, IsRevived, IsUnapplied, IsUnlater, IsUnopened, IsUnrevived};

use crate::gateways::fault::GatewayFault;
use crate::gateways::handle::GatewayHandle;
use gateway::Gateway;
use limits::PROCESSES;
use packets::LEAST_PAGE;
use std::alloc::Global;
use stores::{ApplyError, ChangesError, StoreError, decode_changes, decode_store};

/// The greatest size of a packet in bytes.
pub const MOST_PAGE: u32 = 65_535;

/// The fault of bytes that are not changes.
pub const NOT_CHANGES: u32 = 1;

/// The fault of a change that doesn't fit the store after those before it.
pub const UNFIT: u32 = 2;

/// Whether the limits are in range.
fn are_limits(page: u32, tick: u32) -> bool
    ensures { IsTrue result ↔ AreLimits page tick }
{
    LEAST_PAGE as u32 <= page && page <= MOST_PAGE && 1 <= tick
}

/// Whether the limits and the number of processes are in range.
fn are_inside(count: u8, page: u32, tick: u32) -> bool
    ensures { IsTrue result ↔ AreInside count page tick }
{
    1 <= count && count as usize <= PROCESSES && are_limits(page, tick)
}

/// Puts a gateway on the heap, and opens the handle with it.
fn hold(alloc: Global, handle: &mut GatewayHandle, gateway: Gateway) -> Result<(), GatewayFault>
    ensures { MatchResult result (λ _. handle.new.gateway.value ≡ Some gateway) (λ why. (why ≡ Memory) × (handle.new.gateway.value ≡ handle.old.gateway.value)) }
{
    let Ok(boxed) = Box::new(alloc, gateway) else {
        return Err(GatewayFault::Memory);
    };
    handle.put(boxed);
    Ok(())
}

/// Opens the gateway of a new cluster of `count` processes.
pub(crate) fn open(
    alloc: Global,
    count: u8,
    page: u32,
    tick: u32,
    handle: &mut GatewayHandle,
) -> Result<(), GatewayFault>
    ensures { Results result handle.old.gateway.value handle.new.gateway.value (IsOpened count page tick) (IsUnopened count page tick) }
{
    if handle.is_open() {
        return Err(GatewayFault::Handle);
    }
    if !are_inside(count, page, tick) {
        return Err(GatewayFault::Range);
    }
    let gateway = Gateway::open(alloc, count, page as u16, tick)?;
    hold(alloc, handle, gateway)
}

/// Opens the gateway with the store in these bytes. If they are refused, writes the number of their
/// first fault.
pub(crate) fn revive(
    alloc: Global,
    store: &[u8],
    page: u32,
    tick: u32,
    handle: &mut GatewayHandle,
    fault: &mut u32,
) -> Result<(), GatewayFault>
    ensures { Results result handle.old.gateway.value handle.new.gateway.value (IsRevived store.now page tick fault.old fault.new) (IsUnrevived store.now page tick fault.old fault.new) }
{
    if handle.is_open() {
        return Err(GatewayFault::Handle);
    }
    if !are_limits(page, tick) {
        return Err(GatewayFault::Range);
    }
    let store = match decode_store(alloc, store) {
        Ok(store) => store,
        Err(StoreError::Memory) => return Err(GatewayFault::Memory),
        Err(StoreError::Fault(why)) => {
            *fault = u32::from(why.number());
            return Err(GatewayFault::Bytes);
        }
    };
    let gateway = Gateway::revive(alloc, store, page as u16, tick)?;
    hold(alloc, handle, gateway)
}

/// Makes the changes in these bytes in a gateway's store.
fn bring_up(
    alloc: Global,
    gateway: &mut Gateway,
    changes: &[u8],
    fault: &mut u32,
) -> Result<(), GatewayFault>
    ensures { Does result gateway.old gateway.new (λ g h. IsLater changes.now g h × (fault.new ≡ fault.old)) (λ g. IsUnlater changes.now g fault.old fault.new) }
{
    if !gateway.is_fresh() {
        return Err(GatewayFault::Early);
    }
    let changes = match decode_changes(alloc, changes) {
        Ok(changes) => changes,
        Err(ChangesError::Memory) => return Err(GatewayFault::Memory),
        Err(ChangesError::Spelling) => {
            *fault = NOT_CHANGES;
            return Err(GatewayFault::Bytes);
        }
    };
    match gateway.apply(alloc, &changes) {
        Ok(()) => Ok(()),
        Err(ApplyError::Memory) => Err(GatewayFault::Memory),
        Err(ApplyError::Unfit(_)) => {
            *fault = UNFIT;
            Err(GatewayFault::Bytes)
        }
    }
}

/// The same for the gateway of a handle.
pub(crate) fn apply(
    alloc: Global,
    handle: &mut GatewayHandle,
    changes: &[u8],
    fault: &mut u32,
) -> Result<(), GatewayFault>
    ensures { Results result handle.old.gateway.value handle.new.gateway.value (IsApplied changes.now fault.old fault.new) (IsUnapplied changes.now fault.old fault.new) }
{
    let Some(mut gateway) = handle.take(alloc) else {
        return Err(GatewayFault::Handle);
    };
    let done = bring_up(alloc, &mut gateway, changes, fault);
    handle.put(gateway);
    done
}
