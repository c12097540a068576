//! The functions for C. Code 0 means done, any other code is the number of a fault; the contracts
//! say what that means for handle and buffers.

ghost use Rattle.std.specs.Prelude.{◌≡◌};
ghost use Rattle.c_cluster.specs.Gateways.Answers.{Answers};
ghost use Rattle.c_handles.specs.Buffer.{OnFault};
ghost use Rattle.c_cluster.specs.Gateways.Lifetime.{IsApplied, IsOpened, IsRevived, IsUnapplied, IsUnopened, IsUnrevived};
ghost use Rattle.c_cluster.specs.Gateways.Bundles.{AreReceived, AreUnreceived, AreTaken, AreUntaken};
ghost use Rattle.c_cluster.specs.Gateways.Calls.{IsClosed, WasClosed, IsLogged, IsReceived, IsTicked, IsUnlogged, IsUnreceived};
ghost use Rattle.c_cluster.specs.Gateways.Results.{IsShown, IsStored, IsTaken, IsTold, IsUnshown, IsUnstored, IsUntaken, IsUntold};

use crate::gateways::handle::GatewayHandle;
use crate::gateways::{calls, lifetime, results};
use c_handles::bundle::BundleTally;
use c_handles::code;
use std::alloc::Global;

/// Opens the gateway of a new cluster of 1 to 15 processes. A packet has at most `page` bytes, 512
/// to 65,535, and a tick sends at most `tick` messages to a process again, 1 or more.
#[unsafe(no_mangle)]
pub extern "C" fn sblog_gateway_open(
    alloc: Global,
    n: u8,
    page: u32,
    tick: u32,
    handle: &mut GatewayHandle,
) -> u32
    ensures { Answers result handle.old.gateway.value handle.new.gateway.value (IsOpened n page tick) (IsUnopened n page tick) }
{
    code(lifetime::open(alloc, n, page, tick, handle))
}

/// Opens the gateway with a store that was kept when an earlier one was killed. If the bytes are
/// refused, writes the number of their fault, 1 to 7.
#[unsafe(no_mangle)]
pub extern "C" fn sblog_gateway_revive(
    alloc: Global,
    store: &[u8],
    page: u32,
    tick: u32,
    handle: &mut GatewayHandle,
    fault: &mut u32,
) -> u32
    ensures { Answers result handle.old.gateway.value handle.new.gateway.value (IsRevived store.now page tick fault.old fault.new) (IsUnrevived store.now page tick fault.old fault.new) }
{
    code(lifetime::revive(alloc, store, page, tick, handle, fault))
}

/// Makes changes that were made durable after the store. If they are refused, writes why: 1 if the
/// bytes are not changes, 2 if a change doesn't fit the store after those before it.
#[unsafe(no_mangle)]
pub extern "C" fn sblog_gateway_apply(
    alloc: Global,
    handle: &mut GatewayHandle,
    changes: &[u8],
    fault: &mut u32,
) -> u32
    ensures { Answers result handle.old.gateway.value handle.new.gateway.value (IsApplied changes.now fault.old fault.new) (IsUnapplied changes.now fault.old fault.new) }
{
    code(lifetime::apply(alloc, handle, changes, fault))
}

/// Closes a handle, and gives the memory of its gateway back.
#[unsafe(no_mangle)]
pub extern "C" fn sblog_gateway_close(alloc: Global, handle: &mut GatewayHandle) -> u32
    ensures { Answers result handle.old.gateway.value handle.new.gateway.value IsClosed WasClosed }
{
    code(calls::close(alloc, handle))
}

/// Takes a message of 0 to 256 bytes from outside for a process. Writes its SSN.
#[unsafe(no_mangle)]
pub extern "C" fn sblog_gateway_input(
    alloc: Global,
    handle: &mut GatewayHandle,
    process: u8,
    payload: &[u8],
    ssn: &mut u64,
) -> u32
    ensures { Answers result handle.old.gateway.value handle.new.gateway.value (IsLogged process payload.now ssn.new) (IsUnlogged process payload.now ssn.old ssn.new) }
{
    code(calls::input(alloc, handle, process, payload, ssn))
}

/// Takes the bytes of a packet, as the rules say. If they are not a packet, writes the number of
/// their first fault, 1 to 8.
#[unsafe(no_mangle)]
pub extern "C" fn sblog_gateway_receive(
    alloc: Global,
    handle: &mut GatewayHandle,
    packet: &[u8],
    fault: &mut u32,
) -> u32
    ensures { Answers result handle.old.gateway.value handle.new.gateway.value (IsReceived packet.now fault.old fault.new) (IsUnreceived packet.now fault.old fault.new) }
{
    code(calls::receive(alloc, handle, packet, fault))
}

/// Takes each packet of a bundle, from the first on. Counts the packets that it took, that are no
/// packets, and for which there was no memory. The bytes are those of a bundle after its head; others
/// are refused whole.
#[unsafe(no_mangle)]
pub extern "C" fn sblog_gateway_receive_all(
    alloc: Global,
    handle: &mut GatewayHandle,
    bundle: &[u8],
    tally: &mut BundleTally,
) -> u32
    ensures received { Answers result handle.old.gateway.value handle.new.gateway.value (AreReceived bundle.now tally.new) (AreUnreceived bundle.now) }
    ensures kept { OnFault result (tally.new ≡ tally.old) }
{
    code(calls::receive_all(alloc, handle, bundle, tally))
}

/// Takes the first packet that waits: writes its bytes, its length, and its receiver.
#[unsafe(no_mangle)]
pub extern "C" fn sblog_gateway_take(
    alloc: Global,
    handle: &mut GatewayHandle,
    out: &mut [u8],
    size: &mut usize,
    to: &mut u8,
) -> u32
    ensures taken { Answers result handle.old.gateway.value handle.new.gateway.value (IsTaken out.old out.new size.new to.new) (IsUntaken out.old out.new size.old size.new) }
    ensures kept { OnFault result (to.new ≡ to.old) }
{
    code(results::take(alloc, handle, out, size, to))
}

/// Takes the first packets that wait, as many as go to the same process and fit: writes them as those
/// of a bundle, their length in bytes, their receiver, and their number. No contract says that it takes
/// all that fit, since memory may run out.
#[unsafe(no_mangle)]
pub extern "C" fn sblog_gateway_take_all(
    alloc: Global,
    handle: &mut GatewayHandle,
    out: &mut [u8],
    size: &mut usize,
    to: &mut u8,
    count: &mut u64,
) -> u32
    ensures taken { Answers result handle.old.gateway.value handle.new.gateway.value (AreTaken out.old out.new size.new to.new count.new) (AreUntaken out.old out.new size.old size.new) }
    ensures kept { OnFault result ((to.new ≡ to.old) × (count.new ≡ count.old)) }
{
    code(results::take_all(alloc, handle, out, size, to, count))
}

/// Sends again what isn't answered.
#[unsafe(no_mangle)]
pub extern "C" fn sblog_gateway_tick(alloc: Global, handle: &mut GatewayHandle) -> u32
    ensures { Answers result handle.old.gateway.value handle.new.gateway.value IsTicked WasClosed }
{
    code(calls::tick(alloc, handle))
}

/// Takes the first output that wasn't taken: writes its process, its SSN, its bytes and their
/// number.
#[unsafe(no_mangle)]
pub extern "C" fn sblog_gateway_output(
    alloc: Global,
    handle: &mut GatewayHandle,
    process: &mut u8,
    ssn: &mut u64,
    out: &mut [u8],
    size: &mut usize,
) -> u32
    ensures shown { Answers result handle.old.gateway.value handle.new.gateway.value (IsShown process.new ssn.new out.old out.new size.new) (IsUnshown out.old out.new size.old size.new) }
    ensures kept { OnFault result ((process.new ≡ process.old) × (ssn.new ≡ ssn.old)) }
{
    code(results::output(alloc, handle, process, ssn, out, size))
}

/// Writes the bytes of its store, and their number.
#[unsafe(no_mangle)]
pub extern "C" fn sblog_gateway_store(
    alloc: Global,
    handle: &mut GatewayHandle,
    out: &mut [u8],
    size: &mut usize,
) -> u32
    ensures { Answers result handle.old.gateway.value handle.new.gateway.value (IsStored out.old out.new size.new) (IsUnstored out.old out.new size.old size.new) }
{
    code(results::store(alloc, handle, out, size))
}

/// Takes the changes of its store since the last call: writes their bytes, none if nothing changed,
/// and their number. They have to be durable before the host sends what the calls gave.
#[unsafe(no_mangle)]
pub extern "C" fn sblog_gateway_changes(
    alloc: Global,
    handle: &mut GatewayHandle,
    out: &mut [u8],
    size: &mut usize,
) -> u32
    ensures { Answers result handle.old.gateway.value handle.new.gateway.value (IsTold out.old out.new size.new) (IsUntold out.old out.new size.old size.new) }
{
    code(results::changes(alloc, handle, out, size))
}
