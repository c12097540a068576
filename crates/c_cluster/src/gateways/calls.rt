//! Calls of the gateway of a handle.

ghost use Rattle.std.specs.Prelude.{◌≡◌, OnErr};
ghost use Rattle.c_cluster.specs.Gateways.Answers.{Does, Results};
ghost use Rattle.c_handles.specs.Bundle.{IsFrontReceived};
ghost use Rattle.c_cluster.specs.Gateways.Bundles.{Hears, AreReceived, AreUnreceived};
ghost use Rattle.c_cluster.specs.Gateways.Calls.{IsClosed, WasClosed, IsLogged, IsReceived, IsTicked, IsUnlogged, IsUnreceived, Logs, LogsNot, Receives, ReceivesNot};

use crate::gateways::fault::GatewayFault;
use crate::gateways::handle::GatewayHandle;
use c_handles::bundle::{BundleTally, first_of, is_bundle};
use gateway::Gateway;
use helpers::Payload;
use limits::PAYLOAD_BYTES;
use packets::PacketError;
use std::alloc::Global;

/// Closes a handle, and gives the memory of its gateway back.
pub(crate) fn close(alloc: Global, handle: &mut GatewayHandle) -> Result<(), GatewayFault>
    ensures { Results result handle.old.gateway.value handle.new.gateway.value IsClosed WasClosed }
{
    match handle.take(alloc) {
        Some(_gateway) => Ok(()),
        None => Err(GatewayFault::Handle),
    }
}

/// Logs an input for a process, and writes its SSN.
fn log(
    gateway: &mut Gateway,
    process: u8,
    payload: &[u8],
    ssn: &mut u64,
) -> Result<(), GatewayFault>
    ensures { Does result gateway.old gateway.new (Logs process payload.now ssn.new) (λ g why. LogsNot process payload.now g why × (ssn.new ≡ ssn.old)) }
{
    if payload.len() > PAYLOAD_BYTES {
        return Err(GatewayFault::Payload);
    }
    if process == 0 || process > gateway.store().count() {
        return Err(GatewayFault::Range);
    }
    let number = gateway.input(process, Payload::from_slice(payload))?;
    *ssn = number;
    Ok(())
}

/// The same for the gateway of a handle.
pub(crate) fn input(
    alloc: Global,
    handle: &mut GatewayHandle,
    process: u8,
    payload: &[u8],
    ssn: &mut u64,
) -> Result<(), GatewayFault>
    ensures { Results result handle.old.gateway.value handle.new.gateway.value (IsLogged process payload.now ssn.new) (IsUnlogged process payload.now ssn.old ssn.new) }
{
    let Some(mut gateway) = handle.take(alloc) else {
        return Err(GatewayFault::Handle);
    };
    let done = log(&mut gateway, process, payload, ssn);
    handle.put(gateway);
    done
}

/// Hands the bytes of a packet in. If they are refused, writes the number of their first fault.
fn hear(
    alloc: Global,
    gateway: &mut Gateway,
    packet: &[u8],
    fault: &mut u32,
) -> Result<(), GatewayFault>
    ensures { Does result gateway.old gateway.new (λ g h. Receives packet.now g h × (fault.new ≡ fault.old)) (λ _. ReceivesNot packet.now fault.old fault.new) }
{
    match gateway.receive_bytes(alloc, packet) {
        Ok(()) => Ok(()),
        Err(PacketError::Memory) => Err(GatewayFault::Memory),
        Err(PacketError::Fault(why)) => {
            *fault = u32::from(why.number());
            Err(GatewayFault::Bytes)
        }
    }
}

/// The same for the gateway of a handle.
pub(crate) fn receive(
    alloc: Global,
    handle: &mut GatewayHandle,
    packet: &[u8],
    fault: &mut u32,
) -> Result<(), GatewayFault>
    ensures { Results result handle.old.gateway.value handle.new.gateway.value (IsReceived packet.now fault.old fault.new) (IsUnreceived packet.now fault.old fault.new) }
{
    let Some(mut gateway) = handle.take(alloc) else {
        return Err(GatewayFault::Handle);
    };
    let done = hear(alloc, &mut gateway, packet, fault);
    handle.put(gateway);
    done
}

/// Hands each packet of a bundle in.
pub(crate) fn receive_all(
    alloc: Global,
    handle: &mut GatewayHandle,
    bundle: &[u8],
    tally: &mut BundleTally,
) -> Result<(), GatewayFault>
    ensures received { Results result handle.old.gateway.value handle.new.gateway.value (AreReceived bundle.now tally.new) (AreUnreceived bundle.now) }
    ensures kept { OnErr result (tally.new ≡ tally.old) }
{
    if !handle.is_open() {
        return Err(GatewayFault::Handle);
    }
    if !is_bundle(bundle) {
        return Err(GatewayFault::Bytes);
    }
    *tally = hear_front(alloc, handle, bundle);
    Ok(())
}

/// Does so with the packets at the front of some bytes, and counts them.
fn hear_front(alloc: Global, handle: &mut GatewayHandle, bytes: &[u8]) -> BundleTally
    ensures { IsFrontReceived Hears bytes.now handle.old.gateway.value handle.new.gateway.value result }
{
    let mut tally = BundleTally {
        taken: 0,
        refused: 0,
        lost: 0,
    };
    let mut rest = bytes;
    while let Some((packet, after)) = first_of(rest) {
        let mut fault = 0;
        match receive(alloc, handle, packet, &mut fault) {
            Ok(()) => tally.taken += 1,
            Err(why) => match why {
                GatewayFault::Memory => tally.lost += 1,
                _ => tally.refused += 1,
            },
        }
        rest = after;
    }
    tally
}

/// Sends again what isn't answered.
pub(crate) fn tick(alloc: Global, handle: &mut GatewayHandle) -> Result<(), GatewayFault>
    ensures { Results result handle.old.gateway.value handle.new.gateway.value IsTicked WasClosed }
{
    let Some(mut gateway) = handle.take(alloc) else {
        return Err(GatewayFault::Handle);
    };
    gateway.tick();
    handle.put(gateway);
    Ok(())
}
