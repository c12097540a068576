//! Reads a store.

ghost use Rattle.std.specs.Prelude.{◌≤◌, length, Result, IfOk, IfErr};
ghost use Rattle.packets.specs.declared.fault.PacketFault.{PacketFault};
ghost use Rattle.packets.specs.Inside.Reader.{Gives, or_fault};
ghost use Rattle.stores.specs.declared.store_fault.StoreFault.TheVariants as faults;
ghost use Rattle.stores.specs.declared.stored.StoredStore.{StoredStore as TheFields};
ghost use Rattle.stores.specs.Store.{TheStore};
ghost use Rattle.stores.specs.Format.{IsStoreBytes};
ghost use Rattle.stores.specs.Faults.{IsStoreReason, ReadsStore};
ghost use Rattle.stores.specs.Inside.Reader.{GivesStore, stored_at, store_fields_at, count_at, store_reading, store_whole};

use crate::store::Store;
use crate::store_fault::{StoreError, StoreFault};
use crate::stored::StoredStore;
use limits::PROCESSES;
use packets::{PacketError, PacketFault, all_of, fields_under, many_of};
use std::alloc::Global;

/// `SBG1`, the first four bytes.
pub const STORE_MAGIC: [u8; 4] = [0x53, 0x42, 0x47, 0x31];

/// The least length in bytes.
const STORE_LEN: usize = 16;

/// The store in these bytes. A refusal names the first fault by its number.
pub fn decode_store(alloc: Global, bytes: &[u8]) -> Result<Store, StoreError>
    // `encode_store` writes what is read as these bytes.
    ensures found { IfOk result (λ s. IsStoreBytes s bytes.now) }
    // Whatever `encode_store` writes is read, unless memory runs out.
    ensures only { (s : TheStore) → IsStoreBytes s bytes.now → ReadsStore result s }
    // A refusal names a fault of the bytes, and no lesser fault is theirs.
    ensures refused { IfErr result (λ e. IsStoreReason e bytes.now) }
{
    store_of(alloc, bytes)
}

/// The store in these bytes, by its fields.
#[tactic(auto, unfolding(crate::specs::Inside::Reader::store_whole))]
fn store_of(alloc: Global, bytes: &[u8]) -> Result<Store, StoreError>
    ensures { GivesStore (λ x. x) result (store_whole bytes.now) }
{
    let stored = stored_of(alloc, bytes)?;
    Ok(stored.to_store(alloc)?)
}

/// The fields of a store, read one by one.
#[tactic(auto, unfolding(crate::specs::Inside::Reader::store_reading))]
fn stored_of(alloc: Global, bytes: &[u8]) -> Result<StoredStore, StoreError>
    ensures { GivesStore (λ x. x) result (store_reading bytes.now) }
{
    let fields = fields_of(bytes)?;
    let count = count_of(bytes)?;
    let stored = with_fault(body_of(alloc, count, fields))?;
    if !stored.is_in_range() {
        return Err(StoreError::Fault(StoreFault::Range));
    }
    Ok(stored)
}

/// The bytes of the fields, if magic and checksum are right.
#[tactic(auto, unfolding(crate::specs::Inside::Reader::store_fields_at))]
fn fields_of(bytes: &[u8]) -> Result<&[u8], StoreError>
    ensures exact { GivesStore (λ x. x.now) result (store_fields_at bytes.now) }
    ensures long { IfOk result (λ x. 16 ≤ length bytes.now) }
{
    fields_under(
        StoreFault::Short,
        StoreFault::Magic,
        StoreFault::Checksum,
        STORE_LEN,
        STORE_MAGIC,
        bytes,
    )
    .map_err(StoreError::Fault)
}

/// The number of processes.
#[tactic(auto, unfolding(crate::specs::Inside::Reader::count_at))]
fn count_of(bytes: &[u8]) -> Result<u8, StoreError>
    requires { 8 ≤ length bytes.now }
    ensures { GivesStore (λ x. x) result (count_at bytes.now) }
{
    let count = bytes[4];
    if count < 1 || count > PROCESSES as u8 {
        return Err(StoreError::Fault(StoreFault::Count));
    }
    let zeros = [bytes[5], bytes[6], bytes[7]];
    if zeros != [0, 0, 0] {
        return Err(StoreError::Fault(StoreFault::Zeros));
    }
    Ok(count)
}

/// The fields of `count` processes.
#[tactic(auto, unfolding(crate::specs::Inside::Reader::stored_at))]
fn body_of(alloc: Global, count: u8, bytes: &[u8]) -> Result<StoredStore, PacketError>
    ensures { Gives (λ x. x) result (stored_at count bytes.now) }
{
    let (heads, rest) = many_of(alloc, u64::from(count), bytes)?;
    let (logs, rest) = many_of(alloc, u64::from(count), rest)?;
    let (outputs, rest) = all_of(alloc, rest)?;
    if !rest.is_empty() {
        return Err(PacketError::Fault(PacketFault::Fields));
    }
    Ok(StoredStore {
        heads,
        logs,
        outputs,
    })
}

/// A field that can't be read is fault 6.
fn with_fault(read: Result<StoredStore, PacketError>) -> Result<StoredStore, StoreError>
    ensures { (r : Result TheFields PacketFault) → Gives (λ x. x) read r → GivesStore (λ x. x) result (or_fault faults.Fields r) }
{
    match read {
        Ok(stored) => Ok(stored),
        Err(PacketError::Memory) => Err(StoreError::Memory),
        Err(PacketError::Fault(_)) => Err(StoreError::Fault(StoreFault::Fields)),
    }
}
