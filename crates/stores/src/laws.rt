//! What holds of the bytes of stores and of changes.

ghost use Rattle.std.specs.Prelude.{◌≡◌, List, IfOk};
ghost use Rattle.stores.specs.declared.change.Change.{Change};
ghost use Rattle.stores.specs.Store.{TheStore};
ghost use Rattle.stores.specs.Format.{StoreFits, IsStoreBytes};
ghost use Rattle.stores.specs.Faults.{ReadsStore, IsOneStore};
ghost use Rattle.stores.specs.Changes.{AreChanges, AreOneList, AreJoined};
ghost use Rattle.stores.specs.Laws.{AreLater};

use crate::changes::decode_changes;
use crate::changes_fault::ChangesError;
use crate::fault::ApplyError;
use crate::reader::decode_store;
use crate::store::Store;
use crate::store_fault::StoreError;
use crate::writer::encode_store;
use std::alloc::{AllocError, Global};
use thiserror::Error;

/// Bytes are those of one store at most.
pub fn one_store()
    ensures { IsOneStore }
{}

/// A store that is written is read back, unless memory runs out.
pub fn store_again(alloc: Global, store: &Store) -> Result<Store, StoreError>
    requires { StoreFits store.now }
    ensures { ReadsStore result store.now }
{
    let bytes = encode_store(alloc, store)?;
    decode_store(alloc, &bytes)
}

/// A store that is read is written as the same bytes, unless memory runs out.
pub fn same_bytes_again(alloc: Global, bytes: &[u8]) -> Result<Vec<u8>, StoreError>
    ensures { IfOk result (λ v. v.items ≡ bytes.now) }
{
    let store = decode_store(alloc, bytes)?;
    Ok(encode_store(alloc, &store)?)
}

/// Bytes are those of one list of changes at most.
pub fn one_list()
    ensures { AreOneList }
{}

/// The bytes of changes and then those of later changes are the bytes of both.
pub fn changes_join()
    ensures { AreJoined }
{}

/// Why `later_bytes` gave none.
#[derive(Debug, Drop, PartialEq, Eq, Error)]
pub enum LaterError {
    /// The first bytes are not a store.
    #[error(transparent)]
    Store(#[from] StoreError),
    /// The others are not changes.
    #[error(transparent)]
    Changes(#[from] ChangesError),
    /// The changes don't fit the store.
    #[error(transparent)]
    Apply(#[from] ApplyError),
    /// Memory ran out.
    #[error("out of memory")]
    Memory(#[from] AllocError),
}

/// The bytes of the store after these changes. A host calls it to begin its list of changes anew.
pub fn later_bytes(alloc: Global, store: &[u8], changes: &[u8]) -> Result<Vec<u8>, LaterError>
    ensures store { IfOk result (λ v. (s : TheStore) × IsStoreBytes s store.now) }
    ensures changes { IfOk result (λ v. (ks : List Change) × AreChanges ks changes.now) }
    ensures value { IfOk result (λ v. AreLater store.now changes.now v.items) }
{
    let mut now = decode_store(alloc, store)?;
    let changes = decode_changes(alloc, changes)?;
    now.apply_all(alloc, &changes)?;
    Ok(encode_store(alloc, &now)?)
}
