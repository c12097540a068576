//! What the gateway of a cluster keeps in stable storage, as a value and as bytes.
//!
//! A [`Store`] has for each process the inputs that it may still ask for, the number of its outputs
//! that were shown, and its incarnation. It also has the outputs that were shown and not yet taken.
//! A [`Change`] is one change of it: [`Store::apply`] makes one that fits, [`Store::apply_all`]
//! tests and makes many. A store and all changes since then are the store as it is now.
//!
//! [`encode_store`] writes a store as `SBG1`, [`decode_store`] reads it. As in crate `packets`,
//! exactly the bytes of stores are accepted, bytes are those of one store at most, and any others
//! are refused by the first of their faults, of which there are seven. [`encode_changes`] writes
//! changes one after another, so that later ones can be appended, and [`decode_changes`] reads
//! exactly what it writes.
//!
//! ```
//! let mut store = decode_store(alloc, &bytes)?;
//! let changes = decode_changes(alloc, &appended)?;
//! store.apply_all(alloc, &changes)?;
//! ```
#![tactic(auto)]

mod change;
mod changes;
mod changes_fault;
mod fault;
mod fields;
mod laws;
mod peer;
mod reader;
mod store;
mod store_fault;
mod stored;
mod writer;

pub use change::{Change, Output};
pub use changes::{decode_changes, encode_changes};
pub use changes_fault::ChangesError;
pub use fault::ApplyError;
pub use laws::{
    LaterError, changes_join, later_bytes, one_list, one_store, same_bytes_again, store_again,
};
pub use peer::{Logged, Peer};
pub use reader::decode_store;
pub use store::Store;
pub use store_fault::{StoreError, StoreFault};
pub use writer::encode_store;
