//! What the gateway gives its host, as bytes.

ghost use Rattle.std.specs.Prelude.{◌≡◌, [], None, IfNone, IfSome, IfOk, OnErr, MatchOption};
ghost use Rattle.stores.specs.Changes.{AreChanges};
ghost use Rattle.stores.specs.Format.{IsStoreBytes};
ghost use Rattle.gateway.specs.Stands.{Takes};
ghost use Rattle.gateway.specs.Written.{GivesBytes, Waits};

use crate::gateway::Gateway;
use packets::encode;
use std::alloc::{AllocError, Global};
use stores::{encode_changes, encode_store};

impl Gateway {
    /// The first packet that waits, if there is one: its receiver and its bytes. [`Gateway::take`]
    /// takes it.
    pub fn first_bytes(&self, alloc: Global) -> Result<Option<(u8, Vec<u8>)>, AllocError>
        ensures { IfOk result (λ o. MatchOption o (self.now.out ≡ []) (λ v. Waits v.0 v.1.items self.now)) }
    {
        let Some(packet) = self.out.front() else {
            return Ok(None);
        };
        let bytes = encode(alloc, packet)?;
        Ok(Some((packet.to, bytes)))
    }

    /// Takes the first packet that waits, if there is one, as bytes. A refusal, which is by memory,
    /// changes nothing.
    pub fn take_bytes(&mut self, alloc: Global) -> Result<Option<Vec<u8>>, AllocError>
        ensures none { IfOk result (λ o. IfNone o (Takes None self.old self.new)) }
        ensures some { IfOk result (λ o. IfSome o (λ v. GivesBytes v.items self.old self.new)) }
        ensures err { OnErr result (self.new ≡ self.old) }
    {
        let Some((_, bytes)) = self.first_bytes(alloc)? else {
            return Ok(None);
        };
        let _ = self.take();
        Ok(Some(bytes))
    }

    /// The bytes of the store. It answers `AllocError` too if four bytes can't count the entries of
    /// a log or the outputs.
    pub fn store_bytes(&self, alloc: Global) -> Result<Vec<u8>, AllocError>
        ensures { IfOk result (λ v. IsStoreBytes self.now.store v.items) }
    {
        encode_store(alloc, &self.store)
    }

    /// The bytes of the changes since the last call of [`Gateway::changes`].
    pub fn changes_bytes(&self, alloc: Global) -> Result<Vec<u8>, AllocError>
        ensures { IfOk result (λ v. AreChanges self.now.changes v.items) }
    {
        encode_changes(alloc, &self.changes)
    }
}
