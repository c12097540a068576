//! The gateway comes back after a crash.

ghost use Rattle.std.specs.Prelude.{◌≡◌, ◌≤◌, [], true, IfOk, IfErr, OnOk, OnErr};
ghost use Rattle.stores.specs.Store.{FitAll, applied_all, IsApplyReason};
ghost use Rattle.gateway.specs.Since.{revived, StandsFor};

use crate::gateway::Gateway;
use packets::{LEAST_PAGE, PacketQueue};
use std::alloc::{AllocError, Global};
use stores::{ApplyError, Change, Store};

impl Gateway {
    /// The gateway with this store, which was kept when an earlier one was killed. Packets that the
    /// earlier one hadn't sent are lost.
    pub fn revive(alloc: Global, store: Store, page: u16, tick: u32) -> Result<Gateway, AllocError>
        requires page { LEAST_PAGE ≤ page }
        requires tick { 1 ≤ tick }
        ensures value { IfOk result (λ g. g ≡ revived page tick store) }
        ensures stands { IfOk result (λ g. StandsFor store g) }
    {
        Gateway::with_store(alloc, store, page, tick)
    }

    fn with_store(alloc: Global, store: Store, page: u16, tick: u32) -> Result<Gateway, AllocError>
        requires page { LEAST_PAGE ≤ page }
        requires tick { 1 ≤ tick }
        ensures { IfOk result (λ g. g ≡ revived page tick store) }
    {
        let out = PacketQueue::new(alloc)?;
        Ok(Gateway {
            page,
            tick,
            store,
            changes: Vec::new(alloc),
            out,
        })
    }

    /// Whether there is nothing to send and nothing to make durable.
    pub fn is_fresh(&self) -> bool
        ensures yes { result ≡ true → (self.now.changes ≡ []) × (self.now.out ≡ []) }
        ensures no { (self.now.changes ≡ []) × (self.now.out ≡ []) → result ≡ true }
    {
        self.changes.is_empty() && self.out.is_empty()
    }

    /// Makes changes in its store that were made durable after it. A refusal changes nothing.
    pub fn apply(&mut self, alloc: Global, changes: &[Change]) -> Result<(), ApplyError>
        requires changes { self.old.changes ≡ [] }
        requires out { self.old.out ≡ [] }
        ensures fit { OnOk result (FitAll changes.now self.old.store) }
        ensures value { OnOk result (self.new ≡ revived self.old.page self.old.tick (applied_all changes.now self.old.store)) }
        ensures stands { OnOk result (StandsFor (applied_all changes.now self.old.store) self.new) }
        ensures why { IfErr result (λ e. IsApplyReason e changes.now self.old.store) }
        ensures err { OnErr result (self.new ≡ self.old) }
    {
        self.bring_up(alloc, changes)
    }

    fn bring_up(&mut self, alloc: Global, changes: &[Change]) -> Result<(), ApplyError>
        requires changes { self.old.changes ≡ [] }
        requires out { self.old.out ≡ [] }
        ensures fit { OnOk result (FitAll changes.now self.old.store) }
        ensures ok { OnOk result (self.new ≡ revived self.old.page self.old.tick (applied_all changes.now self.old.store)) }
        ensures why { IfErr result (λ e. IsApplyReason e changes.now self.old.store) }
        ensures err { OnErr result (self.new ≡ self.old) }
    {
        self.store.apply_all(alloc, changes)
    }
}
