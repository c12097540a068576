//! Checkpoints of a process.

ghost use Rattle.std.specs.Prelude.{◌≡◌, ◌⊎◌, ◌≤◌, ◌<◌, length, false, true, IfOk, IfNone, IfSome, OnOk, OnErr};
ghost use Rattle.packets.specs.Kept.{IsKept};
ghost use Rattle.recovery.specs.declared.lifecycle.Lifecycle.TheVariants.{Up};
ghost use Rattle.process.specs.Calls.{Stays, Freezes, FreezesAs, Thaws, may_freeze, is_frozen, is_storable};
ghost use Rattle.process.specs.Checkpoints.{IsSavable, Keeps};

use crate::process::Member;
use limits::STATE_BYTES;
use node::{MOST_KEPT, Node, Stage};
use recovery::Lifecycle;
use std::alloc::{AllocError, Global};

impl Member {
    /// The bytes that a checkpoint made now has to keep, if one can be made. If one can be, only
    /// memory can be refused.
    pub fn kept_bytes(&self, alloc: Global) -> Result<Option<Vec<u8>>, AllocError>
        ensures none { IfOk result (λ o. IfNone o (¬ IsSavable self.now.lifecycle)) }
        ensures some { IfOk result (λ o. IfSome o (λ v. IsSavable self.now.lifecycle × Keeps self.now.lifecycle v.items)) }
        ensures memory { OnErr result (IsSavable self.now.lifecycle) }
    {
        match &self.lifecycle {
            Lifecycle::Up(node) => {
                let standing = node.standing();
                if standing.stage != Stage::Up
                    || standing.entries >= MOST_KEPT as u64
                    || node.state().len() > STATE_BYTES
                {
                    return Ok(None);
                }
                let bytes = node.kept_bytes(alloc)?;
                Ok(Some(bytes))
            }
            _ => Ok(None),
        }
    }

    /// Makes a checkpoint; the process waits for it until [`Member::saved`]. Answers whether one
    /// was made: the process has to be up, with no job open and waiting for no checkpoint, and its
    /// logs must fit one.
    pub fn freeze(&mut self) -> bool
        ensures made { result ≡ may_freeze self.old.lifecycle }
        ensures stays { Stays Freezes self.old self.new }
    {
        match &mut self.lifecycle {
            Lifecycle::Up(node) => freeze(node),
            _ => false,
        }
    }

    /// Makes a checkpoint and gives its bytes, if one can be made. If one can be, only memory can
    /// be refused. A refusal changes nothing.
    pub fn checkpoint(&mut self, alloc: Global) -> Result<Option<Vec<u8>>, AllocError>
        ensures none { IfOk result (λ o. IfNone o (¬ IsSavable self.old.lifecycle × (self.new ≡ self.old))) }
        ensures some { IfOk result (λ o. IfSome o (λ v. IsSavable self.old.lifecycle × Keeps self.old.lifecycle v.items × Stays Freezes self.old self.new)) }
        ensures memory { OnErr result (IsSavable self.old.lifecycle) }
        ensures err { OnErr result (self.new ≡ self.old) }
    {
        let bytes = self.kept_bytes(alloc)?;
        if bytes.is_some() {
            let _made = self.freeze();
        }
        Ok(bytes)
    }

    /// The checkpoint that was made is durable. Answers whether the process waited for it. A
    /// refusal changes nothing.
    pub fn saved(&mut self, alloc: Global) -> Result<bool, AllocError>
        ensures waited { IfOk result (λ b. b ≡ is_frozen self.old.lifecycle) }
        ensures stays { OnOk result (Stays Thaws self.old self.new) }
        ensures err { OnErr result (self.new ≡ self.old) }
    {
        match &mut self.lifecycle {
            Lifecycle::Up(node) => node.saved(alloc),
            _ => Ok(false),
        }
    }
}

/// Makes a checkpoint of a node, if its logs fit one.
fn freeze(node: &mut Node) -> bool
    ensures made { result ≡ may_freeze (Up node.old) }
    ensures freezes { FreezesAs (is_storable node.old) node.old node.new }
{
    if node.standing().entries >= MOST_KEPT as u64 {
        return false;
    }
    node.checkpoint()
}
