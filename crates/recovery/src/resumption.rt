//! A suspended node is resumed.

ghost use Rattle.std.specs.Prelude.{◌≡◌, ◌≢◌, ◌≤◌, [], suc, length, map, true, IfOk, IfNone, IfSome, ⊤};
ghost use Rattle.limits.specs.declared.TheConstants.{PROCESSES, STATE_BYTES};
ghost use Rattle.packets.specs.declared.kept.Kept.{Kept};
ghost use Rattle.packets.specs.Kept.{IsKept};
ghost use Rattle.node.specs.Limit.{AreAllowed};
ghost use Rattle.node.specs.Node.{TheNode};
ghost use Rattle.node.specs.Kept.{kept_of};
ghost use Rattle.node.specs.Suspension.{IsSuspended, woken, joined_by, numbered_by};
ghost use Rattle.recovery.specs.Own.{comes_back};
ghost use Rattle.recovery.specs.Resumption.{unread, unmade, Finds, is_set, rest_of, MakesNode, made};
ghost use Rattle.recovery.specs.declared.resumption.Unresumed.TheVariants.{Memory};

use crate::collection::comes_back;
use crate::own::Own;
use crate::replayed::Replayed;
use crate::rest::{Rest, rest_of, text_of};
use node::{KeptQueue, Limits, Node, Unsuspended};
use packets::{Kept, KeptError, NUMBER_LIMIT, PacketError, Page, decode_kept};
use rsn::Receipts;
use std::alloc::{AllocError, Global};
use thiserror::Error;

/// Why no node is resumed from bytes.
#[derive(Debug, Drop, Error)]
pub enum Unresumed {
    /// Memory ran out.
    #[error("out of memory")]
    Memory,
    /// They are the bytes of no suspended node.
    #[error("these are not the bytes of a suspended node")]
    Bytes,
}

impl From<AllocError> for Unresumed {
    ghost from_gives = { λ _ u. u ≡ Memory };

    fn from(_e: AllocError) -> Unresumed {
        Unresumed::Memory
    }
}

impl From<PacketError> for Unresumed {
    ghost from_gives = { λ e u. u ≡ unread e };

    fn from(e: PacketError) -> Unresumed {
        match e {
            PacketError::Memory => Unresumed::Memory,
            PacketError::Fault(_) => Unresumed::Bytes,
        }
    }
}

impl From<Unsuspended> for Unresumed {
    ghost from_gives = { λ e u. u ≡ unmade e };

    fn from(e: Unsuspended) -> Unresumed {
        match e {
            Unsuspended::Memory => Unresumed::Memory,
            _ => Unresumed::Bytes,
        }
    }
}

/// The node that [`Node::suspend`] wrote as these bytes, with these limits. It is the same
/// incarnation, so it asks no peer, and none waits for it. The packets that waited are lost.
pub fn resume(alloc: Global, limits: Limits, bytes: &[u8]) -> Result<Node, Unresumed>
    requires limits { AreAllowed limits }
    // `suspend` writes what is resumed as these bytes.
    ensures found { IfOk result (λ n. IsSuspended n bytes.now) }
    ensures fresh { IfOk result (λ n. (n.limits ≡ limits) × (n.out ≡ [])) }
    // Whatever `suspend` writes is resumed, unless memory runs out.
    ensures only { (n : TheNode) → IsSuspended n bytes.now → Finds (λ m. m ≡ woken limits n) result }
{
    let node = read(alloc, limits, bytes)?;
    // Bytes that another node has too, or that have a fault, differ from those of this node.
    compare(alloc, &node, bytes)?;
    Ok(node)
}

/// The same, if the state of that node is `len` bytes long.
pub fn resume_sized(
    alloc: Global,
    limits: Limits,
    len: usize,
    bytes: &[u8],
) -> Result<Option<Node>, Unresumed>
    requires limits { AreAllowed limits }
    ensures some { IfOk result (λ o. IfSome o (λ n. IsSuspended n bytes.now × (n.limits ≡ limits) × (n.out ≡ []) × (length n.state ≡ len))) }
    ensures none { IfOk result (λ o. IfNone o ((n : TheNode) × IsSuspended n bytes.now × (length n.state ≢ len))) }
    ensures only { (n : TheNode) → IsSuspended n bytes.now → Finds (λ _. ⊤) result }
{
    let node = resume(alloc, limits, bytes)?;
    if node.state().len() != len {
        return Ok(None);
    }
    Ok(Some(node))
}

/// The node that these bytes are read as.
fn read(alloc: Global, limits: Limits, bytes: &[u8]) -> Result<Node, Unresumed>
    requires limits { AreAllowed limits }
    ensures fresh { IfOk result (λ n. (n.limits ≡ limits) × (n.out ≡ []) × (length n.state ≤ STATE_BYTES)) }
    ensures only { (n : TheNode) → IsSuspended n bytes.now → Finds (λ m. m ≡ woken limits n) result }
{
    let (kept, rest) = parts_of(alloc, bytes)?;
    node_of(alloc, limits, &kept, &rest)
}

/// Refuses bytes that aren't those of this node.
fn compare(alloc: Global, node: &Node, bytes: &[u8]) -> Result<(), Unresumed>
    requires { length node.now.state ≤ STATE_BYTES }
    ensures found { IfOk result (λ _. IsSuspended node.now bytes.now) }
    ensures only { (limits : Limits) (n : TheNode) → IsSuspended n bytes.now → node.now ≡ woken limits n → Finds (λ _. ⊤) result }
{
    if node.suspend(alloc)?.as_slice() == bytes {
        Ok(())
    } else {
        Err(Unresumed::Bytes)
    }
}

/// The kept state in these bytes, and the rest.
fn parts_of(alloc: Global, bytes: &[u8]) -> Result<(Kept, Rest), Unresumed>
    ensures makes { IfOk result (λ x. MakesNode x.0 x.1) }
    ensures only { (n : TheNode) → IsSuspended n bytes.now → Finds (λ x. (x.0 ≡ kept_of n) × (x.1 ≡ rest_of n)) result }
{
    if bytes.len() < 4 {
        return Err(Unresumed::Bytes);
    }
    let (_, fields) = bytes.split_at(4);
    let (text, after) = text_of(fields)?;
    let kept = kept_of(alloc, text)?;
    let (rest, _) = rest_of(alloc, kept.count + 1, after)?;
    if rest.life < 1 || rest.life >= NUMBER_LIMIT {
        return Err(Unresumed::Bytes);
    }
    Ok((kept, rest))
}

/// The kept state in these bytes, if a process can come back from it.
fn kept_of(alloc: Global, bytes: &[u8]) -> Result<Kept, Unresumed>
    ensures comes { IfOk result (λ k. comes_back k ≡ true) }
    ensures fits { IfOk result (λ k. (k.count ≤ PROCESSES) × (length k.state ≤ STATE_BYTES)) }
    ensures only { (k : Kept) → IsKept k bytes.now → comes_back k ≡ true → Finds (λ l. l ≡ k) result }
{
    let kept = match decode_kept(alloc, bytes) {
        Ok(kept) => kept,
        Err(KeptError::Memory) => return Err(Unresumed::Memory),
        Err(KeptError::Fault(_)) => return Err(Unresumed::Bytes),
    };
    if !comes_back(&kept) {
        return Err(Unresumed::Bytes);
    }
    Ok(kept)
}

/// The node that these parts make.
fn node_of(alloc: Global, limits: Limits, kept: &Kept, rest: &Rest) -> Result<Node, Unresumed>
    requires limits { AreAllowed limits }
    requires parts { MakesNode kept.now rest.now }
    ensures { Finds (λ n. n ≡ made limits kept.now rest.now) result }
{
    let receipts = Receipts::new(alloc, &[])?;
    let resumed = flags_of(alloc, rest.resumed.as_slice())?;
    let mut own = Own::kept(alloc, limits, kept, rest.life)?;
    own.wake(rest);
    Ok(Replayed::new(own, receipts).into_node(resumed))
}

impl Own {
    /// Takes what a suspended node has beside its kept state.
    fn wake(&mut self, rest: &Rest)
        requires heard { length rest.now.heard ≡ suc self.old.count }
        requires codes { length rest.now.codes ≡ suc self.old.count }
        ensures { self.new ≡ record self.old { logs = joined_by numbered_by rest.now.codes self.old.logs; heard = rest.now.heard; exact = is_set rest.now.exact } }
    {
        self.heard.copy_from_slice(rest.heard.as_slice());
        self.exact = rest.exact > 0;
        number(&mut self.logs, rest.codes.as_slice());
    }
}

/// The flags that these bytes are.
fn flags_of(alloc: Global, bytes: &[u8]) -> Result<Vec<bool>, AllocError>
    ensures { IfOk result (λ v. v.items ≡ map is_set bytes.now) }
{
    let mut flags = Vec::new(alloc);
    for place in 0..bytes.len() {
        flags.push(bytes[place] > 0)?;
    }
    Ok(flags)
}

/// Gives the messages of each log the RSNs of its codes.
fn number(logs: &mut Vec<KeptQueue>, codes: &[Page<u64>])
    requires { length codes.now ≡ length logs.old.items }
    ensures { logs.new.items ≡ joined_by numbered_by codes.now logs.old.items }
{
    for place in 0..logs.len() {
        logs[place].number_by(codes[place].as_slice());
    }
}
