//! A process, and how it begins.

ghost use Rattle.std.specs.Prelude.{◌≡◌, ◌≤◌, true, IfOk, IfErr};
ghost use Rattle.std.specs.Arc.{arc_value};
ghost use Rattle.interp.specs.Handler.{image_of};
ghost use Rattle.node.specs.Limit.{AreAllowed};
ghost use Rattle.packets.specs.Kept.{IsKept};
ghost use Rattle.recovery.specs.Own.{comes_back};
ghost use Rattle.recovery.specs.declared.lifecycle.Lifecycle.TheVariants as stage;
ghost use Rattle.process.specs.Bounds.{IsWithin};
ghost use Rattle.process.specs.Revival.{IsOpened, IsRevived, IsUnopened, IsUnrevived, IsUnread, zero_state};

use crate::fault::Unrevived;
use helpers::{Effects, Refused};
use interp::Handler;
use node::{Limits, Node};
use packets::{Kept, KeptError, KeptFault, NUMBER_LIMIT, decode_kept};
use recovery::{Collecting, Lifecycle, comes_back};
use std::alloc::{AllocError, Global};
use std::marker::Model;
use std::sync::Arc;

/// A process of a cluster, and its handler, which has an image of any form.
#[derive(Drop)]
pub struct Member {
    pub(crate) image: Arc<Handler>,
    pub(crate) lifecycle: Lifecycle,
    /// Memory for what its handler sends, which is no part of its value.
    pub(crate) effects: Effects,
    /// What helpers refused its handler in this incarnation, which is no part of its value either.
    pub(crate) refused: Refused,
}

impl Model for Member {
    ghost use Rattle.std.specs.Arc.{arc_value};
    ghost use Rattle.interp.specs.Handler.{image_of};
    ghost use Rattle.process.specs.Process.{TheProcess};

    ghost Value = { TheProcess };

    ghost use Rattle.process.specs.Bounds.{IsWithin};

    ghost view = { λ p. record { image = image_of (arc_value p.image); lifecycle = p.lifecycle } };

    ghost invariant = { λ p. IsWithin p.lifecycle };
}

impl Member {
    /// A process with this image, in this stage.
    pub(crate) fn new(image: Arc<Handler>, lifecycle: Lifecycle) -> Member
        requires { IsWithin lifecycle }
        ensures { result ≡ record { image = image_of (arc_value image); lifecycle = lifecycle } }
    {
        Member {
            image,
            lifecycle,
            effects: Effects::new(),
            refused: Refused::default(),
        }
    }

    /// The process `me` of `count`, which received nothing, with a state of zeros. It keeps these
    /// limits for life.
    pub fn open(
        alloc: Global,
        image: Arc<Handler>,
        limits: Limits,
        me: u8,
        count: u8,
    ) -> Result<Member, AllocError>
        requires limits { AreAllowed limits }
        requires own { (1 ≤ me) × (me ≤ count) }
        requires few { count ≤ 15 }
        ensures { IfOk result (IsOpened (image_of (arc_value image)) limits me count (zero_state (image_of (arc_value image)))) }
    {
        let node = Node::open(alloc, limits, me, count, image.state_len())?;
        Ok(Member::new(image, Lifecycle::Up(node)))
    }

    /// The process `me` of `count`, which received nothing, with this opening state. It keeps these
    /// limits for life.
    pub fn open_with(
        alloc: Global,
        image: Arc<Handler>,
        limits: Limits,
        me: u8,
        count: u8,
        state: &[u8],
    ) -> Result<Member, Unrevived>
        requires limits { AreAllowed limits }
        requires own { (1 ≤ me) × (me ≤ count) }
        requires few { count ≤ 15 }
        ensures opened { IfOk result (IsOpened (image_of (arc_value image)) limits me count state.now) }
        ensures refused { IfErr result (IsUnopened (image_of (arc_value image)) state.now) }
    {
        if state.len() != image.state_len() as usize {
            return Err(Unrevived::State);
        }
        let Ok(node) = Node::open_with(alloc, limits, me, count, state) else {
            return Err(Unrevived::Memory);
        };
        Ok(Member::new(image, Lifecycle::Up(node)))
    }

    /// A process comes back from these bytes in this incarnation, which counts from 1. It keeps
    /// these limits, and asks all its peers.
    pub fn revive(
        alloc: Global,
        image: Arc<Handler>,
        limits: Limits,
        kept: &[u8],
        incarnation: u64,
    ) -> Result<Member, Unrevived>
        requires limits { AreAllowed limits }
        ensures revived { IfOk result (IsRevived (image_of (arc_value image)) limits kept.now incarnation) }
        ensures refused { IfErr result (IsUnrevived (image_of (arc_value image)) kept.now incarnation) }
    {
        let process = collecting(alloc, &image, limits, kept, incarnation)?;
        Ok(Member::new(image, Lifecycle::Collecting(process)))
    }
}

/// The process of this image that comes back from these bytes in this incarnation.
fn collecting(
    alloc: Global,
    image: &Handler,
    limits: Limits,
    kept: &[u8],
    incarnation: u64,
) -> Result<Collecting, Unrevived>
    requires { AreAllowed limits }
    ensures revived { IfOk result (λ n. IsRevived (image_of image.now) limits kept.now incarnation (record { image = image_of image.now; lifecycle = stage.Collecting n })) }
    ensures within { IfOk result (λ n. IsWithin (stage.Collecting n)) }
    ensures refused { IfErr result (IsUnrevived (image_of image.now) kept.now incarnation) }
{
    if incarnation < 1 || incarnation >= NUMBER_LIMIT {
        return Err(Unrevived::Incarnation);
    }
    let kept = kept_of(alloc, kept)?;
    if kept.state.as_slice().len() != image.state_len() as usize {
        return Err(Unrevived::State);
    }
    match Collecting::revive(alloc, limits, &kept, incarnation) {
        Ok(process) => Ok(process),
        Err(_) => Err(Unrevived::Memory),
    }
}

/// The kept state in these bytes, if a process can come back from it.
fn kept_of(alloc: Global, bytes: &[u8]) -> Result<Kept, Unrevived>
    ensures kept { IfOk result (λ k. IsKept k bytes.now × (comes_back k ≡ true)) }
    ensures refused { IfErr result (IsUnread bytes.now) }
{
    let kept = match decode_kept(alloc, bytes) {
        Ok(kept) => kept,
        Err(KeptError::Memory) => return Err(Unrevived::Memory),
        Err(KeptError::Fault(fault)) => return Err(Unrevived::Kept(fault)),
    };
    if !comes_back(&kept) {
        return Err(Unrevived::Kept(KeptFault::Range));
    }
    Ok(kept)
}
