//! Nodes that are opened.

ghost use Rattle.std.specs.Prelude.{◌≡◌, ◌↔◌, Some, None, IsTrue, MatchOption, MatchResult, IfErr, OnErr, OnOk};
ghost use Rattle.std.specs.Arc.{arc_value};
ghost use Rattle.interp.specs.Handler.{image_of};
ghost use Rattle.node.specs.Node.{IsPositive};
ghost use Rattle.process.specs.Revival.{zero_state};
ghost use Rattle.c_calls.specs.declared.nodes.fault.NodeFault.TheVariants.{Memory};
ghost use Rattle.c_calls.specs.Nodes.Answers.{Results};
ghost use Rattle.c_cluster.specs.Nodes.Lifetime.{AreLimits, limits_of, IsSeat, IsImageIn, IsNotLoaded, Opens, DoesNotOpen, DoesNotOpenWith, Revives, DoesNotRevive, IsTold};

use c_calls::nodes::fault::NodeFault;
use c_calls::nodes::handle::NodeHandle;
use interp::Handler;
use limits::PROCESSES;
use packets::NUMBER_LIMIT;
use process::{Member, Unrevived};
use std::alloc::Global;
use std::sync::Arc;
use verifier::ImageError;

/// The greatest size of a packet in bytes.
pub const MOST_PAGE: u32 = 65_535;

/// The limits of a node, as a program passes them.
#[derive(Clone, Copy)]
pub struct NodeLimits {
    pub page: u32,
    pub tick: u32,
    pub numbers: u32,
    pub receipts: u32,
    pub durable: u32,
}

impl NodeLimits {
    /// The node's limits, if each is in range.
    pub(crate) fn of_node(self) -> Option<node::Limits>
        ensures { MatchOption result (¬ AreLimits self) (λ l. AreLimits self × (l ≡ limits_of self)) }
    {
        if self.page > MOST_PAGE || self.durable > 1 {
            return None;
        }
        let limits = node::Limits {
            page: self.page as u16,
            tick: self.tick,
            numbers: self.numbers,
            receipts: self.receipts,
            durable: self.durable == 1,
        };
        if !limits.are_allowed() {
            return None;
        }
        Some(limits)
    }
}

/// The handler of a file.
pub(crate) fn handler_of(alloc: Global, file: &[u8]) -> Result<Arc<Handler>, NodeFault>
    ensures { MatchResult result (λ image. IsImageIn file.now (image_of (arc_value image))) (IsNotLoaded file.now) }
{
    let image = match Handler::load(alloc, file) {
        Ok(image) => image,
        Err(ImageError::Memory) => return Err(NodeFault::Memory),
        Err(_) => return Err(NodeFault::Image),
    };
    match Arc::new(alloc, image) {
        Ok(image) => Ok(image),
        Err(_) => Err(NodeFault::Memory),
    }
}

/// Puts a process into a closed handle.
pub(crate) fn put(alloc: Global, process: Member, handle: &mut NodeHandle) -> Result<(), NodeFault>
    ensures ok { OnOk result (handle.new.process.value ≡ Some process) }
    ensures err { IfErr result (λ why. (why ≡ Memory) × (handle.new.process.value ≡ handle.old.process.value)) }
{
    let Ok(boxed) = Box::new(alloc, process) else {
        return Err(NodeFault::Memory);
    };
    handle.put(boxed);
    Ok(())
}

/// Opens a node that received nothing.
pub(crate) fn open(
    alloc: Global,
    image: &[u8],
    me: u8,
    n: u8,
    limits: NodeLimits,
    handle: &mut NodeHandle,
) -> Result<(), NodeFault>
    ensures { Results result handle.old.process.value handle.new.process.value (Opens image.now me n limits zero_state) (DoesNotOpen image.now me n limits) }
{
    if handle.is_open() {
        return Err(NodeFault::Handle);
    }
    if !is_seat(me, n) {
        return Err(NodeFault::Limit);
    }
    let Some(limits) = limits.of_node() else {
        return Err(NodeFault::Limit);
    };
    let image = handler_of(alloc, image)?;
    let Ok(process) = Member::open(alloc, image, limits, me, n) else {
        return Err(NodeFault::Memory);
    };
    put(alloc, process, handle)
}

/// Opens a node that received nothing, with this opening state.
pub(crate) fn open_with(
    alloc: Global,
    image: &[u8],
    me: u8,
    n: u8,
    limits: NodeLimits,
    state: &[u8],
    handle: &mut NodeHandle,
) -> Result<(), NodeFault>
    ensures { Results result handle.old.process.value handle.new.process.value (Opens image.now me n limits (λ _. state.now)) (DoesNotOpenWith image.now me n limits state.now) }
{
    if handle.is_open() {
        return Err(NodeFault::Handle);
    }
    if !is_seat(me, n) {
        return Err(NodeFault::Limit);
    }
    let Some(limits) = limits.of_node() else {
        return Err(NodeFault::Limit);
    };
    let image = handler_of(alloc, image)?;
    match Member::open_with(alloc, image, limits, me, n, state) {
        Ok(process) => put(alloc, process, handle),
        Err(why) => Err(refused(why)),
    }
}

/// Opens a node from its kept state, in this incarnation.
pub(crate) fn revive(
    alloc: Global,
    image: &[u8],
    kept: &[u8],
    incarnation: u64,
    limits: NodeLimits,
    handle: &mut NodeHandle,
) -> Result<(), NodeFault>
    ensures { Results result handle.old.process.value handle.new.process.value (Revives image.now kept.now incarnation limits) (DoesNotRevive image.now kept.now incarnation limits) }
{
    if handle.is_open() {
        return Err(NodeFault::Handle);
    }
    if !is_incarnation(incarnation) {
        return Err(NodeFault::Limit);
    }
    let Some(limits) = limits.of_node() else {
        return Err(NodeFault::Limit);
    };
    let image = handler_of(alloc, image)?;
    match Member::revive(alloc, image, limits, kept, incarnation) {
        Ok(process) => put(alloc, process, handle),
        Err(why) => Err(refused(why)),
    }
}

/// Whether `me` is a process of a cluster of `n`.
fn is_seat(me: u8, n: u8) -> bool
    ensures { IsTrue result ↔ IsSeat me n }
{
    1 <= me && me <= n && usize::from(n) <= PROCESSES
}

/// Whether a node may have this incarnation.
fn is_incarnation(incarnation: u64) -> bool
    ensures { IsTrue result ↔ IsPositive incarnation }
{
    1 <= incarnation && incarnation < NUMBER_LIMIT
}

/// The fault that tells why no process opened or came back.
fn refused(why: Unrevived) -> NodeFault
    ensures { IsTold why result }
{
    match why {
        Unrevived::Memory => NodeFault::Memory,
        Unrevived::Kept(fault) => NodeFault::Bytes(fault.number()),
        Unrevived::State => NodeFault::Bytes(9),
        Unrevived::Incarnation => NodeFault::Limit,
    }
}
