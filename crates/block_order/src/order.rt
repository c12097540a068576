//! The order of the blocks of code.

ghost use Rattle.std.specs.Prelude.{◌≡◌, ◌<◌, ◌≤◌, IfOk, IfSome, IsTrue, length};
ghost use Rattle.decode.specs.Slots.{insn_at, slots, slots_of};
ghost use Rattle.block_order.specs.Order.{IsForward, IsLoop, IsMoved, IsOrder};

use crate::arrangement::{Misplaced, Placed, place};
use crate::insns::is_forward;
use crate::placement::is_placement;
use crate::search::{Search, search_slots};
use crate::walk::loop_of;
use decode::{Insn, lay_out, slots as slots_in};
use limits::SLOTS;
use std::alloc::{AllocError, Global};

/// The result for the order of blocks.
#[derive(Drop)]
pub enum BlockOrder {
    /// Each jump already goes to a later slot.
    Forward,
    /// The code in another order, in which each jump goes to a later slot.
    Moved(Placed),
    /// The instruction at slot `from` jumps back to slot `to`, and ways lead from there to `from` again.
    Loops { from: usize, to: usize },
    /// No order was found.
    Unknown,
}

/// Whether code has 1 to 1,024 slots, and all its jumps go forward.
fn goes_forward(insns: &[Insn]) -> bool
    ensures { IsTrue result → IsForward insns.now × (0 < slots insns.now) × (slots insns.now ≤ SLOTS) }
{
    let count = slots_in(insns);
    count > 0 && count <= SLOTS && is_forward(insns)
}

/// Whether each instruction of the other code is there with its ways.
fn is_moved(
    alloc: Global,
    code: &[Insn],
    slots: &[Option<Insn>],
    placed: &Placed,
) -> Result<bool, AllocError>
    requires { slots.now ≡ slots_of code.now }
    ensures { IfOk result (λ yes. IsTrue yes → IsMoved code.now placed.now) }
{
    let insns = placed.insns.as_slice();
    if !goes_forward(insns) {
        return Ok(false);
    }
    match lay_out(alloc, insns) {
        Ok(other) => is_placement(alloc, slots, other.as_slice(), placed.places.as_slice()),
        Err(e) => Err(e),
    }
}

/// The code in the order of a search, if each instruction is there with its ways.
fn moved(
    alloc: Global,
    code: &[Insn],
    slots: &[Option<Insn>],
    finished: &[usize],
) -> Result<BlockOrder, AllocError>
    requires slots { slots.now ≡ slots_of code.now }
    requires back { ¬ IsForward code.now }
    ensures { IfOk result (IsOrder code.now) }
{
    let placed = match place(alloc, slots, finished) {
        Ok(placed) => placed,
        Err(Misplaced::NoRoom) => return Ok(BlockOrder::Unknown),
        Err(Misplaced::Memory) => return Err(AllocError),
    };
    match is_moved(alloc, code, slots, &placed) {
        Ok(true) => Ok(BlockOrder::Moved(placed)),
        Ok(false) => Ok(BlockOrder::Unknown),
        Err(e) => Err(e),
    }
}

/// A way from slot 0, followed by a part of it again.
fn twice(alloc: Global, way: &[usize], from: usize, to: usize) -> Result<Vec<usize>, AllocError>
    requires from { from ≤ to }
    requires to { to ≤ length way.now }
{
    let mut walk = Vec::from_slice(alloc, way)?;
    walk.extend_from_slice(&way[from..to])?;
    Ok(walk)
}

/// The jump back on a cycle. The way begins at slot 0, and its last slot leads to the slot at this place of the way.
fn jump_back(
    alloc: Global,
    slots: &[Option<Insn>],
    open: &[usize],
    place: usize,
) -> Result<Option<(usize, usize)>, AllocError>
    ensures { IfOk result (λ jump. IfSome jump (λ j. IsLoop (insn_at slots.now) j.0 j.1)) }
{
    for k in place..open.len() {
        let behind = if k + 1 < open.len() { k + 1 } else { place };
        if open[behind] <= open[k] {
            let walk = twice(alloc, open, place, behind)?;
            return Ok(loop_of(slots, walk.as_slice()));
        }
    }
    Ok(None)
}

/// The loop with the jump back on a cycle.
fn looped(
    alloc: Global,
    code: &[Insn],
    slots: &[Option<Insn>],
    open: &[usize],
    place: usize,
) -> Result<BlockOrder, AllocError>
    requires slots { slots.now ≡ slots_of code.now }
    requires back { ¬ IsForward code.now }
    ensures { IfOk result (IsOrder code.now) }
{
    match jump_back(alloc, slots, open, place) {
        Ok(Some((from, to))) => Ok(BlockOrder::Loops { from, to }),
        Ok(None) => Ok(BlockOrder::Unknown),
        Err(e) => Err(e),
    }
}

/// The order that a search found.
fn order_of(
    alloc: Global,
    code: &[Insn],
    slots: &[Option<Insn>],
    found: &Search,
) -> Result<BlockOrder, AllocError>
    requires slots { slots.now ≡ slots_of code.now }
    requires back { ¬ IsForward code.now }
    ensures { IfOk result (IsOrder code.now) }
{
    match found.cycle {
        Some(place) => looped(alloc, code, slots, found.open.as_slice(), place),
        None => moved(alloc, code, slots, found.finished.as_slice()),
    }
}

/// The order of the blocks of code in which a jump goes back.
fn order_slots(
    alloc: Global,
    code: &[Insn],
    slots: &[Option<Insn>],
) -> Result<BlockOrder, AllocError>
    requires slots { slots.now ≡ slots_of code.now }
    requires back { ¬ IsForward code.now }
    ensures { IfOk result (IsOrder code.now) }
{
    let found = search_slots(alloc, slots)?;
    order_of(alloc, code, slots, &found)
}

/// The order of the blocks of code. If a jump goes back and there is no loop, the answer is another order, if one is
/// found: from slot 0 on, each block comes before those that it leads to, and right before the next one in the code if
/// it can.
pub fn order_blocks(alloc: Global, code: &[Insn]) -> Result<BlockOrder, AllocError>
    ensures { IfOk result (IsOrder code.now) }
{
    if is_forward(code) {
        return Ok(BlockOrder::Forward);
    }
    let slots = lay_out(alloc, code)?;
    order_slots(alloc, code, slots.as_slice())
}
