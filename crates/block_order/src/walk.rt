//! Walks from slot to slot.

ghost use Rattle.std.specs.Prelude.{◌≡◌, IfSome, IsTrue};
ghost use Rattle.decode.specs.Slots.{insn_at};
ghost use Rattle.decode.specs.Flow.{flow_of};
ghost use Rattle.block_order.specs.Order.{IsLoop, IsWalk, Leads, LeadsBy};

use crate::slots::{insn_at, target};
use decode::{Flow, Insn, flow_from};

/// Whether a jump by this distance leads from a slot to another.
fn jumps(from: usize, distance: i32, to: usize) -> bool
    ensures { IsTrue result → LeadsBy from (Flow.Leaps distance) to }
{
    target(from, distance) == Some(to)
}

/// Whether a slot is `size` slots after another.
fn falls(from: usize, size: usize, to: usize) -> bool
    ensures { IsTrue result → LeadsBy from (Flow.Falls size) to }
{
    from.checked_add(size) == Some(to)
}

/// Whether a slot leads to another.
fn leads(slots: &[Option<Insn>], from: usize, to: usize) -> bool
    ensures { IsTrue result → Leads (insn_at slots.now) from to }
{
    let Some(insn) = insn_at(slots, from) else {
        return false;
    };
    match flow_from(&insn) {
        Flow::Ends => false,
        Flow::Leaps(distance) => jumps(from, distance, to),
        Flow::Forks(distance) => jumps(from, distance, to) || falls(from, 1, to),
        Flow::Falls(size) => falls(from, size, to),
    }
}

/// Whether each slot leads to the next one.
fn is_walk(slots: &[Option<Insn>], walk: &[usize]) -> bool
    ensures { IsTrue result → IsWalk (insn_at slots.now) walk.now }
{
    for k in 1..walk.len() {
        if !leads(slots, walk[k - 1], walk[k]) {
            return false;
        }
    }
    true
}

/// The slot where such a walk ends, and the first of its slots to which that one jumps back.
pub fn loop_of(slots: &[Option<Insn>], walk: &[usize]) -> Option<(usize, usize)>
    ensures { IfSome result (λ jump. IsLoop (insn_at slots.now) jump.0 jump.1) }
{
    if walk.is_empty() || walk[0] != 0 || !is_walk(slots, walk) {
        return None;
    }
    let from = walk[walk.len() - 1];
    for place in 0..walk.len() {
        let to = walk[place];
        if to <= from && leads(slots, from, to) {
            return Some((from, to));
        }
    }
    None
}
