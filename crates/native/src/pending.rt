//! How many steps are pending at each slot: executed, but not yet added to the count in r11.

ghost use Rattle.std.specs.Prelude.{◌≡◌, ◌<◌, ◌≤◌, false, ℕ, length, slice_index, IfOk};
ghost use Rattle.limits.specs.declared.TheConstants.{SLOTS};
ghost use Rattle.native.specs.Pending.{IsBalanced, AreBalanced, ArePending};
ghost use Rattle.native.specs.Pending as specs;

use crate::task::SlotTask;
use limits::SLOTS;
use std::alloc::{AllocError, Global};

// More than the steps of any call.
const FAR: u64 = 0x4000_0000;

// The most passes over the slots.
const PASSES: usize = 16;

/// The number at an index; 0 after the end.
pub fn number_at(list: &[u64], index: usize) -> u64
    ensures { result ≡ slice_index list.now index }
{
    if index < list.len() { list[index] } else { 0 }
}

// Lowers an element to a value, if the element exists and is greater. Answers whether it did.
fn lower(list: &mut Vec<u64>, index: usize, value: u64) -> bool
    ensures list { list.new.items ≡ specs.lowered list.old.items index value }
    ensures more { result ≡ specs.is_more list.old.items index value }
    ensures same { result ≡ false → list.new.items ≡ list.old.items }
    ensures least { result ≡ false → slice_index list.old.items index ≤ value }
    ensures falls { (k : ℕ) → slice_index list.new.items k ≤ slice_index list.old.items k }
{
    if index < list.len() && value < list[index] {
        list[index] = value;
        true
    } else {
        false
    }
}

// Lowers both slots of a conditional jump to the least of their pending steps and a value: both need the same number.
// Answers whether either became less.
fn lower_both(pending: &mut Vec<u64>, next: usize, to: usize, value: u64) -> bool
    ensures list { pending.new.items ≡ specs.lowered_both pending.old.items next to value }
    ensures more { result ≡ specs.is_more_of_both pending.old.items next to value }
    ensures same { result ≡ false → pending.new.items ≡ pending.old.items }
    ensures least { result ≡ false → slice_index pending.old.items next ≤ value }
    ensures equal { result ≡ false → slice_index pending.old.items next ≡ slice_index pending.old.items to }
    ensures falls { (k : ℕ) → slice_index pending.new.items k ≤ slice_index pending.old.items k }
{
    let least = value
        .min(number_at(pending.as_slice(), next))
        .min(number_at(pending.as_slice(), to));
    let first = lower(pending, next, least);
    let second = lower(pending, to, least);
    first || second
}

// Lowers the pending steps of the slots where a task leads. Answers whether any became less.
fn lower_behind(pending: &mut Vec<u64>, slot: usize, task: SlotTask) -> bool
    requires { slot < SLOTS }
    ensures list { pending.new.items ≡ specs.lowered_behind pending.old.items slot task }
    ensures more { result ≡ specs.is_more_behind pending.old.items slot task }
    ensures same { result ≡ false → pending.new.items ≡ pending.old.items }
    ensures balanced { result ≡ false → IsBalanced pending.old.items slot task }
    ensures falls { (k : ℕ) → slice_index pending.new.items k ≤ slice_index pending.old.items k }
{
    let value = number_at(pending.as_slice(), slot).min(FAR) + 1;
    match task {
        SlotTask::Branch { to, .. } => lower_both(pending, slot + 1, to as usize, value),
        SlotTask::Leap { to } => lower(pending, to as usize, value),
        SlotTask::Exit => false,
        SlotTask::Dead => false,
        SlotTask::Wide { .. } => lower(pending, slot + 2, value),
        _ => lower(pending, slot + 1, value),
    }
}

// One pass over all slots. Answers whether any pending steps became less.
fn pass(pending: &mut Vec<u64>, tasks: &[SlotTask]) -> bool
    requires { length tasks.now ≤ SLOTS }
    ensures list { pending.new.items ≡ specs.passed tasks.now pending.old.items (length tasks.now) }
    ensures more { result ≡ specs.is_passed tasks.now pending.old.items (length tasks.now) }
    ensures same { result ≡ false → pending.new.items ≡ pending.old.items }
    ensures balanced { result ≡ false → AreBalanced tasks.now pending.old.items }
    ensures falls { (k : ℕ) → slice_index pending.new.items k ≤ slice_index pending.old.items k }
{
    let mut changed = false;
    for slot in 0..tasks.len() {
        let less = lower_behind(pending, slot, tasks[slot]);
        changed = changed || less;
    }
    changed
}

/// The pending steps at each slot: at most one more than at a slot from which it is reached, and the same on both ways
/// of a jump. If the passes find no such numbers, no step is ever pending: each is counted at once.
pub fn pending_of(alloc: Global, tasks: &[SlotTask]) -> Result<Vec<u64>, AllocError>
    requires { length tasks.now ≤ SLOTS }
    ensures value { IfOk result (λ pending. pending.items ≡ specs.pending_in tasks.now) }
    ensures are { IfOk result (λ pending. ArePending tasks.now pending.items) }
{
    let mut pending = Vec::new(alloc);
    pending.push(0)?;
    'fill: for _ in 0..tasks.len() {
        pending.push(FAR)?;
    }
    'passes: for _ in 0..PASSES {
        if !pass(&mut pending, tasks) {
            return Ok(pending);
        }
    }
    pending.clear();
    Ok(pending)
}
