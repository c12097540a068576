//! The task of each slot.

ghost use Rattle.std.specs.Prelude.{◌≡◌, Some, is_some, length, slice_get, slice_index_or, IfOk, if◌then◌else◌};
ghost use Rattle.decode.specs.Slots.{insn_at};
ghost use Rattle.regtypes.specs.Typing.{frame_at};
ghost use Rattle.verifier.specs.Dense.{IsDense};
ghost use Rattle.verifier.specs.Least.{IsLeastTyping};
ghost use Rattle.native.specs.Inside.Operations.{AreTold, IsTaskOf, IsTold, task_for};
ghost use Rattle.native.specs.SlotTasks as specs;

use crate::operation::task_of;
use crate::task::SlotTask;
use decode::slots;
use dense::Op;
use std::alloc::{AllocError, Global};
use verifier::Image;

/// The task of a slot; `Dead` after the end.
pub fn task_at(tasks: &[SlotTask], slot: usize) -> SlotTask
    ensures { result ≡ slice_index_or tasks.now slot SlotTask.Dead }
{
    if slot < tasks.len() {
        tasks[slot]
    } else {
        SlotTask::Dead
    }
}

// The operation of a slot.
fn op_at(ops: &[Op], slot: usize) -> Op
    ensures { result ≡ slice_index_or ops.now slot Op.Dead }
{
    if slot < ops.len() {
        ops[slot]
    } else {
        Op::Dead
    }
}

// Its task, if it has one.
fn op_task(ops: &[Op], pool: &[u64], slot: usize) -> SlotTask
    ensures { (o : Op) (t : SlotTask) → slice_get ops.now slot ≡ Some o → task_for pool.now o ≡ Some t → (result ≡ t) × IsTaskOf pool.now o t }
{
    match task_of(op_at(ops, slot), pool) {
        Some(task) => task,
        None => SlotTask::Dead,
    }
}

// Whether a call may come to a slot.
fn is_reached(image: &Image, slot: usize) -> bool
    ensures reached { result ≡ is_some (frame_at image.now.table slot) }
    ensures typing { IsLeastTyping image.now.form image.now.slots image.now.len image.now.table }
{
    match image.kinds_at(slot) {
        Some(_) => true,
        None => false,
    }
}

// The task if the slot is reached, else `Dead`.
fn only_if(reached: bool, task: SlotTask) -> SlotTask
    ensures { result ≡ if reached then task else SlotTask.Dead }
{
    if reached { task } else { SlotTask::Dead }
}

// The task of a slot, if a call may come to it.
fn task_there(image: &Image, ops: &[Op], pool: &[u64], slot: usize) -> SlotTask
    requires { IsDense image.now.slots image.now.table image.now.len ops.now pool.now }
    ensures value { result ≡ specs.task_there image.now.len slot (frame_at image.now.table slot) (insn_at image.now.slots slot) }
    ensures told { IsTold image.now.table ops.now pool.now slot result }
{
    let reached = is_reached(image, slot);
    only_if(reached, op_task(ops, pool, slot))
}

/// The task of each slot of an image.
pub fn tasks_of(
    alloc: Global,
    image: &Image,
    ops: &[Op],
    pool: &[u64],
) -> Result<Vec<SlotTask>, AllocError>
    requires { IsDense image.now.slots image.now.table image.now.len ops.now pool.now }
    ensures value { IfOk result (λ tasks. tasks.items ≡ specs.tasks_in image.now.slots image.now.table image.now.len (length image.now.slots)) }
    ensures told { IfOk result (λ tasks. AreTold image.now.table ops.now pool.now tasks.items (length image.now.slots)) }
    ensures long { IfOk result (λ tasks. length tasks.items ≡ length image.now.slots) }
{
    let count = slots(image.code());
    let mut tasks = Vec::with_capacity(alloc, count)?;
    'slots: for slot in 0..count {
        tasks.push(task_there(image, ops, pool, slot))?;
    }
    Ok(tasks)
}
