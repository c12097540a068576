//! To which slots a call may come from elsewhere than the slot before.

ghost use Rattle.std.specs.Prelude.{◌≡◌, ◌<◌, ◌≤◌, true, false, length, replicate, slice_set, IfOk};
ghost use Rattle.limits.specs.declared.TheConstants.{SLOTS};
ghost use Rattle.native.specs.Targets as specs;

use crate::slot_tasks::task_at;
use crate::task::SlotTask;
use limits::SLOTS;
use std::alloc::{AllocError, Global};

// `count` slots, none of them marked.
fn unmarked(alloc: Global, count: usize) -> Result<Vec<bool>, AllocError>
    ensures { IfOk result (λ targets. targets.items ≡ replicate count false) }
{
    let mut targets = Vec::with_capacity(alloc, count)?;
    'fill: for _ in 0..count {
        targets.push(false)?;
    }
    Ok(targets)
}

fn mark(targets: &mut Vec<bool>, slot: usize)
    ensures { targets.new.items ≡ slice_set targets.old.items slot true }
{
    if slot < targets.len() {
        targets[slot] = true;
    }
}

// Marks the slot where a task leads, if it isn't the next one.
fn mark_behind(targets: &mut Vec<bool>, slot: usize, task: SlotTask)
    requires { slot < SLOTS }
    ensures { targets.new.items ≡ specs.marked_by targets.old.items slot task }
{
    match task {
        SlotTask::Branch { to, .. } => mark(targets, to as usize),
        SlotTask::Leap { to } => mark(targets, to as usize),
        SlotTask::Wide { .. } => mark(targets, slot + 2),
        _ => {}
    }
}

/// Which slots a call may come to from elsewhere than the slot before.
pub fn targets_of(alloc: Global, tasks: &[SlotTask]) -> Result<Vec<bool>, AllocError>
    requires { length tasks.now ≤ SLOTS }
    ensures { IfOk result (λ targets. targets.items ≡ specs.targets_in tasks.now) }
{
    let mut targets = unmarked(alloc, tasks.len())?;
    'slots: for slot in 0..tasks.len() {
        mark_behind(&mut targets, slot, task_at(tasks, slot));
    }
    Ok(targets)
}
