//! Two tasks that one instruction does: a register is copied, and a number is added to the copy.

ghost use Rattle.std.specs.Prelude.{◌≡◌, ◌<◌, true, slice_index_or};
ghost use Rattle.limits.specs.declared.TheConstants.{SLOTS};
ghost use Rattle.native.specs.Fusion as specs;
ghost use Rattle.native.specs.Targets.{targets_in};

use crate::body::{gpr, number};
use crate::eligibility::holds_word;
use crate::slot_tasks::task_at;
use crate::task::SlotTask;
use decode::{AluOp, Operand, Reg, Width};
use limits::SLOTS;
use x86::Instr;

fn is_target(targets: &[bool], slot: usize) -> bool
    ensures { result ≡ slice_index_or targets.now slot true }
{
    if slot < targets.len() {
        targets[slot]
    } else {
        true
    }
}

// The sum of a register and a number, if the number is added to the register's copy.
fn sum_by(dst: Reg, src: Reg, again: Reg, imm: i32) -> Option<Instr>
    ensures { result ≡ specs.sum_by dst.number src.number again.number imm }
{
    if dst.number == again.number && (holds_word(dst) && holds_word(src)) {
        Some(Instr::Lea {
            to: gpr(dst),
            base: gpr(src),
            disp: number(imm),
        })
    } else {
        None
    }
}

fn added_to(dst: Reg, src: Reg, task: SlotTask) -> Option<Instr>
    ensures { result ≡ specs.added_to dst.number src.number task }
{
    match task {
        SlotTask::Compute {
            op: AluOp::Add,
            width: Width::W64,
            dst: again,
            operand: Operand::Imm(imm),
        } => sum_by(dst, src, again, imm),
        _ => None,
    }
}

fn sum_of(first: SlotTask, second: SlotTask) -> Option<Instr>
    ensures { result ≡ specs.sum_of first second }
{
    match first {
        SlotTask::Compute {
            op: AluOp::Mov,
            width: Width::W64,
            dst,
            operand: Operand::Reg(src),
        } => added_to(dst, src, second),
        _ => None,
    }
}

/// The one instruction of a slot and the next, if a call comes to the next only from this slot.
pub(crate) fn fused(tasks: &[SlotTask], targets: &[bool], slot: usize) -> Option<Instr>
    requires few { slot < SLOTS }
    requires targets { targets.now ≡ targets_in tasks.now }
    ensures { result ≡ specs.fused tasks.now slot }
{
    if is_target(targets, slot + 1) {
        None
    } else {
        sum_of(task_at(tasks, slot), task_at(tasks, slot + 1))
    }
}

/// Whether the instruction of the slot before also does this slot's task.
pub(crate) fn is_covered(tasks: &[SlotTask], targets: &[bool], slot: usize) -> bool
    requires few { slot < SLOTS }
    requires targets { targets.now ≡ targets_in tasks.now }
    ensures { result ≡ specs.is_covered tasks.now slot }
{
    slot > 0 && fused(tasks, targets, slot - 1).is_some()
}
