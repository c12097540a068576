//! Which tasks have code.

ghost use Rattle.std.specs.Prelude.{◌≡◌};
ghost use Rattle.native.specs.Tasks as specs;

use crate::task::SlotTask;
use decode::{AluOp, Operand, Reg};

/// Whether a register may hold a word.
pub fn holds_word(reg: Reg) -> bool
    ensures { result ≡ specs.holds_word reg.number }
{
    reg.number < 10
}

fn is_word(operand: Operand) -> bool
    ensures { result ≡ specs.is_word operand }
{
    match operand {
        Operand::Imm(_) => true,
        Operand::Reg(reg) => holds_word(reg),
    }
}

fn is_read(op: AluOp, operand: Operand) -> bool
    ensures { result ≡ specs.is_read op operand }
{
    match op {
        AluOp::Mov => true,
        _ => is_word(operand),
    }
}

/// Whether a task's registers hold words and its jump goes forward. No call performs any other task.
pub fn is_eligible(slot: usize, task: &SlotTask) -> bool
    ensures { result ≡ specs.is_eligible slot task.now }
{
    match *task {
        SlotTask::Compute {
            op,
            dst,
            operand,
            ..
        } => holds_word(dst) && is_read(op, operand),
        SlotTask::Extend { dst, src, .. } => holds_word(dst) && holds_word(src),
        SlotTask::Negate { dst, .. } => holds_word(dst),
        SlotTask::Reorder { dst, .. } => holds_word(dst),
        SlotTask::Load { dst, .. } => holds_word(dst),
        SlotTask::LoadSx { dst, .. } => holds_word(dst),
        SlotTask::Store { src, .. } => holds_word(src),
        SlotTask::LoadBy { dst, base, .. } => holds_word(dst) && holds_word(base),
        SlotTask::LoadSxBy { dst, base, .. } => holds_word(dst) && holds_word(base),
        SlotTask::StoreBy { src, base, .. } => holds_word(src) && holds_word(base),
        SlotTask::StoreImmBy { base, .. } => holds_word(base),
        SlotTask::Wide { dst, .. } => holds_word(dst),
        SlotTask::Branch {
            dst,
            operand,
            to,
            ..
        } => holds_word(dst) && is_word(operand) && slot < to as usize,
        SlotTask::Leap { to } => slot < to as usize,
        SlotTask::Dead => false,
        _ => true,
    }
}
