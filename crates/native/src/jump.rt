//! The tasks of conditional jumps.

ghost use Rattle.std.specs.Prelude.{◌≡◌};
ghost use Rattle.native.specs.Inside.Operations as specs;

use crate::task::SlotTask;
use decode::Condition::{
    Equal, Greater, GreaterEqual, Less, LessEqual, NotEqual, Set, SignedGreater,
    SignedGreaterEqual, SignedLess, SignedLessEqual,
};
use decode::Width::{W32, W64};
use decode::{Condition, Operand, Reg, Width};
use dense::Op;

#[inline(always)]
fn branch(condition: Condition, width: Width, dst: Reg, operand: Operand, to: u16) -> SlotTask
    ensures { result ≡ SlotTask.Branch condition width dst operand to }
{
    SlotTask::Branch {
        condition,
        width,
        dst,
        operand,
        to,
    }
}

// A jump that compares a register with a number, and its target.
fn jump_imm(op: Op) -> Option<(Condition, Width, Reg, i32, u16)>
    ensures { result ≡ specs.jump_imm op }
{
    match op {
        Op::JEq64Imm { dst, to, imm } => Some((Equal, W64, dst, imm, to)),
        Op::JEq32Imm { dst, to, imm } => Some((Equal, W32, dst, imm, to)),
        Op::JGt64Imm { dst, to, imm } => Some((Greater, W64, dst, imm, to)),
        Op::JGt32Imm { dst, to, imm } => Some((Greater, W32, dst, imm, to)),
        Op::JGe64Imm { dst, to, imm } => Some((GreaterEqual, W64, dst, imm, to)),
        Op::JGe32Imm { dst, to, imm } => Some((GreaterEqual, W32, dst, imm, to)),
        Op::JSet64Imm { dst, to, imm } => Some((Set, W64, dst, imm, to)),
        Op::JSet32Imm { dst, to, imm } => Some((Set, W32, dst, imm, to)),
        Op::JNe64Imm { dst, to, imm } => Some((NotEqual, W64, dst, imm, to)),
        Op::JNe32Imm { dst, to, imm } => Some((NotEqual, W32, dst, imm, to)),
        Op::JSgt64Imm { dst, to, imm } => Some((SignedGreater, W64, dst, imm, to)),
        Op::JSgt32Imm { dst, to, imm } => Some((SignedGreater, W32, dst, imm, to)),
        Op::JSge64Imm { dst, to, imm } => Some((SignedGreaterEqual, W64, dst, imm, to)),
        Op::JSge32Imm { dst, to, imm } => Some((SignedGreaterEqual, W32, dst, imm, to)),
        Op::JLt64Imm { dst, to, imm } => Some((Less, W64, dst, imm, to)),
        Op::JLt32Imm { dst, to, imm } => Some((Less, W32, dst, imm, to)),
        Op::JLe64Imm { dst, to, imm } => Some((LessEqual, W64, dst, imm, to)),
        Op::JLe32Imm { dst, to, imm } => Some((LessEqual, W32, dst, imm, to)),
        Op::JSlt64Imm { dst, to, imm } => Some((SignedLess, W64, dst, imm, to)),
        Op::JSlt32Imm { dst, to, imm } => Some((SignedLess, W32, dst, imm, to)),
        Op::JSle64Imm { dst, to, imm } => Some((SignedLessEqual, W64, dst, imm, to)),
        Op::JSle32Imm { dst, to, imm } => Some((SignedLessEqual, W32, dst, imm, to)),
        _ => None,
    }
}

// A jump that compares two registers, and its target.
fn jump_reg(op: Op) -> Option<(Condition, Width, Reg, Reg, u16)>
    ensures { result ≡ specs.jump_reg op }
{
    match op {
        Op::JEq64Reg { dst, src, to } => Some((Equal, W64, dst, src, to)),
        Op::JEq32Reg { dst, src, to } => Some((Equal, W32, dst, src, to)),
        Op::JGt64Reg { dst, src, to } => Some((Greater, W64, dst, src, to)),
        Op::JGt32Reg { dst, src, to } => Some((Greater, W32, dst, src, to)),
        Op::JGe64Reg { dst, src, to } => Some((GreaterEqual, W64, dst, src, to)),
        Op::JGe32Reg { dst, src, to } => Some((GreaterEqual, W32, dst, src, to)),
        Op::JSet64Reg { dst, src, to } => Some((Set, W64, dst, src, to)),
        Op::JSet32Reg { dst, src, to } => Some((Set, W32, dst, src, to)),
        Op::JNe64Reg { dst, src, to } => Some((NotEqual, W64, dst, src, to)),
        Op::JNe32Reg { dst, src, to } => Some((NotEqual, W32, dst, src, to)),
        Op::JSgt64Reg { dst, src, to } => Some((SignedGreater, W64, dst, src, to)),
        Op::JSgt32Reg { dst, src, to } => Some((SignedGreater, W32, dst, src, to)),
        Op::JSge64Reg { dst, src, to } => Some((SignedGreaterEqual, W64, dst, src, to)),
        Op::JSge32Reg { dst, src, to } => Some((SignedGreaterEqual, W32, dst, src, to)),
        Op::JLt64Reg { dst, src, to } => Some((Less, W64, dst, src, to)),
        Op::JLt32Reg { dst, src, to } => Some((Less, W32, dst, src, to)),
        Op::JLe64Reg { dst, src, to } => Some((LessEqual, W64, dst, src, to)),
        Op::JLe32Reg { dst, src, to } => Some((LessEqual, W32, dst, src, to)),
        Op::JSlt64Reg { dst, src, to } => Some((SignedLess, W64, dst, src, to)),
        Op::JSlt32Reg { dst, src, to } => Some((SignedLess, W32, dst, src, to)),
        Op::JSle64Reg { dst, src, to } => Some((SignedLessEqual, W64, dst, src, to)),
        Op::JSle32Reg { dst, src, to } => Some((SignedLessEqual, W32, dst, src, to)),
        _ => None,
    }
}

pub(crate) fn jump(op: Op) -> Option<SlotTask>
    ensures { result ≡ specs.jump op }
{
    if let Some((condition, width, dst, imm, to)) = jump_imm(op) {
        return Some(branch(condition, width, dst, Operand::Imm(imm), to));
    }
    let (condition, width, dst, src, to) = jump_reg(op)?;
    Some(branch(condition, width, dst, Operand::Reg(src), to))
}
