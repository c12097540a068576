//! The tasks of arithmetic.

ghost use Rattle.std.specs.Prelude.{◌≡◌};
ghost use Rattle.native.specs.Inside.Operations as specs;

use crate::task::SlotTask;
use decode::{AluOp, Operand, Reg, Width};
use dense::Op;

#[inline(always)]
fn compute(op: AluOp, width: Width, dst: Reg, operand: Operand) -> SlotTask
    ensures { result ≡ SlotTask.Compute op width dst operand }
{
    SlotTask::Compute {
        op,
        width,
        dst,
        operand,
    }
}

// Arithmetic on a register and a number.
fn alu_imm(op: Op) -> Option<(AluOp, Width, Reg, i32)>
    ensures { result ≡ specs.alu_imm op }
{
    match op {
        Op::Add64Imm { dst, imm } => Some((AluOp::Add, Width::W64, dst, imm)),
        Op::Add32Imm { dst, imm } => Some((AluOp::Add, Width::W32, dst, imm)),
        Op::Sub64Imm { dst, imm } => Some((AluOp::Sub, Width::W64, dst, imm)),
        Op::Sub32Imm { dst, imm } => Some((AluOp::Sub, Width::W32, dst, imm)),
        Op::Mul64Imm { dst, imm } => Some((AluOp::Mul, Width::W64, dst, imm)),
        Op::Mul32Imm { dst, imm } => Some((AluOp::Mul, Width::W32, dst, imm)),
        Op::Div64Imm { dst, imm } => Some((AluOp::Div, Width::W64, dst, imm)),
        Op::Div32Imm { dst, imm } => Some((AluOp::Div, Width::W32, dst, imm)),
        Op::Sdiv64Imm { dst, imm } => Some((AluOp::Sdiv, Width::W64, dst, imm)),
        Op::Sdiv32Imm { dst, imm } => Some((AluOp::Sdiv, Width::W32, dst, imm)),
        Op::Or64Imm { dst, imm } => Some((AluOp::Or, Width::W64, dst, imm)),
        Op::Or32Imm { dst, imm } => Some((AluOp::Or, Width::W32, dst, imm)),
        Op::And64Imm { dst, imm } => Some((AluOp::And, Width::W64, dst, imm)),
        Op::And32Imm { dst, imm } => Some((AluOp::And, Width::W32, dst, imm)),
        Op::Lsh64Imm { dst, imm } => Some((AluOp::Lsh, Width::W64, dst, imm)),
        Op::Lsh32Imm { dst, imm } => Some((AluOp::Lsh, Width::W32, dst, imm)),
        Op::Rsh64Imm { dst, imm } => Some((AluOp::Rsh, Width::W64, dst, imm)),
        Op::Rsh32Imm { dst, imm } => Some((AluOp::Rsh, Width::W32, dst, imm)),
        Op::Mod64Imm { dst, imm } => Some((AluOp::Mod, Width::W64, dst, imm)),
        Op::Mod32Imm { dst, imm } => Some((AluOp::Mod, Width::W32, dst, imm)),
        Op::Smod64Imm { dst, imm } => Some((AluOp::Smod, Width::W64, dst, imm)),
        Op::Smod32Imm { dst, imm } => Some((AluOp::Smod, Width::W32, dst, imm)),
        Op::Xor64Imm { dst, imm } => Some((AluOp::Xor, Width::W64, dst, imm)),
        Op::Xor32Imm { dst, imm } => Some((AluOp::Xor, Width::W32, dst, imm)),
        Op::Mov64Imm { dst, imm } => Some((AluOp::Mov, Width::W64, dst, imm)),
        Op::Mov32Imm { dst, imm } => Some((AluOp::Mov, Width::W32, dst, imm)),
        Op::Arsh64Imm { dst, imm } => Some((AluOp::Arsh, Width::W64, dst, imm)),
        Op::Arsh32Imm { dst, imm } => Some((AluOp::Arsh, Width::W32, dst, imm)),
        _ => None,
    }
}

// Arithmetic on two registers.
fn alu_reg(op: Op) -> Option<(AluOp, Width, Reg, Reg)>
    ensures { result ≡ specs.alu_reg op }
{
    match op {
        Op::Add64Reg { dst, src } => Some((AluOp::Add, Width::W64, dst, src)),
        Op::Add32Reg { dst, src } => Some((AluOp::Add, Width::W32, dst, src)),
        Op::Sub64Reg { dst, src } => Some((AluOp::Sub, Width::W64, dst, src)),
        Op::Sub32Reg { dst, src } => Some((AluOp::Sub, Width::W32, dst, src)),
        Op::Mul64Reg { dst, src } => Some((AluOp::Mul, Width::W64, dst, src)),
        Op::Mul32Reg { dst, src } => Some((AluOp::Mul, Width::W32, dst, src)),
        Op::Div64Reg { dst, src } => Some((AluOp::Div, Width::W64, dst, src)),
        Op::Div32Reg { dst, src } => Some((AluOp::Div, Width::W32, dst, src)),
        Op::Sdiv64Reg { dst, src } => Some((AluOp::Sdiv, Width::W64, dst, src)),
        Op::Sdiv32Reg { dst, src } => Some((AluOp::Sdiv, Width::W32, dst, src)),
        Op::Or64Reg { dst, src } => Some((AluOp::Or, Width::W64, dst, src)),
        Op::Or32Reg { dst, src } => Some((AluOp::Or, Width::W32, dst, src)),
        Op::And64Reg { dst, src } => Some((AluOp::And, Width::W64, dst, src)),
        Op::And32Reg { dst, src } => Some((AluOp::And, Width::W32, dst, src)),
        Op::Lsh64Reg { dst, src } => Some((AluOp::Lsh, Width::W64, dst, src)),
        Op::Lsh32Reg { dst, src } => Some((AluOp::Lsh, Width::W32, dst, src)),
        Op::Rsh64Reg { dst, src } => Some((AluOp::Rsh, Width::W64, dst, src)),
        Op::Rsh32Reg { dst, src } => Some((AluOp::Rsh, Width::W32, dst, src)),
        Op::Mod64Reg { dst, src } => Some((AluOp::Mod, Width::W64, dst, src)),
        Op::Mod32Reg { dst, src } => Some((AluOp::Mod, Width::W32, dst, src)),
        Op::Smod64Reg { dst, src } => Some((AluOp::Smod, Width::W64, dst, src)),
        Op::Smod32Reg { dst, src } => Some((AluOp::Smod, Width::W32, dst, src)),
        Op::Xor64Reg { dst, src } => Some((AluOp::Xor, Width::W64, dst, src)),
        Op::Xor32Reg { dst, src } => Some((AluOp::Xor, Width::W32, dst, src)),
        Op::Mov64Reg { dst, src } => Some((AluOp::Mov, Width::W64, dst, src)),
        Op::Mov32Reg { dst, src } => Some((AluOp::Mov, Width::W32, dst, src)),
        Op::Arsh64Reg { dst, src } => Some((AluOp::Arsh, Width::W64, dst, src)),
        Op::Arsh32Reg { dst, src } => Some((AluOp::Arsh, Width::W32, dst, src)),
        _ => None,
    }
}

pub(crate) fn arithmetic(op: Op) -> Option<SlotTask>
    ensures { result ≡ specs.arithmetic op }
{
    if let Some((op, width, dst, imm)) = alu_imm(op) {
        return Some(compute(op, width, dst, Operand::Imm(imm)));
    }
    let (op, width, dst, src) = alu_reg(op)?;
    Some(compute(op, width, dst, Operand::Reg(src)))
}
