//! The comparison of a conditional jump, and the flags that it tests.

ghost use Rattle.std.specs.Prelude.{◌≡◌};
ghost use Rattle.native.specs.Comparison as codes;
ghost use Rattle.native.specs.Code.{IsShort};

use crate::body::{gpr, number};
use decode::{Condition, Operand, Reg, Width};
use x86::{Alu, Instr};

fn test_code(width: Width, a: u8, operand: Operand) -> Instr
    ensures value { result ≡ codes.test_code width a operand }
    ensures short { IsShort operand }
{
    match operand {
        Operand::Imm(imm) => Instr::TestImm {
            width,
            a,
            imm: number(imm),
        },
        Operand::Reg(src) => Instr::Test {
            width,
            a,
            b: gpr(src),
        },
    }
}

fn cmp_code(width: Width, to: u8, operand: Operand) -> Instr
    ensures value { result ≡ codes.cmp_code width to operand }
    ensures short { IsShort operand }
{
    match operand {
        Operand::Imm(imm) => Instr::AluImm {
            op: Alu::Cmp,
            width,
            to,
            imm: number(imm),
        },
        Operand::Reg(src) => Instr::Alu {
            op: Alu::Cmp,
            width,
            to,
            from: gpr(src),
        },
    }
}

/// The instruction that compares for a jump.
pub(crate) fn compare_code(condition: Condition, width: Width, dst: Reg, operand: Operand) -> Instr
    ensures value { result ≡ codes.compare_code condition width dst.number operand }
    ensures short { IsShort operand }
{
    match condition {
        Condition::Set => test_code(width, gpr(dst), operand),
        _ => cmp_code(width, gpr(dst), operand),
    }
}

/// The condition on the flags by which a jump is taken.
pub(crate) fn condition_of(condition: Condition) -> x86::ConditionCode
    ensures { result ≡ codes.condition_of condition }
{
    match condition {
        Condition::Equal => x86::ConditionCode::Equal,
        Condition::NotEqual => x86::ConditionCode::NotEqual,
        Condition::Set => x86::ConditionCode::NotEqual,
        Condition::Greater => x86::ConditionCode::Above,
        Condition::GreaterEqual => x86::ConditionCode::AboveEqual,
        Condition::Less => x86::ConditionCode::Below,
        Condition::LessEqual => x86::ConditionCode::BelowEqual,
        Condition::SignedGreater => x86::ConditionCode::Greater,
        Condition::SignedGreaterEqual => x86::ConditionCode::GreaterEqual,
        Condition::SignedLess => x86::ConditionCode::Less,
        Condition::SignedLessEqual => x86::ConditionCode::LessEqual,
    }
}
