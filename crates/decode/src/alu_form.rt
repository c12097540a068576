//! How arithmetic changes what is known of its destination.

ghost use Rattle.std.specs.Prelude.{◌≡◌};
ghost use Rattle.decode.specs.AluForm.{form_of};

use crate::insn::{AluOp, Operand, Reg, Width};

/// How arithmetic changes what is known of its destination.
#[derive(Clone, Copy, Debug, PartialEq, Eq)]
pub enum Form {
    /// It becomes what this register holds, a place too.
    Copies(Reg),
    /// A place is moved by a number of bytes; a number stays a number.
    Moves(i64),
    /// It becomes a number, whatever it was.
    Sets,
    /// It becomes a number, and is read as one.
    Computes,
}

/// The form of an operation.
pub fn form_from(op: AluOp, width: Width, operand: Operand) -> Form
    ensures { result ≡ form_of op width operand }
{
    match (op, width, operand) {
        (AluOp::Mov, Width::W64, Operand::Reg(src)) => Form::Copies(src),
        (AluOp::Mov, _, _) => Form::Sets,
        (AluOp::Add, Width::W64, Operand::Imm(n)) => Form::Moves(i64::from(n)),
        (AluOp::Sub, Width::W64, Operand::Imm(n)) => Form::Moves(-i64::from(n)),
        _ => Form::Computes,
    }
}
