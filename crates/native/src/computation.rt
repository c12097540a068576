//! The instructions of arithmetic.

ghost use Rattle.std.specs.Prelude.{◌≡◌};
ghost use Rattle.operations.specs.Operations.{word_of};
ghost use Rattle.x86.specs.Machine.{extended};
ghost use Rattle.native.specs.Code as codes;
ghost use Rattle.native.specs.Code.{IsShort};

use crate::body::{Body, clear, gpr, number};
use decode::{AluOp, Operand, Reg, Width};
use x86::{Alu, Instr, Shift};

pub(crate) fn alu_code(op: Alu, width: Width, to: u8, operand: Operand) -> Body
    ensures value { result ≡ codes.alu_code op width to operand }
    ensures short { IsShort operand }
{
    match operand {
        Operand::Imm(imm) => Body::One(Instr::AluImm {
            op,
            width,
            to,
            imm: number(imm),
        }),
        Operand::Reg(src) => Body::One(Instr::Alu {
            op,
            width,
            to,
            from: gpr(src),
        }),
    }
}

fn mul_code(width: Width, to: u8, operand: Operand) -> Body
    ensures value { result ≡ codes.mul_code width to operand }
    ensures short { IsShort operand }
{
    match operand {
        Operand::Imm(imm) => Body::One(Instr::MulImm {
            width,
            to,
            from: to,
            imm: number(imm),
        }),
        Operand::Reg(src) => Body::One(Instr::Mul {
            width,
            to,
            from: gpr(src),
        }),
    }
}

fn shift_imm(op: Shift, width: Width, to: u8, imm: i32) -> Body
    ensures value { result ≡ codes.shift_code op width to (Operand.Imm imm) }
    ensures short { extended (word_of imm) ≡ word_of imm }
{
    let count = match width {
        Width::W64 => (number(imm) % 64) as u8,
        Width::W32 => (number(imm) % 32) as u8,
    };
    if count == 0 {
        Body::Two(
            Instr::Mov {
                width,
                to,
                from: to,
            },
            Instr::Shift {
                op,
                width,
                to,
                count: 0,
            },
        )
    } else {
        Body::One(Instr::Shift {
            op,
            width,
            to,
            count,
        })
    }
}

fn shift_code(op: Shift, width: Width, to: u8, operand: Operand) -> Body
    ensures value { result ≡ codes.shift_code op width to operand }
    ensures short { IsShort operand }
{
    match operand {
        Operand::Imm(imm) => shift_imm(op, width, to, imm),
        Operand::Reg(src) => {
            let count = Instr::Mov {
                width: Width::W32,
                to: 1,
                from: gpr(src),
            };
            match width {
                Width::W64 => Body::Two(count, Instr::ShiftBy { op, width, to }),
                Width::W32 => Body::Three(
                    count,
                    Instr::Mov {
                        width,
                        to,
                        from: to,
                    },
                    Instr::ShiftBy { op, width, to },
                ),
            }
        }
    }
}

fn number_code(width: Width, to: u8, imm: u64) -> Body
    ensures { result ≡ codes.number_code width to imm }
{
    match width {
        Width::W64 => {
            if imm < 0x8000_0000 {
                Body::One(Instr::MovImm { to, imm })
            } else {
                Body::One(Instr::MovSigned { to, imm })
            }
        }
        Width::W32 => Body::One(Instr::MovImm { to, imm }),
    }
}

fn move_imm(width: Width, to: u8, imm: u64) -> Body
    ensures { result ≡ codes.move_imm width to imm }
{
    if imm == 0 {
        Body::One(clear(to))
    } else {
        number_code(width, to, imm)
    }
}

fn move_code(width: Width, to: u8, operand: Operand) -> Body
    ensures value { result ≡ codes.move_code width to operand }
    ensures short { IsShort operand }
{
    match operand {
        Operand::Imm(imm) => move_imm(width, to, number(imm)),
        Operand::Reg(src) => {
            if src.number < 10 {
                Body::One(Instr::Mov {
                    width,
                    to,
                    from: gpr(src),
                })
            } else {
                Body::One(clear(to))
            }
        }
    }
}

pub(crate) fn compute_code(op: AluOp, width: Width, to: u8, operand: Operand) -> Body
    ensures value { result ≡ codes.compute_code op width to operand }
    ensures short { IsShort operand }
{
    match op {
        AluOp::Mov => move_code(width, to, operand),
        AluOp::Add => alu_code(Alu::Add, width, to, operand),
        AluOp::Sub => alu_code(Alu::Sub, width, to, operand),
        AluOp::Or => alu_code(Alu::Or, width, to, operand),
        AluOp::And => alu_code(Alu::And, width, to, operand),
        AluOp::Xor => alu_code(Alu::Xor, width, to, operand),
        AluOp::Mul => mul_code(width, to, operand),
        AluOp::Lsh => shift_code(Shift::Left, width, to, operand),
        AluOp::Rsh => shift_code(Shift::Right, width, to, operand),
        AluOp::Arsh => shift_code(Shift::RightSigned, width, to, operand),
        _ => {
            // For the proof: the contract of `alu_code` says that the operand's number fits 32 bits.
            let _short = alu_code(Alu::Add, width, to, operand);
            Body::Empty
        }
    }
}
