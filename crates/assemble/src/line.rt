//! Lines to instructions.

ghost use Rattle.std.specs.Prelude.{ℕ, IfOk, IfErr, ◌≡◌, ◌∷◌, ◌++◌, [], Contains};
ghost use Rattle.decode.specs.Encoding.{Fits};
ghost use Rattle.assemble.specs.Inside.Mnemonic.{IsInsn, behind};
ghost use Rattle.assemble.specs.Inside.Reads.{Reads};
ghost use Rattle.assemble.specs.Refusal.{LineBreaksFirst};
ghost use Rattle.assemble.specs.Text.{line_of};

use crate::fault::{TextFault, TextRule};
use crate::mnemonic::{Mnemonic, mnemonic_named};
use crate::number::{distance_of, number_of, offset_of};
use crate::operands::{
    address_number, address_register, register_address, register_of, register_register,
    register_source, register_source_offset, register_value,
};
use crate::split::split_at_byte;
use decode::Insn;

/// Reads the instruction of a line.
pub fn read_line(line: &[u8]) -> Result<Insn, TextRule>
    ensures found { IfOk result (λ i. Fits i × (line.now ≡ line_of i)) }
    ensures refused { IfErr result (λ r. (n : ℕ) → LineBreaksFirst n r line.now) }
{
    let (word, operands) = split_line(line);
    let Some(mnemonic) = mnemonic_named(word) else {
        return Err(TextRule::Word);
    };
    match insn_with(mnemonic, operands) {
        Ok(insn) => Ok(insn),
        Err(TextFault::Shape) => Err(TextRule::Shape),
        Err(TextFault::Range) => Err(TextRule::Range),
    }
}

/// The word of a line, and its operands.
fn split_line(line: &[u8]) -> (&[u8], Option<&[u8]>)
    ensures whole { line.now ≡ result.0.now ++ behind result.1 }
    ensures first { ¬ Contains result.0.now 32 }
{
    match split_at_byte(line, b' ') {
        Some((word, operands)) => (word, Some(operands)),
        None => (line, None),
    }
}

/// The instruction with these operands.
fn insn_with(mnemonic: Mnemonic, operands: Option<&[u8]>) -> Result<Insn, TextFault>
    ensures { Reads (IsInsn mnemonic (behind operands.entry)) Fits result }
{
    match operands {
        Some(text) => insn_of(mnemonic, text),
        None => bare(mnemonic),
    }
}

/// The instruction of a word that takes no operands.
fn bare(mnemonic: Mnemonic) -> Result<Insn, TextFault>
    ensures { Reads (IsInsn mnemonic []) Fits result }
{
    match mnemonic {
        Mnemonic::Exit => Ok(Insn::Exit),
        _ => Err(TextFault::Shape),
    }
}

/// The instruction with the operands in this text, which came after a space.
fn insn_of(mnemonic: Mnemonic, text: &[u8]) -> Result<Insn, TextFault>
    ensures { Reads (IsInsn mnemonic (32 ∷ text.now)) Fits result }
{
    match mnemonic {
        Mnemonic::Alu(op, width) => {
            let (dst, operand) = register_source(text)?;
            Ok(Insn::Alu {
                op,
                width,
                dst,
                operand,
            })
        }
        Mnemonic::MovSx(extension) => {
            let (dst, src) = register_register(text)?;
            Ok(Insn::MovSx {
                extension,
                dst,
                src,
            })
        }
        Mnemonic::Neg(width) => {
            let dst = register_of(text)?;
            Ok(Insn::Neg { width, dst })
        }
        Mnemonic::End(order, bits) => {
            let dst = register_of(text)?;
            Ok(Insn::End { order, bits, dst })
        }
        Mnemonic::Jump => {
            let offset = offset_of(text)?;
            Ok(Insn::Jump { offset })
        }
        Mnemonic::JumpLong => {
            let distance = distance_of(text)?;
            Ok(Insn::JumpLong { distance })
        }
        Mnemonic::JumpIf(condition, width) => {
            let (dst, (operand, offset)) = register_source_offset(text)?;
            Ok(Insn::JumpIf {
                condition,
                width,
                dst,
                operand,
                offset,
            })
        }
        Mnemonic::Call => {
            let helper = number_of(text)?;
            Ok(Insn::Call { helper })
        }
        Mnemonic::Exit => Err(TextFault::Shape),
        Mnemonic::Load(size) => {
            let (dst, (src, offset)) = register_address(text)?;
            Ok(Insn::Load {
                size,
                dst,
                src,
                offset,
            })
        }
        Mnemonic::LoadSx(size) => {
            let (dst, (src, offset)) = register_address(text)?;
            Ok(Insn::LoadSx {
                size,
                dst,
                src,
                offset,
            })
        }
        Mnemonic::StoreReg(size) => {
            let ((dst, offset), src) = address_register(text)?;
            Ok(Insn::StoreReg {
                size,
                dst,
                src,
                offset,
            })
        }
        Mnemonic::StoreImm(size) => {
            let ((dst, offset), imm) = address_number(text)?;
            Ok(Insn::StoreImm {
                size,
                dst,
                offset,
                imm,
            })
        }
        Mnemonic::Wide => {
            let (dst, value) = register_value(text)?;
            Ok(Insn::Wide { dst, value })
        }
    }
}
