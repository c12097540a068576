//! Instructions to text.

ghost use Rattle.std.specs.Prelude.{◌≡◌, ◌++◌, ◌∷◌, [], OnOk, IfOk, codes, string_bytes};
ghost use Rattle.std.specs.List.{AllByRecursion};
ghost use Rattle.decode.specs.Encoding.{Fits, OperandFits};
ghost use Rattle.assemble.specs.Inside.Mnemonic.{mnemonic_of, word};
ghost use Rattle.assemble.specs.Number.{number, numeral, with_sign};
ghost use Rattle.assemble.specs.Inside.Words.{operands_of, tail};
ghost use Rattle.assemble.specs.Text.{address, line_of, register, source, text_of};

use crate::mnemonic::Mnemonic;
use decode::{Insn, Operand, Reg};
use std::alloc::{AllocError, Global};

/// The text of the instructions: one line each, ended by a line feed (docs/FORMATS.md, "Assembler text"). It fails only
/// if memory runs out.
pub fn disassemble(alloc: Global, insns: &[Insn]) -> Result<String, AllocError>
    ensures written { IfOk result (λ s. string_bytes s ≡ text_of insns.now) }
    // Each number has the size of its field, so the text is read back as these instructions.
    ensures fits { OnOk result (AllByRecursion Fits insns.now) }
{
    let mut out = String::new(alloc);
    for insn in insns {
        push_word(&mut out, insn)?;
        push_operands(&mut out, insn)?;
        out.push('\n')?;
    }
    Ok(out)
}

/// The instruction without its operands.
fn mnemonic_of(insn: &Insn) -> Mnemonic
    ensures { result ≡ mnemonic_of insn.now }
{
    match *insn {
        Insn::Alu { op, width, .. } => Mnemonic::Alu(op, width),
        Insn::MovSx { extension, .. } => Mnemonic::MovSx(extension),
        Insn::Neg { width, .. } => Mnemonic::Neg(width),
        Insn::End { order, bits, .. } => Mnemonic::End(order, bits),
        Insn::Jump { .. } => Mnemonic::Jump,
        Insn::JumpLong { .. } => Mnemonic::JumpLong,
        Insn::JumpIf {
            condition,
            width,
            ..
        } => Mnemonic::JumpIf(condition, width),
        Insn::Call { .. } => Mnemonic::Call,
        Insn::Exit => Mnemonic::Exit,
        Insn::Load { size, .. } => Mnemonic::Load(size),
        Insn::LoadSx { size, .. } => Mnemonic::LoadSx(size),
        Insn::StoreReg { size, .. } => Mnemonic::StoreReg(size),
        Insn::StoreImm { size, .. } => Mnemonic::StoreImm(size),
        Insn::Wide { .. } => Mnemonic::Wide,
    }
}

/// Writes the word.
fn push_word(out: &mut String, insn: &Insn) -> Result<(), AllocError>
    ensures { OnOk result (string_bytes out.new ≡ string_bytes out.old ++ word (mnemonic_of insn.now)) }
{
    let (stem, ending) = mnemonic_of(insn).parts();
    out.push_str(stem)?;
    out.push_str(ending)
}

/// Writes a space and the operands, if there are any.
fn push_operands(out: &mut String, insn: &Insn) -> Result<(), AllocError>
    ensures written { OnOk result (string_bytes out.new ≡ string_bytes out.old ++ tail (operands_of insn.now)) }
    ensures fits { OnOk result (Fits insn.now) }
{
    match *insn {
        Insn::Alu { dst, operand, .. } => push_both(out, dst, operand),
        Insn::MovSx { dst, src, .. } => push_both(out, dst, Operand::Reg(src)),
        Insn::Neg { dst, .. } | Insn::End { dst, .. } => push_alone(out, dst),
        Insn::Jump { offset } => push_distance(out, offset.into()),
        Insn::JumpLong { distance } => push_distance(out, distance),
        Insn::JumpIf {
            dst,
            operand,
            offset,
            ..
        } => push_condition(out, dst, operand, offset),
        Insn::Call { helper } => push_helper(out, helper),
        Insn::Exit => Ok(()),
        Insn::Load {
            dst,
            src,
            offset,
            ..
        } => push_load(out, dst, src, offset),
        Insn::LoadSx {
            dst,
            src,
            offset,
            ..
        } => push_load(out, dst, src, offset),
        Insn::StoreReg {
            dst,
            src,
            offset,
            ..
        } => push_store(out, dst, offset, Operand::Reg(src)),
        Insn::StoreImm {
            dst,
            offset,
            imm,
            ..
        } => push_store(out, dst, offset, Operand::Imm(imm)),
        Insn::Wide { dst, value } => push_wide(out, dst, value),
    }
}

/// Writes a register, and after it a number or a register.
fn push_both(out: &mut String, dst: Reg, operand: Operand) -> Result<(), AllocError>
    ensures written { OnOk result (string_bytes out.new ≡ string_bytes out.old ++ tail (register dst ∷ source operand ∷ [])) }
    ensures fits { OnOk result (OperandFits operand) }
{
    push_first(out, dst)?;
    push_source(out, operand)
}

/// Writes the operand of an instruction that takes one register.
fn push_alone(out: &mut String, dst: Reg) -> Result<(), AllocError>
    ensures { OnOk result (string_bytes out.new ≡ string_bytes out.old ++ tail (register dst ∷ [])) }
{
    out.push(' ')?;
    push_register(out, dst)
}

/// Writes the distance of a jump.
fn push_distance(out: &mut String, distance: i32) -> Result<(), AllocError>
    ensures { OnOk result (string_bytes out.new ≡ string_bytes out.old ++ tail (with_sign distance ∷ [])) }
{
    out.push(' ')?;
    push_signed(out, distance)
}

/// Writes the operands of a comparison, and the distance of its jump.
fn push_condition(
    out: &mut String,
    dst: Reg,
    operand: Operand,
    offset: i16,
) -> Result<(), AllocError>
    ensures written { OnOk result (string_bytes out.new ≡ string_bytes out.old ++ tail (register dst ∷ source operand ∷ with_sign offset ∷ [])) }
    ensures fits { OnOk result (OperandFits operand) }
{
    push_both(out, dst, operand)?;
    out.push_str(", ")?;
    push_signed(out, offset.into())
}

/// Writes a helper's number.
fn push_helper(out: &mut String, helper: i32) -> Result<(), AllocError>
    ensures { OnOk result (string_bytes out.new ≡ string_bytes out.old ++ tail (number helper ∷ [])) }
{
    out.push(' ')?;
    push_number(out, helper)
}

/// Writes a register and the address from which it is loaded.
fn push_load(out: &mut String, dst: Reg, src: Reg, offset: i16) -> Result<(), AllocError>
    ensures { OnOk result (string_bytes out.new ≡ string_bytes out.old ++ tail (register dst ∷ address src offset ∷ [])) }
{
    push_first(out, dst)?;
    push_address(out, src, offset)
}

/// Writes an address and the operand that is stored there.
fn push_store(out: &mut String, dst: Reg, offset: i16, operand: Operand) -> Result<(), AllocError>
    ensures written { OnOk result (string_bytes out.new ≡ string_bytes out.old ++ tail (address dst offset ∷ source operand ∷ [])) }
    ensures fits { OnOk result (OperandFits operand) }
{
    push_first_address(out, dst, offset)?;
    push_source(out, operand)
}

/// Writes a register and the wide number that it gets.
fn push_wide(out: &mut String, dst: Reg, value: u64) -> Result<(), AllocError>
    ensures { OnOk result (string_bytes out.new ≡ string_bytes out.old ++ tail (register dst ∷ numeral value ∷ [])) }
{
    push_first(out, dst)?;
    push_value(out, value)
}

/// Writes a register and the comma after it.
fn push_first(out: &mut String, dst: Reg) -> Result<(), AllocError>
    ensures { OnOk result (string_bytes out.new ≡ string_bytes out.old ++ (codes " " ++ (register dst ++ codes ", "))) }
{
    out.push(' ')?;
    push_register(out, dst)?;
    out.push_str(", ")
}

/// Writes an address and the comma after it.
fn push_first_address(out: &mut String, base: Reg, offset: i16) -> Result<(), AllocError>
    ensures { OnOk result (string_bytes out.new ≡ string_bytes out.old ++ (codes " " ++ (address base offset ++ codes ", "))) }
{
    out.push(' ')?;
    push_address(out, base, offset)?;
    out.push_str(", ")
}

/// Writes a register.
#[tactic(auto, using(crate::proofs::Decimals::numeral_is))]
fn push_register(out: &mut String, r: Reg) -> Result<(), AllocError>
    ensures { OnOk result (string_bytes out.new ≡ string_bytes out.old ++ register r) }
{
    let number = r.number;
    write!(out, "r{number}")
}

/// Writes a number or a register.
fn push_source(out: &mut String, operand: Operand) -> Result<(), AllocError>
    ensures written { OnOk result (string_bytes out.new ≡ string_bytes out.old ++ source operand) }
    ensures fits { OnOk result (OperandFits operand) }
{
    match operand {
        Operand::Imm(number) => push_number(out, number),
        Operand::Reg(register) => push_register(out, register),
    }
}

/// Writes a register and an offset in brackets.
fn push_address(out: &mut String, base: Reg, offset: i16) -> Result<(), AllocError>
    ensures { OnOk result (string_bytes out.new ≡ string_bytes out.old ++ address base offset) }
{
    out.push('[')?;
    push_register(out, base)?;
    push_signed(out, offset.into())?;
    out.push(']')
}

/// Writes a number, with its sign if it is negative.
#[tactic(auto, using(crate::proofs::Decimals::number_decimal))]
fn push_number(out: &mut String, n: i32) -> Result<(), AllocError>
    ensures { OnOk result (string_bytes out.new ≡ string_bytes out.old ++ number n) }
{
    write!(out, "{n}")
}

/// Writes a number with its sign.
fn push_signed(out: &mut String, n: i32) -> Result<(), AllocError>
    ensures { OnOk result (string_bytes out.new ≡ string_bytes out.old ++ with_sign n) }
{
    if n >= 0 {
        out.push('+')?;
    }
    push_number(out, n)
}

/// Writes a number of 64 bits.
#[tactic(auto, using(crate::proofs::Decimals::numeral_is))]
fn push_value(out: &mut String, value: u64) -> Result<(), AllocError>
    ensures { OnOk result (string_bytes out.new ≡ string_bytes out.old ++ numeral value) }
{
    write!(out, "{value}")
}
