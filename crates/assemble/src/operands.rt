//! The shapes of operands: R a register, N a number of 32 bits, U an unsigned number of 64 bits, S a register or a
//! number, O an offset with its sign, `[RO]` an address.

ghost use Rattle.std.specs.Prelude.{◌≡◌, ◌∷◌, [], ◌<◌, ◌^◌, ℤ, ℕ, FitsSigned};
ghost use Rattle.std.specs.Int.{w16, w32};
ghost use Rattle.decode.specs.Encoding.{OperandFits};
ghost use Rattle.decode.specs.declared.insn.Operand.{Operand};
ghost use Rattle.decode.specs.declared.insn.Reg.{Reg};
ghost use Rattle.assemble.specs.Number.{number, numeral, with_sign};
ghost use Rattle.assemble.specs.Inside.Reads.{Reads};
ghost use Rattle.assemble.specs.Inside.Words.{commas};
ghost use Rattle.assemble.specs.Text.{address, register, source};

use crate::fault::{TextFault, both};
use crate::number::{number_of, offset_of, value_of};
use crate::split::{bracketed, register_named, split_at_sign, split_operands};
use decode::{Operand, Reg};

/// `R`
pub fn register_of(text: &[u8]) -> Result<Reg, TextFault>
    ensures { Reads (λ (r : Reg). text.now ≡ register r) (λ _. Unit {0}) result }
{
    match register_named(text) {
        Some(register) => Ok(register),
        None => Err(TextFault::Shape),
    }
}

/// `S`
pub fn source_of(text: &[u8]) -> Result<Operand, TextFault>
    ensures { Reads (λ (o : Operand). text.now ≡ source o) OperandFits result }
{
    if let Some(register) = register_named(text) {
        return Ok(Operand::Reg(register));
    }
    match number_of(text) {
        Ok(number) => Ok(Operand::Imm(number)),
        Err(fault) => Err(fault),
    }
}

/// `[RO]`
pub fn address_of(text: &[u8]) -> Result<(Reg, i16), TextFault>
    ensures { Reads (λ (v : Reg × ℤ). text.now ≡ address v.0 v.1) (λ v. Unit {0} × FitsSigned w16 v.1) result }
{
    let Some(inner) = bracketed(text) else {
        return Err(TextFault::Shape);
    };
    let Some((base, offset)) = split_at_sign(inner) else {
        return Err(TextFault::Shape);
    };
    both(register_of(base), offset_of(offset))
}

/// `R, S`
pub fn register_source(text: &[u8]) -> Result<(Reg, Operand), TextFault>
    ensures { Reads (λ (v : Reg × Operand). text.now ≡ commas (register v.0) (source v.1 ∷ [])) (λ v. Unit {0} × OperandFits v.1) result }
{
    let Some((left, right)) = split_operands(text) else {
        return Err(TextFault::Shape);
    };
    both(register_of(left), source_of(right))
}

/// `R, R`
pub fn register_register(text: &[u8]) -> Result<(Reg, Reg), TextFault>
    ensures { Reads (λ (v : Reg × Reg). text.now ≡ commas (register v.0) (register v.1 ∷ [])) (λ v. Unit {0} × Unit {0}) result }
{
    let Some((left, right)) = split_operands(text) else {
        return Err(TextFault::Shape);
    };
    both(register_of(left), register_of(right))
}

/// `S, O`
fn source_offset(text: &[u8]) -> Result<(Operand, i16), TextFault>
    ensures { Reads (λ (v : Operand × ℤ). text.now ≡ commas (source v.0) (with_sign v.1 ∷ [])) (λ v. OperandFits v.0 × FitsSigned w16 v.1) result }
{
    let Some((left, right)) = split_operands(text) else {
        return Err(TextFault::Shape);
    };
    both(source_of(left), offset_of(right))
}

/// `R, S, O`
pub fn register_source_offset(text: &[u8]) -> Result<(Reg, (Operand, i16)), TextFault>
    ensures { Reads (λ (v : Reg × (Operand × ℤ)). text.now ≡ commas (register v.0) (source (v.1).0 ∷ with_sign (v.1).1 ∷ [])) (λ v. Unit {0} × (OperandFits (v.1).0 × FitsSigned w16 (v.1).1)) result }
{
    let Some((left, right)) = split_operands(text) else {
        return Err(TextFault::Shape);
    };
    both(register_of(left), source_offset(right))
}

/// `R, [RO]`
pub fn register_address(text: &[u8]) -> Result<(Reg, (Reg, i16)), TextFault>
    ensures { Reads (λ (v : Reg × (Reg × ℤ)). text.now ≡ commas (register v.0) (address (v.1).0 (v.1).1 ∷ [])) (λ v. Unit {0} × (Unit {0} × FitsSigned w16 (v.1).1)) result }
{
    let Some((left, right)) = split_operands(text) else {
        return Err(TextFault::Shape);
    };
    both(register_of(left), address_of(right))
}

/// `[RO], R`
pub fn address_register(text: &[u8]) -> Result<((Reg, i16), Reg), TextFault>
    ensures { Reads (λ (v : (Reg × ℤ) × Reg). text.now ≡ commas (address (v.0).0 (v.0).1) (register v.1 ∷ [])) (λ v. (Unit {0} × FitsSigned w16 (v.0).1) × Unit {0}) result }
{
    let Some((left, right)) = split_operands(text) else {
        return Err(TextFault::Shape);
    };
    both(address_of(left), register_of(right))
}

/// `[RO], N`
pub fn address_number(text: &[u8]) -> Result<((Reg, i16), i32), TextFault>
    ensures { Reads (λ (v : (Reg × ℤ) × ℤ). text.now ≡ commas (address (v.0).0 (v.0).1) (number v.1 ∷ [])) (λ v. (Unit {0} × FitsSigned w16 (v.0).1) × FitsSigned w32 v.1) result }
{
    let Some((left, right)) = split_operands(text) else {
        return Err(TextFault::Shape);
    };
    both(address_of(left), number_of(right))
}

/// `R, U`
pub fn register_value(text: &[u8]) -> Result<(Reg, u64), TextFault>
    ensures { Reads (λ (v : Reg × ℕ). text.now ≡ commas (register v.0) (numeral v.1 ∷ [])) (λ v. Unit {0} × (v.1 < 2 ^ 64)) result }
{
    let Some((left, right)) = split_operands(text) else {
        return Err(TextFault::Shape);
    };
    both(register_of(left), value_of(right))
}
