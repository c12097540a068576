//! Bytes to instructions.

ghost use Rattle.std.specs.Prelude.{◌≡◌, ◌≢◌, ◌≤◌, ◌⊎◌, ◌+◌, ◌*◌, ◌%◌, ◌++◌, ◌↔◌, List, None, length, IsTrue, IfOk, IfErr};
ghost use Rattle.std.specs.List.{AllByRecursion};
ghost use Rattle.decode.specs.Encoding.{Fits, encoding, insn_bytes};
ghost use Rattle.decode.specs.First.{IsFirst};
ghost use Rattle.decode.specs.Slots.{size_of, slots};
ghost use Rattle.decode.specs.Refusal.{Begins, Breaks, IsBrokenAt, IsRefusal, order};
ghost use Rattle.decode.specs.Inside.Reg.{AreRegisters};
ghost use Rattle.decode.specs.declared.fault.DecodeError.TheVariants.{Memory};
ghost use Rattle.decode.specs.declared.fault.EncodingRule.TheVariants as rule;
ghost use Rattle.decode.specs.declared.insn.Insn.{Insn};

use crate::fault::{DecodeError, EncodingRule};
use crate::form::{form_of, insn_of};
use crate::insn::{Insn, Reg};
use crate::word::{SLOT, Word, word_at};
use std::alloc::Global;

/// Reads the instructions whose encoding the bytes are (RFC 9669 section 3). Bytes that are no encoding are refused as
/// a whole: the error names the first slot with a fault, and the first rule that it breaks.
pub fn decode(alloc: Global, bytes: &[u8]) -> Result<Vec<Insn>, DecodeError>
    // The bytes are the encoding of what was read.
    ensures found { IfOk result (λ v. AllByRecursion Fits v.items × (bytes.now ≡ encoding v.items)) }
    // Eight bytes a slot.
    ensures slots { IfOk result (λ v. 8 * slots v.items ≡ length bytes.now) }
    // If the bytes are the encoding of a list, that list is read, unless memory runs out.
    ensures only { (is : List Insn) → AllByRecursion Fits is → bytes.now ≡ encoding is → IfOk result (λ v. v.items ≡ is) × IfErr result (λ e. e ≡ Memory) }
    // Which rule and which slot an error names.
    ensures refused { IfErr result (IsRefusal bytes.now) }
{
    if bytes.len() % SLOT != 0 {
        return Err(DecodeError::Fault {
            rule: EncodingRule::Length,
            slot: 0,
        });
    }
    read_all(alloc, bytes)
}

/// Reads whole slots.
fn read_all(alloc: Global, bytes: &[u8]) -> Result<Vec<Insn>, DecodeError>
    requires { length bytes.now % 8 ≡ 0 }
    ensures found { IfOk result (λ v. AllByRecursion Fits v.items × (bytes.now ≡ encoding v.items)) }
    ensures slots { IfOk result (λ v. 8 * slots v.items ≡ length bytes.now) }
    ensures refused { IfErr result (IsRefusal bytes.now) }
{
    let mut insns = Vec::new(alloc);
    let mut slot = 0;
    let mut rest = bytes;
    while !rest.is_empty() {
        let (insn, after) = match read_first(rest) {
            Ok(first) => first,
            Err(rule) => return Err(DecodeError::Fault { rule, slot }),
        };
        slot += insn.slots();
        insns.push(insn)?;
        rest = after;
    }
    Ok(insns)
}

/// The instruction that the bytes begin with, and the bytes after it.
fn read_first(bytes: &[u8]) -> Result<(Insn, &[u8]), EncodingRule>
    requires whole { length bytes.now % 8 ≡ 0 }
    requires more { 8 ≤ length bytes.now }
    ensures found { IfOk result (λ x. bytes.now ≡ insn_bytes x.0 ++ x.1.now) }
    ensures fits { IfOk result (λ x. Fits x.0) }
    ensures rest { IfOk result (λ x. length x.1.now + 8 * size_of x.0 ≡ length bytes.now) }
    ensures refused { IfErr result (λ r. IsBrokenAt bytes.now r 0) }
{
    let (word, after) = word_at(bytes);
    if after.is_empty() {
        return Ok((read_insn(&word, None)?, after));
    }
    let (second, last) = word_at(after);
    let insn = read_insn(&word, Some(second))?;
    let rest = if insn.slots() == 2 { last } else { after };
    Ok((insn, rest))
}

/// The instruction whose first slot is `word`, before the slot `next`.
fn read_insn(word: &Word, next: Option<Word>) -> Result<Insn, EncodingRule>
    ensures found { IfOk result (λ i. Begins i word.now next) }
    ensures fits { IfOk result Fits }
    ensures fault { IfErr result (IsFirst (λ q. Breaks q word.now next) order) }
{
    let Some(form) = form_of(word.opcode) else {
        return Err(EncodingRule::Opcode);
    };
    let Some((dst, src)) = registers_of(word) else {
        return Err(EncodingRule::Register);
    };
    if is_outside_profile(word) {
        return Err(EncodingRule::Profile);
    }
    if is_cut(word, next) {
        return Err(EncodingRule::Cut);
    }
    if has_no_width(word) {
        return Err(EncodingRule::Width);
    }
    let insn = insn_of(form, dst, src, word, next);
    if !begins(&insn, word, next) {
        return Err(EncodingRule::Field);
    }
    Ok(insn)
}

/// The registers that the fields name.
fn registers_of(word: &Word) -> Option<(Reg, Reg)>
    ensures { AreRegisters result word.now }
{
    Some((Reg::new(word.dst)?, Reg::new(word.src)?))
}

/// Whether the slot is a call whose source is not 0, or a wide value that is no number (RFC 9669 sections 4.3.1, 4.3.2
/// and 5.4). This crate leaves these forms of the standard out.
fn is_outside_profile(word: &Word) -> bool
    ensures { IsTrue result ↔ Breaks rule.Profile word.now None }
{
    match word.opcode {
        0x85 => word.src == 1 || word.src == 2,
        0x18 => word.src != 0 && word.src <= 6,
        _ => false,
    }
}

/// Whether a wide instruction begins in the slot, and its second slot is missing.
fn is_cut(word: &Word, next: Option<Word>) -> bool
    ensures { IsTrue result ↔ Breaks rule.Cut word.now next }
{
    word.opcode == 0x18 && next.is_none()
}

/// Whether the slot is a byte swap whose width is not 16, 32 or 64.
fn has_no_width(word: &Word) -> bool
    ensures { IsTrue result ↔ ((word.now.opcode ≡ 0xd4) ⊎ ((word.now.opcode ≡ 0xdc) ⊎ (word.now.opcode ≡ 0xd7))) × (word.now.imm ≢ 16) × (word.now.imm ≢ 32) × (word.now.imm ≢ 64) }
{
    matches!(word.opcode, 0xd4 | 0xdc | 0xd7) && !matches!(word.imm, 16 | 32 | 64)
}

/// Whether the slots are those of the instruction.
fn begins(insn: &Insn, word: &Word, next: Option<Word>) -> bool
    ensures { IsTrue result ↔ Begins insn.now word.now next }
{
    insn.first_word() == *word && (insn.second_word().is_none() || insn.second_word() == next)
}
