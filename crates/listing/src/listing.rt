//! The listing of an image file.

ghost use Rattle.std.specs.Prelude.{◌≡◌, ◌≢◌, ◌<◌, ◌≤◌, ◌++◌, IfErr, IfOk, OnOk, Some, ℕ, length, string_bytes, take};
ghost use Rattle.std.specs.List.{AllByRecursion};
ghost use Rattle.decode.specs.Encoding.{Fits};
ghost use Rattle.decode.specs.Slots.{slots_of};
ghost use Rattle.verifier.specs.declared.file_form.FileForm.TheVariants.{Sbi3};
ghost use Rattle.verifier.specs.declared.header.Forms.TheVariants.{Any, Flat};
ghost use Rattle.verifier.specs.declared.fault.ImageError.TheVariants.{Memory};
ghost use Rattle.verifier.specs.ImageFile.{IsUnread, magic};
ghost use Rattle.regtypes.specs.declared.rule.Rule.{Rule};
ghost use Rattle.listing.specs.Why.{AreWhys};
ghost use Rattle.listing.specs.FileListing.{IsFileExplained, IsListed};
ghost use Rattle.listing.specs.Listing.{IsListing, broken_text, head_text, known_text, notes_text, reason_text, refusal_text, register_text, slot_text, verdict_text};

use crate::cause::{RefusalCause, cause_of};
use crate::kinds::push_register_kind;
use crate::notes::{push_dead, push_stack};
use crate::reads::is_read;
use crate::sentence::{advice, push_cause};
use crate::study::{Study, study_of};
use crate::view::View;
use crate::why::{UnsetCause, whys_at};
use assemble::disassemble;
use decode::{Insn, Reg};
use limits::{REGISTERS, SLOTS};
use regtypes::Rule;
use spans::SpanKind;
use std::alloc::{AllocError, Global};
use verifier::{FileForm, ImageError, any_parts, parts};

/// Writes why a register is unset, if it is.
fn push_reason(out: &mut String, kind: SpanKind, why: UnsetCause) -> Result<(), AllocError>
    ensures { OnOk result (string_bytes out.new ≡ string_bytes out.old ++ reason_text kind why) }
{
    if kind != SpanKind::Unset {
        return Ok(());
    }
    match why {
        UnsetCause::Unknown => Ok(()),
        UnsetCause::Never => out.push_str(": never set on a way that leads here"),
        UnsetCause::Lost(slot) => write!(out, ": lost behind the helper at slot {slot}"),
        UnsetCause::Differs(first, second, at) => {
            write!(out, ": slots {first} and {second}")?;
            write!(
                out,
                " leave different things in it where they meet, at slot {at}"
            )
        }
    }
}

/// Writes a register and what is known of it, if the instruction reads it.
fn push_register(
    out: &mut String,
    study: &Study,
    whys: &[UnsetCause],
    insn: &Insn,
    view: &View,
    number: u8,
) -> Result<(), AllocError>
    requires { number < REGISTERS }
    ensures { OnOk result (string_bytes out.new ≡ string_bytes out.old ++ register_text study.now whys.now insn.now view.now number) }
{
    if !is_read(study.form, insn, number) {
        return Ok(());
    }
    let reg = Reg { number };
    let why = match whys.get(number as usize) {
        Some(why) => *why,
        None => UnsetCause::Unknown,
    };
    write!(out, "    r{number} ")?;
    push_register_kind(out, reg, view, study.state_len)?;
    push_reason(out, view.kind(reg), why)?;
    out.push('\n')
}

/// Writes what is known of what an instruction reads.
fn push_known(
    out: &mut String,
    study: &Study,
    whys: &[UnsetCause],
    insn: &Insn,
    view: &Option<View>,
) -> Result<(), AllocError>
    ensures { OnOk result (string_bytes out.new ≡ string_bytes out.old ++ known_text study.now whys.now insn.now view.now) }
{
    let Some(view) = view else {
        return out.push_str("    no way leads here\n");
    };
    for number in 0..REGISTERS as u8 {
        push_register(out, study, whys, insn, view, number)?;
    }
    push_stack(out, study.state_len, insn, view)
}

/// Writes which rule is broken at a slot, what breaks it, and what to do about that.
fn push_broken(
    out: &mut String,
    study: &Study,
    rule: Rule,
    slot: usize,
    view: &View,
    cause: RefusalCause,
) -> Result<(), AllocError>
    ensures { OnOk result (string_bytes out.new ≡ string_bytes out.old ++ broken_text study.now rule slot view.now cause) }
{
    let number = rule.number();
    write!(out, "    refused by V{number}: ")?;
    push_cause(out, study.form_number(), study.slots.len(), slot, cause)?;
    let advice = advice(view, rule, cause);
    write!(out, "\n    to do: {advice}\n")
}

/// Writes what is wrong at the slot that is refused.
fn push_refusal(
    out: &mut String,
    study: &Study,
    rule: Rule,
    slot: usize,
    insn: &Insn,
    view: &Option<View>,
) -> Result<(), AllocError>
    ensures { OnOk result (string_bytes out.new ≡ string_bytes out.old ++ refusal_text study.now rule slot insn.now view.now) }
{
    let Some(view) = view else {
        return Ok(());
    };
    let cause = cause_of(study.form, study.state_len, insn, view, rule);
    push_broken(out, study, rule, slot, view, cause)
}

/// Writes the lines under an instruction.
fn push_notes(
    out: &mut String,
    study: &Study,
    whys: &[UnsetCause],
    slot: usize,
    insn: &Insn,
    view: &Option<View>,
) -> Result<(), AllocError>
    ensures { OnOk result (string_bytes out.new ≡ string_bytes out.old ++ notes_text study.now whys.now slot insn.now view.now study.now.refusal) }
{
    match study.refusal {
        Some((rule, at)) if slot == at => {
            push_known(out, study, whys, insn, view)?;
            push_refusal(out, study, rule, slot, insn, view)
        }
        Some((_, at)) if slot > at => Ok(()),
        _ => {
            push_known(out, study, &[], insn, view)?;
            push_dead(out, insn, view)
        }
    }
}

/// Writes the instruction that begins at a slot, if there is one, and the lines under it.
fn push_slot(
    alloc: Global,
    out: &mut String,
    study: &Study,
    whys: &[UnsetCause],
    slot: usize,
) -> Result<(), AllocError>
    ensures { OnOk result (string_bytes out.new ≡ string_bytes out.old ++ slot_text study.now whys.now slot) }
{
    let Some(insn) = study.insn_at(slot) else {
        return Ok(());
    };
    let line = disassemble(alloc, &[insn])?;
    write!(out, "{slot}: {line}")?;
    push_notes(out, study, whys, slot, &insn, &study.view_at(slot))
}

/// Writes the verdict as `check` prints it.
fn push_verdict(
    out: &mut String,
    count: usize,
    refusal: Option<(Rule, usize)>,
) -> Result<(), AllocError>
    ensures { OnOk result (string_bytes out.new ≡ string_bytes out.old ++ verdict_text count refusal) }
{
    match refusal {
        None => writeln!(out, "accepted {count} instructions"),
        Some((rule, slot)) => {
            let number = rule.number();
            writeln!(out, "verify refused V{number} at slot {slot}")
        }
    }
}

/// Writes the form and the length of the state.
fn push_head(out: &mut String, study: &Study) -> Result<(), AllocError>
    ensures { OnOk result (string_bytes out.new ≡ string_bytes out.old ++ head_text study.now) }
{
    let (form, state_len) = (study.form_number(), study.state_len);
    writeln!(out, "form {form}, {state_len} bytes of state")
}

/// Why registers are unset at the slot that is refused.
fn reasons_of(study: &Study) -> [UnsetCause; REGISTERS]
    ensures { (rule : Rule) (slot : ℕ) → study.now.refusal ≡ Some (rule, slot) → AreWhys study.now result slot }
{
    match study.refusal {
        Some((_, slot)) => whys_at(study, slot),
        None => [UnsetCause::Unknown; REGISTERS],
    }
}

/// The listing of a study (docs/FORMATS.md, "Listing"). The only error is lack of memory.
fn listing_of(alloc: Global, study: &Study) -> Result<String, AllocError>
    ensures { IfOk result (λ text. IsListing study.now (string_bytes text)) }
{
    let whys = reasons_of(study);
    let mut out = String::new(alloc);
    push_head(&mut out, study)?;
    for slot in 0..study.slots.len() {
        push_slot(alloc, &mut out, study, &whys, slot)?;
    }
    push_verdict(&mut out, study.count, study.refusal)?;
    Ok(out)
}

/// The listing of code of this form, 1 to 1,024 slots, with a state of `state_len` bytes. The only error is lack of
/// memory.
fn code_listing(
    alloc: Global,
    code: &[Insn],
    state_len: u16,
    form: FileForm,
) -> Result<String, ImageError>
    requires some { 0 < length code.now }
    requires slots { length (slots_of code.now) ≤ SLOTS }
    requires fits { AllByRecursion Fits code.now }
    ensures listing { IfOk result (λ text. IsListed form code.now state_len (string_bytes text)) }
    ensures memory { IfErr result (λ e. e ≡ Memory) }
{
    let Ok(study) = study_of(alloc, code, state_len, form) else {
        return Err(ImageError::Memory);
    };
    match listing_of(alloc, &study) {
        Ok(text) => Ok(text),
        Err(_) => Err(ImageError::Memory),
    }
}

/// The listing of an image file of any form, by the rules of its form, whether the verifier accepts its code or
/// refuses it. A file that can't be read is refused with its first fault, of the header or then of the code.
pub fn explain_file(alloc: Global, bytes: &[u8]) -> Result<String, ImageError>
    ensures listing { IfOk result (λ text. IsFileExplained bytes.now (string_bytes text)) }
    ensures refused { IfErr result (IsUnread Any bytes.now) }
{
    let (code, state_len, form) = any_parts(alloc, bytes)?;
    code_listing(alloc, &code, state_len, form)
}

/// The listing of an image file of form 1 or 2. A file of form 3 is refused like one of no form.
pub fn explain(alloc: Global, bytes: &[u8]) -> Result<String, ImageError>
    ensures listing { IfOk result (λ text. IsFileExplained bytes.now (string_bytes text)) }
    ensures flat { IfOk result (λ text. take 4 bytes.now ≢ magic Sbi3) }
    ensures refused { IfErr result (IsUnread Flat bytes.now) }
{
    let (code, state_len, form) = parts(alloc, bytes)?;
    code_listing(alloc, &code, state_len, FileForm::from(form))
}
