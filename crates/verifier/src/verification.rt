//! Instructions to images.

ghost use Rattle.std.specs.Prelude.{◌≡◌, ◌≤◌, MatchResult, length};
ghost use Rattle.std.specs.List.{AllByRecursion};
ghost use Rattle.decode.specs.Encoding.{Fits, encoding};
ghost use Rattle.decode.specs.Slots.{slots_of};
ghost use Rattle.regtypes.specs.declared.image_form.ImageForm.TheVariants.{Sbi1};
ghost use Rattle.verifier.specs.Verdict.{IsImageOf, IsWhy};

use crate::compilation::compile;
use crate::fault::VerifyError;
use crate::image::Image;
use crate::pass::{Frames, frames_of};
use decode::{Insn, encode};
use limits::{SLOTS, STATE_BYTES};
use regtypes::{ImageForm, Rule};
use std::alloc::Global;

/// The image of these instructions with a state of this length, if they are typable in form 1, in
/// which a message has 64 bytes.
pub fn verify(alloc: Global, code: Vec<Insn>, state_len: u16) -> Result<Image, VerifyError>
    requires slots { length (slots_of code.items) ≤ SLOTS }
    requires state { state_len ≤ STATE_BYTES }
    ensures { MatchResult result (λ image. IsImageOf Sbi1 code.items state_len image) (λ why. IsWhy Sbi1 code.items state_len why) }
{
    verify_form(alloc, code, state_len, ImageForm::Sbi1)
}

/// The image of these instructions with a state of this length, if they are typable in this form. The code has at most
/// 1,024 slots, and its state at most 1,024 bytes. The frame of a slot is the join of all frames that arrive there.
/// Instructions that no path reaches are not judged.
pub fn verify_form(
    alloc: Global,
    code: Vec<Insn>,
    state_len: u16,
    form: ImageForm,
) -> Result<Image, VerifyError>
    requires slots { length (slots_of code.items) ≤ SLOTS }
    requires state { state_len ≤ STATE_BYTES }
    ensures { MatchResult result (λ image. IsImageOf form code.items state_len image) (λ why. IsWhy form code.items state_len why) }
{
    match encode(alloc, &code) {
        Ok(bytes) => verify_encoded(alloc, code, bytes, state_len, form),
        Err(_) => Err(VerifyError::Memory),
    }
}

/// The same for instructions whose encoding the caller has.
pub fn verify_encoded(
    alloc: Global,
    code: Vec<Insn>,
    bytes: Vec<u8>,
    state_len: u16,
    form: ImageForm,
) -> Result<Image, VerifyError>
    requires slots { length (slots_of code.items) ≤ SLOTS }
    requires state { state_len ≤ STATE_BYTES }
    requires fits { AllByRecursion Fits code.items }
    requires bytes { bytes.items ≡ encoding code.items }
    ensures { MatchResult result (λ image. IsImageOf form code.items state_len image) (λ why. IsWhy form code.items state_len why) }
{
    if code.is_empty() {
        return Err(VerifyError::Fault {
            rule: Rule::V2,
            slot: 0,
        });
    }
    let Frames {
        slots,
        table,
        refusal,
    } = match frames_of(alloc, &code, state_len, form) {
        Ok(found) => found,
        Err(_) => return Err(VerifyError::Memory),
    };
    if let Some((rule, slot)) = refusal {
        return Err(VerifyError::Fault { rule, slot });
    }
    match compile(alloc, &slots, &table, state_len) {
        Ok(operations) => Ok(Image {
            form,
            code,
            bytes,
            table,
            state_len,
            operations,
        }),
        Err(_) => Err(VerifyError::Memory),
    }
}
