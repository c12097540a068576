//! Instructions to image files.

ghost use Rattle.std.specs.Prelude.{◌≤◌, IfOk, IfErr};
ghost use Rattle.verifier.specs.declared.file_form.FileForm.TheVariants.{Sbi3};
ghost use Rattle.verifier.specs.FileForm.{file_form_of};
ghost use Rattle.verifier.specs.ImageFile.{IsFile, IsUnwritten};

use crate::fault::{HeaderFault, ImageError};
use crate::file_form::FileForm;
use crate::header::write_header;
use decode::{Insn, encode, slots};
use limits::{SLOTS, STATE_BYTES};
use regtypes::ImageForm;
use std::alloc::Global;

/// The image file with this form, these instructions and this length of the state, at most 1,024 bytes. The
/// instructions are not verified; `any_parts` gives them back.
pub fn any_file(
    alloc: Global,
    form: FileForm,
    code: &[Insn],
    state_len: u16,
) -> Result<Vec<u8>, ImageError>
    requires { state_len ≤ STATE_BYTES }
    ensures written { IfOk result (λ v. IsFile form code.now state_len v.items) }
    ensures refused { IfErr result (IsUnwritten code.now) }
{
    let count = slots(code);
    if count == 0 || count > SLOTS {
        return Err(ImageError::Header(HeaderFault::SlotCount));
    }
    let header = write_header(form, state_len, count as u16);
    let mut bytes = match Vec::from_slice(alloc, &header) {
        Ok(bytes) => bytes,
        Err(_) => return Err(ImageError::Memory),
    };
    let body = match encode(alloc, code) {
        Ok(body) => body,
        Err(_) => return Err(ImageError::Memory),
    };
    match bytes.extend_from_slice(&body) {
        Ok(()) => Ok(bytes),
        Err(_) => Err(ImageError::Memory),
    }
}

/// The same of form 1 or 2; `parts` gives the instructions back.
pub fn file(
    alloc: Global,
    form: ImageForm,
    code: &[Insn],
    state_len: u16,
) -> Result<Vec<u8>, ImageError>
    requires { state_len ≤ STATE_BYTES }
    ensures written { IfOk result (λ v. IsFile (file_form_of form) code.now state_len v.items) }
    ensures refused { IfErr result (IsUnwritten code.now) }
{
    any_file(alloc, FileForm::from(form), code, state_len)
}

/// The same of form 3; `span_parts` gives the instructions back.
pub fn span_file(alloc: Global, code: &[Insn], state_len: u16) -> Result<Vec<u8>, ImageError>
    requires { state_len ≤ STATE_BYTES }
    ensures written { IfOk result (λ v. IsFile Sbi3 code.now state_len v.items) }
    ensures refused { IfErr result (IsUnwritten code.now) }
{
    any_file(alloc, FileForm::Sbi3, code, state_len)
}
