//! Image files to images.

ghost use Rattle.std.specs.Prelude.{◌≡◌, ◌≢◌, ◌≤◌, ℕ, List, length, IfOk, IfErr};
ghost use Rattle.decode.specs.declared.insn.Insn.{Insn};
ghost use Rattle.decode.specs.Encoding.{encoding};
ghost use Rattle.regtypes.specs.declared.image_form.ImageForm.{ImageForm};
ghost use Rattle.verifier.specs.declared.fault.ImageError.TheVariants.{Memory};
ghost use Rattle.verifier.specs.declared.file_form.FileForm.{FileForm};
ghost use Rattle.verifier.specs.declared.file_form.FileForm.TheVariants.{Sbi3};
ghost use Rattle.verifier.specs.declared.header.Forms.{Forms};
ghost use Rattle.verifier.specs.declared.header.Forms.TheVariants.{Flat, Span, Any};
ghost use Rattle.verifier.specs.AnyImage as any;
ghost use Rattle.verifier.specs.FileForm.{file_form_of};
ghost use Rattle.verifier.specs.ImageFile.{IsFile, IsRefusal, IsTaken, IsTypable, IsUnread};
ghost use Rattle.verifier.specs.Span.Typed as span;
ghost use Rattle.verifier.specs.Verdict.{IsImageOf};

use crate::any_image::AnyImage;
use crate::fault::{ImageError, VerifyError};
use crate::file_form::FileForm;
use crate::header::{Forms, HEADER, read_header};
use crate::image::Image;
use crate::span::fault::SpanVerifyError;
use crate::span::image::{SpanImage, verified};
use crate::verification::verify_encoded;
use decode::{DecodeError, Insn, decode};
use regtypes::ImageForm;
use std::alloc::Global;

/// The instructions of an image file of one of these forms, the length of its state, and its form.
fn parts_of(
    alloc: Global,
    bytes: &[u8],
    forms: Forms,
) -> Result<(Vec<Insn>, u16, FileForm), ImageError>
    ensures found { IfOk result (λ p. IsFile p.2 p.0.items p.1 bytes.now) }
    ensures taken { IfOk result (λ p. IsTaken forms p.2) }
    ensures refused { IfErr result (IsUnread forms bytes.now) }
{
    let (header, form, code) = match read_header(bytes, forms) {
        Ok(found) => found,
        Err(fault) => return Err(ImageError::Header(fault)),
    };
    match decode(alloc, code) {
        Ok(insns) => Ok((insns, header.state_len, form)),
        Err(DecodeError::Memory) => Err(ImageError::Memory),
        Err(DecodeError::Fault { rule, slot }) => Err(ImageError::Decode { rule, slot }),
    }
}

/// Form 1 or 2.
fn flat_form(form: FileForm) -> ImageForm
    requires { form ≢ Sbi3 }
    ensures { file_form_of result ≡ form }
{
    match form {
        FileForm::Sbi1 => ImageForm::Sbi1,
        _ => ImageForm::Sbi2,
    }
}

/// The instructions of an image file, the length of its state, and its form. The code is not verified.
pub fn any_parts(alloc: Global, bytes: &[u8]) -> Result<(Vec<Insn>, u16, FileForm), ImageError>
    // The file of what was read has these bytes.
    ensures found { IfOk result (λ p. IsFile p.2 p.0.items p.1 bytes.now) }
    // If the bytes are the file of some code, that code is read, unless memory runs out.
    ensures only { (form : FileForm) (code : List Insn) (len : ℕ) → IsFile form code len bytes.now → IfOk result (λ p. (p.0.items ≡ code) × (p.1 ≡ len) × (p.2 ≡ form)) × IfErr result (λ e. e ≡ Memory) }
    ensures refused { IfErr result (IsUnread Any bytes.now) }
{
    parts_of(alloc, bytes, Forms::Any)
}

/// The same of an image file of form 1 or 2.
pub fn parts(alloc: Global, bytes: &[u8]) -> Result<(Vec<Insn>, u16, ImageForm), ImageError>
    ensures found { IfOk result (λ p. IsFile (file_form_of p.2) p.0.items p.1 bytes.now) }
    ensures only { (form : ImageForm) (code : List Insn) (len : ℕ) → IsFile (file_form_of form) code len bytes.now → IfOk result (λ p. (p.0.items ≡ code) × (p.1 ≡ len) × (p.2 ≡ form)) × IfErr result (λ e. e ≡ Memory) }
    ensures refused { IfErr result (IsUnread Flat bytes.now) }
{
    match parts_of(alloc, bytes, Forms::Flat) {
        Ok((code, state_len, form)) => Ok((code, state_len, flat_form(form))),
        Err(error) => Err(error),
    }
}

/// The same of an image file of form 3.
pub fn span_parts(alloc: Global, bytes: &[u8]) -> Result<(Vec<Insn>, u16), ImageError>
    ensures found { IfOk result (λ p. IsFile Sbi3 p.0.items p.1 bytes.now) }
    ensures only { (code : List Insn) (len : ℕ) → IsFile Sbi3 code len bytes.now → IfOk result (λ p. (p.0.items ≡ code) × (p.1 ≡ len)) × IfErr result (λ e. e ≡ Memory) }
    ensures refused { IfErr result (IsUnread Span bytes.now) }
{
    match parts_of(alloc, bytes, Forms::Span) {
        Ok((code, state_len, _)) => Ok((code, state_len)),
        Err(error) => Err(error),
    }
}

/// The bytes of a file's code.
fn code_bytes(alloc: Global, bytes: &[u8]) -> Result<Vec<u8>, ImageError>
    requires { 8 ≤ length bytes.now }
    ensures found { (form : FileForm) (code : List Insn) (len : ℕ) → IsFile form code len bytes.now → IfOk result (λ v. v.items ≡ encoding code) }
    ensures refused { IfErr result (λ e. e ≡ Memory) }
{
    let (_header, rest) = bytes.split_at(HEADER);
    match Vec::from_slice(alloc, rest) {
        Ok(encoded) => Ok(encoded),
        Err(_) => Err(ImageError::Memory),
    }
}

/// The image of a file of form 1 or 2 of this code, if it is typable.
fn flat_image(
    alloc: Global,
    bytes: &[u8],
    code: Vec<Insn>,
    state_len: u16,
    form: ImageForm,
) -> Result<Image, ImageError>
    requires { IsFile (file_form_of form) code.items state_len bytes.now }
    ensures image { IfOk result (λ image. IsImageOf form code.items state_len image) }
    ensures refused { (forms : Forms) → IsTaken forms (file_form_of form) → IfErr result (IsRefusal forms bytes.now) }
{
    let encoded = code_bytes(alloc, bytes)?;
    match verify_encoded(alloc, code, encoded, state_len, form) {
        Ok(image) => Ok(image),
        Err(VerifyError::Memory) => Err(ImageError::Memory),
        Err(VerifyError::Fault { rule, slot }) => Err(ImageError::Verify { rule, slot }),
    }
}

/// The image of a file of form 3 of this code, if it is typable.
fn span_image(
    alloc: Global,
    bytes: &[u8],
    code: Vec<Insn>,
    state_len: u16,
) -> Result<SpanImage, ImageError>
    requires { IsFile Sbi3 code.items state_len bytes.now }
    ensures image { IfOk result (λ image. span.IsImageOf code.items state_len image) }
    ensures refused { (forms : Forms) → IsTaken forms Sbi3 → IfErr result (IsRefusal forms bytes.now) }
{
    let encoded = code_bytes(alloc, bytes)?;
    match verified(alloc, code, encoded, state_len) {
        Ok(image) => Ok(image),
        Err(SpanVerifyError::Memory) => Err(ImageError::Memory),
        Err(SpanVerifyError::Fault { rule, slot }) => Err(ImageError::Verify { rule, slot }),
    }
}

/// The image of a file of typable code. An error names the first fault, in the order header, code, rules of the
/// verifier.
pub fn load_any(alloc: Global, bytes: &[u8]) -> Result<AnyImage, ImageError>
    ensures found { IfOk result (λ image. IsFile (any.form_of image) (any.code_of image) (any.state_of image) bytes.now) }
    ensures typable { IfOk result (λ image. IsTypable (any.form_of image) (any.code_of image) (any.state_of image)) }
    // A file of typable code is loaded, unless memory runs out.
    ensures only { (form : FileForm) (code : List Insn) (len : ℕ) → IsFile form code len bytes.now → IsTypable form code len → IfOk result (any.IsImageOf form code len) × IfErr result (λ e. e ≡ Memory) }
    ensures refused { IfErr result (IsRefusal Any bytes.now) }
{
    let (code, state_len, form) = any_parts(alloc, bytes)?;
    if form == FileForm::Sbi3 {
        match span_image(alloc, bytes, code, state_len) {
            Ok(image) => Ok(AnyImage::Span(image)),
            Err(error) => Err(error),
        }
    } else {
        match flat_image(alloc, bytes, code, state_len, flat_form(form)) {
            Ok(image) => Ok(AnyImage::Flat(image)),
            Err(error) => Err(error),
        }
    }
}

/// The same of a file of form 1 or 2.
pub fn load(alloc: Global, bytes: &[u8]) -> Result<Image, ImageError>
    ensures found { IfOk result (λ image. IsFile (file_form_of image.form) image.code image.len bytes.now) }
    ensures image { IfOk result (λ image. IsImageOf image.form image.code image.len image) }
    ensures only { (form : ImageForm) (code : List Insn) (len : ℕ) → IsFile (file_form_of form) code len bytes.now → IsTypable (file_form_of form) code len → IfOk result (IsImageOf form code len) × IfErr result (λ e. e ≡ Memory) }
    ensures refused { IfErr result (IsRefusal Flat bytes.now) }
{
    let (code, state_len, form) = parts(alloc, bytes)?;
    flat_image(alloc, bytes, code, state_len, form)
}

/// The same of a file of form 3.
pub fn load_span(alloc: Global, bytes: &[u8]) -> Result<SpanImage, ImageError>
    ensures found { IfOk result (λ image. IsFile Sbi3 image.code image.len bytes.now) }
    ensures typable { IfOk result (λ image. span.IsTypable image.code image.len) }
    ensures only { (code : List Insn) (len : ℕ) → IsFile Sbi3 code len bytes.now → span.IsTypable code len → IfOk result (span.IsImageOf code len) × IfErr result (λ e. e ≡ Memory) }
    ensures refused { IfErr result (IsRefusal Span bytes.now) }
{
    let (code, state_len) = span_parts(alloc, bytes)?;
    span_image(alloc, bytes, code, state_len)
}
