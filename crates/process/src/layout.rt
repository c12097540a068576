//! The arrays on which a handler runs.

ghost use Rattle.std.specs.Prelude.{◌≡◌, length};
ghost use Rattle.verifier.specs.FileForm.{file_form_of};
ghost use Rattle.verifier.specs.declared.any_image.AnyImage.TheVariants.{Flat as AnyFlat, Span as AnySpan};
ghost use Rattle.interp.specs.Configuration.{IsLong};
ghost use Rattle.interp.specs.Answer.{shown};
ghost use Rattle.process.specs.Job.{IsLaid};

use dense::ARRAY_BYTES;
use helpers::Payload;
use interp::Program;
use limits::MEMORY_BYTES;
use regtypes::ImageForm;
use verifier::Image;

/// The bytes of a payload that a handler of form 1 or 2 sees.
pub(crate) fn shown<'a>(image: &Image, payload: &'a Payload) -> &'a [u8]
    ensures value { result.now ≡ shown (file_form_of image.now.form) payload.now }
    ensures size { IsLong image.now.form (length result.now) }
{
    match image.form() {
        ImageForm::Sbi1 => payload.view64(),
        ImageForm::Sbi2 => payload.as_slice(),
    }
}

/// Writes a call of a handler of form 1 or 2 into its array.
pub(crate) fn lay_flat(image: &Image, state: &[u8], payload: &Payload, array: &mut [u8])
    requires state { length state.now ≡ image.now.len }
    requires array { length array.old ≡ MEMORY_BYTES }
    ensures { IsLaid (AnyFlat image.now) state.now payload.now array.new }
{
    let mut mem = [0; MEMORY_BYTES];
    interp::fill(image, &mut mem, shown(image, payload), state);
    array.copy_from_slice(&mem);
}

/// Writes a call of a handler of form 3 into its array.
pub(crate) fn lay_span(program: &Program, state: &[u8], payload: &Payload, array: &mut [u8])
    requires state { length state.now ≡ program.now.len }
    requires array { length array.old ≡ ARRAY_BYTES }
    ensures { IsLaid (AnySpan program.now) state.now payload.now array.new }
{
    let mut mem = [0; ARRAY_BYTES];
    interp::span_fill(program, &mut mem, payload.as_slice(), state);
    array.copy_from_slice(&mem);
}
