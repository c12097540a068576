//! Handlers of any form.

ghost use Rattle.std.specs.Prelude.{◌≡◌, IfOk};
ghost use Rattle.verifier.specs.declared.any_image.AnyImage.TheVariants as any;
ghost use Rattle.interp.specs.Image.{as_image, the_image};
ghost use Rattle.native.specs.HandlerCode.{IsCode};

use crate::handler_code::Code;
use crate::image_code::compile;
use crate::span_image_code::span_compile;
use interp::Handler;
use std::alloc::{AllocError, Global};
use verifier::{Image, SpanImage};

// The code of an image of form 1 or 2.
fn compile_flat(alloc: Global, image: &Image) -> Result<Vec<u8>, AllocError>
    ensures { IfOk result (λ code. IsCode (as_image (any.Flat image.now)) code.items) }
{
    // For the proof: its contract says that the slots are those of the code, and that they have a typing.
    let _begin = image.begin();
    let code = compile(alloc, image)?;
    Ok(code)
}

// The code of an image of form 3.
fn compile_span(alloc: Global, image: &SpanImage) -> Result<Vec<u8>, AllocError>
    ensures { IfOk result (λ code. IsCode (as_image (any.Span image.now)) code.items) }
{
    // For the proof: its contract says that the code is typable.
    let _insns = image.code();
    let code = span_compile(alloc, image)?;
    Ok(code)
}

fn bytes_of(alloc: Global, handler: &Handler) -> Result<Vec<u8>, AllocError>
    ensures { IfOk result (λ code. IsCode (the_image handler.now) code.items) }
{
    match handler {
        Handler::Flat(image) => compile_flat(alloc, image),
        Handler::Span(program) => compile_span(alloc, program.image()),
    }
}

/// The machine code of a handler's image, of any form. It fails only if memory runs out.
pub fn compile_handler<'h>(alloc: Global, handler: &'h Handler) -> Result<Code<'h>, AllocError>
    ensures { IfOk result (λ code. code.image ≡ the_image handler.now) }
{
    let bytes = bytes_of(alloc, handler)?;
    Ok(Code { handler, bytes })
}
