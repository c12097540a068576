//! Whole images.

ghost use Rattle.std.specs.Prelude.{IfOk};
ghost use Rattle.native.specs.SpanCorrect.{IsSpanNative};
ghost use Rattle.native.specs.SpanWritten.{IsCodeOf};

use crate::image_code::write_tasks;
use crate::prologue::Opening;
use crate::span_slot_tasks::tasks_of;
use decode::lay_out;
use std::alloc::{AllocError, Global};
use verifier::SpanImage;

/// The machine code of an image. It fails only if memory runs out.
pub fn span_compile(alloc: Global, image: &SpanImage) -> Result<Vec<u8>, AllocError>
    ensures native { IfOk result (λ code. IsSpanNative image.now.code image.now.len code.items) }
    ensures one { IfOk result (λ code. IsCodeOf image.now.code image.now.len code.items) }
{
    let state_len = image.state_len();
    let insns = image.code();
    let slots = lay_out(alloc, insns)?;
    let tasks = tasks_of(alloc, slots.as_slice(), state_len)?;
    let code = write_tasks(alloc, Opening::Placed, tasks.as_slice())?;
    // For the proof: a vector's length is below 2 ^ 64.
    let _fits = code.len();
    Ok(code)
}
