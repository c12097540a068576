//! Machine code of opened images.

ghost use Rattle.std.specs.Prelude.{◌≡◌, Some, OnOk, IfErr, OnErr};
ghost use Rattle.c_runs.specs.MachineCode.{IsCompiled, IsUncompiled, Compiles};

use crate::bytes::put;
use crate::handler::OpenHandler;
use crate::refusal::ImageRefusal;
use c_handles::code;
use std::alloc::Global;

/// Writes the machine code of a handler's image to the front of `out`, and its length into `size`.
/// If `out` is too short, writes only the length.
fn write(
    alloc: Global,
    handler: &OpenHandler,
    out: &mut [u8],
    size: &mut usize,
) -> Result<(), ImageRefusal>
    ensures done { OnOk result (IsCompiled handler.now out.old out.new size.new) }
    ensures refused { IfErr result (IsUncompiled handler.now out.old size.old size.new) }
    ensures unchanged { OnErr result (out.new ≡ out.old) }
{
    let code = handler.compile(alloc)?;
    *size = code.len();
    if out.len() < code.len() {
        return Err(ImageRefusal::Room);
    }
    put(out, 0, code.as_slice());
    Ok(())
}

/// Writes machine code, and answers 0 or the number of the refusal.
pub fn compile(alloc: Global, handler: &OpenHandler, out: &mut [u8], size: &mut usize) -> u32
    ensures { Compiles result (Some handler.now) out.old out.new size.old size.new }
{
    code(write(alloc, handler, out, size))
}
