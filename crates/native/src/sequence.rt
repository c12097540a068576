//! Sequences of instructions.

ghost use Rattle.std.specs.Prelude.{◌≡◌, ◌++◌, OnOk};
ghost use Rattle.native.specs.Code.{codes};

use std::alloc::AllocError;
use x86::Instr;

/// Writes instructions.
pub(crate) fn write_all(code: &mut Vec<u8>, list: &[Instr]) -> Result<(), AllocError>
    ensures { OnOk result (code.new.items ≡ code.old.items ++ codes list.now) }
{
    for instr in list {
        instr.write(code)?;
    }
    Ok(())
}
