//! The caller's registers, which the code keeps on the stack.

ghost use Rattle.std.specs.Prelude.{◌≡◌, ◌++◌, OnOk};
ghost use Rattle.native.specs.Code.{codes};
ghost use Rattle.native.specs.Openings as specs;

use crate::saved_registers::SavedRegisters;
use std::alloc::AllocError;
use x86::Instr;

fn push_if(code: &mut Vec<u8>, kept: bool, reg: u8) -> Result<(), AllocError>
    ensures { OnOk result (code.new.items ≡ code.old.items ++ codes (specs.push_if kept reg)) }
{
    if kept {
        Instr::Push { reg }.write(code)
    } else {
        Ok(())
    }
}

fn pop_if(code: &mut Vec<u8>, kept: bool, reg: u8) -> Result<(), AllocError>
    ensures { OnOk result (code.new.items ≡ code.old.items ++ codes (specs.pop_if kept reg)) }
{
    if kept {
        Instr::Pop { reg }.write(code)
    } else {
        Ok(())
    }
}

/// Pushes the saved registers.
pub(crate) fn write_saving(code: &mut Vec<u8>, saved: SavedRegisters) -> Result<(), AllocError>
    ensures { OnOk result (code.new.items ≡ code.old.items ++ codes (specs.saving saved)) }
{
    push_if(code, saved.rbx, 3)?;
    push_if(code, saved.rbp, 5)?;
    push_if(code, saved.r12, 12)?;
    push_if(code, saved.r13, 13)?;
    push_if(code, saved.r14, 14)?;
    push_if(code, saved.r15, 15)
}

/// Pops them.
pub(crate) fn write_restoring(code: &mut Vec<u8>, saved: SavedRegisters) -> Result<(), AllocError>
    ensures { OnOk result (code.new.items ≡ code.old.items ++ codes (specs.restoring saved)) }
{
    pop_if(code, saved.r15, 15)?;
    pop_if(code, saved.r14, 14)?;
    pop_if(code, saved.r13, 13)?;
    pop_if(code, saved.r12, 12)?;
    pop_if(code, saved.rbp, 5)?;
    pop_if(code, saved.rbx, 3)
}
