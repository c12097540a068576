//! Instructions slot by slot.

ghost use Rattle.std.specs.Prelude.{◌≡◌, IfOk};
ghost use Rattle.decode.specs.Slots.{Follows, slots_of};

use crate::insn::Insn;
use std::alloc::{AllocError, Global};

/// For each slot the instruction that begins there.
pub fn lay_out(alloc: Global, code: &[Insn]) -> Result<Vec<Option<Insn>>, AllocError>
    ensures slots { IfOk result (λ slots. slots.items ≡ slots_of code.now) }
    ensures follows { IfOk result (λ slots. Follows slots.items) }
{
    let mut slots = Vec::new(alloc);
    for insn in code {
        slots.push(Some(*insn))?;
        if insn.is_wide() {
            slots.push(None)?;
        }
    }
    Ok(slots)
}
