//! Whether code only jumps forward.

ghost use Rattle.std.specs.Prelude.{◌↔◌, ◌≤ℤ◌, IsTrue, pos};
ghost use Rattle.std.specs.List.{AllByRecursion};
ghost use Rattle.block_order.specs.Order.{IsForward};

use decode::Insn;

/// Whether each jump goes to a later slot.
pub fn is_forward(insns: &[Insn]) -> bool
    ensures { IsTrue result ↔ IsForward insns.now }
{
    for insn in insns {
        if insn.distance() < 0 {
            return false;
        }
    }
    true
}
