//! Where an instruction leads.

ghost use Rattle.std.specs.Prelude.{◌≡◌};
ghost use Rattle.decode.specs.Flow.{flow_of};

use crate::insn::Insn;

/// Where an instruction leads. Distances count slots from the next slot.
#[derive(Clone, Copy, Debug, PartialEq, Eq)]
pub enum Flow {
    /// Nowhere.
    Ends,
    /// To one other slot.
    Leaps(i32),
    /// To another slot, or to the next one.
    Forks(i32),
    /// To the next instruction, this many slots on.
    Falls(usize),
}

/// Where the instruction leads (RFC 9669 section 4.3).
pub fn flow_from(insn: &Insn) -> Flow
    ensures { result ≡ flow_of insn.now }
{
    match *insn {
        Insn::Exit => Flow::Ends,
        Insn::Jump { offset } => Flow::Leaps(i32::from(offset)),
        Insn::JumpLong { distance } => Flow::Leaps(distance),
        Insn::JumpIf { offset, .. } => Flow::Forks(i32::from(offset)),
        _ => Flow::Falls(insn.slots()),
    }
}
