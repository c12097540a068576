//! How far an instruction jumps.

ghost use Rattle.std.specs.Prelude.{◌≡◌, SomeIff};
ghost use Rattle.decode.specs.Distance.{HasRoom, distance, with_distance};

use crate::insn::Insn;

impl Insn {
    /// How many slots from the next one it jumps, 0 if it doesn't.
    pub fn distance(&self) -> i32
        ensures { result ≡ distance self.now }
    {
        match *self {
            Insn::Jump { offset } => i32::from(offset),
            Insn::JumpLong { distance } => distance,
            Insn::JumpIf { offset, .. } => i32::from(offset),
            _ => 0,
        }
    }

    /// The instruction with another distance, if it jumps; `None` if it has no room for that one.
    pub fn with_distance(&self, distance: i32) -> Option<Insn>
        ensures { SomeIff result (HasRoom self.now distance) (with_distance self.now distance) }
    {
        match *self {
            Insn::Jump { .. } => match i16::try_from(distance) {
                Ok(offset) => Some(Insn::Jump { offset }),
                Err(_) => None,
            },
            Insn::JumpLong { .. } => Some(Insn::JumpLong { distance }),
            Insn::JumpIf {
                condition,
                width,
                dst,
                operand,
                ..
            } => match i16::try_from(distance) {
                Ok(offset) => Some(Insn::JumpIf {
                    condition,
                    width,
                    dst,
                    operand,
                    offset,
                }),
                Err(_) => None,
            },
            insn => Some(insn),
        }
    }
}
