//! Frames as arrays.

ghost use Rattle.std.specs.Prelude.{◌≡◌, length};

use crate::kind::SpanKind;
use decode::Reg;

/// A frame: cells 0 to 10 are the kinds of the registers r0 to r10, cells 11 to 74 those of the stack's 64 words, from
/// its first byte on.
#[derive(Clone, Copy, Debug, PartialEq, Eq)]
pub struct Cells {
    pub kinds: [SpanKind; 75],
    pub ghost whole: { length kinds ≡ 75 },
}

impl Cells {
    ghost use Rattle.std.specs.Prelude.{◌≡◌};
    ghost use Rattle.spans.specs.Frame.{kind_at, with_kind};

    /// What is known of a register.
    pub fn kind(&self, reg: Reg) -> SpanKind
        ensures { result ≡ kind_at self.now.kinds reg.number }
    {
        self.kinds[reg.number as usize]
    }

    /// The frame with this kind in one register.
    pub fn with(&self, reg: Reg, kind: SpanKind) -> Cells
        ensures { kind_at result.kinds ≡ with_kind (kind_at self.now.kinds) reg.number kind }
    {
        let mut kinds = self.kinds;
        kinds[reg.number as usize] = kind;
        Cells { kinds }
    }
}
