//! What is known at a slot.

ghost use Rattle.std.specs.Prelude.{◌≡◌};
ghost use Rattle.regtypes.specs.Rules.{region_len};
ghost use Rattle.listing.specs.View.{spanned};

use decode::Reg;
use limits::STACK_BYTES;
use regtypes::{Frame, Kind, Region};
use spans::{Cells, Reach, Span, SpanKind};

/// What is known at a slot: in forms 1 and 2, or in form 3.
#[derive(Clone, Copy)]
pub enum View {
    Flat(Frame),
    Spans(Cells),
}

impl View {
    ghost use Rattle.std.specs.Prelude.{◌≡◌};
    ghost use Rattle.listing.specs.View.{is_length, known, low_of};

    /// What is known of a register, in the words of form 3.
    pub fn kind(&self, reg: Reg) -> SpanKind
        ensures { result ≡ known self.now reg.number }
    {
        match self {
            View::Flat(frame) => spanned(frame.kind(reg)),
            View::Spans(cells) => cells.kind(reg),
        }
    }

    /// Whether a register is known to hold the length of the message.
    pub fn is_length(&self, reg: Reg) -> bool
        ensures { result ≡ is_length self.now reg.number }
    {
        match self {
            View::Flat(frame) => matches!(frame.kind(reg), Kind::Len),
            View::Spans(_) => false,
        }
    }

    /// The size of the message in bytes, in forms 1 and 2 the least that it can have.
    pub fn low(&self) -> u16
        ensures { result ≡ low_of self.now }
    {
        match self {
            View::Flat(frame) => frame.low,
            View::Spans(_) => 512,
        }
    }
}

fn spanned(kind: Kind) -> SpanKind
    ensures { result ≡ spanned kind }
{
    let (lo, hi) = (0, u64::MAX);
    match kind {
        Kind::Unset => SpanKind::Unset,
        Kind::Num | Kind::Len => SpanKind::Num(Span { lo, hi }),
        Kind::Place(region, at) => SpanKind::Place(region, Reach { lo: at, hi: at }),
    }
}

/// The size of a region in bytes, of the message `low`.
pub fn region_len(region: Region, low: u16, state_len: u16) -> u16
    ensures { result ≡ region_len low state_len region }
{
    match region {
        Region::Message => low,
        Region::State => state_len,
        Region::Stack => STACK_BYTES as u16,
    }
}
