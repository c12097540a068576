//! The frame of the entry, and the join of two frames.

ghost use Rattle.std.specs.Prelude.{◌≡◌, ℕ};
ghost use Rattle.spans.specs.Frame.{entry_frame, joined, kind_at};

use crate::span::kind::join_kinds;
use regtypes::Region;
use spans::{Cells, Reach, Span, SpanKind};

/// The kind of a cell at the entry.
fn entry_kind(cell: usize) -> SpanKind
    ensures { result ≡ entry_frame cell }
{
    match cell {
        1 => SpanKind::Place(Region::Message, Reach { lo: 0, hi: 0 }),
        2 => SpanKind::Place(Region::State, Reach { lo: 0, hi: 0 }),
        3 => SpanKind::Num(Span { lo: 0, hi: 256 }),
        10 => SpanKind::Place(Region::Stack, Reach { lo: 512, hi: 512 }),
        11..=74 => SpanKind::Num(Span {
            lo: 0,
            hi: u64::MAX,
        }),
        _ => SpanKind::Unset,
    }
}

/// The frame of the entry: r1 is the message, r2 the state, r3 the message's length, r10 the end of the stack, whose
/// words are numbers.
pub fn entry() -> Cells
    ensures { kind_at result.kinds ≡ entry_frame }
{
    let mut kinds = [SpanKind::Unset; 75];
    for cell in 0..75 {
        kinds[cell] = entry_kind(cell);
    }
    Cells { kinds }
}

/// The join: what both frames say.
pub fn join(a: &Cells, b: &Cells) -> Cells
    ensures { (c : ℕ) → kind_at result.kinds c ≡ joined (kind_at a.now.kinds) (kind_at b.now.kinds) c }
{
    let mut kinds = a.kinds;
    for i in 0..75 {
        kinds[i] = join_kinds(a.kinds[i], b.kinds[i]);
    }
    Cells { kinds }
}
