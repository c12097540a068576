//! The join of two kinds.

ghost use Rattle.std.specs.Prelude.{◌≡◌};
ghost use Rattle.spans.specs.Span.{joined_span};
ghost use Rattle.spans.specs.Frame.{joined_kind, joined_reach};

use spans::{Reach, Span, SpanKind};

/// The least span that has the numbers of both.
fn join_spans(a: Span, b: Span) -> Span
    ensures { result ≡ joined_span a b }
{
    Span {
        lo: a.lo.min(b.lo),
        hi: a.hi.max(b.hi),
    }
}

/// The least reach that has the distances of both.
fn join_reaches(s: Reach, t: Reach) -> Reach
    ensures { result ≡ joined_reach s t }
{
    Reach {
        lo: if s.lo <= t.lo { s.lo } else { t.lo },
        hi: if s.hi <= t.hi { t.hi } else { s.hi },
    }
}

/// The join: what both kinds say.
#[tactic(auto, using(crate::proofs::Spans::KindLemmas::joined_same, crate::proofs::Spans::KindLemmas::joined_apart, crate::proofs::Spans::KindLemmas::joined_unset, crate::proofs::Spans::KindLemmas::joined_num))]
pub fn join_kinds(a: SpanKind, b: SpanKind) -> SpanKind
    ensures { result ≡ joined_kind a b }
{
    match a {
        SpanKind::Unset => SpanKind::Unset,
        SpanKind::Num(s) => match b {
            SpanKind::Unset => SpanKind::Unset,
            SpanKind::Num(t) => SpanKind::Num(join_spans(s, t)),
            SpanKind::Place(_, _) => SpanKind::Unset,
        },
        SpanKind::Place(r, s) => match b {
            SpanKind::Unset => SpanKind::Unset,
            SpanKind::Num(_) => SpanKind::Unset,
            SpanKind::Place(q, t) => {
                if r == q {
                    SpanKind::Place(r, join_reaches(s, t))
                } else {
                    SpanKind::Unset
                }
            }
        },
    }
}
