//! What helpers take, and what they leave.

ghost use Rattle.std.specs.Prelude.{◌≡◌, ◌==◌, nat_lt, if◌then◌else◌};
ghost use Rattle.verifier.specs.Span.Rules.{call_rule, payload_rule, sized_rule};
ghost use Rattle.spans.specs.Frame.{kind_at};
ghost use Rattle.spans.specs.Ways.{behind_helper};
ghost use Rattle.spans.specs.Span.{span};

use crate::span::access::{is_inside, words_rule};
use crate::span::rules::{argument_rule, lesser, number_rule, unless};
use regtypes::{Region, Rule};
use spans::{Cells, Span, SpanKind};

/// The rule that a helper's argument of this many bytes at a place breaks.
fn payload_rule(state_len: u16, frame: &Cells, place: SpanKind, bytes: u16) -> Option<Rule>
    ensures { result ≡ payload_rule state_len (kind_at frame.now.kinds) place bytes }
{
    match place {
        SpanKind::Unset | SpanKind::Num(_) => Some(Rule::V9),
        SpanKind::Place(region, reach) => match region {
            Region::Message => unless(is_inside(512, reach, 0, bytes), Rule::V9),
            Region::State => unless(is_inside(state_len, reach, 0, bytes), Rule::V9),
            Region::Stack => {
                if is_inside(512, reach, 0, bytes) {
                    argument_rule(words_rule(frame, reach, 0, bytes))
                } else {
                    Some(Rule::V9)
                }
            }
        },
    }
}

/// The rule that a helper's argument breaks that is a place with the number of bytes there.
fn sized_rule(state_len: u16, frame: &Cells, place: SpanKind, count: SpanKind) -> Option<Rule>
    ensures { result ≡ sized_rule state_len (kind_at frame.now.kinds) place count }
{
    match count {
        SpanKind::Num(span) => payload_rule(state_len, frame, place, span.hi.min(256) as u16),
        SpanKind::Unset | SpanKind::Place(_, _) => Some(Rule::V9),
    }
}

/// The rule that the call of a helper breaks.
pub fn call_rule(state_len: u16, frame: &Cells, helper: i32) -> Option<Rule>
    ensures { result ≡ call_rule state_len (kind_at frame.now.kinds) helper }
{
    let kinds = &frame.kinds;
    match helper {
        1 => lesser(
            argument_rule(number_rule(kinds[1])),
            payload_rule(state_len, frame, kinds[2], 64),
        ),
        2 => payload_rule(state_len, frame, kinds[1], 64),
        3 | 4 => None,
        5 => lesser(
            argument_rule(number_rule(kinds[1])),
            sized_rule(state_len, frame, kinds[2], kinds[3]),
        ),
        6 => sized_rule(state_len, frame, kinds[1], kinds[2]),
        _ => Some(Rule::V8),
    }
}

/// The kind that a helper leaves in a cell.
fn answered_kind(cell: usize, kind: SpanKind) -> SpanKind
    ensures { result ≡ (if cell == 0 then SpanKind.Num (span 0 15) else if nat_lt cell 6 then SpanKind.Unset else kind) }
{
    match cell {
        0 => SpanKind::Num(Span { lo: 0, hi: 15 }),
        1..=5 => SpanKind::Unset,
        _ => kind,
    }
}

/// The frame that a helper leaves: its answer in r0, and r1 to r5 unset.
pub fn answered(frame: &Cells) -> Cells
    ensures { kind_at result.kinds ≡ behind_helper (kind_at frame.now.kinds) }
{
    let mut kinds = frame.kinds;
    for cell in 0..75 {
        kinds[cell] = answered_kind(cell, frame.kinds[cell]);
    }
    Cells { kinds }
}
