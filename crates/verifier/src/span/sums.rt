//! Sums, one part of which may be a place.

ghost use Rattle.std.specs.Prelude.{◌≡◌, ◌≤◌, ◌≤ℤ◌, pos};
ghost use Rattle.std.specs.Result.{result_err, result_unwrap_or};
ghost use Rattle.operations.specs.Words.{bits_of};
ghost use Rattle.spans.specs.Frame.{IsKind};
ghost use Rattle.spans.specs.Span.{IsSpan};
ghost use Rattle.spans.specs.Ways.{low_span, moved_kind, moved_reach, moved_span, near_place, summed_kind};

use crate::span::distance::{changed, further};
use crate::span::results::{bounded, result, whole};
use decode::{AluOp, Width};
use regtypes::{Region, Rule};
use spans::{Reach, Span, SpanKind};

/// The low bits of a register that an operation of this width uses.
pub fn low_span(width: Width, span: Span) -> Span
    ensures { result ≡ low_span width span }
{
    match width {
        Width::W32 => bounded(Width::W32, span.lo, span.hi),
        Width::W64 => span,
    }
}

/// The rule that places break if their distances are from one number to another.
fn near_rule(lo: i128, hi: i128) -> Option<Rule>
    ensures { (region : Region) → result ≡ result_err (near_place region (record { lo = lo; hi = hi })) }
{
    if -32768 <= lo && hi <= 32767 {
        None
    } else {
        Some(Rule::V6)
    }
}

/// The places with distances from one number to another; nothing is known if one is too far off.
fn near_place(region: Region, lo: i128, hi: i128) -> SpanKind
    requires { lo ≤ℤ hi }
    ensures { result ≡ result_unwrap_or (near_place region (record { lo = lo; hi = hi })) SpanKind.Unset }
{
    if -32768 <= lo && hi <= 32767 {
        let lo = lo as i16;
        let hi = hi as i16;
        SpanKind::Place(region, Reach { lo, hi })
    } else {
        SpanKind::Unset
    }
}

fn rule_by(reach: Reach, by: Span) -> Option<Rule>
    ensures { (region : Region) → result ≡ result_err (near_place region (moved_reach reach (pos by.lo) (pos by.hi))) }
{
    near_rule(further(reach.lo, by.lo), further(reach.hi, by.hi))
}

/// A place that a number moves; nothing is known if it may get too far off.
fn place_by(region: Region, reach: Reach, by: Span) -> SpanKind
    requires reach { reach.lo ≤ℤ reach.hi }
    requires by { by.lo ≤ by.hi }
    ensures { result ≡ result_unwrap_or (near_place region (moved_reach reach (pos by.lo) (pos by.hi))) SpanKind.Unset }
{
    near_place(region, further(reach.lo, by.lo), further(reach.hi, by.hi))
}

/// The rule that a sum of two registers breaks.
pub fn sum_rule(a: SpanKind, b: SpanKind) -> Option<Rule>
    ensures { result ≡ result_err (summed_kind a b) }
{
    match a {
        SpanKind::Unset => Some(Rule::V3),
        SpanKind::Num(s) => match b {
            SpanKind::Unset => Some(Rule::V3),
            SpanKind::Num(_) => None,
            SpanKind::Place(_, t) => rule_by(t, s),
        },
        SpanKind::Place(_, s) => match b {
            SpanKind::Unset => Some(Rule::V3),
            SpanKind::Num(t) => rule_by(s, t),
            SpanKind::Place(_, _) => Some(Rule::V5),
        },
    }
}

/// The kind of a sum of two registers.
pub fn summed(a: SpanKind, b: SpanKind) -> SpanKind
    requires a { IsKind a }
    requires b { IsKind b }
    ensures { result ≡ result_unwrap_or (summed_kind a b) SpanKind.Unset }
{
    match a {
        SpanKind::Unset => SpanKind::Unset,
        SpanKind::Num(s) => match b {
            SpanKind::Unset => SpanKind::Unset,
            SpanKind::Num(t) => SpanKind::Num(result(AluOp::Add, Width::W64, s, t)),
            SpanKind::Place(region, t) => place_by(region, t, s),
        },
        SpanKind::Place(region, s) => match b {
            SpanKind::Num(t) => place_by(region, s, t),
            SpanKind::Unset | SpanKind::Place(_, _) => SpanKind::Unset,
        },
    }
}

/// The rule that a sum with a whole number breaks.
pub fn move_rule(width: Width, by: i64, kind: SpanKind) -> Option<Rule>
    ensures { result ≡ result_err (moved_kind width by kind) }
{
    match kind {
        SpanKind::Unset => Some(Rule::V3),
        SpanKind::Num(_) => None,
        SpanKind::Place(_, s) => match width {
            Width::W32 => Some(Rule::V5),
            Width::W64 => near_rule(changed(s.lo, by), changed(s.hi, by)),
        },
    }
}

/// The span of words after a whole number is added.
fn moved_span(width: Width, by: i64, span: Span) -> Span
    requires { IsSpan (bits_of width) span }
    ensures { result ≡ moved_span (bits_of width) by span }
{
    if by >= 0 {
        let distance = by as u64;
        return match span.hi.checked_add(distance) {
            Some(hi) => bounded(width, span.lo + distance, hi),
            None => whole(width),
        };
    }
    let distance = by.unsigned_abs();
    if distance <= span.lo {
        Span {
            lo: span.lo - distance,
            hi: span.hi - distance,
        }
    } else {
        whole(width)
    }
}

/// The kind of a sum with a whole number.
pub fn moved(width: Width, by: i64, kind: SpanKind) -> SpanKind
    requires { IsKind kind }
    ensures { result ≡ result_unwrap_or (moved_kind width by kind) SpanKind.Unset }
{
    match kind {
        SpanKind::Unset => SpanKind::Unset,
        SpanKind::Num(s) => SpanKind::Num(moved_span(width, by, low_span(width, s))),
        SpanKind::Place(region, s) => match width {
            Width::W32 => SpanKind::Unset,
            Width::W64 => near_place(region, changed(s.lo, by), changed(s.hi, by)),
        },
    }
}
