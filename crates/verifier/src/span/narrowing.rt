//! What a conditional jump shows of its numbers.

ghost use Rattle.std.specs.Prelude.{◌≡◌, ◌-◌, ◌^◌};
ghost use Rattle.std.specs.Option.{option_map};
ghost use Rattle.operations.specs.Words.{bits_of};
ghost use Rattle.spans.specs.Narrowing.{is_one, not_negative, opposite, shown, swapped, unless_empty, where_at_most, where_different, where_less, where_met, where_signed};

use crate::span::results::greatest;
use decode::{Condition, Width};
use spans::Span;

/// The spans of dst and of the operand; `None` if no step takes the way.
pub type SpanPair = Option<(Span, Span)>;

fn unless_empty(a: Span, b: Span) -> SpanPair
    ensures { result ≡ unless_empty a b }
{
    if a.lo <= a.hi && b.lo <= b.hi {
        Some((a, b))
    } else {
        None
    }
}

fn swapped(pair: SpanPair) -> SpanPair
    ensures { result ≡ option_map swapped pair }
{
    pair.map(|(a, b)| (b, a))
}

fn where_less(a: Span, b: Span) -> SpanPair
    ensures { result ≡ where_less a b }
{
    if a.lo >= b.hi {
        return None;
    }
    let less = Span {
        lo: a.lo,
        hi: a.hi.min(b.hi - 1),
    };
    let greater = Span {
        lo: b.lo.max(a.lo + 1),
        hi: b.hi,
    };
    unless_empty(less, greater)
}

fn where_at_most(a: Span, b: Span) -> SpanPair
    ensures { result ≡ where_at_most a b }
{
    let less = Span {
        lo: a.lo,
        hi: a.hi.min(b.hi),
    };
    let greater = Span {
        lo: b.lo.max(a.lo),
        hi: b.hi,
    };
    unless_empty(less, greater)
}

fn is_one(b: Span, x: u64) -> bool
    ensures { result ≡ is_one b x }
{
    b.lo == x && b.hi == x
}

fn where_different(a: Span, b: Span) -> SpanPair
    ensures { result ≡ where_different a b }
{
    let hi = if is_one(b, a.hi) {
        a.hi.saturating_sub(1)
    } else {
        a.hi
    };
    if !is_one(b, a.lo) {
        return unless_empty(Span { lo: a.lo, hi }, b);
    }
    match a.lo.checked_add(1) {
        Some(lo) => unless_empty(Span { lo, hi }, b),
        None => None,
    }
}

/// The greatest word of this width that is not negative.
fn greatest_signed(width: Width) -> u64
    ensures { result ≡ 2 ^ (bits_of width - 1) - 1 }
{
    match width {
        Width::W32 => u64::from(u32::MAX / 2),
        Width::W64 => u64::MAX / 2,
    }
}

fn not_negative(width: Width, b: Span) -> Span
    ensures { result ≡ not_negative (bits_of width) b }
{
    Span {
        lo: b.lo,
        hi: b.hi.min(greatest_signed(width)),
    }
}

fn where_signed_less(width: Width, a: Span, b: Span) -> SpanPair
    ensures { result ≡ where_signed (bits_of width) where_less a b }
{
    if a.hi <= greatest_signed(width) {
        where_less(a, not_negative(width, b))
    } else {
        Some((a, b))
    }
}

fn where_signed_at_most(width: Width, a: Span, b: Span) -> SpanPair
    ensures { result ≡ where_signed (bits_of width) where_at_most a b }
{
    if a.hi <= greatest_signed(width) {
        where_at_most(a, not_negative(width, b))
    } else {
        Some((a, b))
    }
}

fn where_met(condition: Condition, width: Width, a: Span, b: Span) -> SpanPair
    ensures { result ≡ where_met condition (bits_of width) a b }
{
    match condition {
        Condition::Equal | Condition::Set => Some((a, b)),
        Condition::NotEqual => where_different(a, b),
        Condition::Less => where_less(a, b),
        Condition::LessEqual => where_at_most(a, b),
        Condition::Greater => swapped(where_less(b, a)),
        Condition::GreaterEqual => swapped(where_at_most(b, a)),
        Condition::SignedLess => where_signed_less(width, a, b),
        Condition::SignedLessEqual => where_signed_at_most(width, a, b),
        Condition::SignedGreater => swapped(where_signed_less(width, b, a)),
        Condition::SignedGreaterEqual => swapped(where_signed_at_most(width, b, a)),
    }
}

/// The condition that holds if this one doesn't, if there is one.
pub fn opposite(condition: Condition) -> Option<Condition>
    ensures { result ≡ opposite condition }
{
    match condition {
        Condition::Equal => Some(Condition::NotEqual),
        Condition::NotEqual => Some(Condition::Equal),
        Condition::Less => Some(Condition::GreaterEqual),
        Condition::GreaterEqual => Some(Condition::Less),
        Condition::LessEqual => Some(Condition::Greater),
        Condition::Greater => Some(Condition::LessEqual),
        Condition::SignedLess => Some(Condition::SignedGreaterEqual),
        Condition::SignedGreaterEqual => Some(Condition::SignedLess),
        Condition::SignedLessEqual => Some(Condition::SignedGreater),
        Condition::SignedGreater => Some(Condition::SignedLessEqual),
        Condition::Set => None,
    }
}

/// What a jump of this width shows of two registers if its condition is met; of numbers longer than the width nothing
/// is shown.
pub fn shown(condition: Option<Condition>, width: Width, a: Span, b: Span) -> SpanPair
    ensures { result ≡ shown condition (bits_of width) a b }
{
    let Some(condition) = condition else {
        return Some((a, b));
    };
    let greatest = greatest(width);
    if a.hi <= greatest && b.hi <= greatest {
        where_met(condition, width, a, b)
    } else {
        Some((a, b))
    }
}
