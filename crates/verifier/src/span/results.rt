//! The spans of the results of operations.

ghost use Rattle.std.specs.Prelude.{◌≡◌, ◌<◌, ◌-◌, ◌^◌};
ghost use Rattle.decode.specs.declared.insn.AluOp.TheVariants as alu;
ghost use Rattle.operations.specs.Words.{bits_of};
ghost use Rattle.spans.specs.Span.{IsSpan, bounded, ones, result_span, whole};

use decode::{AluOp, Width};
use spans::Span;

/// How many bits an operation works on.
fn bits(width: Width) -> u64
    ensures { result ≡ bits_of width }
{
    match width {
        Width::W32 => 32,
        Width::W64 => 64,
    }
}

/// The greatest word of this width.
pub fn greatest(width: Width) -> u64
    ensures { result ≡ 2 ^ bits_of width - 1 }
{
    match width {
        Width::W32 => u64::from(u32::MAX),
        Width::W64 => u64::MAX,
    }
}

/// All words of this width.
pub fn whole(width: Width) -> Span
    ensures { result ≡ whole (bits_of width) }
{
    Span {
        lo: 0,
        hi: greatest(width),
    }
}

/// The span from one number to another if both are words of this width, else all words of this width.
pub fn bounded(width: Width, lo: u64, hi: u64) -> Span
    ensures { result ≡ bounded (bits_of width) lo hi }
{
    if hi <= greatest(width) {
        Span { lo, hi }
    } else {
        whole(width)
    }
}

fn sum(width: Width, a: Span, b: Span) -> Span
    requires a { IsSpan (bits_of width) a }
    requires b { IsSpan (bits_of width) b }
    ensures { result ≡ result_span alu.Add (bits_of width) a b }
{
    match a.hi.checked_add(b.hi) {
        Some(hi) => bounded(width, a.lo + b.lo, hi),
        None => whole(width),
    }
}

fn difference(width: Width, a: Span, b: Span) -> Span
    requires a { IsSpan (bits_of width) a }
    requires b { IsSpan (bits_of width) b }
    ensures { result ≡ result_span alu.Sub (bits_of width) a b }
{
    if b.hi <= a.lo {
        Span {
            lo: a.lo - b.hi,
            hi: a.hi - b.lo,
        }
    } else {
        whole(width)
    }
}

fn product(width: Width, a: Span, b: Span) -> Span
    requires a { IsSpan (bits_of width) a }
    requires b { IsSpan (bits_of width) b }
    ensures { result ≡ result_span alu.Mul (bits_of width) a b }
{
    match a.hi.checked_mul(b.hi) {
        Some(hi) => bounded(width, a.lo * b.lo, hi),
        None => whole(width),
    }
}

fn quotient(width: Width, a: Span, b: Span) -> Span
    requires a { IsSpan (bits_of width) a }
    requires b { IsSpan (bits_of width) b }
    ensures { result ≡ result_span alu.Div (bits_of width) a b }
{
    if b.lo > 0 {
        Span {
            lo: a.lo / b.hi,
            hi: a.hi / b.lo,
        }
    } else {
        whole(width)
    }
}

fn remainder(width: Width, a: Span, b: Span) -> Span
    requires { IsSpan (bits_of width) b }
    ensures { result ≡ result_span alu.Mod (bits_of width) a b }
{
    if b.lo > 0 {
        Span {
            lo: 0,
            hi: b.hi - 1,
        }
    } else {
        whole(width)
    }
}

/// The power of two of a count below 64.
pub fn power(count: u64) -> u64
    requires { count < 64 }
    ensures { result ≡ 2 ^ count }
{
    1 << count
}

/// The least 2 ^ k - 1 that is at least `top`, with no more bits than a word of this width.
fn ones(width: Width, top: u64) -> u64
    ensures { result ≡ ones (bits_of width) top }
{
    for count in 0..bits(width) {
        let power = power(count);
        if top < power {
            return power - 1;
        }
    }
    greatest(width)
}

fn shifted_left(width: Width, a: Span, b: Span) -> Span
    requires a { IsSpan (bits_of width) a }
    requires b { IsSpan (bits_of width) b }
    ensures { result ≡ result_span alu.Lsh (bits_of width) a b }
{
    if b.hi >= bits(width) {
        return whole(width);
    }
    match a.hi.checked_mul(power(b.hi)) {
        Some(hi) => bounded(width, a.lo * power(b.lo), hi),
        None => whole(width),
    }
}

fn shifted_right(width: Width, a: Span, b: Span) -> Span
    requires a { IsSpan (bits_of width) a }
    requires b { IsSpan (bits_of width) b }
    ensures { result ≡ result_span alu.Rsh (bits_of width) a b }
{
    if b.hi >= bits(width) {
        return whole(width);
    }
    Span {
        lo: a.lo / power(b.hi),
        hi: a.hi / power(b.lo),
    }
}

/// The span of a shift that keeps the sign, if no word is negative.
fn shifted_signed(width: Width, a: Span, b: Span) -> Span
    requires a { IsSpan (bits_of width) a }
    requires b { IsSpan (bits_of width) b }
    ensures { result ≡ result_span alu.Arsh (bits_of width) a b }
{
    if a.hi <= greatest(width) / 2 {
        shifted_right(width, a, b)
    } else {
        whole(width)
    }
}

/// The span of the results of an operation on words of this width, the first from `a` and the second from `b`.
pub fn result(op: AluOp, width: Width, a: Span, b: Span) -> Span
    requires a { IsSpan (bits_of width) a }
    requires b { IsSpan (bits_of width) b }
    ensures { result ≡ result_span op (bits_of width) a b }
{
    match op {
        AluOp::Add => sum(width, a, b),
        AluOp::Sub => difference(width, a, b),
        AluOp::Mul => product(width, a, b),
        AluOp::Div => quotient(width, a, b),
        AluOp::Sdiv | AluOp::Smod => whole(width),
        AluOp::Or | AluOp::Xor => Span {
            lo: 0,
            hi: ones(width, a.hi.max(b.hi)),
        },
        AluOp::And => Span {
            lo: 0,
            hi: a.hi.min(b.hi),
        },
        AluOp::Lsh => shifted_left(width, a, b),
        AluOp::Rsh => shifted_right(width, a, b),
        AluOp::Mod => remainder(width, a, b),
        AluOp::Mov => b,
        AluOp::Arsh => shifted_signed(width, a, b),
    }
}
