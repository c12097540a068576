//! Arithmetic on what is known of registers.

ghost use Rattle.std.specs.Prelude.{◌≡◌, neg_ℤ};
ghost use Rattle.std.specs.Result.{result_err, result_unwrap_or};
ghost use Rattle.decode.specs.Encoding.{extension_offset, extension_width};
ghost use Rattle.operations.specs.Words.{bits_of};
ghost use Rattle.spans.specs.Frame.{IsKind, kind_at};
ghost use Rattle.spans.specs.Ways.{alu_form, extended_span, from_span, from_spans, low_span, operand_kind, result_kind};
ghost use Rattle.spans.specs.Span.{result_span, whole as whole_span};

use crate::span::results::{result, whole};
use crate::span::rules::{lesser, number_rule, value_rule};
use crate::span::sums::{low_span, move_rule, moved, sum_rule, summed};
use decode::{AluOp, Extension, Operand, Width};
use operations::word_of_imm;
use regtypes::Rule;
use spans::{Cells, Span, SpanKind};

/// The kind of an operand; of an immediate it is the one word.
pub fn operand_kind(width: Width, operand: Operand, frame: &Cells) -> SpanKind
    ensures { result ≡ operand_kind width operand (kind_at frame.now.kinds) }
{
    match operand {
        Operand::Imm(imm) => {
            let word = match width {
                Width::W32 => word_of_imm(imm) % 0x1_0000_0000,
                Width::W64 => word_of_imm(imm),
            };
            SpanKind::Num(Span { lo: word, hi: word })
        }
        Operand::Reg(reg) => frame.kind(reg),
    }
}

fn negated(imm: i32) -> i64
    ensures { result ≡ neg_ℤ imm }
{
    -i64::from(imm)
}

/// The rule that arithmetic with dst and an operand breaks.
pub fn alu_rule(op: AluOp, width: Width, operand: Operand, a: SpanKind, b: SpanKind) -> Option<Rule>
    ensures { result ≡ result_err (result_kind (alu_form op width operand) a b) }
{
    match operand {
        Operand::Imm(n) => match op {
            AluOp::Mov => number_rule(b),
            AluOp::Add => move_rule(width, i64::from(n), a),
            AluOp::Sub => move_rule(width, negated(n), a),
            _ => lesser(number_rule(a), number_rule(b)),
        },
        Operand::Reg(_) => match (op, width) {
            (AluOp::Mov, Width::W64) => value_rule(b),
            (AluOp::Mov, Width::W32) => number_rule(b),
            (AluOp::Add, Width::W64) => sum_rule(a, b),
            _ => lesser(number_rule(a), number_rule(b)),
        },
    }
}

fn set(width: Width, kind: SpanKind) -> SpanKind
    ensures { result ≡ result_unwrap_or (from_span (low_span width) kind) SpanKind.Unset }
{
    match kind {
        SpanKind::Num(s) => SpanKind::Num(low_span(width, s)),
        SpanKind::Unset | SpanKind::Place(_, _) => SpanKind::Unset,
    }
}

fn computed(op: AluOp, width: Width, a: SpanKind, b: SpanKind) -> SpanKind
    requires a { IsKind a }
    requires b { IsKind b }
    ensures { result ≡ result_unwrap_or (from_spans (λ s t. result_span op (bits_of width) (low_span width s) (low_span width t)) a b) SpanKind.Unset }
{
    match a {
        SpanKind::Num(s) => match b {
            SpanKind::Num(t) => SpanKind::Num(result(
                op,
                width,
                low_span(width, s),
                low_span(width, t),
            )),
            SpanKind::Unset | SpanKind::Place(_, _) => SpanKind::Unset,
        },
        SpanKind::Unset | SpanKind::Place(_, _) => SpanKind::Unset,
    }
}

/// The kind that arithmetic leaves in dst, whose kind is `a`, with an operand of kind `b`.
pub fn alu_kind(op: AluOp, width: Width, operand: Operand, a: SpanKind, b: SpanKind) -> SpanKind
    requires a { IsKind a }
    requires b { IsKind b }
    ensures { result ≡ result_unwrap_or (result_kind (alu_form op width operand) a b) SpanKind.Unset }
{
    match operand {
        Operand::Imm(n) => match op {
            AluOp::Mov => set(width, b),
            AluOp::Add => moved(width, i64::from(n), a),
            AluOp::Sub => moved(width, negated(n), a),
            _ => computed(op, width, a, b),
        },
        Operand::Reg(_) => match (op, width) {
            (AluOp::Mov, Width::W64) => b,
            (AluOp::Mov, Width::W32) => set(width, b),
            (AluOp::Add, Width::W64) => summed(a, b),
            _ => computed(op, width, a, b),
        },
    }
}

/// The kind that a sign extension leaves: the same number if none of the numbers is negative.
pub fn extended(extension: Extension, kind: SpanKind) -> SpanKind
    ensures { result ≡ result_unwrap_or (from_span (extended_span (extension_offset extension) (bits_of (extension_width extension))) kind) SpanKind.Unset }
{
    let SpanKind::Num(span) = kind else {
        return SpanKind::Unset;
    };
    let (negative, width) = match extension {
        Extension::W32From8 => (0x80, Width::W32),
        Extension::W32From16 => (0x8000, Width::W32),
        Extension::W64From8 => (0x80, Width::W64),
        Extension::W64From16 => (0x8000, Width::W64),
        Extension::W64From32 => (0x8000_0000, Width::W64),
    };
    SpanKind::Num(if span.hi < negative {
        span
    } else {
        whole(width)
    })
}

/// Any number, for a register that holds a number.
pub fn any_number(kind: SpanKind) -> SpanKind
    ensures { result ≡ result_unwrap_or (from_span (λ s. whole_span 64) kind) SpanKind.Unset }
{
    match kind {
        SpanKind::Num(_) => SpanKind::Num(whole(Width::W64)),
        SpanKind::Unset | SpanKind::Place(_, _) => SpanKind::Unset,
    }
}
