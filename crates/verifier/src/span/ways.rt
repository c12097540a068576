//! What is known after an instruction, on each of its two ways.

ghost use Rattle.std.specs.Prelude.{◌≡◌};
ghost use Rattle.std.specs.Option.{option_map};
ghost use Rattle.decode.specs.Encoding.{Fits};
ghost use Rattle.verifier.specs.Span.Ways.{compares, ways};
ghost use Rattle.verifier.specs.Span.Rules.{frame_pointer_rule, frame_rule, store_rule};
ghost use Rattle.verifier.specs.Span.Transfer.{IsLeaving, frame_of, frames_of};
ghost use Rattle.spans.specs.Access.{stored_frame};
ghost use Rattle.spans.specs.Frame.{IsFrame, IsKind, kind_at};
ghost use Rattle.spans.specs.Ways.{narrowed_frame, operand_kind, way};

use crate::span::alu::{alu_kind, alu_rule, any_number, extended, operand_kind};
use crate::span::call::{answered, call_rule};
use crate::span::memory::{load_rule, loaded, store_rule, stored};
use crate::span::narrowing::{opposite, shown};
use crate::span::results::whole;
use crate::span::rules::{exit_rule, lesser, number_rule};
use decode::{Condition, Insn, Operand, Reg, Width, attributes_from, bytes_in, signed_bytes_in};
use regtypes::Rule;
use spans::{Cells, Span, SpanKind};

/// What is known after an instruction; no step takes a way without a frame.
#[derive(Clone, Copy)]
pub struct SpanLeaving {
    /// On the way to the next instruction.
    pub next: Option<Cells>,
    /// On the way of a jump.
    pub taken: Option<Cells>,
}

/// The frame leaves only to the next instruction.
fn falls(frame: Cells) -> SpanLeaving
    ensures { frames_of result ≡ (Some (frame_of frame), None) }
{
    SpanLeaving {
        next: Some(frame),
        taken: None,
    }
}

/// The frame leaves only by a jump.
fn leaps(frame: Cells) -> SpanLeaving
    ensures { frames_of result ≡ (None, Some (frame_of frame)) }
{
    SpanLeaving {
        next: None,
        taken: Some(frame),
    }
}

/// The frame with these spans for a register and an operand.
fn narrowed(frame: &Cells, dst: Reg, operand: Operand, a: Span, b: Span) -> Cells
    ensures { kind_at result.kinds ≡ narrowed_frame (kind_at frame.now.kinds) dst operand (a, b) }
{
    match operand {
        Operand::Imm(_) => frame.with(dst, SpanKind::Num(a)),
        Operand::Reg(src) => {
            if dst.number == src.number {
                *frame
            } else {
                frame
                    .with(dst, SpanKind::Num(a))
                    .with(src, SpanKind::Num(b))
            }
        }
    }
}

/// The frame that leaves if a condition is met.
fn way(
    condition: Option<Condition>,
    width: Width,
    dst: Reg,
    operand: Operand,
    frame: &Cells,
    a: Span,
    b: Span,
) -> Option<Cells>
    ensures { option_map frame_of result ≡ way condition width dst operand (kind_at frame.now.kinds) a b }
{
    match shown(condition, width, a, b) {
        Some((a, b)) => Some(narrowed(frame, dst, operand, a, b)),
        None => None,
    }
}

/// The frames that a conditional jump leaves.
fn compared(
    condition: Condition,
    width: Width,
    dst: Reg,
    operand: Operand,
    frame: &Cells,
) -> SpanLeaving
    ensures { frames_of result ≡ compares (kind_at frame.now.kinds dst.number) (operand_kind width operand (kind_at frame.now.kinds)) condition width dst operand (kind_at frame.now.kinds) }
{
    match frame.kind(dst) {
        SpanKind::Num(a) => match operand_kind(width, operand, frame) {
            SpanKind::Num(b) => SpanLeaving {
                next: way(opposite(condition), width, dst, operand, frame, a, b),
                taken: way(Some(condition), width, dst, operand, frame, a, b),
            },
            SpanKind::Unset | SpanKind::Place(_, _) => NOWHERE,
        },
        SpanKind::Unset | SpanKind::Place(_, _) => NOWHERE,
    }
}

const NOWHERE: SpanLeaving = SpanLeaving {
    next: None,
    taken: None,
};

/// The frame that a store leaves if it breaks no rule.
fn store(
    frame: &Cells,
    state_len: u16,
    kind: SpanKind,
    base: SpanKind,
    offset: i16,
    bytes: u16,
) -> SpanLeaving
    requires base { IsKind base }
    requires unbroken { store_rule state_len (kind_at frame.now.kinds) kind base offset bytes ≡ None }
    ensures { frames_of result ≡ (Some (stored_frame (kind_at frame.now.kinds) kind base offset bytes), None) }
{
    falls(stored(frame, kind, base, offset, bytes))
}

/// The frames that leave if no rule is broken.
fn leave(insn: &Insn, frame: &Cells, state_len: u16) -> SpanLeaving
    requires fits { Fits insn.now }
    requires frame { IsFrame (kind_at frame.now.kinds) }
    requires unbroken { frame_rule state_len insn.now (kind_at frame.now.kinds) ≡ None }
    ensures { frames_of result ≡ ways insn.now (kind_at frame.now.kinds) }
{
    match *insn {
        Insn::Alu {
            op,
            width,
            dst,
            operand,
        } => {
            let b = operand_kind(width, operand, frame);
            let kind = alu_kind(op, width, operand, frame.kind(dst), b);
            falls(frame.with(dst, kind))
        }
        Insn::MovSx {
            extension,
            dst,
            src,
        } => falls(frame.with(dst, extended(extension, frame.kind(src)))),
        Insn::Neg { dst, .. } | Insn::End { dst, .. } => {
            falls(frame.with(dst, any_number(frame.kind(dst))))
        }
        Insn::Wide { dst, value } => {
            let span = Span {
                lo: value,
                hi: value,
            };
            falls(frame.with(dst, SpanKind::Num(span)))
        }
        Insn::Jump { .. } | Insn::JumpLong { .. } => leaps(*frame),
        Insn::JumpIf {
            condition,
            width,
            dst,
            operand,
            ..
        } => compared(condition, width, dst, operand, frame),
        Insn::Call { .. } => falls(answered(frame)),
        Insn::Exit => NOWHERE,
        Insn::Load {
            size,
            dst,
            src,
            offset,
        } => {
            let kind = loaded(frame, frame.kind(src), offset, u16::from(bytes_in(size)));
            falls(frame.with(dst, kind))
        }
        Insn::LoadSx { dst, .. } => falls(frame.with(dst, SpanKind::Num(whole(Width::W64)))),
        Insn::StoreReg {
            size,
            dst,
            src,
            offset,
        } => {
            let bytes = u16::from(bytes_in(size));
            store(
                frame,
                state_len,
                frame.kind(src),
                frame.kind(dst),
                offset,
                bytes,
            )
        }
        Insn::StoreImm {
            size,
            dst,
            offset,
            imm,
        } => {
            let kind = operand_kind(Width::W64, Operand::Imm(imm), frame);
            let bytes = u16::from(bytes_in(size));
            store(frame, state_len, kind, frame.kind(dst), offset, bytes)
        }
    }
}

/// The rule of V3 and V5 to V10 that an instruction breaks under a frame.
fn frame_rule(insn: &Insn, frame: &Cells, state_len: u16) -> Option<Rule>
    ensures { result ≡ frame_rule state_len insn.now (kind_at frame.now.kinds) }
{
    match *insn {
        Insn::Alu {
            op,
            width,
            dst,
            operand,
        } => {
            let b = operand_kind(width, operand, frame);
            alu_rule(op, width, operand, frame.kind(dst), b)
        }
        Insn::MovSx { src: reg, .. } | Insn::Neg { dst: reg, .. } | Insn::End { dst: reg, .. } => {
            number_rule(frame.kind(reg))
        }
        Insn::Wide { .. } | Insn::Jump { .. } | Insn::JumpLong { .. } => None,
        Insn::JumpIf {
            width,
            dst,
            operand,
            ..
        } => lesser(
            number_rule(frame.kind(dst)),
            number_rule(operand_kind(width, operand, frame)),
        ),
        Insn::Call { helper } => call_rule(state_len, frame, helper),
        Insn::Exit => exit_rule(frame.kinds[0]),
        Insn::Load {
            size,
            src,
            offset,
            ..
        } => {
            let bytes = u16::from(bytes_in(size));
            load_rule(state_len, frame, frame.kind(src), offset, bytes)
        }
        Insn::LoadSx {
            size,
            src,
            offset,
            ..
        } => {
            let bytes = u16::from(signed_bytes_in(size));
            load_rule(state_len, frame, frame.kind(src), offset, bytes)
        }
        Insn::StoreReg {
            size,
            dst,
            src,
            offset,
        } => {
            let bytes = u16::from(bytes_in(size));
            let kind = frame.kind(src);
            store_rule(state_len, frame, kind, frame.kind(dst), offset, bytes)
        }
        Insn::StoreImm {
            size,
            dst,
            offset,
            imm,
        } => {
            let bytes = u16::from(bytes_in(size));
            let kind = operand_kind(Width::W64, Operand::Imm(imm), frame);
            store_rule(state_len, frame, kind, frame.kind(dst), offset, bytes)
        }
    }
}

/// V4: r10 is written.
fn frame_pointer_rule(insn: &Insn) -> Option<Rule>
    ensures { result ≡ frame_pointer_rule insn.now }
{
    match attributes_from(insn).written {
        None => None,
        Some(reg) => {
            if reg.number == 10 {
                Some(Rule::V4)
            } else {
                None
            }
        }
    }
}

/// The frames that leave an instruction on its two ways, as far as a step can take them, or the least of the rules V3
/// to V10 that it breaks.
pub fn transfer(insn: &Insn, frame: &Cells, state_len: u16) -> Result<SpanLeaving, Rule>
    requires fits { Fits insn.now }
    requires frame { IsFrame (kind_at frame.now.kinds) }
    ensures { IsLeaving state_len insn.now (kind_at frame.now.kinds) result }
{
    let rule = frame_rule(insn, frame, state_len);
    match lesser(frame_pointer_rule(insn), rule) {
        Some(rule) => Err(rule),
        None => Ok(leave(insn, frame, state_len)),
    }
}
