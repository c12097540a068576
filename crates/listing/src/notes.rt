//! What the listing says in form 3 alone: of a word of the stack, and of a branch that no number takes.

ghost use Rattle.std.specs.Prelude.{◌≡◌, ◌++◌, OnOk, Some, string_bytes};
ghost use Rattle.listing.specs.declared.view.View.TheVariants.{Spans};
ghost use Rattle.spans.specs.Frame.{kind_at};
ghost use Rattle.listing.specs.Notes.{dead_text, kept_text, read_text, stack_text, ways_text, word_at, word_line};

use crate::kinds::{distance_of, push_kind};
use crate::view::View;
use decode::{Insn, bytes_in};
use regtypes::Region;
use spans::{Cells, Span, SpanKind};
use std::alloc::AllocError;
use verifier::{is_inside, operand_kind, opposite, shown, whole_word};

/// What is known of a cell. Of cells after the last nothing is known.
fn kind_in(frame: &Cells, cell: usize) -> SpanKind
    ensures { result ≡ kind_at frame.now.kinds cell }
{
    if cell < 75 {
        frame.kinds[cell]
    } else {
        SpanKind::Unset
    }
}

/// The cell of the stack's word that an access reads or writes as a whole.
fn word_at(base: SpanKind, offset: i16, bytes: u8) -> Option<usize>
    ensures { result ≡ word_at base offset bytes }
{
    match base {
        SpanKind::Place(Region::Stack, reach) if is_inside(512, reach, offset, bytes.into()) => {
            whole_word(reach, offset, bytes.into())
        }
        _ => None,
    }
}

/// Writes a word of the stack and what is known of it.
fn push_word_line(
    out: &mut String,
    state_len: u16,
    cell: usize,
    kind: SpanKind,
) -> Result<(), AllocError>
    ensures { OnOk result (string_bytes out.new ≡ string_bytes out.old ++ word_line state_len cell kind) }
{
    let from = distance_of(cell);
    write!(out, "    stack-{from} ")?;
    push_kind(out, kind, 512, state_len)?;
    out.push('\n')
}

/// Writes the word that is read.
fn push_read(
    out: &mut String,
    state_len: u16,
    frame: &Cells,
    word: Option<usize>,
) -> Result<(), AllocError>
    ensures { OnOk result (string_bytes out.new ≡ string_bytes out.old ++ read_text state_len (kind_at frame.now.kinds) word) }
{
    match word {
        None => Ok(()),
        Some(cell) => push_word_line(out, state_len, cell, kind_in(frame, cell)),
    }
}

/// Writes the word in which a place is kept.
fn push_kept(
    out: &mut String,
    state_len: u16,
    word: Option<usize>,
    kind: SpanKind,
) -> Result<(), AllocError>
    ensures { OnOk result (string_bytes out.new ≡ string_bytes out.old ++ kept_text state_len word kind) }
{
    match (word, kind) {
        (Some(cell), SpanKind::Place(_, _)) => push_word_line(out, state_len, cell, kind),
        _ => Ok(()),
    }
}

/// Writes the word of the stack that a load reads, or in which a store keeps a place.
fn push_access(
    out: &mut String,
    state_len: u16,
    insn: &Insn,
    frame: &Cells,
) -> Result<(), AllocError>
    ensures { OnOk result (string_bytes out.new ≡ string_bytes out.old ++ stack_text state_len (Spans frame.now) insn.now) }
{
    match *insn {
        Insn::Load {
            size,
            src,
            offset,
            ..
        } => {
            let word = word_at(frame.kind(src), offset, bytes_in(size));
            push_read(out, state_len, frame, word)
        }
        Insn::StoreReg {
            size,
            dst,
            src,
            offset,
        } => {
            let word = word_at(frame.kind(dst), offset, bytes_in(size));
            push_kept(out, state_len, word, frame.kind(src))
        }
        _ => Ok(()),
    }
}

/// Writes the same in form 3. Forms 1 and 2 know nothing of words.
pub fn push_stack(
    out: &mut String,
    state_len: u16,
    insn: &Insn,
    view: &View,
) -> Result<(), AllocError>
    ensures { OnOk result (string_bytes out.new ≡ string_bytes out.old ++ stack_text state_len view.now insn.now) }
{
    match view {
        View::Flat(_) => Ok(()),
        View::Spans(frame) => push_access(out, state_len, insn, frame),
    }
}

/// Writes which branch of a jump no number takes.
fn push_ways(
    out: &mut String,
    next: Option<(Span, Span)>,
    taken: Option<(Span, Span)>,
) -> Result<(), AllocError>
    ensures { OnOk result (string_bytes out.new ≡ string_bytes out.old ++ ways_text next taken) }
{
    match (next, taken) {
        (None, _) => out.push_str("    every number takes this jump\n"),
        (Some(_), None) => out.push_str("    no number takes this jump\n"),
        (Some(_), Some(_)) => Ok(()),
    }
}

/// Writes whether all numbers take a conditional jump, or none.
fn push_jump(out: &mut String, insn: &Insn, frame: &Cells) -> Result<(), AllocError>
    ensures { OnOk result (string_bytes out.new ≡ string_bytes out.old ++ dead_text (Some (Spans frame.now)) insn.now) }
{
    let Insn::JumpIf {
        condition,
        width,
        dst,
        operand,
        ..
    } = *insn
    else {
        return Ok(());
    };
    match (frame.kind(dst), operand_kind(width, operand, frame)) {
        (SpanKind::Num(a), SpanKind::Num(b)) => {
            let next = shown(opposite(condition), width, a, b);
            push_ways(out, next, shown(Some(condition), width, a, b))
        }
        _ => Ok(()),
    }
}

/// Writes the same in form 3, if a path reaches the slot.
pub fn push_dead(out: &mut String, insn: &Insn, view: &Option<View>) -> Result<(), AllocError>
    ensures { OnOk result (string_bytes out.new ≡ string_bytes out.old ++ dead_text view.now insn.now) }
{
    match view {
        Some(View::Spans(frame)) => push_jump(out, insn, frame),
        _ => Ok(()),
    }
}
