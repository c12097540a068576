//! One pass over the slots gives the least typing, or the first fault.

ghost use Rattle.std.specs.Prelude.{◌≡◌, ◌≤◌, ◌<◌, IfOk, length};
ghost use Rattle.std.specs.List.{AllByRecursion};
ghost use Rattle.decode.specs.Encoding.{Fits};
ghost use Rattle.decode.specs.Slots.{slots_of};
ghost use Rattle.spans.specs.Frame.{entry_frame};
ghost use Rattle.verifier.specs.Inside.Pass.{IsOpening};
ghost use Rattle.verifier.specs.Span.Typing.{table_of};
ghost use Rattle.verifier.specs.Span.Verdict.{IsJudged};

use crate::span::frame::entry;
use crate::span::judgement::judge;
use decode::{Insn, lay_out};
use limits::SLOTS;
use regtypes::Rule;
use spans::Cells;
use std::alloc::{AllocError, Global};

/// Code slot by slot, with what is known of registers and of the stack's words there, also for code that is refused.
#[derive(Debug, Drop)]
pub struct SpanFrames {
    /// For each slot the instruction that begins there.
    pub slots: Vec<Option<Insn>>,
    /// For each slot what is known there, if a path leads to it; other slots take no memory for it. If the code is
    /// refused, this is final up to the named slot, and no later slot was judged.
    pub table: Vec<Option<Box<Cells>>>,
    /// The least rule that is broken at the first slot that breaks one, and that slot.
    pub refusal: Option<(Rule, usize)>,
}

/// A table that has only the frame of the entry.
fn opening(alloc: Global, slots: usize) -> Result<Vec<Option<Box<Cells>>>, AllocError>
    requires { 0 < slots }
    ensures size { IfOk result (λ table. length table.items ≡ slots) }
    ensures only { IfOk result (λ table. IsOpening entry_frame (table_of table.items)) }
{
    let mut table = Vec::with_capacity(alloc, slots)?;
    table.push(Some(Box::new(alloc, entry())?))?;
    'rest: for _ in 1..slots {
        table.push(None)?;
    }
    Ok(table)
}

/// What is known at each slot of these instructions, and the first slot that breaks a rule. The code has 1 to 1,024
/// slots. The frame of a slot is the join of all frames that arrive there. Instructions that no path reaches are not
/// judged.
pub fn span_frames_of(
    alloc: Global,
    code: &[Insn],
    state_len: u16,
) -> Result<SpanFrames, AllocError>
    requires some { 0 < length code.now }
    requires slots { length (slots_of code.now) ≤ SLOTS }
    requires fits { AllByRecursion Fits code.now }
    ensures slots { IfOk result (λ f. f.slots.items ≡ slots_of code.now) }
    ensures judged { IfOk result (λ f. IsJudged code.now state_len (table_of f.table.items) f.refusal) }
{
    let slots = lay_out(alloc, code)?;
    let mut table = opening(alloc, slots.len())?;
    for slot in 0..slots.len() {
        if let Some(rule) = judge(alloc, &slots, state_len, slot, &mut table)? {
            let refusal = Some((rule, slot));
            return Ok(SpanFrames {
                slots,
                table,
                refusal,
            });
        }
    }
    Ok(SpanFrames {
        slots,
        table,
        refusal: None,
    })
}
