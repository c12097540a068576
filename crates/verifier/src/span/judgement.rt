//! One slot of the pass: its rules, and the frames that leave it.

ghost use Rattle.std.specs.Prelude.{◌≡◌, ◌≤◌, ◌<◌, IfOk, length};
ghost use Rattle.decode.specs.Encoding.{Fits};
ghost use Rattle.spans.specs.Frame.{IsFrame, kind_at};
ghost use Rattle.verifier.specs.Inside.SpanPass.{AreFitting, IsLeavingAt, IsSlotJudged};
ghost use Rattle.verifier.specs.Span.Typing.{span_form, table_of};
ghost use Rattle.decode.specs.Slots.{Follows};
ghost use Rattle.verifier.specs.Fixpoint.{IsLeast};

use crate::span::propagation::spread;
use crate::span::ways::{SpanLeaving, transfer};
use decode::{Insn, flow_from};
use limits::SLOTS;
use regtypes::{Rule, leads};
use spans::Cells;
use std::alloc::{AllocError, Global};

/// The frames that leave the instruction at a slot, or the least rule that it breaks.
fn leave(
    slots: &[Option<Insn>],
    state_len: u16,
    slot: usize,
    insn: &Insn,
    frame: &Cells,
) -> Result<SpanLeaving, Rule>
    requires short { slot < SLOTS }
    requires within { slot < length slots.now }
    requires fits { Fits insn.now }
    requires frame { IsFrame (kind_at frame.now.kinds) }
    ensures { IsLeavingAt state_len slots.now slot insn.now (kind_at frame.now.kinds) result }
{
    match leads(slots, slot, &flow_from(insn)) {
        Ok(()) => transfer(insn, frame, state_len),
        Err(rule) => Err(rule),
    }
}

/// Judges one slot, and joins the frames that leave it into those of the next slots; or answers the least rule that it
/// breaks, and changes nothing. A slot that no path leads to is not judged.
pub fn judge(
    alloc: Global,
    slots: &[Option<Insn>],
    state_len: u16,
    slot: usize,
    table: &mut [Option<Box<Cells>>],
) -> Result<Option<Rule>, AllocError>
    requires short { length slots.now ≤ SLOTS }
    requires within { slot < length slots.now }
    requires same { length table.old ≡ length slots.now }
    requires follows { Follows slots.now }
    requires fits { AreFitting slots.now }
    requires least { IsLeast (span_form state_len slots.now) slot (table_of table.old) }
    ensures size { length table.new ≡ length table.old }
    ensures judged { IfOk result (λ rule. IsSlotJudged state_len slots.now slot table.old table.new rule) }
{
    let frame = match &table[slot] {
        Some(frame) => frame,
        None => return Ok(None),
    };
    let insn = match slots[slot] {
        Some(insn) => insn,
        None => unreachable!(),
    };
    let left = match leave(slots, state_len, slot, &insn, frame) {
        Ok(left) => left,
        Err(rule) => return Ok(Some(rule)),
    };
    match spread(alloc, table, slot, &insn, &left) {
        Ok(()) => Ok(None),
        Err(e) => Err(e),
    }
}
