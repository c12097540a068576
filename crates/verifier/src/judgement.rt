//! One slot of the pass: its rules, and the frames that leave it.

ghost use Rattle.std.specs.Prelude.{◌≡◌, ◌≤◌, ◌<◌, ◌+◌, MatchResult, OnErr, length, true, is_some, pos, ◌+ℤ◌, Some, None};
ghost use Rattle.decode.specs.Slots.{Follows, insn_at};
ghost use Rattle.regtypes.specs.Typing.{frame_at, is_target};
ghost use Rattle.verifier.specs.Fixpoint.{IsLeast, StopsAt};
ghost use Rattle.verifier.specs.Least.{flat_form};
ghost use Rattle.verifier.specs.Inside.Pass.{Merged};

use decode::{Flow, Insn, flow_from};
use limits::{PAYLOAD_BYTES, REGISTERS, SLOTS};
use regtypes::{Frame, ImageForm, Rule, join, leads, transfer};

/// Joins a frame into the frame of a slot.
fn merge(table: &mut [Option<Frame>], to: usize, frame: &Frame)
    requires within { to < length table.old }
    requires whole { length frame.now.kinds ≡ REGISTERS }
    requires short { frame.now.low ≤ PAYLOAD_BYTES }
    ensures { Merged table.old to frame.now table.new }
{
    table[to] = match &table[to] {
        Some(had) => Some(join(had, frame)),
        None => Some(*frame),
    };
}

/// The slot that a jump leads to.
fn target(slots: &[Option<Insn>], slot: usize, distance: i32) -> usize
    requires short { slot < SLOTS }
    requires target { is_target slots.now slot (pos (slot + 1) +ℤ distance) ≡ true }
    ensures place { pos (slot + 1) +ℤ distance ≡ pos result }
    ensures later { slot < result }
    ensures begins { is_some (insn_at slots.now result) ≡ true }
{
    slot + 1 + distance as usize
}

/// Judges one slot, and joins the frames that leave it into those of the next slots. A slot that no path leads to is
/// not judged.
pub fn judge(
    form: ImageForm,
    slots: &[Option<Insn>],
    state_len: u16,
    slot: usize,
    table: &mut [Option<Frame>],
) -> Result<(), Rule>
    requires short { length slots.now ≤ SLOTS }
    requires within { slot < length slots.now }
    requires same { length table.old ≡ length slots.now }
    requires follows { Follows slots.now }
    requires least { IsLeast (flat_form form state_len slots.now) slot (frame_at table.old) }
    ensures judged { MatchResult result (λ _. IsLeast (flat_form form state_len slots.now) (slot + 1) (frame_at table.new)) (λ rule. StopsAt (flat_form form state_len slots.now) rule slot) }
    ensures kept { OnErr result (table.new ≡ table.old) }
{
    let frame = match table[slot] {
        Some(frame) => frame,
        None => return Ok(()),
    };
    let insn = match slots[slot] {
        Some(insn) => insn,
        None => unreachable!(),
    };
    let flow = flow_from(&insn);
    if let Err(rule) = leads(slots, slot, &flow) {
        return Err(rule);
    }
    let left = match transfer(form, &insn, &frame, state_len) {
        Ok(left) => left,
        Err(rule) => return Err(rule),
    };
    match flow {
        Flow::Ends => {}
        Flow::Leaps(distance) => merge(table, target(slots, slot, distance), &left.taken),
        Flow::Forks(distance) => {
            merge(table, slot + 1, &left.next);
            merge(table, target(slots, slot, distance), &left.taken);
        }
        Flow::Falls(size) => merge(table, slot + size, &left.next),
    }
    Ok(())
}
