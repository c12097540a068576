//! Slots, and where they lead.

ghost use Rattle.std.specs.Prelude.{◌≡◌, ◌+◌, ◌+ℤ◌, IfSome, pos};
ghost use Rattle.decode.specs.Slots.{insn_at};
ghost use Rattle.block_order.specs.Placement.{place_at};

use decode::{Flow, Insn, flow_from};

/// The instruction that begins at a slot.
pub fn insn_at(slots: &[Option<Insn>], slot: usize) -> Option<Insn>
    ensures { result ≡ insn_at slots.now slot }
{
    match slots.get(slot) {
        Some(insn) => *insn,
        None => None,
    }
}

/// The place of the instruction of a slot.
pub fn place_at(places: &[Option<usize>], slot: usize) -> Option<usize>
    ensures { result ≡ place_at places.now slot }
{
    match places.get(slot) {
        Some(place) => *place,
        None => None,
    }
}

/// The slot that a jump leads to, if there is one of this number.
pub fn target(slot: usize, distance: i32) -> Option<usize>
    ensures { IfSome result (λ t. pos (slot + 1) +ℤ distance ≡ pos t) }
{
    let behind = slot.checked_add(1)?;
    let far = distance.unsigned_abs() as usize;
    if distance >= 0 {
        behind.checked_add(far)
    } else {
        behind.checked_sub(far)
    }
}

/// The slots that the instruction at a slot leads to: by its jump, and the next one.
pub(crate) fn ways(insn: &Insn, slot: usize) -> (Option<usize>, Option<usize>) {
    match flow_from(insn) {
        Flow::Ends => (None, None),
        Flow::Leaps(distance) => (target(slot, distance), None),
        Flow::Forks(distance) => (target(slot, distance), slot.checked_add(1)),
        Flow::Falls(size) => (None, slot.checked_add(size)),
    }
}

/// The same for a slot; none if no instruction begins there.
pub(crate) fn ways_at(slots: &[Option<Insn>], slot: usize) -> (Option<usize>, Option<usize>) {
    match insn_at(slots, slot) {
        Some(insn) => ways(&insn, slot),
        None => (None, None),
    }
}
