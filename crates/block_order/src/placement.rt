//! Whether code is other code with its instructions at other slots.

ghost use Rattle.std.specs.Prelude.{◌≡◌, ◌+◌, IfOk, IsTrue};
ghost use Rattle.decode.specs.Slots.{insn_at};
ghost use Rattle.decode.specs.Distance.{distance, with_distance};
ghost use Rattle.block_order.specs.Placement.{Arrives, ArrivesBy, IsPlacement, Stands, WaysArrive, place_at};

use crate::slots::{insn_at, place_at, target};
use decode::{Flow, Insn, encode, flow_from};
use std::alloc::{AllocError, Global};

/// Whether a slot of the other code leads to the place of the instruction of `to`: it is that place, or has a jump to
/// it.
fn arrives(other: &[Option<Insn>], places: &[Option<usize>], slot: usize, to: usize) -> bool
    ensures { IsTrue result → Arrives (insn_at other.now) (place_at places.now) slot to }
{
    let Some(place) = place_at(places, to) else {
        return false;
    };
    if place == slot {
        return true;
    }
    match insn_at(other, slot) {
        Some(Insn::Jump { offset }) => match target(slot, i32::from(offset)) {
            Some(moved) => moved == place,
            None => false,
        },
        _ => false,
    }
}

/// Whether a jump of the other code, from a place by a distance, leads to where a jump from a slot led.
fn arrives_by(
    other: &[Option<Insn>],
    places: &[Option<usize>],
    slot: usize,
    distance: i32,
    place: usize,
    by: i32,
) -> bool
    ensures { IsTrue result → ArrivesBy (insn_at other.now) (place_at places.now) slot distance place by }
{
    match (target(slot, distance), target(place, by)) {
        (Some(to), Some(moved)) => arrives(other, places, moved, to),
        _ => false,
    }
}

/// Whether the slot after a place of the other code leads to the place of the instruction after a slot.
fn arrives_behind(
    other: &[Option<Insn>],
    places: &[Option<usize>],
    slot: usize,
    place: usize,
    size: usize,
) -> bool
    ensures { IsTrue result → Arrives (insn_at other.now) (place_at places.now) (place + size) (slot + size) }
{
    match (place.checked_add(size), slot.checked_add(size)) {
        (Some(moved), Some(to)) => arrives(other, places, moved, to),
        _ => false,
    }
}

/// Whether each way out of a slot leads, from its place in the other code, to where it led.
fn ways_arrive(
    other: &[Option<Insn>],
    places: &[Option<usize>],
    slot: usize,
    flow: Flow,
    place: usize,
    by: i32,
) -> bool
    ensures { IsTrue result → WaysArrive (insn_at other.now) (place_at places.now) slot flow place by }
{
    match flow {
        Flow::Ends => true,
        Flow::Leaps(distance) => arrives_by(other, places, slot, distance, place, by),
        Flow::Forks(distance) => {
            arrives_by(other, places, slot, distance, place, by)
                && arrives_behind(other, places, slot, place, 1)
        }
        Flow::Falls(size) => arrives_behind(other, places, slot, place, size),
    }
}

/// Whether two instructions are the same; it compares their bytes.
fn is_one(alloc: Global, insn: &Insn, other: &Insn) -> Result<bool, AllocError>
    ensures { IfOk result (λ same. IsTrue same → other.now ≡ insn.now) }
{
    let ours = match encode(alloc, &[*insn]) {
        Ok(ours) => ours,
        Err(e) => return Err(e),
    };
    match encode(alloc, &[*other]) {
        Ok(theirs) => Ok(ours.as_slice() == theirs.as_slice()),
        Err(e) => Err(e),
    }
}

/// Whether two instructions are the same except for the distance by which they jump.
fn is_same(alloc: Global, insn: &Insn, other: &Insn) -> Result<bool, AllocError>
    ensures { IfOk result (λ same. IsTrue same → other.now ≡ with_distance insn.now (distance other.now)) }
{
    match insn.with_distance(other.distance()) {
        Some(same) => is_one(alloc, &same, other),
        None => Ok(false),
    }
}

/// Whether the instruction at a slot is at this place of the other code, with its ways.
fn stands(
    alloc: Global,
    code: &[Option<Insn>],
    other: &[Option<Insn>],
    places: &[Option<usize>],
    slot: usize,
    place: usize,
) -> Result<bool, AllocError>
    ensures { IfOk result (λ yes. IsTrue yes → Stands (insn_at code.now) (insn_at other.now) (place_at places.now) slot place) }
{
    let (Some(insn), Some(moved)) = (insn_at(code, slot), insn_at(other, place)) else {
        return Ok(false);
    };
    match is_same(alloc, &insn, &moved) {
        Ok(true) => {}
        refused => return refused,
    }
    let by = moved.distance();
    let flow = flow_from(&insn);
    Ok(ways_arrive(other, places, slot, flow, place, by))
}

/// Whether the other code is this code with its instructions at these places.
pub fn is_placement(
    alloc: Global,
    code: &[Option<Insn>],
    other: &[Option<Insn>],
    places: &[Option<usize>],
) -> Result<bool, AllocError>
    ensures { IfOk result (λ yes. IsTrue yes → IsPlacement (insn_at code.now) (insn_at other.now) (place_at places.now)) }
{
    if place_at(places, 0) != Some(0) {
        return Ok(false);
    }
    for slot in 0..places.len() {
        if let Some(place) = place_at(places, slot) {
            match stands(alloc, code, other, places, slot, place) {
                Ok(true) => {}
                refused => return refused,
            }
        }
    }
    Ok(true)
}
