//! Instructions in another order.

ghost use Rattle.std.specs.Prelude.{◌≤◌};

use crate::slots::{insn_at, place_at, ways, ways_at};
use decode::Insn;
use limits::SLOTS;
use std::alloc::Global;

/// Code in another order.
#[derive(Drop)]
pub struct Placed {
    pub insns: Vec<Insn>,
    /// For each slot of the code the new slot of its instruction; `None` if no call comes to it.
    pub places: Vec<Option<usize>>,
}

/// Why code can't be put in another order.
#[derive(Drop)]
pub(crate) enum Misplaced {
    /// An instruction has no room, or the jump after it has none.
    NoRoom,
    Memory,
}

/// The k-th slot from the end.
fn from_end(slots: &[usize], k: usize) -> Option<usize> {
    if k < slots.len() {
        Some(slots[slots.len() - 1 - k])
    } else {
        None
    }
}

/// The next slot in the code, if another slot follows in the order: then a jump has to lead there.
fn parted(code: &[Option<Insn>], slot: usize, follower: Option<usize>) -> Option<usize> {
    let next = ways_at(code, slot).1;
    if next == follower { None } else { next }
}

/// How many slots the instruction of a slot takes, with the jump after it.
fn room_of(code: &[Option<Insn>], slot: usize, follower: Option<usize>) -> usize
    ensures { result ≤ 3 }
{
    let size = match insn_at(code, slot) {
        Some(insn) => insn.slots(),
        None => 1,
    };
    match parted(code, slot, follower) {
        Some(_) => size + 1,
        None => size,
    }
}

/// Sets the place of each slot's instruction, if all have room.
fn set_places(places: &mut [Option<usize>], code: &[Option<Insn>], finished: &[usize]) {
    let mut place = 0;
    for k in 0..finished.len() {
        let slot = finished[finished.len() - 1 - k];
        if slot < places.len() && place <= SLOTS {
            places[slot] = Some(place);
            place += room_of(code, slot, from_end(finished, k + 1));
        }
    }
}

/// A jump from a place to a later one, if there are both.
fn led_to(insn: &Insn, place: Option<usize>, to: Option<usize>) -> Option<Insn> {
    match (place, to) {
        (Some(place), Some(to)) if to > place && to - place <= SLOTS => {
            insn.with_distance((to - place - 1) as i32)
        }
        _ => None,
    }
}

/// The instruction of a slot with the distance that it needs at its place.
fn moved(code: &[Option<Insn>], places: &[Option<usize>], slot: usize) -> Option<Insn> {
    let insn = insn_at(code, slot)?;
    match ways(&insn, slot).0 {
        None => Some(insn),
        Some(to) => led_to(&insn, place_at(places, slot), place_at(places, to)),
    }
}

/// The jump after the instruction of a slot that leads to the place of another.
fn jump_to(
    code: &[Option<Insn>],
    places: &[Option<usize>],
    slot: usize,
    to: usize,
) -> Option<Insn> {
    let behind = match (place_at(places, slot), insn_at(code, slot)) {
        (Some(place), Some(insn)) => place.checked_add(insn.slots()),
        _ => None,
    };
    led_to(&Insn::Jump { offset: 0 }, behind, place_at(places, to))
}

/// Appends an instruction, if it has room.
fn put(insns: &mut Vec<Insn>, insn: Option<Insn>) -> Result<(), Misplaced> {
    match insn {
        Some(insn) => match insns.push(insn) {
            Ok(()) => Ok(()),
            Err(_) => Err(Misplaced::Memory),
        },
        None => Err(Misplaced::NoRoom),
    }
}

/// Appends the instruction of a slot, and after it the jump that it may need.
fn append(
    insns: &mut Vec<Insn>,
    code: &[Option<Insn>],
    places: &[Option<usize>],
    slot: usize,
    follower: Option<usize>,
) -> Result<(), Misplaced> {
    put(insns, moved(code, places, slot))?;
    match parted(code, slot, follower) {
        Some(to) => put(insns, jump_to(code, places, slot, to)),
        None => Ok(()),
    }
}

/// Appends all instructions in their order.
fn append_all(
    insns: &mut Vec<Insn>,
    code: &[Option<Insn>],
    places: &[Option<usize>],
    finished: &[usize],
) -> Result<(), Misplaced> {
    for k in 0..finished.len() {
        let slot = finished[finished.len() - 1 - k];
        append(insns, code, places, slot, from_end(finished, k + 1))?;
    }
    Ok(())
}

/// The code in the order of a search, which has the last slot first.
pub(crate) fn place(
    alloc: Global,
    code: &[Option<Insn>],
    finished: &[usize],
) -> Result<Placed, Misplaced> {
    let Ok(mut places) = Vec::from_elem(alloc, None, code.len()) else {
        return Err(Misplaced::Memory);
    };
    set_places(&mut places, code, finished);
    let mut insns = Vec::new(alloc);
    append_all(&mut insns, code, places.as_slice(), finished)?;
    Ok(Placed { insns, places })
}
