//! Whole images.

ghost use Rattle.std.specs.Prelude.{◌≡◌, ◌<◌, ◌≤◌, ◌+◌, [], ◌++◌, length, replicate, reverse, IfOk, OnOk};
ghost use Rattle.limits.specs.declared.TheConstants.{SLOTS};
ghost use Rattle.native.specs.Code.{codes};
ghost use Rattle.native.specs.SlotCode.{IsBehind};
ghost use Rattle.native.specs.Correct.{IsNative};
ghost use Rattle.native.specs.Targets.{targets_in};
ghost use Rattle.native.specs.Pending.{ArePending, pending_in};
ghost use Rattle.native.specs.Laid.{IsPiece};
ghost use Rattle.native.specs.Openings.{entering_by};
ghost use Rattle.native.specs.Saved.{saved_for};
ghost use Rattle.native.specs.SlotTasks as slots;
ghost use Rattle.native.specs.Written.{IsCodeOf, IsLaidFrom, IsServed};

use crate::body::clear;
use crate::eligibility::is_eligible;
use crate::fusion::is_covered;
use crate::pending::pending_of;
use crate::prologue::Opening;
use crate::saved_registers::{SavedRegisters, saved_for};
use crate::sequence::write_all;
use crate::slot_code::{emit, emit_entry};
use crate::slot_tasks::{task_at, tasks_of};
use crate::targets::targets_of;
use crate::task::SlotTask;
use limits::SLOTS;
use std::alloc::{AllocError, Global};
use verifier::Image;
use x86::Instr;

// `count` zeros.
fn zeros(alloc: Global, count: usize) -> Result<Vec<u64>, AllocError>
    ensures { IfOk result (λ list. list.items ≡ replicate count 0) }
{
    let mut list = Vec::with_capacity(alloc, count)?;
    'fill: for _ in 0..count {
        list.push(0)?;
    }
    Ok(list)
}

// The code of a slot; none if no call comes to it, or if the instruction of the slot before does its task.
fn write_piece(
    alloc: Global,
    piece: &mut Vec<u8>,
    pending: &[u64],
    tails: &[u64],
    saved: SavedRegisters,
    tasks: &[SlotTask],
    targets: &[bool],
    slot: usize,
) -> Result<(), AllocError>
    requires few { slot < SLOTS }
    requires within { slot < length tasks.now }
    requires empty { piece.old.items ≡ [] }
    requires targets { targets.now ≡ targets_in tasks.now }
    requires pended { ArePending tasks.now pending.now }
    requires behind { IsBehind tails.now slot }
    ensures { OnOk result (IsPiece tasks.now pending.now tails.now saved slot (slots.task_at tasks.now slot) piece.new.items) }
{
    if is_covered(tasks, targets, slot) {
        return Ok(());
    }
    let task = task_at(tasks, slot);
    if !is_eligible(slot, &task) {
        return Ok(());
    }
    emit(alloc, piece, pending, tails, saved, tasks, targets, slot)?;
    Ok(())
}

// Puts the code of a slot before that of the later slots, and keeps the length of both together. `back` has the code in
// reverse; `piece` is room for the slot's own code.
fn lay_slot(
    alloc: Global,
    piece: &mut Vec<u8>,
    back: &mut Vec<u8>,
    tails: &mut Vec<u64>,
    opening: Opening,
    tasks: &[SlotTask],
    targets: &[bool],
    pending: &[u64],
    saved: SavedRegisters,
    slot: usize,
) -> Result<(), AllocError>
    requires within { slot < length tasks.now }
    requires few { length tasks.now ≤ SLOTS }
    requires targets { targets.now ≡ targets_in tasks.now }
    requires pended { ArePending tasks.now pending.now }
    requires pending { pending.now ≡ pending_in tasks.now }
    requires saved { saved ≡ saved_for opening tasks.now }
    requires laid { IsLaidFrom opening tasks.now tails.old.items (reverse back.old.items) (slot + 1) }
    ensures { OnOk result (IsLaidFrom opening tasks.now tails.new.items (reverse back.new.items) slot) }
{
    piece.clear();
    write_piece(
        alloc,
        piece,
        pending,
        tails.as_slice(),
        saved,
        tasks,
        targets,
        slot,
    )?;
    piece.reverse();
    back.extend_from_slice(piece.as_slice())?;
    tails[slot] = back.len() as u64;
    Ok(())
}

// The code's beginning.
fn write_entry(
    code: &mut Vec<u8>,
    opening: Opening,
    saved: SavedRegisters,
) -> Result<(), AllocError>
    ensures { OnOk result (code.new.items ≡ code.old.items ++ codes (entering_by opening saved)) }
{
    emit_entry(code, saved)?;
    match opening {
        Opening::Bare => Ok(()),
        Opening::Placed => {
            write_all(code, &[clear(8), Instr::MovImm { to: 12, imm: 512 }])?;
            Ok(())
        }
    }
}

/// The machine code of tasks, one for each slot, with this opening. It fails only if memory runs out.
pub fn write_tasks(
    alloc: Global,
    opening: Opening,
    tasks: &[SlotTask],
) -> Result<Vec<u8>, AllocError>
    requires { length tasks.now ≤ SLOTS }
    ensures { IfOk result (λ code. IsServed opening tasks.now code.items) }
{
    let targets = targets_of(alloc, tasks)?;
    let pending = pending_of(alloc, tasks)?;
    let saved = saved_for(opening, tasks);
    let mut tails = zeros(alloc, tasks.len() + 1)?;
    let mut piece = Vec::with_capacity(alloc, 256)?;
    let mut back = Vec::with_capacity(alloc, 8 * tasks.len())?;
    let mut slot = tasks.len();
    'slots: while slot > 0 {
        slot -= 1;
        lay_slot(
            alloc,
            &mut piece,
            &mut back,
            &mut tails,
            opening,
            tasks,
            targets.as_slice(),
            pending.as_slice(),
            saved,
            slot,
        )?;
    }
    back.reverse();
    let mut code = Vec::with_capacity(alloc, back.len().saturating_add(64))?;
    write_entry(&mut code, opening, saved)?;
    code.extend_from_slice(back.as_slice())?;
    Ok(code)
}

/// The machine code of an image. It fails only if memory runs out.
pub fn compile(alloc: Global, image: &Image) -> Result<Vec<u8>, AllocError>
    ensures native { IfOk result (λ code. IsNative image.now.form image.now.slots image.now.len code.items) }
    ensures one { IfOk result (λ code. IsCodeOf image.now.form image.now.slots image.now.len code.items) }
{
    // For the proof: their contracts say what an image is: it has a least typing, its slots and its bounds.
    let begin = image.begin();
    let _frame = image.kinds_at(begin);
    let (ops, pool) = image.operations();
    let tasks = tasks_of(alloc, image, ops, pool)?;
    let code = write_tasks(alloc, Opening::Bare, tasks.as_slice())?;
    // For the proof: a vector's length is below 2 ^ 64.
    let _fits = code.len();
    Ok(code)
}
