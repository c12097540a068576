//! The code of each slot.

ghost use Rattle.std.specs.Prelude.{◌≡◌, ◌<◌, ◌≤◌, ◌+◌, ◌-◌, ◌^◌, true, ◌++◌, length, slice_index, OnOk};
ghost use Rattle.native.specs.Code.{Emits, codes};
ghost use Rattle.native.specs.SlotCode.{flushed, skipped, IsBehind, Counts, Reaches, Plain, Forks, Jumps, Ends, Serves};
ghost use Rattle.native.specs.Openings.{leaving, entering};
ghost use Rattle.native.specs.Pending.{taken, IsBalanced, ArePending};
ghost use Rattle.native.specs.SlotCode as specs;
ghost use Rattle.native.specs.Targets.{targets_in};
ghost use Rattle.native.specs.Fusion as fusion;
ghost use Rattle.native.specs.Laid.{Fuses, ServesBy};
ghost use Rattle.native.specs.SlotTasks as slots;
ghost use Rattle.native.specs.Tasks.{is_eligible};

use crate::body::{body_of, clear};
use crate::comparison::{compare_code, condition_of};
use crate::fusion::fused;
use crate::pending::number_at;
use crate::saved::{write_restoring, write_saving};
use crate::saved_registers::SavedRegisters;
use crate::sequence::write_all;
use crate::slot_tasks::task_at;
use crate::task::SlotTask;
use crate::task_code::emit_done;
use decode::{Condition, Operand, Reg, Size, Width};
use limits::SLOTS;
use std::alloc::{AllocError, Global};
use x86::Instr;

// How many steps are added to the count when the call goes on at another slot.
fn count(pending: &[u64], slot: usize, to: usize) -> u64
    requires small { slice_index pending.now slot < 2 ^ 31 - 1 }
    requires less { slice_index pending.now to ≤ slice_index pending.now slot + 1 }
    ensures { Counts pending.now slot to result }
{
    number_at(pending, slot) + 1 - number_at(pending, to)
}

// The distance from the end of a slot's code to the code of a later slot.
fn distance(tails: &[u64], slot: usize, to: usize) -> u64
    requires few { slot < SLOTS }
    requires later { slot < to }
    requires behind { IsBehind tails.now slot }
    ensures { Reaches tails.now slot to result }
{
    number_at(tails, slot + 1) - number_at(tails, to)
}

// A jump forward.
fn jump_code(distance: u64) -> Instr
    ensures { result ≡ specs.jump_code distance }
{
    if distance < 128 {
        Instr::JumpShort {
            distance: distance as u8,
        }
    } else {
        Instr::Jump { distance }
    }
}

fn jump_if_code(condition: x86::ConditionCode, distance: u64) -> Instr
    ensures { result ≡ specs.jump_if_code condition distance }
{
    if distance < 128 {
        Instr::JumpIfShort {
            condition,
            distance: distance as u8,
        }
    } else {
        Instr::JumpIf {
            condition,
            distance,
        }
    }
}

// Adds to the count of steps.
fn flush(code: &mut Vec<u8>, k: u64) -> Result<(), AllocError>
    ensures { OnOk result (code.new.items ≡ code.old.items ++ codes (flushed k)) }
{
    if k == 0 {
        Ok(())
    } else {
        Instr::Lea {
            to: 11,
            base: 11,
            disp: k,
        }
        .write(code)
    }
}

// Jumps over a wide instruction's second slot, if that has code.
fn skip(code: &mut Vec<u8>, distance: u64) -> Result<(), AllocError>
    ensures { OnOk result (code.new.items ≡ code.old.items ++ codes (skipped distance)) }
{
    if distance == 0 {
        Ok(())
    } else {
        jump_code(distance).write(code)
    }
}

// How many slots a task takes.
fn taken(task: SlotTask) -> usize
    ensures value { result ≡ taken task }
    ensures few { result ≤ 2 }
{
    match task {
        SlotTask::Wide { .. } => 2,
        _ => 1,
    }
}

/// A task that always goes on.
fn emit_plain(
    alloc: Global,
    code: &mut Vec<u8>,
    pending: &[u64],
    tails: &[u64],
    slot: usize,
    task: SlotTask,
) -> Result<(), AllocError>
    requires few { slot < SLOTS }
    requires small { slice_index pending.now slot < 2 ^ 31 - 1 }
    requires balanced { slice_index pending.now (slot + taken task) ≤ slice_index pending.now slot + 1 }
    requires behind { IsBehind tails.now slot }
    ensures { OnOk result (Emits (Plain pending.now tails.now slot task) code.old.items code.new.items) }
{
    let next = slot + taken(task);
    let steps = count(pending, slot, next);
    let past = distance(tails, slot, next);
    // For the proof: the contract of `body_of` says that the task's number fits 32 bits.
    let _short = body_of(task);
    emit_done(alloc, code, task)?;
    flush(code, steps)?;
    skip(code, past)
}

/// The instruction of a slot and the next.
fn emit_fused(
    code: &mut Vec<u8>,
    pending: &[u64],
    tails: &[u64],
    slot: usize,
    instr: Instr,
    second: SlotTask,
) -> Result<(), AllocError>
    requires few { slot < SLOTS }
    requires small { slice_index pending.now slot < 2 ^ 31 - 2 }
    requires balanced { slice_index pending.now (slot + 2) ≤ slice_index pending.now slot + 2 }
    requires behind { IsBehind tails.now slot }
    ensures { OnOk result (Emits (Fuses pending.now tails.now slot instr second) code.old.items code.new.items) }
{
    let next = slot + 2;
    let steps = number_at(pending, slot) + 2 - number_at(pending, next);
    let past = distance(tails, slot, next);
    // For the proof: the contract of `body_of` says that the task's number fits 32 bits.
    let _short = body_of(second);
    write_all(code, &[instr])?;
    flush(code, steps)?;
    skip(code, past)
}

/// A conditional jump.
fn emit_branch(
    code: &mut Vec<u8>,
    pending: &[u64],
    tails: &[u64],
    slot: usize,
    condition: Condition,
    width: Width,
    dst: Reg,
    operand: Operand,
    to: u16,
) -> Result<(), AllocError>
    requires few { slot < SLOTS }
    requires later { slot < to }
    requires small { slice_index pending.now slot < 2 ^ 31 - 1 }
    requires balanced { IsBalanced pending.now slot (SlotTask.Branch condition width dst operand to) }
    requires behind { IsBehind tails.now slot }
    ensures { OnOk result (Emits (Forks pending.now tails.now slot condition width dst.number operand to) code.old.items code.new.items) }
{
    let steps = count(pending, slot, slot + 1);
    let distance = distance(tails, slot, to as usize);
    flush(code, steps)?;
    let jump = jump_if_code(condition_of(condition), distance);
    write_all(code, &[compare_code(condition, width, dst, operand), jump])
}

/// A jump.
fn emit_leap(
    code: &mut Vec<u8>,
    pending: &[u64],
    tails: &[u64],
    slot: usize,
    to: u16,
) -> Result<(), AllocError>
    requires few { slot < SLOTS }
    requires later { slot < to }
    requires small { slice_index pending.now slot < 2 ^ 31 - 1 }
    requires balanced { slice_index pending.now to ≤ slice_index pending.now slot + 1 }
    requires behind { IsBehind tails.now slot }
    ensures { OnOk result (Emits (Jumps pending.now tails.now slot to) code.old.items code.new.items) }
{
    let steps = count(pending, slot, to as usize);
    let distance = distance(tails, slot, to as usize);
    flush(code, steps)?;
    write_all(code, &[jump_code(distance)])
}

/// The end of a call.
fn emit_exit(
    code: &mut Vec<u8>,
    pending: &[u64],
    saved: SavedRegisters,
    slot: usize,
) -> Result<(), AllocError>
    requires { slice_index pending.now slot < 2 ^ 31 - 1 }
    ensures { OnOk result (Emits (Ends pending.now saved slot) code.old.items code.new.items) }
{
    flush(code, number_at(pending, slot) + 1)?;
    emit_leaving(code, saved)
}

// Stores the count of steps, and returns.
fn emit_leaving(code: &mut Vec<u8>, saved: SavedRegisters) -> Result<(), AllocError>
    ensures { OnOk result (code.new.items ≡ code.old.items ++ codes (leaving saved)) }
{
    Instr::Store {
        size: Size::Double,
        base: 6,
        disp: 16,
        from: 11,
    }
    .write(code)?;
    write_restoring(code, saved)?;
    Instr::Return.write(code)
}

/// The beginning of a call.
pub(crate) fn emit_entry(code: &mut Vec<u8>, saved: SavedRegisters) -> Result<(), AllocError>
    ensures { OnOk result (code.new.items ≡ code.old.items ++ codes (entering saved)) }
{
    write_saving(code, saved)?;
    let begin = [
        Instr::Lea {
            to: 7,
            base: 7,
            disp: 384,
        },
        Instr::Mov {
            width: Width::W64,
            to: 9,
            from: 2,
        },
        clear(11),
    ];
    write_all(code, &begin)
}

/// The code of a task.
fn emit_task(
    alloc: Global,
    code: &mut Vec<u8>,
    pending: &[u64],
    tails: &[u64],
    saved: SavedRegisters,
    slot: usize,
    task: SlotTask,
) -> Result<(), AllocError>
    requires few { slot < SLOTS }
    requires eligible { is_eligible slot task ≡ true }
    requires small { slice_index pending.now slot < 2 ^ 31 - 1 }
    requires balanced { IsBalanced pending.now slot task }
    requires behind { IsBehind tails.now slot }
    ensures { OnOk result (Emits (Serves pending.now tails.now saved slot task) code.old.items code.new.items) }
{
    match task {
        SlotTask::Branch {
            condition,
            width,
            dst,
            operand,
            to,
        } => {
            emit_branch(
                code, pending, tails, slot, condition, width, dst, operand, to,
            )
        }
        SlotTask::Leap { to } => emit_leap(code, pending, tails, slot, to),
        SlotTask::Exit => emit_exit(code, pending, saved, slot),
        SlotTask::Dead => Ok(()),
        _ => emit_plain(alloc, code, pending, tails, slot, task),
    }
}

/// The code of a slot whose task the slot before doesn't do.
pub(crate) fn emit(
    alloc: Global,
    code: &mut Vec<u8>,
    pending: &[u64],
    tails: &[u64],
    saved: SavedRegisters,
    tasks: &[SlotTask],
    targets: &[bool],
    slot: usize,
) -> Result<(), AllocError>
    requires few { slot < SLOTS }
    requires within { slot < length tasks.now }
    requires targets { targets.now ≡ targets_in tasks.now }
    requires eligible { is_eligible slot (slots.task_at tasks.now slot) ≡ true }
    requires pended { ArePending tasks.now pending.now }
    requires behind { IsBehind tails.now slot }
    ensures { OnOk result (Emits (ServesBy (fusion.fused tasks.now slot) tasks.now pending.now tails.now saved slot (slots.task_at tasks.now slot)) code.old.items code.new.items) }
{
    match fused(tasks, targets, slot) {
        Some(instr) => emit_fused(code, pending, tails, slot, instr, task_at(tasks, slot + 1)),
        None => emit_task(
            alloc,
            code,
            pending,
            tails,
            saved,
            slot,
            task_at(tasks, slot),
        ),
    }
}
