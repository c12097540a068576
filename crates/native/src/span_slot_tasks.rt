//! The task of each slot.

ghost use Rattle.std.specs.Prelude.{◌≡◌, ◌==◌, ◌≤◌, ◌<◌, IfOk, length};
ghost use Rattle.limits.specs.declared.TheConstants.{SLOTS};
ghost use Rattle.decode.specs.declared.insn.Insn.TheVariants as insn;
ghost use Rattle.spans.specs.Concrete.{array_size};
ghost use Rattle.native.specs.SpanTasks as specs;

use crate::task::SlotTask;
use decode::{Insn, Operand, Reg, SignedSize, Size};
use limits::{SLOTS, STACK_BYTES, STATE_BYTES};
use operations::word_of_imm;
use std::alloc::{AllocError, Global};

// Bytes of the message and the zeros after it.
const MESSAGE_BYTES: u16 = 512;

// Whether a register is r10.
fn is_end(reg: Reg) -> bool
    ensures { result ≡ (reg.number == 10) }
{
    reg.number == 10
}

// The end of the array, which is the value of r10.
fn end_of(state_len: u16) -> u16
    requires { state_len ≤ STATE_BYTES }
    ensures value { result ≡ array_size state_len }
    ensures bound { result ≤ 2048 }
{
    MESSAGE_BYTES + state_len + STACK_BYTES as u16
}

// An operand, with the constant in place of r10.
fn operand_in(state_len: u16, operand: Operand) -> Operand
    requires { state_len ≤ STATE_BYTES }
    ensures { result ≡ specs.operand_in state_len operand }
{
    match operand {
        Operand::Imm(imm) => Operand::Imm(imm),
        Operand::Reg(reg) => {
            if is_end(reg) {
                Operand::Imm(i32::from(end_of(state_len)))
            } else {
                Operand::Reg(reg)
            }
        }
    }
}

// The position that r10 and an offset give.
fn stack_at(state_len: u16, offset: i16) -> u16
    requires { state_len ≤ STATE_BYTES }
    ensures { result ≡ specs.stack_at state_len offset }
{
    let at = u64::from(end_of(state_len)).wrapping_add(word_of_imm(i32::from(offset)));
    (at % 0x1_0000) as u16
}

// The slot at this distance from the next one.
fn slot_of(slot: usize, distance: i32) -> u16
    requires { slot < SLOTS }
    ensures { result ≡ specs.slot_of slot (insn.JumpLong distance) }
{
    let to = (slot as i64 + 1 + i64::from(distance)).unsigned_abs();
    (to % 0x1_0000) as u16
}

fn load_task(state_len: u16, size: Size, dst: Reg, src: Reg, offset: i16) -> SlotTask
    requires { state_len ≤ STATE_BYTES }
    ensures { result ≡ specs.load_task state_len size dst src offset }
{
    if is_end(src) {
        let at = stack_at(state_len, offset);
        SlotTask::Load { size, dst, at }
    } else {
        SlotTask::LoadBy {
            size,
            dst,
            base: src,
            offset,
        }
    }
}

fn load_sx_task(state_len: u16, size: SignedSize, dst: Reg, src: Reg, offset: i16) -> SlotTask
    requires { state_len ≤ STATE_BYTES }
    ensures { result ≡ specs.load_sx_task state_len size dst src offset }
{
    if is_end(src) {
        let at = stack_at(state_len, offset);
        SlotTask::LoadSx { size, dst, at }
    } else {
        SlotTask::LoadSxBy {
            size,
            dst,
            base: src,
            offset,
        }
    }
}

fn store_imm_task(state_len: u16, size: Size, base: Reg, offset: i16, imm: i32) -> SlotTask
    requires { state_len ≤ STATE_BYTES }
    ensures { result ≡ specs.store_imm_task state_len size base offset imm }
{
    if is_end(base) {
        let at = stack_at(state_len, offset);
        SlotTask::StoreImm { size, at, imm }
    } else {
        SlotTask::StoreImmBy {
            size,
            base,
            offset,
            imm,
        }
    }
}

fn store_task(state_len: u16, size: Size, base: Reg, src: Reg, offset: i16) -> SlotTask
    requires { state_len ≤ STATE_BYTES }
    ensures { result ≡ specs.store_task state_len size base src offset }
{
    if is_end(base) {
        let at = stack_at(state_len, offset);
        SlotTask::Store { size, src, at }
    } else {
        SlotTask::StoreBy {
            size,
            src,
            base,
            offset,
        }
    }
}

fn store_reg_task(state_len: u16, size: Size, base: Reg, src: Reg, offset: i16) -> SlotTask
    requires { state_len ≤ STATE_BYTES }
    ensures { result ≡ specs.store_reg_task state_len size base src offset }
{
    if is_end(src) {
        let imm = i32::from(end_of(state_len));
        store_imm_task(state_len, size, base, offset, imm)
    } else {
        store_task(state_len, size, base, src, offset)
    }
}

fn helper_task(helper: i32) -> SlotTask
    ensures { result ≡ specs.helper_task helper }
{
    match helper {
        1 => SlotTask::SendBy,
        2 => SlotTask::OutputBy,
        3 => SlotTask::Me,
        4 => SlotTask::From,
        5 => SlotTask::SendSizedBy,
        6 => SlotTask::OutputSizedBy,
        _ => SlotTask::Dead,
    }
}

// The task of an instruction at a slot.
fn task_of(state_len: u16, slot: usize, insn: &Insn) -> SlotTask
    requires state { state_len ≤ STATE_BYTES }
    requires slot { slot < SLOTS }
    ensures { result ≡ specs.task_in state_len slot insn.now }
{
    match *insn {
        Insn::Alu {
            op,
            width,
            dst,
            operand,
        } => SlotTask::Compute {
            op,
            width,
            dst,
            operand: operand_in(state_len, operand),
        },
        Insn::MovSx {
            extension,
            dst,
            src,
        } => SlotTask::Extend {
            extension,
            dst,
            src,
        },
        Insn::Neg { width, dst } => SlotTask::Negate { width, dst },
        Insn::End { order, bits, dst } => SlotTask::Reorder { order, bits, dst },
        Insn::Jump { offset } => SlotTask::Leap {
            to: slot_of(slot, i32::from(offset)),
        },
        Insn::JumpLong { distance } => SlotTask::Leap {
            to: slot_of(slot, distance),
        },
        Insn::JumpIf {
            condition,
            width,
            dst,
            operand,
            offset,
        } => SlotTask::Branch {
            condition,
            width,
            dst,
            operand: operand_in(state_len, operand),
            to: slot_of(slot, i32::from(offset)),
        },
        Insn::Call { helper } => helper_task(helper),
        Insn::Exit => SlotTask::Exit,
        Insn::Load {
            size,
            dst,
            src,
            offset,
        } => load_task(state_len, size, dst, src, offset),
        Insn::LoadSx {
            size,
            dst,
            src,
            offset,
        } => load_sx_task(state_len, size, dst, src, offset),
        Insn::StoreReg {
            size,
            dst,
            src,
            offset,
        } => store_reg_task(state_len, size, dst, src, offset),
        Insn::StoreImm {
            size,
            dst,
            offset,
            imm,
        } => store_imm_task(state_len, size, dst, offset, imm),
        Insn::Wide { dst, value } => SlotTask::Wide { dst, value },
    }
}

// The task of a slot.
fn task_there(state_len: u16, slot: usize, insn: &Option<Insn>) -> SlotTask
    requires state { state_len ≤ STATE_BYTES }
    requires slot { slot < SLOTS }
    ensures { result ≡ specs.task_there state_len slot insn.now }
{
    match insn {
        Some(insn) => task_of(state_len, slot, insn),
        None => SlotTask::Dead,
    }
}

/// The task of each slot of code with a state of this length.
pub(crate) fn tasks_of(
    alloc: Global,
    slots: &[Option<Insn>],
    state_len: u16,
) -> Result<Vec<SlotTask>, AllocError>
    requires state { state_len ≤ STATE_BYTES }
    requires few { length slots.now ≤ SLOTS }
    ensures { IfOk result (λ tasks. tasks.items ≡ specs.tasks_in slots.now state_len (length slots.now)) }
{
    let mut tasks = Vec::with_capacity(alloc, slots.len())?;
    'slots: for slot in 0..slots.len() {
        tasks.push(task_there(state_len, slot, &slots[slot]))?;
    }
    Ok(tasks)
}
