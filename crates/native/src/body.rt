//! The instructions of tasks that have no jump.

ghost use Rattle.std.specs.Prelude.{◌≡◌};
ghost use Rattle.operations.specs.Operations.{word_of};
ghost use Rattle.x86.specs.Machine.{extended};
ghost use Rattle.native.specs.Code as codes;
ghost use Rattle.native.specs.Code.{IsNear, TaskIsShort};

use crate::computation::{alu_code, compute_code};
use crate::task::SlotTask;
use decode::{ByteOrder, Extension, Reg, SignedSize, Size, SwapBits, Width};
use operations::word_of_imm;
use x86::{Alu, Instr};

/// The instructions of a task that has no jump.
#[derive(Clone, Copy)]
pub(crate) enum Body {
    Empty,
    One(Instr),
    Two(Instr, Instr),
    Three(Instr, Instr, Instr),
}

/// The processor's register for a register of the handler.
pub(crate) fn gpr(reg: Reg) -> u8
    ensures { result ≡ codes.gpr reg.number }
{
    let table = [0u8, 8, 12, 9, 10, 3, 5, 13, 14, 15, 4];
    table[reg.number as usize]
}

/// A position in the array, relative to rdi.
pub(crate) fn seen(at: u64) -> u64
    ensures { result ≡ codes.seen at }
{
    (at % 0x1_0000_0000 + 0xffff_fe80) % 0x1_0000_0000
}

/// An immediate, as instructions take it.
pub(crate) fn number(imm: i32) -> u64
    ensures value { result ≡ word_of imm }
    ensures short { extended (word_of imm) ≡ word_of imm }
{
    word_of_imm(imm)
}

/// Sets a register that holds a word to 0.
pub(crate) fn clear(to: u8) -> Instr
    ensures { result ≡ codes.clear to }
{
    Instr::Alu {
        op: Alu::Xor,
        width: Width::W32,
        to,
        from: to,
    }
}

// The low bits, in the order that they have.
fn low_code(bits: SwapBits, to: u8) -> Body
    ensures { result ≡ codes.reorder_code ByteOrder.Little bits to }
{
    match bits {
        SwapBits::Bits16 => Body::One(Instr::MovZx { to, from: to }),
        SwapBits::Bits32 => Body::One(Instr::Mov {
            width: Width::W32,
            to,
            from: to,
        }),
        SwapBits::Bits64 => Body::One(Instr::Mov {
            width: Width::W64,
            to,
            from: to,
        }),
    }
}

// The low bits, with their bytes in reverse order.
fn swap_code(bits: SwapBits, to: u8) -> Body
    ensures big { result ≡ codes.reorder_code ByteOrder.Big bits to }
    ensures swap { result ≡ codes.reorder_code ByteOrder.Swap bits to }
{
    match bits {
        SwapBits::Bits16 => Body::Two(Instr::SwapLow { to }, Instr::MovZx { to, from: to }),
        SwapBits::Bits32 => Body::One(Instr::Swap {
            width: Width::W32,
            to,
        }),
        SwapBits::Bits64 => Body::One(Instr::Swap {
            width: Width::W64,
            to,
        }),
    }
}

fn reorder_code(order: ByteOrder, bits: SwapBits, to: u8) -> Body
    ensures { result ≡ codes.reorder_code order bits to }
{
    match order {
        ByteOrder::Little => low_code(bits, to),
        ByteOrder::Big => swap_code(bits, to),
        ByteOrder::Swap => swap_code(bits, to),
    }
}

fn extend_code(extension: Extension, dst: Reg, src: Reg) -> Body
    ensures { result ≡ codes.body_of (SlotTask.Extend extension dst src) }
{
    let extend = Instr::MovSx {
        extension,
        to: gpr(dst),
        from: gpr(src),
    };
    Body::One(extend)
}

fn negate_code(width: Width, dst: Reg) -> Body
    ensures { result ≡ codes.body_of (SlotTask.Negate width dst) }
{
    let to = gpr(dst);
    Body::One(Instr::Neg { width, to })
}

fn wide_code(dst: Reg, value: u64) -> Body
    ensures { result ≡ codes.body_of (SlotTask.Wide dst value) }
{
    let to = gpr(dst);
    Body::One(Instr::MovWide { to, imm: value })
}

fn load_code(size: Size, dst: Reg, at: u16) -> Body
    ensures { result ≡ codes.body_of (SlotTask.Load size dst at) }
{
    let load = Instr::Load {
        size,
        to: gpr(dst),
        base: 7,
        disp: seen(at as u64),
    };
    Body::One(load)
}

fn load_sx_code(size: SignedSize, dst: Reg, at: u16) -> Body
    ensures { result ≡ codes.body_of (SlotTask.LoadSx size dst at) }
{
    let load = Instr::LoadSx {
        size,
        to: gpr(dst),
        base: 7,
        disp: seen(at as u64),
    };
    Body::One(load)
}

fn store_code(size: Size, src: Reg, at: u16) -> Body
    ensures { result ≡ codes.body_of (SlotTask.Store size src at) }
{
    let store = Instr::Store {
        size,
        base: 7,
        disp: seen(at as u64),
        from: gpr(src),
    };
    Body::One(store)
}

fn store_imm_code(size: Size, at: u16, imm: i32) -> Body
    ensures value { result ≡ codes.body_of (SlotTask.StoreImm size at imm) }
    ensures short { TaskIsShort (SlotTask.StoreImm size at imm) }
{
    Body::One(Instr::StoreImm {
        size,
        base: 7,
        disp: seen(at as u64),
        imm: number(imm),
    })
}

// rdx gets the address that a register's position and an offset give.
fn reach_code(base: Reg, offset: i16) -> Instr
    ensures value { result ≡ codes.reach_code base.number offset }
    ensures near { IsNear offset }
{
    Instr::LeaBy {
        to: 2,
        base: 7,
        index: gpr(base),
        disp: seen(number(i32::from(offset))),
    }
}

fn load_by_code(size: Size, dst: Reg, base: Reg, offset: i16) -> Body
    ensures value { result ≡ codes.body_of (SlotTask.LoadBy size dst base offset) }
    ensures near { IsNear offset }
{
    let load = Instr::Load {
        size,
        to: gpr(dst),
        base: 2,
        disp: 0,
    };
    Body::Two(reach_code(base, offset), load)
}

fn load_sx_by_code(size: SignedSize, dst: Reg, base: Reg, offset: i16) -> Body
    ensures value { result ≡ codes.body_of (SlotTask.LoadSxBy size dst base offset) }
    ensures near { IsNear offset }
{
    let load = Instr::LoadSx {
        size,
        to: gpr(dst),
        base: 2,
        disp: 0,
    };
    Body::Two(reach_code(base, offset), load)
}

fn store_by_code(size: Size, src: Reg, base: Reg, offset: i16) -> Body
    ensures value { result ≡ codes.body_of (SlotTask.StoreBy size src base offset) }
    ensures near { IsNear offset }
{
    let store = Instr::Store {
        size,
        base: 2,
        disp: 0,
        from: gpr(src),
    };
    Body::Two(reach_code(base, offset), store)
}

fn store_imm_by_code(size: Size, base: Reg, offset: i16, imm: i32) -> Body
    ensures value { result ≡ codes.body_of (SlotTask.StoreImmBy size base offset imm) }
    ensures short { TaskIsShort (SlotTask.StoreImmBy size base offset imm) }
{
    let store = Instr::StoreImm {
        size,
        base: 2,
        disp: 0,
        imm: number(imm),
    };
    Body::Two(reach_code(base, offset), store)
}

// r0 gets a word of the record.
fn told_code(at: u64) -> Body
    ensures { result ≡ codes.told_code at }
{
    Body::One(Instr::Load {
        size: Size::Double,
        to: 0,
        base: 6,
        disp: at,
    })
}

/// The instructions of a task that has no jump.
pub(crate) fn body_of(task: SlotTask) -> Body
    ensures value { result ≡ codes.body_of task }
    ensures short { TaskIsShort task }
{
    match task {
        SlotTask::Compute {
            op,
            width,
            dst,
            operand,
        } => compute_code(op, width, gpr(dst), operand),
        SlotTask::Extend {
            extension,
            dst,
            src,
        } => extend_code(extension, dst, src),
        SlotTask::Negate { width, dst } => negate_code(width, dst),
        SlotTask::Reorder { order, bits, dst } => reorder_code(order, bits, gpr(dst)),
        SlotTask::Load { size, dst, at } => load_code(size, dst, at),
        SlotTask::LoadSx { size, dst, at } => load_sx_code(size, dst, at),
        SlotTask::Store { size, src, at } => store_code(size, src, at),
        SlotTask::StoreImm { size, at, imm } => store_imm_code(size, at, imm),
        SlotTask::LoadBy {
            size,
            dst,
            base,
            offset,
        } => load_by_code(size, dst, base, offset),
        SlotTask::LoadSxBy {
            size,
            dst,
            base,
            offset,
        } => load_sx_by_code(size, dst, base, offset),
        SlotTask::StoreBy {
            size,
            src,
            base,
            offset,
        } => store_by_code(size, src, base, offset),
        SlotTask::StoreImmBy {
            size,
            base,
            offset,
            imm,
        } => store_imm_by_code(size, base, offset, imm),
        SlotTask::Wide { dst, value } => wide_code(dst, value),
        SlotTask::Me => told_code(24),
        SlotTask::From => told_code(32),
        SlotTask::Branch { operand, .. } => {
            // For the proof, as above.
            let _short = alu_code(Alu::Add, Width::W64, 0, operand);
            Body::Empty
        }
        SlotTask::Leap { .. } => Body::Empty,
        SlotTask::Send { .. } => Body::Empty,
        SlotTask::Output { .. } => Body::Empty,
        SlotTask::SendSized { .. } => Body::Empty,
        SlotTask::OutputSized { .. } => Body::Empty,
        SlotTask::SendBy => Body::Empty,
        SlotTask::OutputBy => Body::Empty,
        SlotTask::SendSizedBy => Body::Empty,
        SlotTask::OutputSizedBy => Body::Empty,
        SlotTask::Exit => Body::Empty,
        SlotTask::Dead => Body::Empty,
    }
}
