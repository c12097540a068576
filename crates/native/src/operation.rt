//! The task of each operation.

ghost use Rattle.std.specs.Prelude.{◌≡◌, ℕ, List, IfSome, length};
ghost use Rattle.helpers.specs.declared.effects.Who.{Who};
ghost use Rattle.helpers.specs.Effects.{Emitted};
ghost use Rattle.dense.specs.Acts.{IsWithin};
ghost use Rattle.dense.specs.Inside.Acts.{act_of};
ghost use Rattle.native.specs.Inside.Operations as specs;
ghost use Rattle.native.specs.Inside.Operations.{task_for};
ghost use Rattle.native.specs.Tasks.{task_act, TaskWithin, TaskFits};

use crate::arithmetic::arithmetic;
use crate::jump::jump;
use crate::task::SlotTask;
use decode::{ByteOrder, Extension, Reg, SignedSize, Size, SwapBits, Width};
use dense::Op;

#[inline(always)]
fn extend(extension: Extension, dst: Reg, src: Reg) -> SlotTask
    ensures { result ≡ SlotTask.Extend extension dst src }
{
    SlotTask::Extend {
        extension,
        dst,
        src,
    }
}

#[inline(always)]
fn negate(width: Width, dst: Reg) -> SlotTask
    ensures { result ≡ SlotTask.Negate width dst }
{
    SlotTask::Negate { width, dst }
}

#[inline(always)]
fn reorder(order: ByteOrder, bits: SwapBits, dst: Reg) -> SlotTask
    ensures { result ≡ SlotTask.Reorder order bits dst }
{
    SlotTask::Reorder { order, bits, dst }
}

#[inline(always)]
fn load(size: Size, dst: Reg, at: u16) -> SlotTask
    ensures { result ≡ SlotTask.Load size dst at }
{
    SlotTask::Load { size, dst, at }
}

#[inline(always)]
fn load_sx(size: SignedSize, dst: Reg, at: u16) -> SlotTask
    ensures { result ≡ SlotTask.LoadSx size dst at }
{
    SlotTask::LoadSx { size, dst, at }
}

#[inline(always)]
fn store(size: Size, src: Reg, at: u16) -> SlotTask
    ensures { result ≡ SlotTask.Store size src at }
{
    SlotTask::Store { size, src, at }
}

#[inline(always)]
fn store_imm(size: Size, at: u16, imm: i32) -> SlotTask
    ensures { result ≡ SlotTask.StoreImm size at imm }
{
    SlotTask::StoreImm { size, at, imm }
}

// The other operations on registers.
fn of_registers(op: Op) -> Option<SlotTask>
    ensures { result ≡ specs.of_registers op }
{
    match op {
        Op::MovSxW32From8 { dst, src } => Some(extend(Extension::W32From8, dst, src)),
        Op::MovSxW32From16 { dst, src } => Some(extend(Extension::W32From16, dst, src)),
        Op::MovSxW64From8 { dst, src } => Some(extend(Extension::W64From8, dst, src)),
        Op::MovSxW64From16 { dst, src } => Some(extend(Extension::W64From16, dst, src)),
        Op::MovSxW64From32 { dst, src } => Some(extend(Extension::W64From32, dst, src)),
        Op::Neg64 { dst } => Some(negate(Width::W64, dst)),
        Op::Neg32 { dst } => Some(negate(Width::W32, dst)),
        Op::Little16 { dst } => Some(reorder(ByteOrder::Little, SwapBits::Bits16, dst)),
        Op::Little32 { dst } => Some(reorder(ByteOrder::Little, SwapBits::Bits32, dst)),
        Op::Little64 { dst } => Some(reorder(ByteOrder::Little, SwapBits::Bits64, dst)),
        Op::Big16 { dst } => Some(reorder(ByteOrder::Big, SwapBits::Bits16, dst)),
        Op::Big32 { dst } => Some(reorder(ByteOrder::Big, SwapBits::Bits32, dst)),
        Op::Big64 { dst } => Some(reorder(ByteOrder::Big, SwapBits::Bits64, dst)),
        Op::Swap16 { dst } => Some(reorder(ByteOrder::Swap, SwapBits::Bits16, dst)),
        Op::Swap32 { dst } => Some(reorder(ByteOrder::Swap, SwapBits::Bits32, dst)),
        Op::Swap64 { dst } => Some(reorder(ByteOrder::Swap, SwapBits::Bits64, dst)),
        _ => None,
    }
}

// Loads and stores.
fn of_memory(op: Op) -> Option<SlotTask>
    ensures { result ≡ specs.of_memory op }
{
    match op {
        Op::LoadDouble { dst, at } => Some(load(Size::Double, dst, at)),
        Op::LoadWord { dst, at } => Some(load(Size::Word, dst, at)),
        Op::LoadHalf { dst, at } => Some(load(Size::Half, dst, at)),
        Op::LoadByte { dst, at } => Some(load(Size::Byte, dst, at)),
        Op::LoadSxWord { dst, at } => Some(load_sx(SignedSize::Word, dst, at)),
        Op::LoadSxHalf { dst, at } => Some(load_sx(SignedSize::Half, dst, at)),
        Op::LoadSxByte { dst, at } => Some(load_sx(SignedSize::Byte, dst, at)),
        Op::StoreDoubleReg { src, at } => Some(store(Size::Double, src, at)),
        Op::StoreWordReg { src, at } => Some(store(Size::Word, src, at)),
        Op::StoreHalfReg { src, at } => Some(store(Size::Half, src, at)),
        Op::StoreByteReg { src, at } => Some(store(Size::Byte, src, at)),
        Op::StoreDoubleImm { at, imm } => Some(store_imm(Size::Double, at, imm)),
        Op::StoreWordImm { at, imm } => Some(store_imm(Size::Word, at, imm)),
        Op::StoreHalfImm { at, imm } => Some(store_imm(Size::Half, at, imm)),
        Op::StoreByteImm { at, imm } => Some(store_imm(Size::Byte, at, imm)),
        _ => None,
    }
}

// The other operations. `None`: a wide value that isn't in the pool.
fn of_others(op: Op, pool: &[u64]) -> Option<SlotTask>
    ensures { result ≡ specs.of_others pool.now op }
{
    match op {
        Op::Jump { to } => Some(SlotTask::Leap { to }),
        Op::Wide { dst, at } => {
            let at = at as usize;
            if at < pool.len() {
                Some(SlotTask::Wide {
                    dst,
                    value: pool[at],
                })
            } else {
                None
            }
        }
        Op::Send { at } => Some(SlotTask::Send { at }),
        Op::Output { at } => Some(SlotTask::Output { at }),
        Op::SendSized { at } => Some(SlotTask::SendSized { at }),
        Op::OutputSized { at } => Some(SlotTask::OutputSized { at }),
        Op::Me => Some(SlotTask::Me),
        Op::From => Some(SlotTask::From),
        Op::Exit => Some(SlotTask::Exit),
        Op::Dead => Some(SlotTask::Dead),
        _ => None,
    }
}

// The first of two tasks, or the second if there is no first.
fn first_of(one: Option<SlotTask>, other: Option<SlotTask>) -> Option<SlotTask>
    ensures { result ≡ specs.first_of one other }
{
    match one {
        Some(task) => Some(task),
        None => other,
    }
}

/// The task of an operation. `None`: it is a wide value that isn't in the pool.
pub fn task_of(op: Op, pool: &[u64]) -> Option<SlotTask>
    ensures value { result ≡ task_for pool.now op }
    ensures acts { IfSome result (λ t. (who : Who) (slot : ℕ) (ws mem : List ℕ) (e : Emitted) → act_of who pool.now slot ws mem e op ≡ task_act who slot ws mem e t) }
    ensures within { IfSome result (λ t. IsWithin (length pool.now) op → TaskWithin t) }
    ensures fits { IfSome result TaskFits }
{
    let moved = first_of(of_memory(op), of_others(op, pool));
    let kept = first_of(of_registers(op), moved);
    let led = first_of(jump(op), kept);
    first_of(arithmetic(op), led)
}
