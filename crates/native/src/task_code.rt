//! The code of tasks that always go on.

ghost use Rattle.std.specs.Prelude.{◌≡◌, ◌≤◌, ◌+◌, [], ◌∷◌, ◌++◌, OnOk};
ghost use Rattle.native.specs.Code.{Emits, codes, IsBody};
ghost use Rattle.native.specs.SlotCode.{IsDone};
ghost use Rattle.native.specs.Emission.{IsCall};
ghost use Rattle.native.specs.Quotient.{IsQuotient, IsSigned};
ghost use Rattle.native.specs.Code as specs;
ghost use Rattle.native.specs.Emission as calls;

use crate::body::{Body, body_of, clear, gpr};
use crate::effect::write_good;
use crate::emission::{Helper, write_end, write_tests};
use crate::quotient::{Ways, divisor_code, two_size, write_quotient, write_signed};
use crate::sequence::write_all;
use crate::task::SlotTask;
use decode::{AluOp, Operand, Reg, Width};
use std::alloc::{AllocError, Global};
use x86::Instr;

fn write_one(code: &mut Vec<u8>, i: Instr) -> Result<(), AllocError>
    ensures { OnOk result (code.new.items ≡ code.old.items ++ codes (i ∷ [])) }
{
    write_all(code, &[i])
}

fn write_two(code: &mut Vec<u8>, i: Instr, j: Instr) -> Result<(), AllocError>
    ensures { OnOk result (code.new.items ≡ code.old.items ++ codes (i ∷ j ∷ [])) }
{
    write_all(code, &[i, j])
}

fn write_three(code: &mut Vec<u8>, i: Instr, j: Instr, k: Instr) -> Result<(), AllocError>
    ensures { OnOk result (code.new.items ≡ code.old.items ++ codes (i ∷ j ∷ k ∷ [])) }
{
    write_all(code, &[i, j, k])
}

// The instructions of a body.
fn emit_body(code: &mut Vec<u8>, body: Body) -> Result<(), AllocError>
    ensures { OnOk result (Emits (IsBody body) code.old.items code.new.items) }
{
    match body {
        Body::Empty => Ok(()),
        Body::One(i) => write_one(code, i),
        Body::Two(i, j) => write_two(code, i, j),
        Body::Three(i, j, k) => write_three(code, i, j, k),
    }
}

// The instructions of a task that has no jump.
fn emit_body_of(code: &mut Vec<u8>, task: SlotTask) -> Result<(), AllocError>
    ensures { OnOk result (Emits (IsBody (specs.body_of task)) code.old.items code.new.items) }
{
    emit_body(code, body_of(task))
}

// A helper that emits.
fn emit_helper(
    alloc: Global,
    code: &mut Vec<u8>,
    helper: Helper,
    at: Option<u16>,
) -> Result<(), AllocError>
    ensures { OnOk result (Emits (IsCall (calls.tests_of helper) (calls.good_of helper at) (calls.end_of helper)) code.old.items code.new.items) }
{
    let mut good = Vec::with_capacity(alloc, 80)?;
    write_good(&mut good, helper, at)?;
    let size = good.len() as u8;
    write_tests(code, helper, size)?;
    code.extend_from_slice(good.as_slice())?;
    write_end(code, helper)
}

// A quotient or a remainder.
fn emit_quotient(
    code: &mut Vec<u8>,
    width: Width,
    dst: Reg,
    operand: Operand,
    from: u8,
    none: Instr,
    size: u8,
) -> Result<(), AllocError>
    ensures { OnOk result (Emits (IsQuotient width dst.number operand from none size) code.old.items code.new.items) }
{
    let first = divisor_code(width, operand);
    write_quotient(code, first, width, gpr(dst), from, none, size)
}

// A signed quotient or remainder.
fn emit_signed(
    code: &mut Vec<u8>,
    width: Width,
    dst: Reg,
    operand: Operand,
    from: u8,
    ways: Ways,
) -> Result<(), AllocError>
    requires minus { ways.minus_size ≤ 3 }
    requires none { ways.none_size ≤ 3 }
    ensures { OnOk result (Emits (IsSigned width dst.number operand from ways.minus ways.minus_size ways.none ways.none_size) code.old.items code.new.items) }
{
    let first = divisor_code(width, operand);
    write_signed(code, first, width, gpr(dst), from, ways)
}

// An unsigned quotient.
fn emit_div(code: &mut Vec<u8>, width: Width, dst: Reg, operand: Operand) -> Result<(), AllocError>
    ensures { OnOk result (Emits (IsDone (SlotTask.Compute AluOp.Div width dst operand)) code.old.items code.new.items) }
{
    let to = gpr(dst);
    let size = two_size(Width::W32, to);
    emit_quotient(code, width, dst, operand, 0, clear(to), size)
}

// An unsigned remainder.
fn emit_mod(code: &mut Vec<u8>, width: Width, dst: Reg, operand: Operand) -> Result<(), AllocError>
    ensures { OnOk result (Emits (IsDone (SlotTask.Compute AluOp.Mod width dst operand)) code.old.items code.new.items) }
{
    let to = gpr(dst);
    let same = Instr::Mov {
        width,
        to,
        from: to,
    };
    emit_quotient(code, width, dst, operand, 2, same, two_size(width, to))
}

// A signed quotient.
fn emit_sdiv(code: &mut Vec<u8>, width: Width, dst: Reg, operand: Operand) -> Result<(), AllocError>
    ensures { OnOk result (Emits (IsDone (SlotTask.Compute AluOp.Sdiv width dst operand)) code.old.items code.new.items) }
{
    let to = gpr(dst);
    let ways = Ways {
        minus: Instr::Neg { width, to },
        minus_size: two_size(width, to),
        none: clear(to),
        none_size: two_size(Width::W32, to),
    };
    emit_signed(code, width, dst, operand, 0, ways)
}

// A signed remainder.
fn emit_smod(code: &mut Vec<u8>, width: Width, dst: Reg, operand: Operand) -> Result<(), AllocError>
    ensures { OnOk result (Emits (IsDone (SlotTask.Compute AluOp.Smod width dst operand)) code.old.items code.new.items) }
{
    let to = gpr(dst);
    let ways = Ways {
        minus: clear(to),
        minus_size: two_size(Width::W32, to),
        none: Instr::Mov {
            width,
            to,
            from: to,
        },
        none_size: two_size(width, to),
    };
    emit_signed(code, width, dst, operand, 2, ways)
}

// Arithmetic.
fn emit_compute(
    code: &mut Vec<u8>,
    op: AluOp,
    width: Width,
    dst: Reg,
    operand: Operand,
) -> Result<(), AllocError>
    ensures { OnOk result (Emits (IsDone (SlotTask.Compute op width dst operand)) code.old.items code.new.items) }
{
    match op {
        AluOp::Div => emit_div(code, width, dst, operand),
        AluOp::Mod => emit_mod(code, width, dst, operand),
        AluOp::Sdiv => emit_sdiv(code, width, dst, operand),
        AluOp::Smod => emit_smod(code, width, dst, operand),
        _ => {
            let task = SlotTask::Compute {
                op,
                width,
                dst,
                operand,
            };
            emit_body_of(code, task)
        }
    }
}

/// The instructions of a task that always goes on.
pub(crate) fn emit_done(alloc: Global, code: &mut Vec<u8>, task: SlotTask) -> Result<(), AllocError>
    ensures { OnOk result (Emits (IsDone task) code.old.items code.new.items) }
{
    match task {
        SlotTask::Send { at } => emit_helper(alloc, code, Helper::Send, Some(at)),
        SlotTask::Output { at } => emit_helper(alloc, code, Helper::Output, Some(at)),
        SlotTask::SendSized { at } => emit_helper(alloc, code, Helper::SendSized, Some(at)),
        SlotTask::OutputSized { at } => emit_helper(alloc, code, Helper::OutputSized, Some(at)),
        SlotTask::SendBy => emit_helper(alloc, code, Helper::Send, None),
        SlotTask::OutputBy => emit_helper(alloc, code, Helper::Output, None),
        SlotTask::SendSizedBy => emit_helper(alloc, code, Helper::SendSized, None),
        SlotTask::OutputSizedBy => emit_helper(alloc, code, Helper::OutputSized, None),
        SlotTask::Compute {
            op,
            width,
            dst,
            operand,
        } => emit_compute(code, op, width, dst, operand),
        _ => emit_body_of(code, task),
    }
}
