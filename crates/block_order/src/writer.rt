//! Code to image files, with its blocks in another order if that helps.

ghost use Rattle.std.specs.Prelude.{◌<◌, ◌≤◌, ◌↔◌, IfErr, IfOk, IsTrue, length};
ghost use Rattle.std.specs.List.{AllByRecursion};
ghost use Rattle.decode.specs.Encoding.{Fits};
ghost use Rattle.decode.specs.Slots.{slots, slots_of};
ghost use Rattle.verifier.specs.AnyFile.{IsFile};
ghost use Rattle.verifier.specs.declared.file_form.FileForm.TheVariants.{Sbi3};
ghost use Rattle.verifier.specs.ImageFile.{IsUnwritten};
ghost use Rattle.block_order.specs.Order.{IsForward, IsMoved, IsOrder};
ghost use Rattle.block_order.specs.Ordered.{BreaksV1, IsOrdered};

use crate::arrangement::Placed;
use crate::blocks::Blocks;
use crate::order::{BlockOrder, order_blocks};
use decode::Insn;
use limits::{SLOTS, STATE_BYTES};
use regtypes::Rule;
use std::alloc::{AllocError, Global};
use verifier::{FileForm, ImageError, SpanVerifyError, any_file, span_verify};

/// An image file, and what was done with the blocks of its code.
#[derive(Debug, Drop)]
pub struct Ordered {
    pub bytes: Vec<u8>,
    pub blocks: Blocks,
}

/// Whether the verifier of form 3 refuses code by V1: a jump doesn't lead to a later slot of it.
fn breaks_v1(alloc: Global, code: &[Insn], state_len: u16) -> Result<bool, AllocError>
    requires slots { length (slots_of code.now) ≤ SLOTS }
    requires fits { AllByRecursion Fits code.now }
    ensures { IfOk result (λ yes. IsTrue yes ↔ BreaksV1 code.now state_len) }
{
    match span_verify(alloc, code, state_len) {
        Ok(_) => Ok(false),
        Err(SpanVerifyError::Fault { rule, .. }) => Ok(rule == Rule::V1),
        Err(SpanVerifyError::Memory) => Err(AllocError),
    }
}

/// The file of form 3 of code in another order.
fn moved_file(
    alloc: Global,
    code: &[Insn],
    state_len: u16,
    placed: &Placed,
) -> Result<Ordered, ImageError>
    requires state { state_len ≤ STATE_BYTES }
    requires some { 0 < slots code.now }
    requires short { slots code.now ≤ SLOTS }
    requires breaks { BreaksV1 code.now state_len }
    requires back { ¬ IsForward code.now }
    requires moved { IsMoved code.now placed.now }
    ensures written { IfOk result (IsOrdered Sbi3 code.now state_len) }
    ensures refused { IfErr result (IsUnwritten code.now) }
{
    match any_file(alloc, FileForm::Sbi3, placed.insns.as_slice(), state_len) {
        Ok(bytes) => Ok(Ordered {
            bytes,
            blocks: Blocks::Moved,
        }),
        Err(e) => Err(e),
    }
}

/// The file of form 3 of code that V1 refuses, by the result for the order of its blocks.
fn file_in(
    alloc: Global,
    code: &[Insn],
    state_len: u16,
    bytes: Vec<u8>,
    order: BlockOrder,
) -> Result<Ordered, ImageError>
    requires state { state_len ≤ STATE_BYTES }
    requires file { IsFile Sbi3 code.now state_len bytes.items }
    requires breaks { BreaksV1 code.now state_len }
    requires order { IsOrder code.now order }
    ensures written { IfOk result (IsOrdered Sbi3 code.now state_len) }
    ensures refused { IfErr result (IsUnwritten code.now) }
{
    let blocks = match order {
        BlockOrder::Forward => Blocks::Kept,
        BlockOrder::Moved(placed) => return moved_file(alloc, code, state_len, &placed),
        BlockOrder::Loops { from, to } => Blocks::Loops { from, to },
        BlockOrder::Unknown => Blocks::Unknown,
    };
    Ok(Ordered { bytes, blocks })
}

/// The file of form 3; `bytes` is the file of the code as given.
fn span_file(
    alloc: Global,
    code: &[Insn],
    state_len: u16,
    bytes: Vec<u8>,
) -> Result<Ordered, ImageError>
    requires state { state_len ≤ STATE_BYTES }
    requires file { IsFile Sbi3 code.now state_len bytes.items }
    ensures written { IfOk result (IsOrdered Sbi3 code.now state_len) }
    ensures refused { IfErr result (IsUnwritten code.now) }
{
    match breaks_v1(alloc, code, state_len) {
        Ok(true) => {}
        Ok(false) => {
            return Ok(Ordered {
                bytes,
                blocks: Blocks::Kept,
            });
        }
        Err(_) => return Err(ImageError::Memory),
    }
    match order_blocks(alloc, code) {
        Ok(order) => file_in(alloc, code, state_len, bytes, order),
        Err(_) => Err(ImageError::Memory),
    }
}

/// The image file of this form, of code with a state of this length, at most 1,024 bytes. In form 3, if V1 refuses the
/// code and an order is found in which each jump goes forward, the blocks are in that order; all other code is as
/// given.
pub fn ordered_file(
    alloc: Global,
    form: FileForm,
    code: &[Insn],
    state_len: u16,
) -> Result<Ordered, ImageError>
    requires { state_len ≤ STATE_BYTES }
    ensures written { IfOk result (IsOrdered form code.now state_len) }
    ensures refused { IfErr result (IsUnwritten code.now) }
{
    let bytes = any_file(alloc, form, code, state_len)?;
    match form {
        FileForm::Sbi3 => span_file(alloc, code, state_len, bytes),
        _ => Ok(Ordered {
            bytes,
            blocks: Blocks::Kept,
        }),
    }
}
