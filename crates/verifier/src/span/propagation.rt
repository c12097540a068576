//! Joins what leaves an instruction into the frames of slots.

ghost use Rattle.std.specs.Prelude.{◌≡◌, ◌<◌, ◌+◌, ◌≤ℤ◌, pos, OnOk, length};
ghost use Rattle.std.specs.Option.{option_map};
ghost use Rattle.decode.specs.Slots.{size_of};
ghost use Rattle.spans.specs.Typing.{target};
ghost use Rattle.decode.specs.Distance.{distance};
ghost use Rattle.verifier.specs.Span.Transfer.{frame_of, frames_of};
ghost use Rattle.verifier.specs.Inside.SpanPass.{IsMerged, IsSpread, IsWayMerged, IsWayWithin};
ghost use Rattle.verifier.specs.Span.Typing.{table_of};

use crate::span::frame::join;
use crate::span::ways::SpanLeaving;
use decode::Insn;
use limits::SLOTS;
use spans::Cells;
use std::alloc::{AllocError, Global};

/// Joins a frame into the frame of a slot. It takes memory only if the slot had none.
fn merge(
    alloc: Global,
    table: &mut [Option<Box<Cells>>],
    to: usize,
    frame: &Cells,
) -> Result<(), AllocError>
    requires within { to < length table.old }
    ensures size { length table.new ≡ length table.old }
    ensures merged { OnOk result (IsMerged (table_of table.old) to (frame_of frame.now) (table_of table.new)) }
{
    let place = &mut table[to];
    if let Some(had) = place {
        **had = join(had, frame);
        return Ok(());
    }
    *place = Some(Box::new(alloc, *frame)?);
    Ok(())
}

/// Joins the frame that leaves on a way, if there is one.
fn merge_way(
    alloc: Global,
    table: &mut [Option<Box<Cells>>],
    to: usize,
    way: &Option<Cells>,
) -> Result<(), AllocError>
    requires within { IsWayWithin (length table.old) to (option_map frame_of way.now) }
    ensures size { length table.new ≡ length table.old }
    ensures merged { OnOk result (IsWayMerged (table_of table.old) to (option_map frame_of way.now) (table_of table.new)) }
{
    match way {
        Some(frame) => merge(alloc, table, to, frame),
        None => Ok(()),
    }
}

/// How many slots from the next one an instruction jumps; 0 if it doesn't.
fn distance(insn: &Insn) -> i32
    ensures { result ≡ distance insn.now }
{
    match *insn {
        Insn::Jump { offset } => i32::from(offset),
        Insn::JumpLong { distance } => distance,
        Insn::JumpIf { offset, .. } => i32::from(offset),
        _ => 0,
    }
}

/// The slot that an instruction jumps to, if it jumps forward.
fn target(slot: usize, insn: &Insn) -> usize
    requires short { slot < SLOTS }
    requires forward { pos 0 ≤ℤ distance insn.now }
    ensures { result ≡ target slot insn.now }
{
    slot + 1 + distance(insn) as usize
}

/// Joins the frames that leave an instruction into those of the slots where its two ways lead.
pub fn spread(
    alloc: Global,
    table: &mut [Option<Box<Cells>>],
    slot: usize,
    insn: &Insn,
    left: &SpanLeaving,
) -> Result<(), AllocError>
    requires short { slot < SLOTS }
    requires forward { pos 0 ≤ℤ distance insn.now }
    requires next { IsWayWithin (length table.old) (slot + size_of insn.now) (frames_of left.now).0 }
    requires taken { IsWayWithin (length table.old) (target slot insn.now) (frames_of left.now).1 }
    ensures size { length table.new ≡ length table.old }
    ensures spread { OnOk result (IsSpread (table_of table.old) slot insn.now (frames_of left.now) (table_of table.new)) }
{
    merge_way(alloc, table, slot + insn.slots(), &left.next)?;
    merge_way(alloc, table, target(slot, insn), &left.taken)
}
