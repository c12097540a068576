//! One pass over the slots gives the least typing, or the first fault.

ghost use Rattle.std.specs.Prelude.{◌≡◌, ◌≤◌, ◌<◌, IfOk, length};
ghost use Rattle.decode.specs.Slots.{slots_of};
ghost use Rattle.regtypes.specs.Frame.{entry_frame};
ghost use Rattle.regtypes.specs.Typing.{frame_at};
ghost use Rattle.verifier.specs.Inside.Pass.{IsOpening};
ghost use Rattle.verifier.specs.Verdict.{IsJudged};

use crate::judgement::judge;
use decode::{Insn, lay_out};
use limits::SLOTS;
use regtypes::{Frame, ImageForm, Rule};
use std::alloc::{AllocError, Global};

/// Code slot by slot, with what is known of the registers there, also for code that is refused.
#[derive(Debug, Drop)]
pub struct Frames {
    /// For each slot the instruction that begins there.
    pub slots: Vec<Option<Insn>>,
    /// For each slot what is known of the registers, if a path leads there. If the code is refused, this is final up to
    /// the named slot, and no later slot was judged.
    pub table: Vec<Option<Frame>>,
    /// The least rule that is broken at the first slot that breaks one, and that slot.
    pub refusal: Option<(Rule, usize)>,
}

/// A table that has only the frame of the entry.
fn opening(alloc: Global, form: ImageForm, slots: usize) -> Result<Vec<Option<Frame>>, AllocError>
    requires { 0 < slots }
    ensures size { IfOk result (λ table. length table.items ≡ slots) }
    ensures only { IfOk result (λ table. IsOpening (entry_frame form) (frame_at table.items)) }
{
    let mut table = Vec::with_capacity(alloc, slots)?;
    table.push(Some(Frame::entry(form)))?;
    'rest: for _ in 1..slots {
        table.push(None)?;
    }
    Ok(table)
}

/// What is known of the registers at each slot of these instructions, and the first slot that breaks a rule. The code
/// has 1 to 1,024 slots. The frame of a slot is the join of all frames that arrive there. Instructions that no path
/// reaches are not judged.
pub fn frames_of(
    alloc: Global,
    code: &[Insn],
    state_len: u16,
    form: ImageForm,
) -> Result<Frames, AllocError>
    requires some { 0 < length code.now }
    requires slots { length (slots_of code.now) ≤ SLOTS }
    ensures slots { IfOk result (λ f. f.slots.items ≡ slots_of code.now) }
    ensures judged { IfOk result (λ f. IsJudged form code.now state_len f.table.items f.refusal) }
{
    let slots = lay_out(alloc, code)?;
    let mut table = opening(alloc, form, slots.len())?;
    for slot in 0..slots.len() {
        if let Err(rule) = judge(form, &slots, state_len, slot, &mut table) {
            let refusal = Some((rule, slot));
            return Ok(Frames {
                slots,
                table,
                refusal,
            });
        }
    }
    Ok(Frames {
        slots,
        table,
        refusal: None,
    })
}
