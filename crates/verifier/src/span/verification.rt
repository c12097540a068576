//! Instructions to their frames.

ghost use Rattle.std.specs.Prelude.{◌≤◌, MatchResult, length};
ghost use Rattle.std.specs.List.{AllByRecursion};
ghost use Rattle.decode.specs.Encoding.{Fits};
ghost use Rattle.decode.specs.Slots.{slots_of};
ghost use Rattle.verifier.specs.Span.Verdict.{IsFramesOf, IsWhy};

use crate::span::fault::SpanVerifyError;
use crate::span::pass::{SpanFrames, span_frames_of};
use decode::Insn;
use limits::SLOTS;
use regtypes::Rule;
use std::alloc::Global;

/// What is known at each slot of these instructions with a state of this length, if they are typable in form 3. The
/// code has at most 1,024 slots.
pub fn span_verify(
    alloc: Global,
    code: &[Insn],
    state_len: u16,
) -> Result<SpanFrames, SpanVerifyError>
    requires slots { length (slots_of code.now) ≤ SLOTS }
    requires fits { AllByRecursion Fits code.now }
    ensures { MatchResult result (λ frames. IsFramesOf code.now state_len frames) (λ why. IsWhy code.now state_len why) }
{
    if code.is_empty() {
        return Err(SpanVerifyError::Fault {
            rule: Rule::V2,
            slot: 0,
        });
    }
    let frames = match span_frames_of(alloc, code, state_len) {
        Ok(frames) => frames,
        Err(_) => return Err(SpanVerifyError::Memory),
    };
    match frames.refusal {
        Some((rule, slot)) => Err(SpanVerifyError::Fault { rule, slot }),
        None => Ok(frames),
    }
}
