//! Images of form 3: code that is known to be typable.

ghost use Rattle.std.specs.Prelude.{◌≡◌, ◌≤◌, MatchResult, length};
ghost use Rattle.std.specs.List.{AllByRecursion};
ghost use Rattle.decode.specs.Encoding.{Fits, encoding};
ghost use Rattle.decode.specs.Slots.{slots_of};
ghost use Rattle.verifier.specs.Span.Typed.{IsImageOf};
ghost use Rattle.verifier.specs.Span.Verdict.{IsWhy};

use crate::span::fault::SpanVerifyError;
use crate::span::pass::SpanFrames;
use crate::span::verification::span_verify;
use decode::Insn;
use limits::{SLOTS, STATE_BYTES};
use std::alloc::{AllocError, Global};
use std::marker::Model;

/// Instructions that were verified, their bytes, and the length of their state.
#[derive(Drop)]
pub struct SpanImage {
    pub(crate) code: Vec<Insn>,
    /// The encoding of the code, as in its file.
    pub(crate) bytes: Vec<u8>,
    pub(crate) state_len: u16,
}

impl Model for SpanImage {
    ghost use Rattle.std.specs.Prelude.{◌≡◌, length, ◌≤◌};
    ghost use Rattle.std.specs.List.{AllByRecursion};
    ghost use Rattle.limits.specs.declared.TheConstants.{SLOTS, STATE_BYTES};
    ghost use Rattle.decode.specs.Encoding.{Fits, encoding};
    ghost use Rattle.decode.specs.Slots.{slots_of};
    ghost use Rattle.verifier.specs.Span.Typed.{Typed, IsTypable};

    ghost Value = { Typed };

    ghost view = { λ a. record { code = a.code.items; len = a.state_len } };

    ghost invariant = { λ a.
        IsTypable a.code.items a.state_len
        × (length (slots_of a.code.items) ≤ SLOTS) × (a.state_len ≤ STATE_BYTES)
        × AllByRecursion Fits a.code.items × (a.bytes.items ≡ encoding a.code.items) };
}

impl SpanImage {
    ghost use Rattle.std.specs.Prelude.{◌≡◌, ◌≤◌, ◌↔◌, length, IfOk, IsTrue};
    ghost use Rattle.std.specs.List.{AllByRecursion};
    ghost use Rattle.decode.specs.Encoding.{Fits, encoding};
    ghost use Rattle.decode.specs.Slots.{slots_of};
    ghost use Rattle.verifier.specs.Span.Typed.{IsTypable};
    ghost use Rattle.verifier.specs.Span.Verdict.{IsFramesOf};

    /// The number of instructions. A wide one counts once.
    pub fn count(&self) -> usize
        ensures { result ≡ length self.now.code }
    {
        self.code.len()
    }

    /// How many bytes its state has, 0 to 1,024.
    pub fn state_len(&self) -> u16
        ensures value { result ≡ self.now.len }
        ensures bound { result ≤ STATE_BYTES }
    {
        self.state_len
    }

    /// Its instructions, which are typable.
    pub fn code(&self) -> &[Insn]
        ensures value { result.now ≡ self.now.code }
        ensures typable { IsTypable self.now.code self.now.len }
        ensures slots { length (slots_of self.now.code) ≤ SLOTS }
        ensures fits { AllByRecursion Fits self.now.code }
    {
        self.code.as_slice()
    }

    /// The bytes of its instructions, as in its file.
    pub fn bytes(&self) -> &[u8]
        ensures { result.now ≡ encoding self.now.code }
    {
        self.bytes.as_slice()
    }

    /// Whether the other has the same instructions. It compares bytes.
    pub fn same_code(&self, other: &SpanImage) -> bool
        ensures { IsTrue result ↔ (self.now.code ≡ other.now.code) }
    {
        self.bytes == other.bytes
    }

    /// What is known at each slot of registers and of the stack's words: the least typing. Each call computes it anew;
    /// it takes memory only as long as the caller keeps it.
    pub fn frames(&self, alloc: Global) -> Result<SpanFrames, AllocError>
        ensures { IfOk result (λ frames. IsFramesOf self.now.code self.now.len frames) }
    {
        match span_verify(alloc, &self.code, self.state_len) {
            Ok(frames) => Ok(frames),
            Err(SpanVerifyError::Memory) => Err(AllocError),
            Err(SpanVerifyError::Fault { .. }) => unreachable!(),
        }
    }
}

/// The image of instructions whose encoding the caller has, if they are typable.
pub fn verified(
    alloc: Global,
    code: Vec<Insn>,
    bytes: Vec<u8>,
    state_len: u16,
) -> Result<SpanImage, SpanVerifyError>
    requires slots { length (slots_of code.items) ≤ SLOTS }
    requires state { state_len ≤ STATE_BYTES }
    requires fits { AllByRecursion Fits code.items }
    requires bytes { bytes.items ≡ encoding code.items }
    ensures { MatchResult result (λ image. IsImageOf code.items state_len image) (λ why. IsWhy code.items state_len why) }
{
    match span_verify(alloc, &code, state_len) {
        Ok(_) => Ok(SpanImage {
            code,
            bytes,
            state_len,
        }),
        Err(why) => Err(why),
    }
}
