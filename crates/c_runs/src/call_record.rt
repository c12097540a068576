//! The records that calls of machine code leave.

ghost use Rattle.std.specs.Prelude.{◌≡◌, ◌≤◌, ◌<◌, ◌+◌, ◌*◌, ℕ, List, MatchOption, OnOk, IfErr, OnErr, length, slice_range};
ghost use Rattle.arrayvec.specs.ArrayVec.{array_vec_len};
ghost use Rattle.helpers.specs.Effects.{Emitted};
ghost use Rattle.operations.specs.Bytes.{le_bytes, le_value};
ghost use Rattle.c_runs.specs.CallRecord.{IsPayloadAt, IsSentAt, AreIn, AreNotIn, IsLeft, IsTold, IsUntold, Reports};

use crate::refusal::ImageRefusal;
use crate::report::{REPORT_LIMIT, put_parts};
use arrayvec::ArrayVec;
use byteorder::{ByteOrder, LittleEndian};
use c_handles::code;
use helpers::{Payload, Sent};
use limits::EFFECTS;

/// The size of a record in bytes.
pub const RECORD_SIZE: usize = 4416;

/// Where the places for sends begin.
pub const SENDS: usize = 64;

/// Where the places for outputs begin.
pub const OUTPUTS: usize = 2240;

/// The size of a place in bytes.
pub const PLACE: usize = 272;

/// The size of a payload of form 1 in bytes.
pub const PAYLOAD: usize = 64;

/// What a call of form 1 left: how many steps it took, and what it emitted.
#[derive(Drop)]
pub struct Left {
    pub steps: u64,
    pub sends: ArrayVec<Sent, EFFECTS>,
    pub outputs: ArrayVec<Payload, EFFECTS>,
}

/// The number in the eight bytes at `at`.
fn word_at(bytes: &[u8], at: usize) -> u64
    requires { at + 8 ≤ length bytes.now }
    ensures value { result ≡ le_value (slice_range bytes.now at (at + 8)) }
    ensures bytes { slice_range bytes.now at (at + 8) ≡ le_bytes 8 result }
{
    LittleEndian::read_u64(&bytes[at..at + 8])
}

/// The payload of 64 bytes in a place.
fn payload_at(bytes: &[u8], place: usize) -> Option<Payload>
    requires { place + PLACE ≤ length bytes.now }
    ensures { MatchOption result ((payload : List ℕ) → ¬ IsPayloadAt bytes.now place payload) (IsPayloadAt bytes.now place) }
{
    let len = word_at(bytes, place + 8);
    if len != PAYLOAD as u64 {
        return None;
    }
    Some(Payload::from_slice(&bytes[place + 16..place + 16 + PAYLOAD]))
}

/// The send in a place, to a process whose number is one byte.
fn sent_at(bytes: &[u8], place: usize) -> Option<Sent>
    requires { place + PLACE ≤ length bytes.now }
    ensures { MatchOption result ((sent : Sent) → ¬ IsSentAt bytes.now place sent) (IsSentAt bytes.now place) }
{
    let dst = word_at(bytes, place);
    if dst > 255 {
        return None;
    }
    let payload = payload_at(bytes, place)?;
    Some(Sent {
        dst: dst as u8,
        payload,
    })
}

/// The first `count` sends.
fn sends_in(bytes: &[u8], count: usize) -> Option<ArrayVec<Sent, EFFECTS>>
    requires whole { length bytes.now ≡ RECORD_SIZE }
    requires few { count ≤ EFFECTS }
    ensures { MatchOption result (AreNotIn (λ k. IsSentAt bytes.now (SENDS + PLACE * k)) count) (λ sends. AreIn (λ k. IsSentAt bytes.now (SENDS + PLACE * k)) count sends.items) }
{
    let mut sends = ArrayVec::new();
    for k in 0..count {
        let sent = sent_at(bytes, SENDS + PLACE * k)?;
        sends.push(sent);
    }
    Some(sends)
}

/// The first `count` outputs.
fn outputs_in(bytes: &[u8], count: usize) -> Option<ArrayVec<Payload, EFFECTS>>
    requires whole { length bytes.now ≡ RECORD_SIZE }
    requires few { count ≤ EFFECTS }
    ensures { MatchOption result (AreNotIn (λ k. IsPayloadAt bytes.now (OUTPUTS + PLACE * k)) count) (λ outputs. AreIn (λ k. IsPayloadAt bytes.now (OUTPUTS + PLACE * k)) count outputs.items) }
{
    let mut outputs = ArrayVec::new();
    for k in 0..count {
        let payload = payload_at(bytes, OUTPUTS + PLACE * k)?;
        outputs.push(payload);
    }
    Some(outputs)
}

/// What a call of form 1 left in a record, or `None` if no such call left it.
fn left_in(bytes: &[u8]) -> Option<Left>
    ensures { MatchOption result ((steps : ℕ) (e : Emitted) → ¬ IsLeft bytes.now steps e) (λ left. IsLeft bytes.now left.steps (record { sends = left.sends.items; outputs = left.outputs.items })) }
{
    if bytes.len() != RECORD_SIZE {
        return None;
    }
    let sends = word_at(bytes, 0);
    let outputs = word_at(bytes, 8);
    if sends > EFFECTS as u64 || outputs > EFFECTS as u64 {
        return None;
    }
    if word_at(bytes, 24) > 255 || word_at(bytes, 32) > 255 {
        return None;
    }
    Some(Left {
        steps: word_at(bytes, 16),
        sends: sends_in(bytes, sends as usize)?,
        outputs: outputs_in(bytes, outputs as usize)?,
    })
}

/// Writes the report of the call that left this record and had this r0.
fn write(r0: u64, bytes: &[u8], out: &mut [u8]) -> Result<(), ImageRefusal>
    ensures done { OnOk result (IsTold r0 bytes.now out.old out.new) }
    ensures refused { IfErr result (IsUntold bytes.now out.old) }
    ensures unchanged { OnErr result (out.new ≡ out.old) }
{
    if out.len() < REPORT_LIMIT {
        return Err(ImageRefusal::Room);
    }
    let Some(left) = left_in(bytes) else {
        return Err(ImageRefusal::Record);
    };
    let sends = left.sends.as_slice();
    let outputs = left.outputs.as_slice();
    put_parts(out, 0, r0, left.steps, sends, outputs);
    Ok(())
}

/// Writes this report, and answers 0 or the number of the refusal.
pub fn report(r0: u64, bytes: &[u8], out: &mut [u8]) -> u32
    ensures { Reports result r0 bytes.now out.old out.new }
{
    code(write(r0, bytes, out))
}
