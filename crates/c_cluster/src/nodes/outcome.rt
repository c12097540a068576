//! The records that calls of machine code leave.

ghost use Rattle.std.specs.Prelude.{◌≡◌, ◌≤◌, ◌<◌, ◌+◌, ◌*◌, ◌++◌, ◌∷◌, ◌↔◌, [], ℕ, List, IsTrue, MatchOption, length, slice_range};
ghost use Rattle.helpers.specs.declared.effects.Sent.{Sent};
ghost use Rattle.helpers.specs.Effects.{Emitted};
ghost use Rattle.operations.specs.Bytes.{le_bytes, le_value};
ghost use Rattle.native.specs.Correct.{IsAt};
ghost use Rattle.c_cluster.specs.Nodes.Outcome.{IsSentAt, AreIn, AreNotIn, IsLeft};

use byteorder::{ByteOrder, LittleEndian};
use helpers::{Effects, Who};
use limits::{EFFECTS, PAYLOAD_BYTES};

/// The size of a record in bytes.
pub const RECORD_BYTES: usize = 4416;

/// Where the places for messages begin.
pub const MESSAGES: usize = 64;

/// Where the places for outputs begin.
pub const OUTPUTS: usize = 2240;

/// The size of a place in bytes.
pub const PLACE: usize = 272;

/// The number in the eight bytes at `at`.
fn word_at(bytes: &[u8], at: usize) -> u64
    requires { at + 8 ≤ length bytes.now }
    ensures value { result ≡ le_value (slice_range bytes.now at (at + 8)) }
    ensures bytes { slice_range bytes.now at (at + 8) ≡ le_bytes 8 result }
{
    LittleEndian::read_u64(&bytes[at..at + 8])
}

/// The payload in a place.
fn payload_at(bytes: &[u8], place: usize) -> Option<&[u8]>
    requires { place + PLACE ≤ length bytes.now }
    ensures { MatchOption result ((payload : List ℕ) → ¬ IsAt bytes.now place payload) (λ payload. IsAt bytes.now place payload.now) }
{
    let len = word_at(bytes, place + 8);
    if len > PAYLOAD_BYTES as u64 {
        return None;
    }
    Some(&bytes[place + 16..place + 16 + len as usize])
}

/// Appends the message in a place, or answers `None` if the place has none for another process.
fn add_message(effects: &mut Effects, who: Who, bytes: &[u8], place: usize) -> Option<()>
    requires whole { place + PLACE ≤ length bytes.now }
    requires room { length effects.old.sends < EFFECTS }
    ensures added { MatchOption result ((sent : Sent) → ¬ IsSentAt who bytes.now place sent) (λ _. (sent : Sent) × IsSentAt who bytes.now place sent × (effects.new.sends ≡ effects.old.sends ++ sent ∷ [])) }
    ensures outputs { effects.new.outputs ≡ effects.old.outputs }
{
    let payload = payload_at(bytes, place)?;
    let code = effects.send(who, word_at(bytes, place), payload);
    if code != 0 {
        return None;
    }
    Some(())
}

/// Appends the output in a place, or answers `None` if the place has none.
fn add_output(effects: &mut Effects, bytes: &[u8], place: usize) -> Option<()>
    requires whole { place + PLACE ≤ length bytes.now }
    requires room { length effects.old.outputs < EFFECTS }
    ensures added { MatchOption result ((payload : List ℕ) → ¬ IsAt bytes.now place payload) (λ _. (payload : List ℕ) × IsAt bytes.now place payload × (effects.new.outputs ≡ effects.old.outputs ++ payload ∷ [])) }
    ensures sends { effects.new.sends ≡ effects.old.sends }
{
    let payload = payload_at(bytes, place)?;
    let _code = effects.output(payload);
    Some(())
}

/// The first `count` messages.
fn add_messages(effects: &mut Effects, who: Who, bytes: &[u8], count: usize) -> Option<()>
    requires whole { length bytes.now ≡ RECORD_BYTES }
    requires few { count ≤ EFFECTS }
    requires none { effects.old.sends ≡ [] }
    ensures added { MatchOption result (AreNotIn (λ k. IsSentAt who bytes.now (MESSAGES + PLACE * k)) count) (λ _. AreIn (λ k. IsSentAt who bytes.now (MESSAGES + PLACE * k)) count effects.new.sends) }
    ensures outputs { effects.new.outputs ≡ effects.old.outputs }
{
    for k in 0..count {
        add_message(effects, who, bytes, MESSAGES + PLACE * k)?;
    }
    Some(())
}

/// The first `count` outputs.
fn add_outputs(effects: &mut Effects, bytes: &[u8], count: usize) -> Option<()>
    requires whole { length bytes.now ≡ RECORD_BYTES }
    requires few { count ≤ EFFECTS }
    requires none { effects.old.outputs ≡ [] }
    ensures added { MatchOption result (AreNotIn (λ k. IsAt bytes.now (OUTPUTS + PLACE * k)) count) (λ _. AreIn (λ k. IsAt bytes.now (OUTPUTS + PLACE * k)) count effects.new.outputs) }
    ensures sends { effects.new.sends ≡ effects.old.sends }
{
    for k in 0..count {
        add_output(effects, bytes, OUTPUTS + PLACE * k)?;
    }
    Some(())
}

/// Whether a record is of a call with this identity.
fn is_of(who: Who, bytes: &[u8]) -> bool
    requires { length bytes.now ≡ RECORD_BYTES }
    ensures { IsTrue result ↔ (le_value (slice_range bytes.now 24 32) ≡ who.me) × (le_value (slice_range bytes.now 32 40) ≡ who.from) × (le_value (slice_range bytes.now 40 48) ≡ who.count) }
{
    word_at(bytes, 24) == u64::from(who.me)
        && word_at(bytes, 32) == u64::from(who.from)
        && word_at(bytes, 40) == u64::from(who.count)
}

/// What a call with this identity left in a record, or `None` if no such call left it.
pub(crate) fn left_in(who: Who, bytes: &[u8]) -> Option<Effects>
    ensures { MatchOption result ((e : Emitted) → ¬ IsLeft who bytes.now e) (IsLeft who bytes.now) }
{
    if bytes.len() != RECORD_BYTES || !is_of(who, bytes) {
        return None;
    }
    let messages = word_at(bytes, 0);
    let outputs = word_at(bytes, 8);
    if messages > EFFECTS as u64 || outputs > EFFECTS as u64 {
        return None;
    }
    let mut effects = Effects::new();
    add_messages(&mut effects, who, bytes, messages as usize)?;
    add_outputs(&mut effects, bytes, outputs as usize)?;
    Some(effects)
}
