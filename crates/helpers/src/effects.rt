//! What one call of a handler emits.

ghost use Rattle.std.specs.Prelude.{◌≡◌, [], length, ◌≤◌, Some};
ghost use Rattle.helpers.specs.Helpers as rows;

use crate::payload::Payload;
use crate::refused::Refused;
use arrayvec::ArrayVec;
use limits::{EFFECTS, PAYLOAD_BYTES};
use std::marker::Model;

/// Who is called, who sent the message, and how many processes there are. Number 0 is the outside.
#[derive(Clone, Copy, Debug, PartialEq, Eq)]
pub struct Who {
    pub me: u8,
    pub from: u8,
    pub count: u8,
}

/// A message that a handler sends: its destination and its payload.
#[derive(Clone, Copy, Debug, Default, PartialEq, Eq)]
pub struct Sent {
    pub dst: u8,
    pub payload: Payload,
}

/// What one call of a handler sends and outputs, in order.
///
/// The value itself has room for all of it, so no method takes memory. A value that is kept and cleared between calls
/// costs a call only what it emits.
#[derive(Drop)]
pub struct Effects {
    sends: ArrayVec<Sent, EFFECTS>,
    outputs: ArrayVec<Payload, EFFECTS>,
    refused: Refused,
}

impl Model for Effects {
    ghost use Rattle.std.specs.Prelude.{◌≤◌};
    ghost use Rattle.arrayvec.specs.ArrayVec.{array_vec_len};
    ghost use Rattle.helpers.specs.Effects.{Emitted};
    ghost use Rattle.limits.specs.declared.TheConstants.{EFFECTS};

    ghost Value = { Emitted };

    ghost view = { λ e. record { sends = e.sends.items; outputs = e.outputs.items } };

    ghost invariant = { λ e. (array_vec_len e.sends ≤ EFFECTS) × (array_vec_len e.outputs ≤ EFFECTS) };
}

impl Effects {
    ghost use Rattle.helpers.specs.Helpers.{sized_payload};

    /// No effects.
    pub fn new() -> Effects
        ensures sends { result.sends ≡ [] }
        ensures outputs { result.outputs ≡ [] }
    {
        Effects {
            sends: ArrayVec::new(),
            outputs: ArrayVec::new(),
            refused: Refused::default(),
        }
    }

    /// Forgets all effects.
    pub fn clear(&mut self)
        ensures sends { self.new.sends ≡ [] }
        ensures outputs { self.new.outputs ≡ [] }
    {
        self.sends.clear();
        self.outputs.clear();
        self.refused = Refused::default();
    }

    /// The messages that were sent, at most 8.
    pub fn sends(&self) -> &[Sent]
        ensures value { result.now ≡ self.now.sends }
        ensures bound { length result.now ≤ EFFECTS }
    {
        self.sends.as_slice()
    }

    /// The outputs that were given, at most 8.
    pub fn outputs(&self) -> &[Payload]
        ensures value { result.now ≡ self.now.outputs }
        ensures bound { length result.now ≤ EFFECTS }
    {
        self.outputs.as_slice()
    }

    /// How many sends and outputs were refused since the last `clear`, by cause. People read it; it is tested, and no
    /// contract mentions it.
    pub fn refused(&self) -> Refused {
        self.refused
    }

    // Counts a refusal, and answers its code.
    fn refuse(&mut self, code: u64) -> u64
        ensures code { result ≡ code }
        ensures after { self.new ≡ self.old }
    {
        self.refused.count(code);
        code
    }

    /// Helper 1: sends bytes to another process. The code is 0 if they were appended, 1 if the destination, as a 64-bit
    /// number, is no other process, and else 2: no room is left.
    pub fn send(&mut self, who: Who, dst: u64, payload: &[u8]) -> u64
        requires { length payload.now ≤ PAYLOAD_BYTES }
        ensures code { result ≡ (rows.send who dst (Some payload.now) self.old).0 }
        ensures after { self.new ≡ (rows.send who dst (Some payload.now) self.old).1 }
    {
        if is_no_peer(who, dst) {
            return self.refuse(1);
        }
        if self.sends.is_full() {
            return self.refuse(2);
        }
        let place = self.sends.len();
        self.sends.push(Sent::default());
        let sent = &mut self.sends.as_mut_slice()[place];
        sent.dst = dst as u8;
        sent.payload.replace(payload);
        0
    }

    /// Helper 2: outputs bytes. The code is 0 if they were appended, else 2: no room is left.
    pub fn output(&mut self, payload: &[u8]) -> u64
        requires { length payload.now ≤ PAYLOAD_BYTES }
        ensures code { result ≡ (rows.output (Some payload.now) self.old).0 }
        ensures after { self.new ≡ (rows.output (Some payload.now) self.old).1 }
    {
        if self.outputs.is_full() {
            return self.refuse(2);
        }
        let place = self.outputs.len();
        self.outputs.push(Payload::new());
        self.outputs.as_mut_slice()[place].replace(payload);
        0
    }

    /// Helper 5: sends the first `len` of 256 bytes. The code is as helper 1's, but 3 if the destination is good, room
    /// is left and `len` is above 256: nothing is appended.
    pub fn send_sized(&mut self, who: Who, dst: u64, bytes: &[u8], len: u64) -> u64
        requires { length bytes.now ≡ PAYLOAD_BYTES }
        ensures code { result ≡ (rows.send who dst (sized_payload bytes.now len) self.old).0 }
        ensures after { self.new ≡ (rows.send who dst (sized_payload bytes.now len) self.old).1 }
    {
        if len <= PAYLOAD_BYTES as u64 {
            return self.send(who, dst, &bytes[..len as usize]);
        }
        let code = if is_no_peer(who, dst) {
            1
        } else if !self.sends.is_full() {
            3
        } else {
            2
        };
        self.refuse(code)
    }

    /// Helper 6: outputs the first `len` of 256 bytes. The code is as helper 2's, but 3 if room is left and `len` is
    /// above 256: nothing is appended.
    pub fn output_sized(&mut self, bytes: &[u8], len: u64) -> u64
        requires { length bytes.now ≡ PAYLOAD_BYTES }
        ensures code { result ≡ (rows.output (sized_payload bytes.now len) self.old).0 }
        ensures after { self.new ≡ (rows.output (sized_payload bytes.now len) self.old).1 }
    {
        if len > PAYLOAD_BYTES as u64 {
            let is_full = self.outputs.is_full();
            return self.refuse(if is_full { 2 } else { 3 });
        }
        self.output(&bytes[..len as usize])
    }
}

// Whether a number names no other process.
#[inline(always)]
fn is_no_peer(who: Who, dst: u64) -> bool
    ensures { result ≡ rows.is_no_peer who dst }
{
    dst < 1 || dst > u64::from(who.count) || dst == u64::from(who.me)
}
