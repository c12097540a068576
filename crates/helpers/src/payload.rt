//! The content of a message.

ghost use Rattle.std.specs.Prelude.{◌≡◌, ◌≤◌, ◌==◌, [], length, nat_eq};
ghost use Rattle.std.specs.Cmp.{partial_equiv_from_equiv};
ghost use Rattle.std.specs.Cmp.Lexicographic.{nat_list_eq_equiv, pointwise};
ghost use Rattle.helpers.specs.Payload.{IsFilled, filled, view64};

use limits::{FORM_1_BYTES, PAYLOAD_BYTES};
use std::fmt;
use std::marker::Model;

/// The content of a message: 0 to 256 bytes.
///
/// The value holds the bytes itself, with zeros after them, so `view64` lends the first 64 bytes and copies nothing.
#[derive(Clone, Copy)]
pub struct Payload {
    bytes: [u8; PAYLOAD_BYTES],
    len: u16,
}

impl Model for Payload {
    ghost use Rattle.std.specs.Prelude.{ℕ, List, take, length};
    ghost use Rattle.helpers.specs.Payload.{IsFilled, filled};
    ghost use Rattle.std.proofs.Common.{length-take-le};

    ghost Value = { List ℕ };

    ghost view = { λ p. take p.len p.bytes };

    ghost invariant = { λ p. IsFilled p.len p.bytes };

    ghost inverse = { λ bytes. record { bytes = filled bytes; len = length bytes } };

    ghost inverse_ok = { λ p h i. record { bytes = h.filled_is i; len = length-take-le p.len p.bytes h.fits i } };
}

impl Payload {
    /// No bytes.
    pub fn new() -> Payload
        ensures { result ≡ [] }
    {
        Payload {
            bytes: [0; PAYLOAD_BYTES],
            len: 0,
        }
    }

    /// A copy of at most 256 bytes.
    pub fn from_slice(bytes: &[u8]) -> Payload
        requires { length bytes.now ≤ PAYLOAD_BYTES }
        ensures { result ≡ bytes.now }
    {
        let mut payload = Payload::new();
        payload.replace(bytes);
        payload
    }

    /// The bytes.
    pub fn as_slice(&self) -> &[u8]
        ensures value { result.now ≡ self.now }
        ensures bound { length result.now ≤ PAYLOAD_BYTES }
    {
        &self.bytes[..self.len as usize]
    }

    /// How many bytes there are.
    pub fn len(&self) -> usize
        ensures value { result ≡ length self.now }
        ensures bound { result ≤ PAYLOAD_BYTES }
    {
        self.len as usize
    }

    /// Whether there are none.
    pub fn is_empty(&self) -> bool
        ensures { result ≡ (length self.now == 0) }
    {
        self.len == 0
    }

    /// The first 64 bytes, filled up with zeros: what a handler of 64 bytes a message sees.
    pub fn view64(&self) -> &[u8; FORM_1_BYTES]
        ensures { result.now ≡ view64 self.now }
    {
        let Some(view) = self.bytes.first_chunk() else {
            unreachable!()
        };
        view
    }

    // Replaces its bytes. It writes only places that the old or the new bytes use.
    pub(crate) fn replace(&mut self, bytes: &[u8])
        requires { length bytes.now ≤ PAYLOAD_BYTES }
        ensures { self.new ≡ bytes.now }
    {
        refill(&mut self.bytes, self.len as usize, bytes);
        self.len = bytes.len() as u16;
    }
}

// Puts bytes into the places, and zeros after them up to `used`, the number of places that were used.
fn refill(places: &mut [u8; PAYLOAD_BYTES], used: usize, bytes: &[u8])
    requires used { IsFilled used places.old }
    requires fits { length bytes.now ≤ PAYLOAD_BYTES }
    ensures { places.new ≡ filled bytes.now }
{
    let len = bytes.len();
    places[..len].copy_from_slice(bytes);
    if len < used {
        places[len..used].fill(0);
    }
}

impl Default for Payload {
    ghost is_default = { λ p. p ≡ [] };

    fn default() -> Payload {
        Payload::new()
    }
}

impl From<[u8; FORM_1_BYTES]> for Payload {
    ghost from_gives = { λ bytes p. p ≡ bytes };

    fn from(bytes: [u8; FORM_1_BYTES]) -> Payload {
        Payload::from_slice(&bytes)
    }
}

impl PartialEq for Payload {
    ghost eq = { pointwise nat_eq };

    ghost laws = { partial_equiv_from_equiv nat_list_eq_equiv };

    fn eq(&self, other: &Payload) -> bool {
        self.as_slice() == other.as_slice()
    }
}

impl Eq for Payload {
    ghost laws = { nat_list_eq_equiv };
}

impl fmt::Debug for Payload {
    fn fmt<W: fmt::Write>(&self, f: &mut fmt::Formatter<W>) -> fmt::Result {
        f.debug_list().entries(self.as_slice()).finish()
    }
}
