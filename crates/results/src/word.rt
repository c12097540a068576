//! Numbers as messages.

ghost use Rattle.std.specs.Prelude.{◌≡◌};
ghost use Rattle.results.specs.Word.{message_word};

use helpers::Payload;

/// The payload of a number: its 8 bytes, the least first, and 56 zeros.
pub fn payload_of(word: u64) -> Payload
    ensures { result ≡ message_word word }
{
    let mut bytes = [0; 64];
    bytes[..8].copy_from_slice(&word.to_le_bytes());
    Payload::from(bytes)
}
