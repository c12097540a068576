//! Reading bytes in hexadecimal.

ghost use Rattle.scenario.specs.Hex.{IsPayload, hex_text, pairs_text};
ghost use Rattle.scenario.specs.Inside.Reads.{Reads, ReadsDigit};

use helpers::Payload;
use limits::PAYLOAD_BYTES;

/// The value of a lower-case hexadecimal digit.
fn digit_of(byte: u8) -> Option<u8>
    ensures { ReadsDigit byte result }
{
    match byte {
        b'0'..=b'9' => Some(byte - b'0'),
        b'a'..=b'f' => Some(byte - b'a' + 10),
        _ => None,
    }
}

/// The payload that pairs of digits spell, or `-` for none.
pub fn payload_of(text: &str) -> Option<Payload>
    ensures { Reads hex_text IsPayload text.now result }
{
    if text == "-" {
        return Some(Payload::new());
    }
    if text.is_empty() {
        return None;
    }
    pairs_of(text.as_bytes())
}

/// The payload that pairs of digits spell.
fn pairs_of(text: &[u8]) -> Option<Payload>
    ensures { Reads pairs_text IsPayload text.now result }
{
    if text.len() % 2 != 0 || text.len() > 2 * PAYLOAD_BYTES {
        return None;
    }
    let len = text.len() / 2;
    let mut bytes = [0; PAYLOAD_BYTES];
    for index in 0..len {
        let high = digit_of(text[2 * index])?;
        let low = digit_of(text[2 * index + 1])?;
        bytes[index] = high * 16 + low;
    }
    Some(Payload::from_slice(&bytes[..len]))
}
