//! The checksum at the end of a packet.

ghost use Rattle.std.specs.Prelude.{◌≡◌, ◌<◌, slice_index};
ghost use Rattle.std.specs.List.{fold, flat_map};
ghost use Rattle.packets.specs.Checksum.{crc32c, next_remainder, byte_bits};

use crate::table::{EIGHTH, FIFTH, FOURTH, SECOND, SEVENTH, SIXTH, TABLE, THIRD};

/// The CRC-32C (Castagnoli) of some bytes.
#[tactic(auto, unfolding(crate::specs::Checksum::crc32c))]
pub fn crc32c(bytes: &[u8]) -> u32
    ensures { result ≡ crc32c bytes.now }
{
    let (words, rest) = bytes.as_chunks();
    !behind_bytes(behind_words(u32::MAX, words), rest)
}

/// The remainder after these words more.
fn behind_words(before: u32, words: &[[u8; 8]]) -> u32
    ensures { result ≡ fold next_remainder before (flat_map (flat_map byte_bits) words.now) }
{
    let mut remainder = before;
    for word in words {
        remainder = behind_word(remainder, word);
    }
    remainder
}

/// The remainder after eight more bytes. Each byte is looked up on its own, so that no look-up
/// waits for another.
fn behind_word(remainder: u32, word: &[u8; 8]) -> u32
    ensures { result ≡ fold next_remainder remainder (flat_map byte_bits word.now) }
{
    let first = (remainder ^ word[0] as u32) & 0xff;
    let second = ((remainder >> 8) ^ word[1] as u32) & 0xff;
    let third = ((remainder >> 16) ^ word[2] as u32) & 0xff;
    let fourth = ((remainder >> 24) ^ word[3] as u32) & 0xff;
    left_by(&EIGHTH, first)
        ^ left_by(&SEVENTH, second)
        ^ left_by(&SIXTH, third)
        ^ left_by(&FIFTH, fourth)
        ^ left_by(&FOURTH, word[4] as u32)
        ^ left_by(&THIRD, word[5] as u32)
        ^ left_by(&SECOND, word[6] as u32)
        ^ left_by(&TABLE, word[7] as u32)
}

/// The remainder after these bytes more.
fn behind_bytes(before: u32, bytes: &[u8]) -> u32
    ensures { result ≡ fold next_remainder before (flat_map byte_bits bytes.now) }
{
    let mut remainder = before;
    for byte in bytes {
        remainder = behind(remainder, *byte);
    }
    remainder
}

/// The remainder after one more byte.
fn behind(remainder: u32, byte: u8) -> u32
    ensures { result ≡ fold next_remainder remainder (byte_bits byte) }
{
    let place = (remainder ^ byte as u32) & 0xff;
    left_by(&TABLE, place) ^ (remainder >> 8)
}

/// What a table has for a byte.
fn left_by(table: &[u32; 256], byte: u32) -> u32
    requires { byte < 256 }
    ensures { result ≡ slice_index table.now byte }
{
    table[byte as usize]
}
