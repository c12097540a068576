//! Parts of a file and the numbers in them.

ghost use Rattle.std.specs.Prelude.{◌≡◌, ◌+◌, ◌≤◌, ◌<◌, ◌^◌, ◌↔◌, IfSome, IsTrue, MatchOption, length};
ghost use Rattle.elf.specs.Function.{IsText};
ghost use Rattle.elf.specs.Object.{bytes_at, number_at};

use byteorder::{ByteOrder, LittleEndian};

/// So many bytes from a place on, if the file has them.
pub fn bytes_at(file: &[u8], at: usize, count: usize) -> Option<&[u8]>
    ensures bytes { IfSome result (λ bytes. bytes.now ≡ bytes_at at count file.now) }
    ensures count { IfSome result (λ bytes. length bytes.now ≡ count) }
    ensures within { MatchOption result (length file.now < at + count) (λ bytes. at + count ≤ length file.now) }
{
    if at > file.len() || count > file.len() - at {
        return None;
    }
    let (_before, rest) = file.split_at(at);
    let (bytes, _after) = rest.split_at(count);
    Some(bytes)
}

/// The number in two bytes.
#[tactic(auto, unfolding(crate::specs::Object::number_at))]
pub fn u16_at(bytes: &[u8], at: usize) -> usize
    requires { at + 2 ≤ length bytes.now }
    ensures value { result ≡ number_at 2 at bytes.now }
    ensures range { result < 2 ^ 16 }
{
    LittleEndian::read_u16(&bytes[at..]) as usize
}

/// The number in four bytes.
#[tactic(auto, unfolding(crate::specs::Object::number_at))]
pub fn u32_at(bytes: &[u8], at: usize) -> usize
    requires { at + 4 ≤ length bytes.now }
    ensures value { result ≡ number_at 4 at bytes.now }
    ensures range { result < 2 ^ 32 }
{
    LittleEndian::read_u32(&bytes[at..]) as usize
}

/// The number in eight bytes.
#[tactic(auto, unfolding(crate::specs::Object::number_at))]
pub fn u64_at(bytes: &[u8], at: usize) -> usize
    requires { at + 8 ≤ length bytes.now }
    ensures { result ≡ number_at 8 at bytes.now }
{
    LittleEndian::read_u64(&bytes[at..]) as usize
}

/// Whether a text is at this place of a file, with a zero after it.
pub fn is_text(file: &[u8], at: usize, text: &str) -> bool
    ensures { IsTrue result ↔ IsText file.now at text.now }
{
    let Some(bytes) = bytes_at(file, at, text.len()) else {
        return false;
    };
    let end = at + text.len();
    bytes == text.as_bytes() && end < file.len() && file[end] == 0
}

/// The text at this place of a file, up to a zero, or its first 512 bytes.
pub fn text_at(file: &[u8], at: usize) -> &[u8] {
    let (_before, rest) = file.split_at(at.min(file.len()));
    for (index, byte) in rest.iter().enumerate() {
        if *byte == 0 || index == 512 {
            return &rest[..index];
        }
    }
    rest
}
