//! The eight bytes of a slot.

ghost use Rattle.std.specs.Prelude.{◌≡◌, ◌≤◌, ◌<◌, ◌^◌, ◌++◌, length, OnOk, List, ℕ};
ghost use Rattle.decode.specs.Layout.{IsWord, word_bytes};

use byteorder::{ByteOrder, LittleEndian};
use std::alloc::AllocError;

/// How many bytes a slot has.
pub const SLOT: usize = 8;

/// The fields of a slot, as numbers without a sign (RFC 9669 section 3.1).
#[derive(Clone, Copy, PartialEq, Eq)]
pub struct Word {
    /// What the instruction does.
    pub opcode: u8,
    /// The destination register, 0 to 15.
    pub dst: u8,
    /// The source register, 0 to 15.
    pub src: u8,
    /// The offset, 16 bits.
    pub offset: u16,
    /// The immediate value, 32 bits.
    pub imm: u32,
}

impl Word {
    /// Eight zero bytes.
    pub const ZERO: Word = Word {
        opcode: 0,
        dst: 0,
        src: 0,
        offset: 0,
        imm: 0,
    };
}

/// The first slot of the bytes, and the bytes after it.
pub fn word_at(bytes: &[u8]) -> (Word, &[u8])
    requires { 8 ≤ length bytes.now }
    ensures fields { bytes.now ≡ word_bytes result.0 ++ result.1.now }
    ensures sizes { IsWord result.0 }
{
    let (front, rest) = bytes.split_at(SLOT);
    let word = Word {
        opcode: front[0],
        dst: front[1] % 16,
        src: front[1] / 16,
        offset: LittleEndian::read_u16(&front[2..4]),
        imm: LittleEndian::read_u32(&front[4..8]),
    };
    (word, rest)
}

/// Appends a slot.
pub fn push_word(out: &mut Vec<u8>, word: Word) -> Result<(), AllocError>
    requires dst { word.dst < 16 }
    requires src { word.src < 16 }
    ensures { OnOk result (out.new.items ≡ out.old.items ++ word_bytes word) }
{
    let mut bytes = [0; SLOT];
    bytes[0] = word.opcode;
    bytes[1] = word.dst + word.src * 16;
    LittleEndian::write_u16(&mut bytes[2..4], word.offset);
    LittleEndian::write_u32(&mut bytes[4..8], word.imm);
    out.extend_from_slice(&bytes)
}
