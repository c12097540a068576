//! The sections of an object file.

ghost use Rattle.std.specs.Prelude.{◌≡◌, ◌≤◌, IfNone, IfSome, length};
ghost use Rattle.elf.specs.Object.{contents_of, is_code, section_at, section_count, stored_size};
ghost use Rattle.elf.specs.Refusal.{AreBytesOutside, IsRowOutside};

use crate::number::{bytes_at, u16_at, u32_at, u64_at};

/// How many bytes a row of the table of sections has.
const ROW: usize = 64;

/// Kinds of sections: code or data, symbols, relocations with an addend, nothing in the file, relocations.
pub const PROGRAM: usize = 1;

pub const SYMBOLS: usize = 2;

pub const ADDEND_RELOCATIONS: usize = 4;

const NO_BYTES: usize = 8;

pub const RELOCATIONS: usize = 9;

/// A section. Its bytes lie in the file from `offset` on.
#[derive(Clone, Copy, Debug, PartialEq, Eq)]
pub struct Section {
    /// Where its name begins among those of sections.
    pub name: usize,
    pub kind: usize,
    pub flags: usize,
    pub offset: usize,
    pub size: usize,
    /// Of symbols the section of their names, of relocations that of symbols.
    pub link: usize,
    /// Of relocations the section that they lie in.
    pub info: usize,
}

impl Section {
    /// Whether it has code.
    pub fn is_code(&self) -> bool
        ensures { result ≡ is_code self.now }
    {
        self.kind == PROGRAM && self.flags / 4 % 2 == 1
    }

    /// How many bytes it has in the file.
    pub fn stored_size(&self) -> usize
        ensures { result ≡ stored_size self.now }
    {
        if self.kind == NO_BYTES { 0 } else { self.size }
    }

    /// The bytes of the section.
    pub fn bytes<'a>(&self, file: &'a [u8]) -> Option<&'a [u8]>
        ensures bytes { IfSome result (λ bytes. bytes.now ≡ contents_of self.now file.entry.now) }
        ensures size { IfSome result (λ bytes. length bytes.now ≡ self.now.size) }
        ensures outside { IfNone result (AreBytesOutside file.entry.now self.now) }
    {
        bytes_at(file, self.offset, self.size)
    }
}

/// How many sections a file has.
pub fn section_count(file: &[u8]) -> usize
    requires { 64 ≤ length file.now }
    ensures { result ≡ section_count file.now }
{
    u16_at(file, 60)
}

/// The section of this number, if its row lies in the file.
#[tactic(auto, unfolding(crate::specs::Object::section_at))]
pub fn section_at(file: &[u8], index: usize) -> Option<Section>
    requires { 64 ≤ length file.now }
    ensures section { IfSome result (λ section. section ≡ section_at file.now index) }
    ensures outside { IfNone result (IsRowOutside file.now index) }
{
    let before = index.checked_mul(u16_at(file, 58))?;
    let row = bytes_at(file, u64_at(file, 40).checked_add(before)?, ROW)?;
    Some(Section {
        name: u32_at(row, 0),
        kind: u32_at(row, 4),
        flags: u64_at(row, 8),
        offset: u64_at(row, 24),
        size: u64_at(row, 32),
        link: u32_at(row, 40),
        info: u32_at(row, 44),
    })
}
