//! The symbols of an object file.

ghost use Rattle.std.specs.Prelude.{◌≡◌, ◌≤◌, ◌^◌, IfNone, IfSome, length};
ghost use Rattle.elf.specs.Object.{symbol_in};

use crate::number::{u16_at, u32_at, u64_at};

/// How many bytes a row of a table of symbols has.
pub const SYMBOL_ROW: usize = 24;

/// Kinds of symbols: a function, a section.
pub const FUNCTION: u8 = 2;

pub const SECTION: u8 = 3;

/// A symbol of an object file.
#[derive(Clone, Copy, Debug, PartialEq, Eq)]
pub struct Symbol {
    /// Where its name begins in the file.
    pub name: usize,
    pub kind: u8,
    /// Whether it is static.
    pub is_local: bool,
    /// The number of the section that it lies in.
    pub section: usize,
    /// Its place in that section, and its size.
    pub value: usize,
    pub size: usize,
}

/// The symbol of a row. The names of its table lie from this place on.
#[tactic(auto, unfolding(crate::specs::Object::symbol_in))]
pub fn symbol_in(names: usize, row: &[u8]) -> Option<Symbol>
    requires { 24 ≤ length row.now }
    ensures symbol { IfSome result (λ symbol. symbol ≡ symbol_in names row.now) }
    ensures nameless { IfNone result (2 ^ 64 ≤ (symbol_in names row.now).name) }
{
    Some(Symbol {
        name: names.checked_add(u32_at(row, 0))?,
        kind: row[4] % 16,
        is_local: row[4] < 16,
        section: u16_at(row, 6),
        value: u64_at(row, 8),
        size: u64_at(row, 16),
    })
}
