//! How long the state of a function is, by the types of its file (BTF, which clang -g writes). No contract speaks of it.

ghost use Rattle.std.specs.Prelude.{◌≤◌, length};

use crate::number::{bytes_at, is_text, text_at, u16_at, u32_at};
use crate::section::{Section, section_at, section_count};
use crate::symbol::Symbol;

/// The first two bytes.
const MAGIC: usize = 0xeb9f;

/// How many types are followed to one that has a size, so that types that lead to one another come to an end.
const STEPS: usize = 32;

/// Kinds of types.
const POINTER: usize = 2;

const ARRAY: usize = 3;

const OF_A_FUNCTION: usize = 12;

const PROTOTYPE: usize = 13;

/// The types of a file: their rows, and where their names begin in the file.
#[derive(Clone, Copy)]
struct Types<'a> {
    rows: &'a [u8],
    names: usize,
}

/// A type: its kind, where its name begins, its size or the type that it is of, and what its kind adds.
#[derive(Clone, Copy)]
struct Type<'a> {
    kind: usize,
    name: usize,
    of: usize,
    added: &'a [u8],
}

/// The section of this name.
fn section_named(file: &[u8], name: &str) -> Option<Section>
    requires { 64 ≤ length file.now }
{
    let names = section_at(file, u16_at(file, 62))?;
    for index in 0..section_count(file) {
        let section = section_at(file, index)?;
        if is_text(file, names.offset.checked_add(section.name)?, name) {
            return Some(section);
        }
    }
    None
}

/// How many bytes a kind adds, and how many more for each of its parts.
fn added_by(kind: usize) -> (u32, u32) {
    match kind {
        1 | 14 | 17 => (4, 0),
        3 => (12, 0),
        4 | 5 | 15 | 19 => (0, 12),
        6 | 13 => (0, 8),
        _ => (0, 0),
    }
}

/// The first type, and the rows after it.
fn first_of(rows: &[u8]) -> Option<(Type<'_>, &[u8])> {
    if rows.len() < 12 {
        return None;
    }
    let (head, rest) = rows.split_at(12);
    let info = u32_at(head, 4);
    let kind = info / 0x0100_0000 % 32;
    let (once, each) = added_by(kind);
    let count = (once as usize).saturating_add((each as usize).saturating_mul(info % 0x1_0000));
    let added = bytes_at(rest, 0, count)?;
    let (_added, rest) = rest.split_at(count);
    let first = Type {
        kind,
        name: u32_at(head, 0),
        of: u32_at(head, 8),
        added,
    };
    Some((first, rest))
}

impl<'a> Types<'a> {
    fn of_file(file: &'a [u8]) -> Option<Types<'a>>
        requires { 64 ≤ length file.now }
    {
        let section = section_named(file, ".BTF")?;
        let bytes = section.bytes(file)?;
        if bytes.len() < 24 || u16_at(bytes, 0) != MAGIC {
            return None;
        }
        let head = u32_at(bytes, 4);
        let rows = bytes_at(bytes, head + u32_at(bytes, 8), u32_at(bytes, 12))?;
        let names = section.offset.checked_add(head + u32_at(bytes, 16))?;
        Some(Types { rows, names })
    }

    /// The type of this number; 0 stands for none.
    fn at(&self, index: usize) -> Option<Type<'a>> {
        if index == 0 {
            return None;
        }
        let mut rest = self.rows;
        for _ in 1..index {
            let (_type, after) = first_of(rest)?;
            rest = after;
        }
        let (found, _after) = first_of(rest)?;
        Some(found)
    }

    /// The type of a function, by its name.
    fn of_function(&self, file: &[u8], name: usize) -> Option<Type<'a>> {
        let wanted = text_at(file, name);
        let mut rest = self.rows;
        for _ in 0..self.rows.len() / 12 {
            let (found, after) = first_of(rest)?;
            let name = self.names.checked_add(found.name)?;
            if found.kind == OF_A_FUNCTION && text_at(file, name) == wanted {
                return Some(found);
            }
            rest = after;
        }
        None
    }

    /// A type without the names and marks before it.
    fn plain(&self, index: usize) -> Option<Type<'a>> {
        let mut index = index;
        for _ in 0..STEPS {
            let found = self.at(index)?;
            match found.kind {
                8..=11 | 18 => index = found.of,
                _ => return Some(found),
            }
        }
        None
    }

    /// How many bytes a type has.
    fn size(&self, index: usize) -> Option<usize> {
        let (mut index, mut count) = (index, 1usize);
        for _ in 0..STEPS {
            let found = self.at(index)?;
            match found.kind {
                8..=11 | 18 => index = found.of,
                POINTER => return count.checked_mul(8),
                1 | 4 | 5 | 6 | 16 | 19 => return count.checked_mul(found.of),
                ARRAY if found.added.len() >= 12 => {
                    index = u32_at(found.added, 0);
                    count = count.checked_mul(u32_at(found.added, 8))?;
                }
                _ => return None,
            }
        }
        None
    }
}

/// How many bytes the type has that the second argument of a function points to, if that is known; 0 with fewer than two arguments.
pub fn state_length(file: &[u8], function: &Symbol) -> Option<usize>
    requires { 64 ≤ length file.now }
{
    let types = Types::of_file(file)?;
    let prototype = types.at(types.of_function(file, function.name)?.of)?;
    if prototype.kind != PROTOTYPE {
        return None;
    }
    if prototype.added.len() < 16 {
        return Some(0);
    }
    let state = types.plain(u32_at(prototype.added, 12))?;
    if state.kind == POINTER {
        types.size(state.of)
    } else {
        None
    }
}
