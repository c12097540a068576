//! What is wrong with an object file, in words for people, and what to do about it. No contract speaks of them.

ghost use Rattle.std.specs.Prelude.{◌≤◌, length};

use crate::fault::{ObjectError, ObjectFault};
use crate::finder::{find_function, functions};
use crate::number::{bytes_at, text_at, u16_at, u32_at};
use crate::section::section_at;
use crate::symbol::{SECTION, SYMBOL_ROW, Symbol, symbol_in};
use std::alloc::{AllocError, Global};
use std::str;

const CALLED: &str =
    "a handler calls helpers alone, and no C library: a function of its own is static inline __attribute__((always_inline)), and doesn't call itself";

const REFERRED: &str =
    "a handler has none: what it keeps stands in its state, and constants in its code or in a local array";

const KEPT: &str =
    "clang made the table of a switch: with -fno-jump-tables it compiles comparisons";

/// What lies in a section, by the beginning of its name, and what to do about it.
const PLACES: [(&str, &str, &str); 4] = [
    (
        ".rodata.str",
        "text in quotes",
        "there is no printf: output puts out the bytes of a local array that is filled element by element",
    ),
    (
        ".rodata",
        "table of constants",
        "clang makes one of a local array that is only read, too: fill it element by element, or use a switch",
    ),
    (
        ".text",
        "function",
        "there are no pointers to functions: use if or switch",
    ),
    ("", "global variable", ""),
];

/// The text at a place of a file.
fn words_at(file: &[u8], at: usize) -> &str {
    str::from_utf8(text_at(file, at)).unwrap_or("?")
}

/// The name of a section.
fn section_name(file: &[u8], index: usize) -> Option<&str>
    requires { 64 ≤ length file.now }
{
    let names = section_at(file, u16_at(file, 62))?;
    let section = section_at(file, index)?;
    Some(words_at(file, names.offset.checked_add(section.name)?))
}

/// A symbol of a table.
fn symbol_at(file: &[u8], table: usize, symbol: usize) -> Option<Symbol>
    requires { 64 ≤ length file.now }
{
    let table = section_at(file, table)?;
    let names = section_at(file, table.link)?;
    let rows = table.bytes(file)?;
    symbol_in(
        names.offset,
        bytes_at(rows, symbol.checked_mul(SYMBOL_ROW)?, SYMBOL_ROW)?,
    )
}

/// The names of functions.
fn names_of(alloc: Global, file: &[u8], functions: &[Symbol]) -> Result<String, AllocError> {
    let mut names = String::new(alloc);
    for function in functions {
        if !names.is_empty() {
            names.push_str(", ")?;
        }
        names.push_str(words_at(file, function.name))?;
    }
    Ok(names)
}

/// What lies in a section of this name, and what to do about it.
fn place_of(section: &str) -> (&'static str, &'static str) {
    for (beginning, what, cure) in PLACES {
        if section.starts_with(beginning) {
            return (what, cure);
        }
    }
    ("symbol", "")
}

/// What is said of a slot that refers to what has this name.
fn slot_words(
    alloc: Global,
    name: &str,
    slot: usize,
    is_call: bool,
    cure: &str,
) -> Result<String, AllocError> {
    if is_call {
        return format!(in alloc; "call of {name} at slot {slot}\n{CALLED}\n");
    }
    let kept = if name.contains("switch.table") {
        KEPT
    } else {
        ""
    };
    let mut text = format!(in alloc; "the address of {name} at slot {slot}\n{REFERRED}\n")?;
    for line in [cure, kept] {
        if !line.is_empty() {
            text.push_str(line)?;
            text.push_str("\n")?;
        }
    }
    Ok(text)
}

/// What is said of a slot that refers to a symbol. That of a section is named by what lies there.
fn reference_words(
    alloc: Global,
    file: &[u8],
    slot: usize,
    is_call: bool,
    symbol: &Symbol,
) -> Result<String, AllocError>
    requires { 64 ≤ length file.now }
{
    if symbol.kind != SECTION {
        return slot_words(alloc, words_at(file, symbol.name), slot, is_call, "");
    }
    let section = section_name(file, symbol.section).unwrap_or("?");
    let (what, cure) = place_of(section);
    let name = format!(in alloc; "a {what} ({section})")?;
    slot_words(alloc, name.as_str(), slot, is_call, cure)
}

/// The function that a slot of another one calls.
fn called(functions: &[Symbol], caller: &Symbol, bytes: &[u8], slot: usize) -> Option<Symbol> {
    let code = bytes_at(bytes, caller.value, caller.size)?;
    let row = bytes_at(code, slot.checked_mul(8)?, 8)?;
    // The distance is one of 32 bits, backward too.
    let place = (caller.value / 8 + slot + 1 + u32_at(row, 4)) % 0x1_0000_0000 * 8;
    let mut found = functions
        .iter()
        .filter(|it| it.section == caller.section && it.value == place);
    found.next().copied()
}

/// What is said of a slot that calls a function of the file.
fn call_words(
    alloc: Global,
    file: &[u8],
    name: Option<&str>,
    slot: usize,
) -> Result<String, ObjectError>
    requires { 64 ≤ length file.now }
{
    let caller = find_function(alloc, file, name)?;
    let functions = functions(alloc, file)?;
    let section = section_at(file, caller.section);
    let bytes = section.and_then(|section| section.bytes(file));
    let found = bytes.and_then(|bytes| called(functions.as_slice(), &caller, bytes, slot));
    let name = found.map_or("a function", |it| words_at(file, it.name));
    Ok(format!(in alloc; "call of {name} at slot {slot}\n{CALLED}\n")?)
}

/// What is said of a file whose functions don't have the one that is asked for.
fn choice_words(alloc: Global, file: &[u8], name: Option<&str>) -> Result<String, ObjectError>
    requires { 64 ≤ length file.now }
{
    let functions = functions(alloc, file)?;
    let (count, names) = (
        functions.len(),
        names_of(alloc, file, functions.as_slice())?,
    );
    match name {
        Some(name) => Ok(format!(in alloc; "no function {name}; there is {names}\n")?),
        None => Ok(format!(in alloc; "{count} functions, {names}: name one with --function\n")?),
    }
}

/// What is wrong with an object file of which the function of this name was asked for, as lines of text.
pub fn object_words(
    alloc: Global,
    file: &[u8],
    name: Option<&str>,
    fault: ObjectFault,
) -> Result<String, ObjectError> {
    if file.len() < 64 {
        return Ok(String::new(alloc));
    }
    let words = match fault {
        ObjectFault::Kind => "not an object file of 64 bits, lowest byte first",
        ObjectFault::ByteOrder => {
            "an object file with the highest byte first: clang --target=bpf"
        }
        ObjectFault::Processor(number) => {
            return Ok(format!(in alloc;
                "compiled for processor {number}, not for BPF: clang --target=bpf -c\n"
            )?);
        }
        ObjectFault::Linked => "linked already: clang -c",
        ObjectFault::Damaged => "cut off, or with tables that lead outside of it",
        ObjectFault::NoFunction => {
            "no function: clang leaves out one that is static and that nothing calls"
        }
        ObjectFault::NoSuchFunction | ObjectFault::Several => {
            return choice_words(alloc, file, name);
        }
        ObjectFault::Outside => "the function leads out of its section",
        ObjectFault::Reference {
            slot,
            is_call,
            table,
            symbol,
        } => match symbol_at(file, table, symbol) {
            Some(symbol) => {
                return Ok(reference_words(alloc, file, slot, is_call, &symbol)?);
            }
            None => REFERRED,
        },
        ObjectFault::Call { slot } => return call_words(alloc, file, name, slot),
        ObjectFault::Slots { slots } => {
            return Ok(format!(in alloc;
                "the function has {slots} slots, an image at most 1,024: fewer turns of unrolled loops\n"
            )?);
        }
        ObjectFault::State { length } => {
            return Ok(format!(in alloc;
                "the type that the second argument points to has {length} bytes: a state has 1,024 at most\n"
            )?);
        }
    };
    Ok(format!(in alloc; "{words}\n")?)
}
