//! What is wrong with the first faulty line of a text, in words.

use crate::fault::TextFault;
use crate::mnemonic::{Mnemonic, mnemonic_named};
use crate::number::{distance_of, number_of, offset_of, value_of};
use crate::operands::{address_of, register_of, source_of};

/// What belongs at an operand's place.
#[derive(Clone, Copy)]
pub enum Wanted {
    Register,
    /// A register or a number.
    Source,
    /// A number of 32 bits.
    Number,
    /// A number of 64 bits, without a sign.
    Value,
    /// A register and a distance of 16 bits, in brackets.
    Address,
    /// The number of a helper.
    Helper,
    /// A distance of 16 bits, with its sign.
    Offset,
    /// A distance of 32 bits, with its sign.
    Distance,
}

/// What is wrong with a line, and what would be right. It prints as a sentence without a line feed.
#[derive(Clone, Copy)]
pub enum TextMistake<'a> {
    /// A byte order mark at the beginning.
    Mark,
    CarriageReturn,
    /// A NUL; every second letter of a text in UTF-16 is one.
    Null,
    /// The text is what a compiler writes for an assembler.
    Compiler,
    /// The text is C.
    Language,
    Tab,
    /// A space before the first word.
    Indent,
    /// A semicolon at the end, or between two instructions.
    Semicolon,
    /// Something after an instruction that looks like a comment.
    Comment,
    /// A number after a `#`.
    Hash,
    /// A control character, and its place, counted from 1.
    Control { letter: char, place: usize },
    /// A letter that isn't ASCII, and its place, counted from 1.
    Letter { letter: char, place: usize },
    /// A space at the end, or two in a row.
    Space,
    /// A comma with a space before it, or without one after it.
    Comma,
    /// The first word is a label.
    Label,
    /// The line is one of a listing.
    Listing,
    /// The line is an instruction as compilers write it.
    Foreign,
    /// The first word is one of a scenario.
    Scenario,
    /// The first word is a register.
    Register { word: &'a str },
    /// The first word has a capital letter.
    Capital { word: &'a str },
    /// No instruction has this word.
    Word { word: &'a str },
    /// Too many operands or too few; `form` shows the right ones.
    Operands { word: &'a str, form: &'static str },
    /// An operand that doesn't have the shape that belongs at its place.
    Shape { word: &'a str, wanted: Wanted },
    /// An operand whose number is out of its range.
    Range { word: &'a str, wanted: Wanted },
}

/// What is wrong with the line of this number, counted from 1, the first faulty one of a text. `None` if the line
/// itself isn't faulty.
pub fn mistake_of(text: &str, number: usize) -> Option<TextMistake<'_>> {
    let line = text.split('\n').nth(number.checked_sub(1)?)?;
    if line.is_empty() || line.starts_with('#') {
        return None;
    }
    writing(text, line).or(spacing(line)).or(wording(line))
}

/// What is wrong with the words of a line.
fn wording(line: &str) -> Option<TextMistake<'_>> {
    let (word, operands) = match line.split_once(' ') {
        Some((word, operands)) => (word, Some(operands)),
        None => (line, None),
    };
    match mnemonic_named(word.as_bytes()) {
        Some(mnemonic) => operating(word, mnemonic, operands),
        None => Some(naming(word)),
    }
}

/// What is wrong with a line that another program wrote, or that is meant for another program.
fn writing<'a>(text: &'a str, line: &'a str) -> Option<TextMistake<'a>> {
    if line.starts_with('\u{feff}') {
        return Some(TextMistake::Mark);
    }
    if line.contains('\r') {
        return Some(TextMistake::CarriageReturn);
    }
    if line.contains('\0') {
        return Some(TextMistake::Null);
    }
    if text.split('\n').any(is_compiled) {
        return Some(TextMistake::Compiler);
    }
    if is_listed(line) {
        return Some(TextMistake::Listing);
    }
    if is_c(text, line) {
        return Some(TextMistake::Language);
    }
    None
}

/// Whether a line is one of a listing: it begins with the number of a slot and a colon.
fn is_listed(line: &str) -> bool {
    match line.trim_start().split_once(':') {
        Some((number, _)) => is_slot(number),
        None => false,
    }
}

/// Whether a line is one that a compiler writes for an assembler, other than an instruction.
pub fn is_compiled(line: &str) -> bool {
    let line = line.trim_start();
    line.starts_with(".text")
        || line.starts_with(".globl")
        || line.starts_with(".type")
        || line.starts_with(".section")
        || line.starts_with(".file")
        || line.starts_with("# %bb.")
}

/// Whether a refused line is one of C, or some line of its text is.
fn is_c(text: &str, line: &str) -> bool {
    is_call(line)
        || line.starts_with("/*")
        || line.ends_with('{')
        || text.split('\n').any(|line| {
            line.starts_with("#include ") || line.starts_with("#define ")
        })
}

/// Whether a line begins with no instruction's word, and has a parenthesis before any other mark.
fn is_call(line: &str) -> bool {
    let (word, _) = line.split_once(' ').unwrap_or((line, ""));
    let (head, _) = line.split_once(';').unwrap_or((line, ""));
    let is_marked = head.contains('#') || head.contains('=') || head.contains("//");
    mnemonic_named(word.as_bytes()).is_none() && head.contains('(') && !is_marked
}

/// What is wrong with the spaces and commas between a line's words, and with its letters.
fn spacing(line: &str) -> Option<TextMistake<'_>> {
    if line.contains('\t') {
        return Some(TextMistake::Tab);
    }
    if line.starts_with(' ') {
        return Some(TextMistake::Indent);
    }
    marking(line).or(lettering(line)).or(parting(line))
}

/// What is wrong with the spaces of a line.
fn parting(line: &str) -> Option<TextMistake<'_>> {
    if line.ends_with(' ') || line.contains("  ") {
        return Some(TextMistake::Space);
    }
    None
}

/// The first letter of a line that isn't ASCII, or that a terminal can't show.
fn lettering(line: &str) -> Option<TextMistake<'_>> {
    let mut place = 0usize;
    for letter in line.chars() {
        place = place.saturating_add(1);
        if letter.is_control() {
            return Some(TextMistake::Control { letter, place });
        }
        if !letter.is_ascii() {
            return Some(TextMistake::Letter { letter, place });
        }
    }
    None
}

/// What is wrong with a mark after an instruction, or instead of one.
fn marking(line: &str) -> Option<TextMistake<'_>> {
    if line.split(", #").skip(1).any(is_number_begun) {
        return Some(TextMistake::Hash);
    }
    if line.contains('#') || line.contains("//") || line.starts_with(';') {
        return Some(TextMistake::Comment);
    }
    let (_, behind) = line.split_once(';')?;
    let behind = behind.trim_start();
    let (word, _) = behind.split_once(' ').unwrap_or((behind, ""));
    if word.is_empty() || mnemonic_named(word.as_bytes()).is_some() {
        return Some(TextMistake::Semicolon);
    }
    Some(TextMistake::Comment)
}

/// Whether a number begins here.
fn is_number_begun(text: &str) -> bool {
    matches!(text.bytes().next(), Some(b'-' | b'0'..=b'9'))
}

/// Whether a word is the number of a slot.
fn is_slot(word: &str) -> bool {
    !word.is_empty() && word.bytes().all(|letter| letter.is_ascii_digit())
}

/// What is wrong with a word that no instruction has.
fn naming(word: &str) -> TextMistake<'_> {
    if word.ends_with(':') {
        return TextMistake::Label;
    }
    if word == "form" {
        return TextMistake::Listing;
    }
    if word == "if" || word == "goto" || word.starts_with("*(") {
        return TextMistake::Foreign;
    }
    if word == "process" {
        return TextMistake::Scenario;
    }
    if register_of(word.as_bytes()).is_ok() {
        return TextMistake::Register { word };
    }
    if word.bytes().any(|letter| letter.is_ascii_uppercase()) {
        return TextMistake::Capital { word };
    }
    TextMistake::Word { word }
}

/// What is wrong with the operands of an instruction.
fn operating<'a>(
    word: &'a str,
    mnemonic: Mnemonic,
    operands: Option<&'a str>,
) -> Option<TextMistake<'a>> {
    let (form, wanted) = form_of(mnemonic);
    let count = match operands {
        Some(operands) => operands.split(',').count(),
        None => 0,
    };
    if count != wanted.len() {
        return Some(TextMistake::Operands { word, form });
    }
    let operands = operands?;
    if operands.contains(" ,") || operands.split(", ").count() != count {
        return Some(TextMistake::Comma);
    }
    if let Some((word, wanted)) = first_with(TextFault::Shape, wanted, operands) {
        return Some(TextMistake::Shape { word, wanted });
    }
    let (word, wanted) = first_with(TextFault::Range, wanted, operands)?;
    Some(TextMistake::Range { word, wanted })
}

/// The first operand that has this fault.
fn first_with<'a>(
    fault: TextFault,
    wanted: &'static [Wanted],
    operands: &'a str,
) -> Option<(&'a str, Wanted)> {
    let mut kinds = wanted.iter();
    for operand in operands.split(", ") {
        let kind = kinds.next()?;
        if fault_of(*kind, operand.as_bytes()) == Some(fault) {
            return Some((operand, *kind));
        }
    }
    None
}

/// How the operands of an instruction are written, and what belongs at each place.
fn form_of(mnemonic: Mnemonic) -> (&'static str, &'static [Wanted]) {
    match mnemonic {
        Mnemonic::Alu(..) => (" r1, r2 or r1, 5", &[Wanted::Register, Wanted::Source]),
        Mnemonic::MovSx(_) => (" r1, r2", &[Wanted::Register, Wanted::Register]),
        Mnemonic::Neg(_) | Mnemonic::End(..) => (" r1", &[Wanted::Register]),
        Mnemonic::Jump => (" +2", &[Wanted::Offset]),
        Mnemonic::JumpLong => (" +2", &[Wanted::Distance]),
        Mnemonic::JumpIf(..) => (
            " r1, r2, +2 or r1, 5, +2",
            &[Wanted::Register, Wanted::Source, Wanted::Offset],
        ),
        Mnemonic::Call => (" 1", &[Wanted::Helper]),
        Mnemonic::Exit => (", alone", &[]),
        Mnemonic::Load(_) | Mnemonic::LoadSx(_) => {
            (" r1, [r2+0]", &[Wanted::Register, Wanted::Address])
        }
        Mnemonic::StoreReg(_) => (" [r1+0], r2", &[Wanted::Address, Wanted::Register]),
        Mnemonic::StoreImm(_) => (" [r1+0], 5", &[Wanted::Address, Wanted::Number]),
        Mnemonic::Wide => (" r1, 5", &[Wanted::Register, Wanted::Value]),
    }
}

/// The fault of an operand.
fn fault_of(wanted: Wanted, operand: &[u8]) -> Option<TextFault> {
    match wanted {
        Wanted::Register => register_of(operand).err(),
        Wanted::Source => source_of(operand).err(),
        Wanted::Number | Wanted::Helper => number_of(operand).err(),
        Wanted::Value => value_of(operand).err(),
        Wanted::Address => address_of(operand).err(),
        Wanted::Offset => offset_of(operand).err(),
        Wanted::Distance => distance_of(operand).err(),
    }
}
