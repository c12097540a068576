//! What is wrong with the first faulty line of a text, in words.

use crate::above::{Above, declared};
use crate::hex::payload_of;
use crate::number::{number_of, word_of};
use crate::order::Allowed;
use crate::process::is_name;
use crate::verb::{VERBS, Verb, verb_named};
use limits::PROCESSES;

/// The word of a line that declares a process.
pub(crate) const PROCESS: &str = "process";

/// What is wrong with a line, and what it may say. It prints as a sentence, without a line end.
#[derive(Clone, Copy)]
pub enum Mistake<'a> {
    /// No line declares a process.
    NoProcess,
    /// There is a byte order mark at the beginning.
    Mark,
    CarriageReturn,
    /// There is a NUL, as every second byte of a text in UTF-16 is.
    Null,
    /// The text describes a cluster.
    Cluster,
    /// The first word would begin a line if it had no capital letter.
    Capital { word: &'a str },
    /// The first word begins no line, and no line of the text looks like a process.
    Foreign { word: &'a str },
    Tab,
    /// There is a space at the beginning or at the end, or two in a row.
    Space,
    /// There is a semicolon at the end.
    Semicolon,
    /// There is a semicolon between two orders.
    Several,
    /// There is something that looks like a comment, after an order or in its place.
    Comment,
    /// There is a control character at this place, counted from 1.
    Control { letter: char, place: usize },
    /// There is a letter that isn't ASCII at this place, counted from 1.
    Letter { letter: char, place: usize },
    /// The first word begins no line.
    Verb { word: &'a str },
    /// There are too many words or too few. The first word takes these operands.
    Words(&'static str, &'static str),
    /// A path has a space in it, or what looks like one.
    Path,
    /// A process is declared after the first order.
    Late,
    /// There are too many processes.
    Full,
    /// No process can have this name.
    Name { name: &'a str },
    /// A process above has this name.
    Taken { name: &'a str },
    /// An order hands in nothing, in a text that may only have inputs.
    InputsAlone,
    /// No process above has this name.
    Unknown { name: &'a str, above: Above<'a> },
    /// There is a process's number in place of its name.
    Numbered { name: &'a str, above: Above<'a> },
    /// There is the outside's number in place of its name.
    Zero { above: Above<'a> },
    /// There is the outside in place of a process.
    Outside { above: Above<'a> },
    /// The word is no number of this many bits.
    Number { word: &'a str, bits: u8 },
    /// The letter is no digit of bytes.
    Digit { letter: char },
    /// The digits of bytes are no pairs.
    Odd { digits: usize },
    /// There are more bytes than a message can have.
    Long { bytes: usize },
}

/// An operand of an order.
#[derive(Clone, Copy)]
enum Operand {
    Process,
    /// A process or the outside.
    Party,
    Number,
    Word,
    Bytes,
}

/// What is wrong with the line of this number, which is the first faulty one of a text that may
/// have these orders. For line 0 that is that there is no process. `None` for a line that isn't
/// faulty.
pub fn mistake_of(text: &str, number: usize, allowed: Allowed) -> Option<Mistake<'_>> {
    if number == 0 {
        return Some(Mistake::NoProcess);
    }
    let lines = number - 1;
    let line = text.split('\n').nth(lines)?;
    let (word, operands) = line.split_once(' ').unwrap_or((line, ""));
    writing(line)
        .or(meaning(text, word))
        .or(spacing(line))
        .or(wording(Above { text, lines }, word, operands, allowed))
}

/// What is wrong with the words of a line.
fn wording<'a>(
    above: Above<'a>,
    word: &'a str,
    operands: &'a str,
    allowed: Allowed,
) -> Option<Mistake<'a>> {
    if word == PROCESS {
        return declaring(above, operands);
    }
    match verb_named(word) {
        Some(verb) if is_taken(allowed, verb) => ordering(above, verb, operands),
        Some(_) => Some(Mistake::InputsAlone),
        None => Some(Mistake::Verb { word }),
    }
}

/// What is wrong with a line that another program wrote in its own way.
fn writing(line: &str) -> Option<Mistake<'_>> {
    if line.starts_with('\u{feff}') {
        return Some(Mistake::Mark);
    }
    if line.contains('\r') {
        return Some(Mistake::CarriageReturn);
    }
    if line.contains('\0') {
        return Some(Mistake::Null);
    }
    None
}

/// Whether lines begin with this word.
fn is_line_word(word: &str) -> bool {
    word == PROCESS || verb_named(word).is_some()
}

/// Whether the first word of a line is one with which a line of a scenario begins.
pub fn is_begun(line: &str) -> bool {
    let (word, _) = line.split_once(' ').unwrap_or((line, ""));
    is_line_word(word)
}

/// What is wrong with a first word that begins no line, if the word or the whole text is of another
/// kind.
fn meaning<'a>(text: &'a str, word: &'a str) -> Option<Mistake<'a>> {
    if is_line_word(word) {
        return None;
    }
    if is_capital(word) {
        return Some(Mistake::Capital { word });
    }
    if word == "cluster" || word == "gateway" {
        return Some(Mistake::Cluster);
    }
    if is_declaring(text) {
        return None;
    }
    Some(Mistake::Foreign { word })
}

/// Whether lines begin with this word in lower case.
fn is_capital(word: &str) -> bool {
    word.eq_ignore_ascii_case(PROCESS)
        || VERBS
            .iter()
            .any(|verb| word.eq_ignore_ascii_case(verb.word()))
}

/// Whether some line of a text looks like a process.
fn is_declaring(text: &str) -> bool {
    text.split('\n').any(|line| {
        let line = line.trim_start();
        line.starts_with("process") || line.starts_with("\u{feff}process")
    })
}

/// What is wrong with the blanks, marks or letters of a line.
fn spacing(line: &str) -> Option<Mistake<'_>> {
    if line.contains('\t') {
        return Some(Mistake::Tab);
    }
    if line.starts_with(' ') || line.ends_with(' ') || line.contains("  ") {
        return Some(Mistake::Space);
    }
    marking(line).or(lettering(line))
}

/// What is wrong with a mark after an order, or in its place. In the line of a process it belongs
/// to the path.
fn marking(line: &str) -> Option<Mistake<'_>> {
    if line.starts_with("process ") {
        return None;
    }
    let is_comment = line.contains(" #")
        || line.contains("//")
        || line.starts_with(';')
        || line.starts_with("/*")
        || line.starts_with("--");
    if !is_comment && has_order_behind(line) {
        return Some(Mistake::Several);
    }
    if line.ends_with(';') && !is_comment {
        return Some(Mistake::Semicolon);
    }
    if is_comment || line.contains(" ;") {
        return Some(Mistake::Comment);
    }
    None
}

/// Whether the word of a line comes after a semicolon.
fn has_order_behind(line: &str) -> bool {
    line.split(';')
        .skip(1)
        .any(|part| is_begun(part.trim_start()))
}

/// The first letter of a line that isn't ASCII, or that no terminal shows. A path may have any
/// letters.
fn lettering(line: &str) -> Option<Mistake<'_>> {
    match declared(line) {
        Some(name) if name.is_ascii() => return None,
        _ => {}
    }
    let mut place = 0usize;
    for letter in line.chars() {
        place = place.saturating_add(1);
        if letter.is_control() {
            return Some(Mistake::Control { letter, place });
        }
        if !letter.is_ascii() {
            return Some(Mistake::Letter { letter, place });
        }
    }
    None
}

/// Whether a text may have orders of this kind.
fn is_taken(allowed: Allowed, verb: Verb) -> bool {
    match allowed {
        Allowed::All => true,
        Allowed::Inputs => matches!(verb, Verb::Input | Verb::Bytes),
    }
}

/// What is wrong with the line of a process.
fn declaring<'a>(above: Above<'a>, operands: &'a str) -> Option<Mistake<'a>> {
    if above.has_order() {
        return Some(Mistake::Late);
    }
    if above.processes() >= PROCESSES {
        return Some(Mistake::Full);
    }
    let (name, path) = operands.split_once(' ').unwrap_or((operands, ""));
    if path.is_empty() {
        return Some(Mistake::Words(PROCESS, "NAME PATH"));
    }
    if path.contains(' ') {
        return Some(following(path));
    }
    if !is_name(name) {
        return Some(Mistake::Name { name });
    }
    if above.has_process(name) {
        return Some(Mistake::Taken { name });
    }
    None
}

/// What is wrong with a path that has a space.
fn following(path: &str) -> Mistake<'_> {
    if path.contains(" #") || path.contains(" //") || path.contains(" ;") {
        return Mistake::Comment;
    }
    if has_order_behind(path) {
        return Mistake::Several;
    }
    Mistake::Path
}

/// What is wrong with the line of an order.
fn ordering<'a>(above: Above<'a>, verb: Verb, operands: &'a str) -> Option<Mistake<'a>> {
    let (wanted, kinds) = operands_of(verb);
    let words = operands.split(' ').filter(|word| !word.is_empty()).count();
    if words != kinds.len() {
        return Some(Mistake::Words(verb.word(), wanted));
    }
    let mut kinds = kinds.iter();
    for word in operands.split(' ') {
        let wrong = reading(above, *kinds.next()?, word);
        if wrong.is_some() {
            return wrong;
        }
    }
    None
}

/// How the operands of an order are written, and what each is.
fn operands_of(verb: Verb) -> (&'static str, &'static [Operand]) {
    match verb {
        Verb::Input => ("NAME WORD", &[Operand::Process, Operand::Word]),
        Verb::Bytes => ("NAME HEX", &[Operand::Process, Operand::Bytes]),
        Verb::Transmit => (
            "NAME NAME SSN",
            &[Operand::Party, Operand::Party, Operand::Number],
        ),
        Verb::Copy | Verb::Lose | Verb::Arrive => ("KEY", &[Operand::Number]),
        Verb::Trim => ("NAME", &[Operand::Party]),
        Verb::Finish | Verb::Checkpoint | Verb::Crash => ("NAME", &[Operand::Process]),
        Verb::Recover | Verb::Alone | Verb::Replay => ("NAME", &[Operand::Process]),
        Verb::Resync => ("NAME NAME", &[Operand::Process, Operand::Process]),
        Verb::Drive => ("BUDGET", &[Operand::Number]),
    }
}

/// What is wrong with an operand.
fn reading<'a>(above: Above<'a>, kind: Operand, word: &'a str) -> Option<Mistake<'a>> {
    let is_party = matches!(kind, Operand::Party);
    match kind {
        Operand::Process | Operand::Party if above.has_process(word) => None,
        Operand::Process | Operand::Party if word == "outside" => {
            if is_party {
                None
            } else {
                Some(Mistake::Outside { above })
            }
        }
        Operand::Process | Operand::Party => Some(naming(above, is_party, word)),
        Operand::Number if number_of(word).is_none() => Some(Mistake::Number { word, bits: 32 }),
        Operand::Word if word_of(word).is_none() => Some(Mistake::Number { word, bits: 64 }),
        Operand::Bytes if payload_of(word).is_none() => Some(spelling(word)),
        Operand::Number | Operand::Word | Operand::Bytes => None,
    }
}

/// What is wrong with a word that names no process.
fn naming<'a>(above: Above<'a>, is_party: bool, name: &'a str) -> Mistake<'a> {
    if is_party && name == "0" {
        return Mistake::Zero { above };
    }
    if number_of(name).is_some() {
        return Mistake::Numbered { name, above };
    }
    Mistake::Unknown { name, above }
}

/// What is wrong with a word that spells no bytes.
fn spelling(word: &str) -> Mistake<'_> {
    for letter in word.chars() {
        if !matches!(letter, '0'..='9' | 'a'..='f') {
            return Mistake::Digit { letter };
        }
    }
    if word.len() % 2 == 1 {
        return Mistake::Odd { digits: word.len() };
    }
    Mistake::Long {
        bytes: word.len() / 2,
    }
}
