//! Hints on a refused line of a scenario.

use crate::shown::{hexadecimal_of, line_at, meant};
use scenario::{Allowed, Mistake, mistake_of};
use std::alloc::{AllocError, Global};

/// Words that begin no line, and what they may be meant for.
const MEANT: [(&str, &str); 9] = [
    ("send sent msg message", "transmit"),
    ("deliver receive recv", "arrive"),
    ("drop loss", "lose"),
    ("duplicate dup", "copy"),
    ("kill stop fail", "crash"),
    ("restart revive restore", "recover"),
    ("save snapshot", "checkpoint"),
    ("run step start wait", "drive"),
    ("node proc", "process"),
];

const PRINTED: &str = "run prints such a line, and a scenario has none: keep it in another file";

const KEYS: &str = "a packet is named by its key, which the trace tells, as in -> packet 0";

/// Whether `run` prints such a line, and a scenario has none.
fn is_printed(line: &str) -> bool {
    let mut words = line.split(' ');
    match (words.next(), words.nth(1)) {
        (Some("exact" | "output" | "not"), _) => true,
        (Some("process"), Some("up" | "busy" | "down" | "replaying" | "resync")) => true,
        (Some("line"), Some("refused")) => true,
        (Some(first), _) => first.len() == 6 && first.bytes().all(|it| it.is_ascii_digit()),
        _ => false,
    }
}

/// How the bytes for the process of this name are written; empty if that isn't known.
fn bytes_words(alloc: Global, name: &str, said: &str) -> Result<String, AllocError> {
    let digits = said.strip_prefix("0x").unwrap_or(said);
    let letters = said.trim_matches('"').trim_matches('\'');
    let mut right = String::new(alloc);
    if digits.chars().all(|it| it == ' ' || it.is_ascii_hexdigit()) {
        for letter in digits.chars().filter(|it| *it != ' ') {
            right.push(letter.to_ascii_lowercase())?;
        }
    } else {
        for letter in letters.bytes() {
            let pair = format!(in alloc; "{letter:02x}")?;
            right.push_str(pair.as_str())?;
        }
    }
    if right.is_empty() || right.len() % 2 == 1 {
        return Ok(String::new(alloc));
    }
    format!(in alloc; "bytes are pairs of 0 to 9 and a to f alone: bytes {name} {right}")
}

/// How a line with the wrong operands is written; empty if that isn't known.
fn operand_words(alloc: Global, line: &str, mistake: &Mistake<'_>) -> Result<String, AllocError> {
    if let Some((before, after)) = line.split_once(" -> ") {
        return format!(in alloc; "names stand without an arrow: {before} {after}");
    }
    let (verb, rest) = line.split_once(' ').unwrap_or((line, ""));
    if verb == "bytes" {
        return match rest.split_once(' ') {
            Some((name, said)) => bytes_words(alloc, name, said),
            None => format!(in alloc; "a message without bytes is bytes {rest} -"),
        };
    }
    let Mistake::Number { word, .. } = *mistake else {
        return Ok(String::new(alloc));
    };
    if let (Some(number), Some((before, _))) = (hexadecimal_of(word), line.rsplit_once(word)) {
        return format!(in alloc; "numbers are decimal: {before}{number}");
    }
    if matches!(verb, "arrive" | "copy" | "lose") {
        return String::from_str(alloc, KEYS);
    }
    Ok(String::new(alloc))
}

/// What a line may be meant for; empty if that isn't known.
fn meant_words(alloc: Global, line: &str, mistake: &Mistake<'_>) -> Result<String, AllocError> {
    if is_printed(line) {
        return String::from_str(alloc, PRINTED);
    }
    match mistake {
        Mistake::Verb { word } => match meant(&MEANT, word) {
            Some(right) => format!(in alloc; "no line begins with {word}: {right} is meant?"),
            None => Ok(String::new(alloc)),
        },
        Mistake::Words(..) | Mistake::Number { .. } | Mistake::Digit { .. } => {
            operand_words(alloc, line, mistake)
        }
        _ => Ok(String::new(alloc)),
    }
}

/// What is wrong with the line of this number, the first faulty one of a text that may have these orders, as a line of text.
pub fn scenario_words(
    alloc: Global,
    text: &str,
    number: usize,
    allowed: Allowed,
) -> Result<String, AllocError> {
    let Some(mistake) = mistake_of(text, number, allowed) else {
        return Ok(String::new(alloc));
    };
    let line = line_at(text, number);
    let words = meant_words(alloc, line, &mistake)?;
    if words.is_empty() {
        return format!(in alloc; "line {number}: {mistake}\n");
    }
    format!(in alloc; "line {number}: {words}\n")
}
