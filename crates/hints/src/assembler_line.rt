//! Hints on a refused line of assembler text.

use crate::shown::{hexadecimal_of, line_at, meant};
use assemble::{TextMistake, Wanted, mistake_of};
use std::alloc::{AllocError, Global};

/// Words that no instruction has, and what they may be meant for.
const MEANT: [(&str, &str); 12] = [
    ("ret return end halt", "exit"),
    ("jmp b br jump", "ja +2"),
    ("jz je beq", "jeq r1, 0, +2"),
    ("jnz bne", "jne r1, 0, +2"),
    ("load ld ldr ldx lw", "ldxdw r1, [r2+0]"),
    ("store str stx sw", "stxdw [r1+0], r2"),
    ("st", "stdw [r1+0], 5"),
    ("inc addi", "add r1, 1"),
    ("dec subi", "sub r1, 1"),
    ("not", "xor r1, -1"),
    ("shl sll", "lsh r1, 5"),
    ("li movi set", "mov r1, 5"),
];

const MEMORY: &str = "no instruction computes with memory: load it first, as ldxdw r5, [r2+0]";

const LABELS: &str = "there are no labels: a jump counts slots, as +1 over the next (lddw has two)";

/// Whether a word is an operand in brackets.
fn is_place(word: &str) -> bool {
    word.starts_with('[')
}

/// Whether a word is a decimal number, with or without a sign.
fn is_number(word: &str) -> bool {
    let digits = word.strip_prefix('-').unwrap_or(word);
    !digits.is_empty() && digits.bytes().all(|it| it.is_ascii_digit())
}

/// How a store or a load is written whose operands are in the other order, or that has a number in place of a register;
/// empty for any other instruction.
fn memory_words(alloc: Global, line: &str) -> Result<String, AllocError> {
    let (verb, operands) = line.split_once(' ').unwrap_or((line, ""));
    let Some((first, second)) = operands.split_once(", ") else {
        return Ok(String::new(alloc));
    };
    if is_place(first) {
        match verb.strip_prefix("stx") {
            Some(width) if is_number(second) => {
                return format!(in alloc; "of a number it is st{width} {first}, {second}");
            }
            None if verb.starts_with("st") && second.starts_with('r') => {
                let width = verb.strip_prefix("st").unwrap_or("");
                return format!(in alloc; "of a register it is stx{width} {first}, {second}");
            }
            _ => {}
        }
    }
    let is_store = verb.starts_with("st") && is_place(second) && !is_place(first);
    let is_load = verb.starts_with("ldx") && is_place(first) && !is_place(second);
    if is_store || is_load {
        return format!(in alloc; "what is written comes first: {verb} {second}, {first}");
    }
    if is_place(second) && !verb.starts_with("ld") {
        return String::from_str(alloc, MEMORY);
    }
    Ok(String::new(alloc))
}

/// How an operand of the wrong kind is written.
fn shape_words(
    alloc: Global,
    line: &str,
    word: &str,
    wanted: Wanted,
) -> Result<String, AllocError> {
    let memory = memory_words(alloc, line)?;
    if !memory.is_empty() {
        return Ok(memory);
    }
    let (before, after) = line.rsplit_once(word).unwrap_or((line, ""));
    if let Some(number) = hexadecimal_of(word) {
        return format!(in alloc; "numbers are decimal: {before}{number}{after}");
    }
    if matches!(wanted, Wanted::Offset | Wanted::Distance) {
        if is_number(word) {
            return format!(in alloc; "a distance has a sign: {before}+{word}{after}");
        }
        return String::from_str(alloc, LABELS);
    }
    if let (Wanted::Value, Some(digits)) = (wanted, word.strip_prefix('-')) {
        if let Ok(number) = digits.parse::<u64>() {
            let right = 0u64.wrapping_sub(number);
            return format!(in alloc; "lddw has no sign: {before}{right} is that number");
        }
    }
    Ok(String::new(alloc))
}

/// How a number is written that is too great for its place.
fn range_words(alloc: Global, line: &str, word: &str) -> Result<String, AllocError> {
    let (verb, _) = line.split_once(' ').unwrap_or((line, ""));
    let Ok(number) = word.parse::<u64>() else {
        return Ok(String::new(alloc));
    };
    let (before, after) = line.rsplit_once(word).unwrap_or((line, ""));
    if verb.ends_with("32") || verb == "stw" {
        if number > 0xffff_ffff {
            return Ok(String::new(alloc));
        }
        let less = 0x1_0000_0000 - number;
        return format!(in alloc; "of 32 bits this is {before}-{less}{after}");
    }
    match before.strip_prefix("mov ") {
        Some(register) => format!(in alloc; "lddw takes a greater number: lddw {register}{word}"),
        None if matches!(verb, "stb" | "sth" | "stdw" | "ja" | "jal" | "call") => Ok(String::new(
            alloc,
        )),
        None => format!(in alloc;
            "lddw rN, {word} takes it into a free register rN, and then {before}rN{after}"
        ),
    }
}

/// What a line may be meant for; empty if that isn't known.
fn meant_words(alloc: Global, line: &str, mistake: &TextMistake<'_>) -> Result<String, AllocError> {
    match *mistake {
        TextMistake::Word { word } => match meant(&MEANT, word) {
            Some(right) => format!(in alloc;
                "no instruction has the word {word}: {right} is meant?"
            ),
            None => Ok(String::new(alloc)),
        },
        TextMistake::Shape { word, wanted } => shape_words(alloc, line, word, wanted),
        TextMistake::Range {
            word,
            wanted: Wanted::Source | Wanted::Number,
        } => range_words(alloc, line, word),
        _ => Ok(String::new(alloc)),
    }
}

/// What is wrong with the line of this number, the first faulty one of a text, as a line of text; empty for a line that isn't
/// faulty by itself.
pub fn assembler_words(alloc: Global, text: &str, number: usize) -> Result<String, AllocError> {
    let Some(mistake) = mistake_of(text, number) else {
        return Ok(String::new(alloc));
    };
    let line = line_at(text, number);
    let words = meant_words(alloc, line, &mistake)?;
    if words.is_empty() {
        return format!(in alloc; "line {number}: {mistake}\n");
    }
    format!(in alloc; "line {number}: {words}\n")
}
