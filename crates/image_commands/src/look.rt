//! What a file that is no image looks like, in words.

use crate::kind::FileKind;
use assemble::is_compiled;
use scenario::is_begun;
use std::alloc::{AllocError, Global};
use std::str;

/// A line that says which command takes a file that looks like these bytes; empty if none does.
pub fn look_of(bytes: &[u8]) -> &'static str {
    if bytes.starts_with(b"SBI") || bytes.starts_with(b"sbi") {
        return "images begin with SBI1, SBI2 or SBI3, by their form\n";
    }
    match str::from_utf8(bytes) {
        Ok(text) => look_of_text(text),
        Err(_) => "",
    }
}

/// The same of a text, by the first line that tells. A page of prose with examples is none of these.
fn look_of_text(text: &str) -> &'static str {
    let mut is_first = true;
    for line in text.split('\n') {
        if is_c(line) {
            return "this looks like C: clang compiles it, and sblog pack writes the image (docs/HANDLERS.md)\n";
        }
        if is_compiled(line) {
            return "this looks like a compiler's assembler text: clang -c in place of clang -S, and sblog pack writes the image (docs/HANDLERS.md)\n";
        }
        if line.starts_with("```") {
            return "";
        }
        let said = line.trim_start_matches('\u{feff}').trim();
        if !said.is_empty() && !said.starts_with('#') {
            if is_first && is_begun(said) {
                return "this looks like a scenario: sblog run carries it out\n";
            }
            is_first = false;
        }
    }
    ""
}

/// Whether a line looks like one of C.
fn is_c(line: &str) -> bool {
    line.starts_with("#include ") || line.starts_with("/*") || line.starts_with("u64 ")
}

/// Whether a path looks like the name of a rule.
fn is_rule(path: &str) -> bool {
    match path.strip_prefix('V') {
        Some(number) => number.starts_with(|letter: char| letter.is_ascii_digit()),
        None => false,
    }
}

/// A line that says what a path that leads to nothing may be meant for.
pub fn lost_words(path: &str, is_of_process: bool) -> &'static str {
    if path == "-" {
        return "the standard input is /dev/stdin\n";
    }
    if is_rule(path) {
        return "explain --why tells of a rule, as explain --why V6\n";
    }
    if path.ends_with(".o") {
        return "clang -c writes it, if it finds nothing wrong (docs/HANDLERS.md)\n";
    }
    if !is_of_process || path.starts_with('/') {
        return "";
    }
    if path.starts_with('"') || path.starts_with('\'') {
        return "a path in a scenario stands without quotes\n";
    }
    if path.starts_with('~') || path.starts_with('$') {
        return "a path in a scenario is taken as it stands: ~ and $ are the shell's\n";
    }
    if path.contains('\\') {
        return "between the folders of a path stands /\n";
    }
    if path.ends_with(';') || path.ends_with(',') {
        return "no mark stands behind a path in a scenario\n";
    }
    "a path in a scenario is taken from the folder in which sblog runs, wherever the scenario lies\n"
}

/// A line that names the first line that is not UTF-8; empty if the file isn't meant as a text.
pub fn broken_line(alloc: Global, bytes: &[u8], kind: FileKind) -> Result<String, AllocError> {
    if kind != FileKind::Other {
        return Ok(String::new(alloc));
    }
    let mut number = 0usize;
    for line in bytes.split(|byte| *byte == b'\n') {
        number = number.saturating_add(1);
        if str::from_utf8(line).is_err() {
            break;
        }
    }
    format!(in alloc; "line {number} is the first that is not UTF-8: save the text as that\n")
}
