//! What is asked of the command `pack`, and hints on it. They are for people, and no contract names them.

use crate::fault::Fault;
use cli::Packing;
use decode::EncodingRule;
use elf::{is_object, object_words, read_object};
use std::alloc::{AllocError, Global};

/// Operations of instructions that are atomic.
const ATOMICS: [u8; 2] = [0xc3, 0xdb];

const ATOMIC: &str =
    "a slot is atomic (__sync_.., __atomic_..), and no handler needs that: it is called alone, so a plain operation does the same\n";

const NO_LENGTH: &str =
    "clang -g tells no length of a type that the second argument points to: --state says how long the state is\n";

/// Whether the instruction at this slot of the function is atomic.
fn is_atomic(alloc: Global, file: &[u8], asked: Packing<'_>, slot: usize) -> bool {
    let Ok(found) = read_object(alloc, file, asked.function) else {
        return false;
    };
    match slot.checked_mul(8) {
        Some(at) if at < found.code.len() => ATOMICS.contains(&found.code[at]),
        _ => false,
    }
}

/// What is wrong with an object file, as lines of text; or empty.
pub fn refused_words(alloc: Global, file: &[u8], asked: Packing<'_>, fault: &Fault) -> String {
    if !is_object(file) {
        return String::new(alloc);
    }
    let words = match fault {
        Fault::Object(fault) => match object_words(alloc, file, asked.function, *fault) {
            Ok(words) => return words,
            Err(_) => "",
        },
        Fault::NoState => NO_LENGTH,
        Fault::Decode { rule, slot } => {
            let is_told = *rule == EncodingRule::Opcode && is_atomic(alloc, file, asked, *slot);
            if is_told { ATOMIC } else { "" }
        }
        _ => "",
    };
    match String::from_str(alloc, words) {
        Ok(words) => words,
        Err(_) => String::new(alloc),
    }
}

/// Whose length the state of an image has, as a line of text; or empty.
pub fn state_words(
    alloc: Global,
    file: &[u8],
    asked: Packing<'_>,
    image: &str,
) -> Result<String, AllocError> {
    let own = match read_object(alloc, file, asked.function) {
        Ok(found) => found.state,
        Err(_) => None,
    };
    match (asked.state, own) {
        (None, Some(own)) => {
            format!(in alloc;
                "{image} has {own} bytes of state, as the type that the second argument points to: --state says another\n"
            )
        }
        (Some(asked), Some(own)) if (asked as usize) < own => {
            format!(in alloc;
                "{image} has {asked} bytes of state, and the type that the second argument points to has {own}: --state {own} holds it\n"
            )
        }
        _ => Ok(String::new(alloc)),
    }
}
