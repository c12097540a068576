//! What is said of an option below an error of `clap`. It is for people, and no contract names it.

use limits::STATE_BYTES;
use std::convert::AsStr;

/// Whether a word is a number with a sign.
fn is_negative(word: &str) -> bool {
    match word.strip_prefix('-') {
        Some(number) => number.starts_with(|letter: char| letter.is_ascii_digit()),
        None => false,
    }
}

/// Whether a word is a longer state than there is.
fn is_long_state(word: &str) -> bool {
    match word.parse::<u64>() {
        Ok(number) => number > STATE_BYTES as u64,
        Err(_) => false,
    }
}

/// A line that says what the value of an option is, if it was given with a sign, which `clap` takes for an option, or is too long a
/// state; else empty.
fn range_words<S: AsStr>(words: &[S]) -> &'static str {
    let mut before = "";
    for word in words {
        let word = word.as_str();
        match before {
            "--state" if is_negative(word) || is_long_state(word) =>
                return "--state is a number from 0 to 1024\n",
            "--form" if is_negative(word) => return "--form is 1, 2 or 3\n",
            "--workers" if is_negative(word) => return "--workers is a number from 1 to 16\n",
            "--budget" if is_negative(word) => return "--budget is a number from 1 to 1000000\n",
            _ => before = word,
        }
    }
    ""
}

/// A line that says which commands take an option, if it was given to another one; else empty.
fn option_words<S: AsStr>(words: &[S]) -> &'static str {
    let command = match words.first() {
        Some(word) => word.as_str(),
        None => return "",
    };
    for word in words {
        let word = word.as_str();
        let name = word.split_once('=').map_or(word, |(name, _)| name);
        match name {
            "--state" | "--form" if !matches!(command, "asm" | "pack") => {
                return "asm and pack take --state and --form: an image has both in it (./sblog explain --source takes them, of an object file)\n";
            }
            "--function" if command != "pack" => return "pack takes --function\n",
            "--workers" | "--budget" if command != "live" => {
                return "live takes --workers and --budget\n";
            }
            "--messages" if command != "draw" => return "draw takes --messages\n",
            "--json" | "--names" if command != "run" => return "run takes --json and --names\n",
            "--why" if command != "explain" => return "explain takes --why\n",
            _ => {}
        }
    }
    ""
}

/// The line below an error of `clap`, or empty.
pub fn below_words<S: AsStr>(words: &[S]) -> &'static str {
    let range = range_words(words);
    if range.is_empty() {
        option_words(words)
    } else {
        range
    }
}
