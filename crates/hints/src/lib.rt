//! Hints: what is wrong with a text, a file, a command line or an order that was refused, in words, and what cures it.
//!
//! The program prints them after the line of a fault, if it is asked to. [`scenario_words`] and [`assembler_words`] say what is
//! wrong with the refused line of a text, [`command_words`] what a command line may be meant for, and [`note_run`] why orders
//! were refused and what is left to do. The words are free, and tested. What they name of a session is found by `runner`.
//!
//! ```text
//! let words = command_words(&["assemble", "adder.txt"]); // "sblog asm writes the image of assembler text\n"
//! ```
#![tactic(auto)]

mod assembler_line;
mod command_line;
mod rest;
mod run;
mod scenario_line;
mod shown;
mod why;

pub use assembler_line::assembler_words;
pub use command_line::command_words;
pub use rest::Rest;
pub use run::note_run;
pub use scenario_line::scenario_words;
pub use why::{Act, Told, Why, named_in};
