//! The command line of `sblog`: words to a request.
//!
//! [`parse_words`] reads the words of a command line, without the program's own name, by the rules of
//! `clap`. Its promise: it answers `Ok` exactly if `clap` finds no fault in the words, with what the
//! words ask for; it refuses usage only if `clap` finds a fault, or a call for help. Both depend on the
//! words alone (`specs/Program.antt`, `specs/Asks.antt`). That memory ran out is a refusal of its own.
//!
//! ```text
//! let request = parse_words(alloc, ["check", "adder.sbi"].as_slice())?;
//! // Request::Check { image: "adder.sbi" }
//! ```
#![tactic(auto)]

mod command;
mod option_words;
mod refusal;
mod request;

pub use refusal::{Usage, UsageRefusal};
pub use request::{Packing, Request, parse_words};
