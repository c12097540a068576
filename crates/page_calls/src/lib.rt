//! What a page in a browser asks of the program: one command line over files in memory, without threads.
//!
//! [`answer_call`] takes words, names and files as bytes, one after the other, each as long as its length says. The promise: a
//! code of 0 to 6 is the status that `tracer::sblog_alone` answers to these words over these files, and the caller's buffer has
//! what it printed, what it told and the file that it wrote, one after the other; every other file is as it was. Any other code
//! says why there is no answer: the bytes don't fit their lengths or are no text (16), memory ran out (17), or the buffer is too
//! short (18), and how long it has to be.
#![tactic(auto)]

mod answer;
mod calls;
mod misfit;
mod page;
mod parts;
mod sheet;
mod shelf;

pub use page::{Sizes, answer_call};
