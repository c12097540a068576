//! The program `sblog` as a function of its words, its files and two streams.
//!
//! [`sblog`] carries out one command line and answers the exit status. Its promise: with status 0 standard output has the text
//! that the words ask for, by the files that they name, and standard error has nothing. With any other status standard error
//! has the line of the fault that the words, or the bytes of the files, come to; standard output has nothing, and no file
//! changed. If the word `--hints` comes before the command, standard error also has hints for people, below that line. A run
//! that memory ended prints the lines of the orders that were refused until then. `asm`, `pack`, `native`, `migrate` and `draw`
//! write the file that their words name, which is none that they read, and no other; no other command writes a file. The status
//! for input or output comes only if a file or a stream failed, or a text file is no text. A stream that failed may have a part
//! of its text. What a command answers is a definition over bytes, in the file of `specs/` with the command's name, here or in
//! `image_commands`; `specs/Report.antt` names them all. Files are known by the trait [`Files`], streams by [`Stream`]: a test
//! holds them in memory, where contracts know their contents, and lets them fail.
//!
//! ```text
//! let status = sblog(&rt, alloc, ["check", "adder.sbi"].as_slice(), &mut files, &mut out, &mut err);
//! // 0, and `out` has "accepted 6 instructions\n"
//! ```
#![tactic(auto)]

mod draw;
mod live_runs;
mod program;
mod styled_runs;

pub use image_commands::{Accepted, Failure, Fault, Files, Reason, Stream, Usage, Written};
pub use program::{sblog, sblog_alone};
