//! BPF instructions as assembler text, both ways.
//!
//! [`assemble`] reads a text of one instruction a line, such as `add r4, r3` or `ldxdw r3, [r1+0]`, and [`disassemble`]
//! writes it. Each instruction has exactly one line: there are no leading zeros, no optional signs and no other blanks.
//!
//! The promise: `assemble` gives a list of instructions exactly if the lines of the text are the lines of that list,
//! not counting empty lines and comments, and the list has at most 1,024 slots. Every other text is refused, and the
//! error names the first faulty line and the least rule that it breaks. So a list of at most 1,024 slots that
//! `disassemble` wrote is read back.
//!
//! ```text
//! let insns = assemble(alloc, "# adds five\nadd r1, 5\nexit\n")?; // r1 += 5, exit
//! let text = disassemble(alloc, &insns)?; // "add r1, 5\nexit\n"
//! ```
#![tactic(auto)]

mod fault;
mod laws;
mod line;
mod mistake;
mod mnemonic;
mod number;
mod operands;
mod parser;
mod printer;
mod sentence;
mod split;

pub use fault::{AsmError, TextRule};
pub use laws::{one_fault, one_list, read_back, there_and_back};
pub use mistake::{TextMistake, Wanted, is_compiled, mistake_of};
pub use parser::assemble;
pub use printer::disassemble;
