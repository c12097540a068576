//! Runs as text: scenarios, and the trace and report that a run prints.
//!
//! [`parse`] reads a scenario: processes by their names, and then what is to be done with them, a line each. Its promise:
//! what is read is written so, line by line, and if a text is refused the line that is named is the first faulty one,
//! or 0 if no line is faulty and there is no process.
//!
//! ```text
//! let text = "process a adder.sbi\ninput a 5\ndrive 10\n";
//! let scenario = parse(alloc, text, Allowed::All)?; // one process, two steps: `Order::Input` and `Order::Drive`
//! ```
//!
//! [`trace_text`] writes each accepted call with its worker and its answer, a line an entry. Its promise: the text is the
//! printer of `specs/Trace` over the whole list, to the last byte; only memory can run out. [`push_process`],
//! [`push_output`] and [`push_exact`] write the lines of a report, those of `specs/Report`, with bytes as [`Hex`] spells
//! them and names by [`name_at`].
//!
//! ```text
//! let entries = copied(alloc, session.journal())?; // (`sessions::copied`)
//! trace_text(alloc, entries.as_slice())?; // "000001 w0 input 1 1 -> logged 1\n.."
//! ```
#![tactic(auto)]

mod above;
mod bytes;
mod hex;
mod laws;
mod line;
mod mistake;
mod name;
mod number;
mod order;
mod pair;
mod process;
mod report;
mod scenario;
mod sentence;
mod split;
mod styles;
mod trace;
mod verb;

pub use above::Above;
pub use bytes::Hex;
pub use laws::{one_fault, one_scenario};
pub use mistake::{Mistake, is_begun, mistake_of};
pub use name::name_at;
pub use order::{Allowed, Order};
pub use process::NamedProcess;
pub use report::{phase_word, push_exact, push_output, push_process};
pub use scenario::{Scenario, ScenarioError, Step, parse};
pub use styles::Style;
pub use trace::trace_text;
