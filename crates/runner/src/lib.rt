//! Runs of a scenario by one caller, and what they leave as text.
//!
//! [`run`] opens a session, carries out the orders of a scenario in it, and writes the line of each refused order, the trace and
//! the report. Its promise: it writes the text of `specs/Run.antt`, in which each accepted call is a step of the world and each
//! refused one tells the least number whose cause holds; only memory can run out, and then it wrote refused lines alone.
//! [`tell`] does the same in another style: with names in place of numbers, or as lines of JSON. [`chronicle_of`] gives the
//! accepted calls and the refused orders of such a run, with their lines.
//!
//! A run also notes hints for people: what helpers refused, why orders were refused, and what is left to do. [`why_of`] finds
//! out why a session refused an order, and [`rest_of`] what is left. Their promise: each process, message and entry that they
//! name is in the session as they say, and a call that they name can be made next.
//!
//! ```text
//! let why = why_of(&session, &order, refusal); // Why::Phase { process: 1, phase: PhaseName::Down }
//! ```
#![tactic(auto)]

mod chronicle;
mod held;
mod orders;
mod player;
mod rest;
mod runs;
mod setup;
mod styled_runs;
mod why;

pub use chronicle::{Chronicle, Moment, chronicle_of};
pub use rest::rest_of;
pub use results::push_results;
pub use runs::run;
pub use styled_runs::tell;
pub use why::{keep_told, why_of};
