//! The lines of a run in another style: with the names of processes, or as JSON.
//!
//! The methods of a [`Style`] write the lines that this crate and `runner` write, in that style. The
//! text is that of `specs/Styles/Lines.antt`, to the last byte. The only error is lack of memory.
//!
//! ```text
//! let style = Style { json: true, names: Some(&scenario.processes) };
//! style.push_entries(&mut out, entries)?;
//! // {"entry":1,"worker":0,"call":{"name":"input","to":"a","feed":1},"answer":{"name":"logged","ssn":1}}
//! ```

mod calls;
mod entry;
mod field;
mod report;
mod style;

pub use style::Style;
