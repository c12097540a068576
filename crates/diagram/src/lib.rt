//! Pictures of runs.
//!
//! [`draw`] draws the entries of a journal as a space-time diagram. Each process has a line, and so
//! has the outside. Time goes to the right: each entry and each refused order has a column, under
//! the number of its line in the scenario. A packet is an arrow from where it goes on the wire to
//! where it arrives or is lost. A handler call is a box from its start to its finish. Packets of
//! numbers and acknowledgements can be left out. The result is the text of an SVG file, which a
//! browser shows.
//!
//! Any list of entries and moments, with any processes, gives a text, also a list that is no
//! journal. The only error is lack of memory. The text has the mark of each entry with a column,
//! there and on its line, with its numbers above it, and each refused order. How packets and
//! handler calls look is only tested.
//!
//! ```text
//! let scenario = parse(alloc, text, Allowed::All)?;
//! draw(alloc, &scenario.processes, &Run { entries, moments, sent, shown }, false)?; // "<svg xmlns=.."
//! ```
#![tactic(auto)]

mod column_state;
mod columns;
mod ink;
mod label;
mod lane;
mod legend;
mod marks;
mod packets;
mod page;
mod picture;
mod processes;
mod run;
mod sign;
mod wire;

pub use page::draw;
pub use run::{Moment, Run};
