//! Image files of code whose blocks may need another order.
//!
//! A compiler lays out some blocks so that a jump goes back though there is no loop, and the verifier of form 3 refuses
//! such code by V1. [`order_blocks`] finds an order of the blocks in which each jump goes forward, or names the jump
//! back of a loop. [`ordered_file`] writes the image file of code. In form 3, if V1 refuses the code as given and an
//! order is found, it writes the file of the code in that order, and says so. It writes all other code as given.
//!
//! The promise: each result of the search is checked, slot by slot, before it is answered. So a call of the code in its
//! new order, and of a file's code, ends as a call of the given code does, with the same registers, memory and requests
//! of helpers ([`moved_runs_are_kept`], [`runs_are_kept`]). A loop that is named is a loop, and what is said of the
//! blocks is true. It isn't promised that an order is found whenever there is one.
//!
//! ```text
//! let file = ordered_file(alloc, FileForm::Sbi3, &code, 64)?;
//! // file.blocks: Kept, Moved, Loops { from, to } or Unknown; file.bytes: the image file
//!
//! match order_blocks(alloc, &code)? {
//!     Order::Forward => {}            // nothing is to be done
//!     Order::Moved(placed) => {}      // the same code, with all jumps forward
//!     Order::Loops { from, to } => {} // slot `from` jumps back to slot `to`
//!     Order::Unknown => {}            // no order was found
//! }
//! ```
#![tactic(auto)]

mod arrangement;
mod blocks;
mod insns;
mod laws;
mod order;
mod placement;
mod search;
mod slots;
mod walk;
mod writer;

pub use arrangement::Placed;
pub use blocks::Blocks;
pub use laws::{moved_runs_are_kept, runs_are_kept};
pub use order::{BlockOrder, order_blocks};
pub use writer::{Ordered, ordered_file};
