//! What was done with the blocks of an image's code.

use std::fmt;

/// The line for code in another order.
const MOVED: &str =
    "the blocks stand in another order, in which each jump goes forward; slots are counted in it\n";

/// The line for code for which no order was found.
const UNKNOWN: &str =
    "V1 refuses the code, and no order of its blocks was found in which each jump goes forward\n";

/// What was done with the blocks of an image's code. It prints as a line, or as nothing if they were kept.
#[derive(Clone, Copy, Debug, PartialEq, Eq)]
pub enum Blocks {
    /// They are as given.
    Kept,
    /// They are in another order, in which each jump goes forward.
    Moved,
    /// They are as given: slot `from` jumps back to slot `to`, and ways lead from there to `from` again.
    Loops { from: usize, to: usize },
    /// They are as given: a jump goes back, and no order was found in which none does.
    Unknown,
}

impl fmt::Display for Blocks {
    ghost use Rattle.std.specs.Prelude.{Some};
    ghost use Rattle.block_order.specs.Blocks.{blocks_text};

    ghost output = { λ b. Some (blocks_text b) };

    fn fmt<W: fmt::Write>(&self, f: &mut fmt::Formatter<W>) -> fmt::Result {
        match self {
            Blocks::Kept => Ok(()),
            Blocks::Moved => f.write_str(MOVED),
            Blocks::Loops { from, to } => writeln!(
                f,
                "slot {from} jumps back to slot {to} in a loop, which is refused by V1: give it a known length, and put unrolled above it"
            ),
            Blocks::Unknown => f.write_str(UNKNOWN),
        }
    }
}
