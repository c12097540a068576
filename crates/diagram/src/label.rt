//! Labels: words near a line, in an entry's column.
//!
//! A class names a style of `legend::STYLE`.

ghost use Rattle.std.specs.Prelude.{◌≡◌, ◌++◌, OnOk, decimal, string_bytes};
ghost use Rattle.diagram.specs.Label.{far_side, label_place, label_text};

use crate::page::{GAP, column_x};
use std::alloc::AllocError;

/// The place of a label near its line.
#[derive(Clone, Copy)]
pub enum Side {
    Above,
    Below,
    /// Above the labels that are above the line.
    Beyond,
    /// Below the labels that are below the line.
    Beneath,
}

impl Side {
    /// The side of a line that is away from another line.
    pub(crate) fn away(line: u8, other: u8) -> Side {
        if other < line {
            Side::Below
        } else {
            Side::Above
        }
    }

    /// The outer place on the side of a line that is away from another line.
    pub(crate) fn far(line: u8, other: u8) -> Side
        ensures { result ≡ far_side line other }
    {
        if other < line {
            Side::Beneath
        } else {
            Side::Beyond
        }
    }

    /// The height of a label in this column, in pixels down. In odd columns it is further out.
    pub(crate) fn height(self, column: usize, line: u8) -> usize
        ensures { result ≡ label_place self column line }
    {
        let (even, odd) = match self {
            Side::Above => (86, 75),
            Side::Below => (122, 133),
            Side::Beyond => (64, 53),
            Side::Beneath => (144, 155),
        };
        let first = if column % 2 == 0 { even } else { odd };
        first + usize::from(line) * GAP
    }
}

/// Writes a word near a line.
pub(crate) fn push_word(
    out: &mut String,
    class: &str,
    side: Side,
    column: usize,
    line: u8,
    word: &str,
) -> Result<(), AllocError>
    ensures { OnOk result (string_bytes out.new ≡ string_bytes out.old ++ label_text class.now side column line word.now) }
{
    let (x, y) = (column_x(column), side.height(column, line));
    writeln!(out, "<text class='{class}' x='{x}' y='{y}'>{word}</text>")
}

/// Writes a word and a number near a line.
pub(crate) fn push_number(
    out: &mut String,
    class: &str,
    side: Side,
    column: usize,
    line: u8,
    word: &str,
    number: u32,
) -> Result<(), AllocError>
    ensures { OnOk result (string_bytes out.new ≡ string_bytes out.old ++ label_text class.now side column line (word.now ++ decimal number)) }
{
    let (x, y) = (column_x(column), side.height(column, line));
    writeln!(
        out,
        "<text class='{class}' x='{x}' y='{y}'>{word}{number}</text>"
    )
}
