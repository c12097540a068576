//! The elements of a picture: lines, boxes, marks and texts.
//!
//! A class names a style of `legend::STYLE`.

use std::alloc::AllocError;

/// Half the height of a box, in pixels.
const HALF: usize = 9;

/// A point of the page: pixels to the right, and pixels down.
#[derive(Clone, Copy)]
pub struct Point {
    pub x: usize,
    pub y: usize,
}

/// Writes a straight line.
pub(crate) fn push_line(
    out: &mut String,
    class: &str,
    start: Point,
    end: Point,
) -> Result<(), AllocError> {
    let Point { x, y } = start;
    let Point { x: x2, y: y2 } = end;
    writeln!(
        out,
        "<line class='{class}' x1='{x}' y1='{y}' x2='{x2}' y2='{y2}'/>"
    )
}

/// Writes a box on a lane. An open box has no right side.
pub(crate) fn push_box(
    out: &mut String,
    class: &str,
    start: Point,
    end: usize,
    is_open: bool,
) -> Result<(), AllocError> {
    let x = start.x;
    let top = start.y.saturating_sub(HALF);
    let bottom = start.y.saturating_add(HALF);
    let close = if is_open { "" } else { "Z" };
    writeln!(
        out,
        "<path class='{class}' d='M{end} {top}H{x}V{bottom}H{end}{close}'/>"
    )
}

/// Writes a mark, one of the shapes in `legend::STYLE`.
pub(crate) fn push_mark(out: &mut String, shape: &str, at: Point) -> Result<(), AllocError> {
    let Point { x, y } = at;
    writeln!(out, "<use href='#{shape}' x='{x}' y='{y}'/>")
}

/// Writes a text.
pub(crate) fn push_text(
    out: &mut String,
    class: &str,
    at: Point,
    text: &str,
) -> Result<(), AllocError> {
    let Point { x, y } = at;
    writeln!(out, "<text class='{class}' x='{x}' y='{y}'>{text}</text>")
}

/// Writes a text that ends in a number.
pub(crate) fn push_count(
    out: &mut String,
    class: &str,
    at: Point,
    text: &str,
    count: u64,
) -> Result<(), AllocError> {
    let Point { x, y } = at;
    writeln!(
        out,
        "<text class='{class}' x='{x}' y='{y}'>{text}{count}</text>"
    )
}
