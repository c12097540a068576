//! The page: the places of its parts, and the whole text.

ghost use Rattle.std.specs.Prelude.{◌≡◌, ◌++◌, IfOk, OnOk, length, min, string_bytes};
ghost use Rattle.indexmap.specs.IndexMap.{index_map_len};
ghost use Rattle.diagram.specs.Columns.{columns};
ghost use Rattle.diagram.specs.Models.{run_of};
ghost use Rattle.diagram.specs.Marks.{HasPart, marks_from};
ghost use Rattle.diagram.specs.Picture.{IsPicture};
ghost use Rattle.diagram.specs.Page.{column_place, head_text, line_place, page_height, page_width};

use crate::columns::{Column, columns};
use crate::ink::{Point, push_line, push_text};
use crate::legend::{LEGEND_HEIGHT, LEGEND_WIDTH, STYLE};
use crate::marks::push_marks;
use crate::picture::Picture;
use crate::run::Run;
use crate::sign::Sign;
use indexmap::IndexMap;
use scenario::{NamedProcess, name_at};
use std::alloc::{AllocError, Global};
use world::Entry;

/// The distance from a column to the next, in pixels.
const STEP: usize = 24;
/// The place of the first column.
const FIRST: usize = 190;
/// Where lines begin.
const BEGIN: usize = 160;
/// After this many columns the names are written again.
const BLOCK: usize = 50;
/// How much room these names have.
const GUTTER: usize = 140;
/// The height of the outside's line.
const TOP: usize = 100;
/// All columns from this one on have the same place.
const COLUMN_LIMIT: usize = 4_294_967_295;
/// The distance from a line to the next.
pub(crate) const GAP: usize = 78;
/// The free room after the last column.
const MARGIN: usize = 44;
/// The free room below the last line, for its labels.
const FOOT: usize = 60;

/// The middle of a column, in pixels to the right.
pub(crate) fn column_x(column: usize) -> usize
    ensures { result ≡ column_place column }
{
    let column = column.min(COLUMN_LIMIT);
    FIRST + column * STEP + column / BLOCK * GUTTER
}

/// The height of the line of a process, or of the outside (0), in pixels down.
pub(crate) fn lane_y(number: u8) -> usize
    ensures { result ≡ line_place number }
{
    TOP + usize::from(number) * GAP
}

/// The picture of a run, as the text of an SVG file. The outside has a line, and so has each
/// process. Each moment has a column, from left to right: each refused order, and each accepted
/// call, which are the entries in their order. A message has its first bytes where it begins, and
/// an output also where it is shown.
///
/// If only messages are shown, other packets are left out, and entries that copy, lose or hand over
/// one have no column. Of more than 255 processes the first 255 have lines. Names are written as
/// they are: a scenario's names are letters and digits, which need no escapes. An entry that names
/// a process or packet that isn't there is not drawn. The only error is lack of memory.
pub fn draw(
    alloc: Global,
    processes: &IndexMap<String, NamedProcess>,
    run: &Run<'_>,
    only_messages: bool,
) -> Result<String, AllocError>
    ensures { IfOk result (λ text. IsPicture (index_map_len processes.now) (run_of run.now) only_messages (string_bytes text)) }
{
    let shown = columns(alloc, run, only_messages)?;
    let columns = shown.as_slice();
    let inside = drawing(alloc, processes, run.entries, columns, only_messages)?;
    let width = page_width(columns.len());
    let height = page_height(processes);
    let mut out = String::new(alloc);
    push_head(&mut out, width, height)?;
    out.push_str(inside.as_str())?;
    out.push_str("</svg>\n")?;
    Ok(out)
}

/// The drawing of these columns.
fn drawing(
    alloc: Global,
    processes: &IndexMap<String, NamedProcess>,
    entries: &[Entry],
    columns: &[Column],
    only_messages: bool,
) -> Result<String, AllocError>
    ensures { IfOk result (λ text. HasPart (marks_from (min (index_map_len processes.now) 255) entries.now 0 columns.now) (string_bytes text)) }
{
    let count = lane_count(processes);
    let foot = lane_y(count) + FOOT;
    let mut picture = Picture::new(alloc, count, BEGIN, only_messages)?;
    push_run(&mut picture, processes, entries, columns, foot)?;
    joined(alloc, &picture, count, entries, columns, foot)
}

/// Draws these columns, down to a height, and the names of lines and rows.
fn push_run(
    picture: &mut Picture,
    processes: &IndexMap<String, NamedProcess>,
    entries: &[Entry],
    columns: &[Column],
    foot: usize,
) -> Result<(), AllocError> {
    for (column, shown) in columns.iter().enumerate() {
        push_column(picture, column, shown, foot)?;
        match (shown.refused, entries.get(shown.place)) {
            (None, Some(entry)) => picture.enter(column, entry)?,
            _ => (),
        }
    }
    picture.close(columns.len())?;
    push_names(picture, processes, lane_count(processes), columns.len())
}

/// The width of a page with this many columns, in pixels.
fn page_width(columns: usize) -> usize
    ensures { result ≡ page_width columns }
{
    (column_x(columns) + MARGIN).max(LEGEND_WIDTH)
}

/// The height of a page with these processes, in pixels.
fn page_height(processes: &IndexMap<String, NamedProcess>) -> usize
    ensures { result ≡ page_height (index_map_len processes.now) }
{
    lane_y(lane_count(processes)) + FOOT + LEGEND_HEIGHT
}

/// How many processes have lines.
fn lane_count(processes: &IndexMap<String, NamedProcess>) -> u8
    ensures { result ≡ min (index_map_len processes.now) 255 }
{
    u8::try_from(processes.len()).unwrap_or(u8::MAX)
}

/// Writes a thin line along a column.
fn push_column(
    picture: &mut Picture,
    column: usize,
    shown: &Column,
    foot: usize,
) -> Result<(), AllocError> {
    let x = column_x(column);
    let end = Point { x, y: foot };
    if shown.refused.is_some() {
        picture.legend.note(Sign::Refused)?;
        return push_line(&mut picture.lines, "no", Point { x, y: 47 }, end);
    }
    push_line(&mut picture.lines, "column", Point { x, y: 34 }, end)
}

/// Writes the names of the rows of numbers and of the lines, at the left and again after each block
/// of columns.
fn push_names(
    picture: &mut Picture,
    processes: &IndexMap<String, NamedProcess>,
    count: u8,
    columns: usize,
) -> Result<(), AllocError> {
    let out = &mut picture.marks;
    push_text(out, "name", Point { x: 12, y: 18 }, "entry")?;
    push_text(out, "row", Point { x: 12, y: 30 }, "line of the scenario")?;
    if picture.legend.has(Sign::Refused) {
        push_text(out, "row", Point { x: 12, y: 43 }, "refused, by number")?;
    }
    push_lane_names(out, processes, count, "name", 12)?;
    for block in 1..=columns / BLOCK {
        let after = column_x(block.saturating_mul(BLOCK));
        push_lane_names(out, processes, count, "more", after.saturating_sub(92))?;
    }
    Ok(())
}

/// Writes the names of the lines at one place.
fn push_lane_names(
    out: &mut String,
    processes: &IndexMap<String, NamedProcess>,
    count: u8,
    class: &str,
    x: usize,
) -> Result<(), AllocError> {
    let y = lane_y(0).saturating_add(4);
    push_text(out, class, Point { x, y }, "0 outside")?;
    for number in 1..=count {
        push_lane_name(out, processes, number, class, x)?;
    }
    Ok(())
}

/// Writes the name of a process at a place of its line.
fn push_lane_name(
    out: &mut String,
    processes: &IndexMap<String, NamedProcess>,
    number: u8,
    class: &str,
    x: usize,
) -> Result<(), AllocError> {
    let y = lane_y(number).saturating_add(4);
    let name = name_at(processes, number);
    writeln!(
        out,
        "<text class='{class}' x='{x}' y='{y}'>{number} {name}</text>"
    )
}

/// The layers of a picture, the lowest first.
fn layers(alloc: Global, picture: &Picture) -> Result<String, AllocError> {
    let mut out = String::new(alloc);
    let lowest = [STYLE, "<rect width='100%' height='100%' fill='#fff'/>\n"];
    for layer in lowest {
        out.push_str(layer)?;
    }
    for layer in [
        &picture.lines,
        &picture.boxes,
        &picture.arrows,
        &picture.marks,
    ] {
        out.push_str(layer.as_str())?;
    }
    Ok(out)
}

/// The layers of a picture of this many processes, with the marks of these columns above them, and
/// its legend.
fn joined(
    alloc: Global,
    picture: &Picture,
    count: u8,
    entries: &[Entry],
    columns: &[Column],
    foot: usize,
) -> Result<String, AllocError>
    ensures { IfOk result (λ text. HasPart (marks_from count entries.now 0 columns.now) (string_bytes text)) }
{
    let legend = picture.legend.text(alloc)?;
    let mut out = layers(alloc, picture)?;
    push_marks(&mut out, count, entries, columns)?;
    writeln!(out, "<g transform='translate(0 {foot})'>")?;
    out.push_str(legend.as_str())?;
    out.push_str("</g>\n")?;
    Ok(out)
}

/// Writes the start of an `svg` element of this size.
fn push_head(out: &mut String, width: usize, height: usize) -> Result<(), AllocError>
    ensures { OnOk result (string_bytes out.new ≡ string_bytes out.old ++ head_text width height) }
{
    writeln!(
        out,
        "<svg xmlns='http://www.w3.org/2000/svg' width='{width}' height='{height}' viewBox='0 0 {width} {height}'>"
    )
}
