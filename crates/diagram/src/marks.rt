//! The marks of columns: their numbers, the mark and labels of an entry on its process's line, and
//! refused orders. Packets and handler calls are drawn elsewhere.
//!
//! A class names a style of `legend::STYLE`, a shape one of its shapes.

ghost use Rattle.std.specs.Prelude.{◌≡◌, ◌<◌, ◌+◌, ◌^◌, ◌++◌, OnOk, codes, string_bytes};
ghost use Rattle.diagram.specs.Label.{far_side, label_text};
ghost use Rattle.diagram.specs.Marks.{call_mark, column_mark, entry_mark, first_bytes, input_mark, marks_from, number_in, number_text, numbered_mark, place_mark, refused_mark, shape_at, shape_text, shown_mark, text_mark};

use crate::columns::Column;
use crate::label::{Side, push_number, push_word};
use crate::page::{column_x, lane_y};
use helpers::Payload;
use scenario::Hex;
use std::alloc::AllocError;
use world::{Answer, Call, Entry};

/// How many bytes of a message are shown.
const SHOWN_BYTES: usize = 4;

/// The height of the numbers of entries, in pixels down.
const ENTRY_ROW: usize = 18;

/// The height of the shapes of refused orders.
const STOP_ROW: usize = 14;

/// The height of the lines of the scenario.
const LINE_ROW: usize = 30;

/// The height of the numbers of refusals.
const REFUSED_ROW: usize = 43;

/// Writes the marks of these columns, in a picture of this many processes.
pub(crate) fn push_marks(
    out: &mut String,
    processes: u8,
    entries: &[Entry],
    columns: &[Column],
) -> Result<(), AllocError>
    ensures { OnOk result (string_bytes out.new ≡ string_bytes out.old ++ marks_from processes entries.now 0 columns.now) }
{
    for (column, shown) in columns.iter().enumerate() {
        push_column_mark(out, processes, entries, column, shown)?;
    }
    Ok(())
}

/// Writes the marks of a column: the number of its line in the scenario, and what it shows.
fn push_column_mark(
    out: &mut String,
    processes: u8,
    entries: &[Entry],
    column: usize,
    shown: &Column,
) -> Result<(), AllocError>
    ensures { OnOk result (string_bytes out.new ≡ string_bytes out.old ++ column_mark processes entries.now column shown.now) }
{
    push_head(out, "place", column, LINE_ROW, shown.line)?;
    push_shown(out, processes, entries, column, shown)
}

/// Writes what a column shows: an entry, or a refused order.
fn push_shown(
    out: &mut String,
    processes: u8,
    entries: &[Entry],
    column: usize,
    shown: &Column,
) -> Result<(), AllocError>
    ensures { OnOk result (string_bytes out.new ≡ string_bytes out.old ++ shown_mark processes entries.now column shown.now.place shown.now.text shown.now.refused) }
{
    match shown.refused {
        Some(number) => push_refused(out, column, number),
        None => push_place_mark(out, processes, entries, column, shown),
    }
}

/// Writes the number and the mark of the entry at a place, if there is one, in a column.
fn push_place_mark(
    out: &mut String,
    processes: u8,
    entries: &[Entry],
    column: usize,
    shown: &Column,
) -> Result<(), AllocError>
    ensures { OnOk result (string_bytes out.new ≡ string_bytes out.old ++ place_mark processes entries.now column shown.now.place shown.now.text) }
{
    match entries.get(shown.place) {
        Some(entry) => push_numbered(out, processes, column, shown, entry),
        None => Ok(()),
    }
}

/// Writes the number of an entry, from 1, its mark, and the first bytes of its message.
fn push_numbered(
    out: &mut String,
    processes: u8,
    column: usize,
    shown: &Column,
    entry: &Entry,
) -> Result<(), AllocError>
    requires { shown.now.place + 1 < 2 ^ 64 }
    ensures { OnOk result (string_bytes out.new ≡ string_bytes out.old ++ numbered_mark processes column shown.now.place shown.now.text entry.now) }
{
    push_head(out, "place", column, ENTRY_ROW, shown.place + 1)?;
    push_entry_mark(out, processes, column, entry)?;
    push_text(out, processes, column, &entry.call, &shown.text)
}

/// Writes the mark of a refused order, with the refusal's number.
fn push_refused(out: &mut String, column: usize, number: u8) -> Result<(), AllocError>
    ensures { OnOk result (string_bytes out.new ≡ string_bytes out.old ++ refused_mark column number) }
{
    push_shape_at(out, "refused", column, STOP_ROW)?;
    push_head(out, "c", column, REFUSED_ROW, usize::from(number))
}

/// Writes a number above a column.
fn push_head(
    out: &mut String,
    class: &str,
    column: usize,
    height: usize,
    number: usize,
) -> Result<(), AllocError>
    ensures { OnOk result (string_bytes out.new ≡ string_bytes out.old ++ number_text class.now column height number) }
{
    let x = column_x(column);
    writeln!(
        out,
        "<text class='{class}' x='{x}' y='{height}'>{number}</text>"
    )
}

/// Writes the mark of the entry in a column.
fn push_entry_mark(
    out: &mut String,
    processes: u8,
    column: usize,
    entry: &Entry,
) -> Result<(), AllocError>
    ensures { OnOk result (string_bytes out.new ≡ string_bytes out.old ++ entry_mark processes column entry.now) }
{
    push_call_mark(
        out,
        processes,
        column,
        &entry.call,
        number_in(&entry.answer),
    )
}

/// The number in the answer of a checkpoint, a trim, a crash or a recovery; else 0.
fn number_in(answer: &Answer) -> u32
    ensures { result ≡ number_in answer.now }
{
    match *answer {
        Answer::Saved(count)
        | Answer::Trimmed(count)
        | Answer::Crashed(count)
        | Answer::Kept(count) => count,
        _ => 0,
    }
}

/// Writes the mark of a call, with the number in its answer.
fn push_call_mark(
    out: &mut String,
    processes: u8,
    column: usize,
    call: &Call,
    number: u32,
) -> Result<(), AllocError>
    ensures { OnOk result (string_bytes out.new ≡ string_bytes out.old ++ call_mark processes column call.now number) }
{
    match *call {
        Call::Input { to, feed, payload } => {
            push_input(out, column, to, feed)?;
            push_bytes(out, Side::Beyond, column, 0, &payload)
        }
        Call::Checkpoint { process } if process <= processes => {
            push_shape(out, "saved", column, process)?;
            push_number(out, "t", Side::Above, column, process, "save ", number)
        }
        Call::Trim { to } if to <= processes => {
            push_shape(out, "trim", column, to)?;
            push_number(out, "t", Side::Above, column, to, "trim ", number)
        }
        Call::Crash { process } if process <= processes => {
            push_shape(out, "crash", column, process)?;
            push_word(out, "c", Side::Above, column, process, "crash")?;
            push_number(out, "t", Side::Below, column, process, "inc ", number)
        }
        Call::Recover { process } if process <= processes => {
            push_shape(out, "recover", column, process)?;
            push_word(out, "r", Side::Above, column, process, "recover")?;
            push_number(out, "t", Side::Below, column, process, "kept ", number)
        }
        Call::RecoverAlone { process } if process <= processes => {
            push_shape(out, "recover", column, process)?;
            push_word(out, "r", Side::Above, column, process, "alone")?;
            push_number(out, "t", Side::Below, column, process, "kept ", number)
        }
        _ => Ok(()),
    }
}

/// Writes the mark of an input: the number of its feed, and its process.
fn push_input(out: &mut String, column: usize, to: u8, feed: u32) -> Result<(), AllocError>
    ensures { OnOk result (string_bytes out.new ≡ string_bytes out.old ++ input_mark column to feed) }
{
    push_shape(out, "input", column, 0)?;
    push_number(out, "t", Side::Above, column, 0, "in ", feed)?;
    push_number(out, "t", Side::Below, column, 0, "for ", u32::from(to))
}

/// Writes a shape on a line.
fn push_shape(out: &mut String, shape: &str, column: usize, line: u8) -> Result<(), AllocError>
    ensures { OnOk result (string_bytes out.new ≡ string_bytes out.old ++ shape_text shape.now column line) }
{
    push_shape_at(out, shape, column, lane_y(line))
}

/// Writes a shape at a height.
fn push_shape_at(
    out: &mut String,
    shape: &str,
    column: usize,
    height: usize,
) -> Result<(), AllocError>
    ensures { OnOk result (string_bytes out.new ≡ string_bytes out.old ++ shape_at shape.now column height) }
{
    let x = column_x(column);
    writeln!(out, "<use href='#{shape}' x='{x}' y='{height}'/>")
}

/// Writes the first bytes of a message where it begins, if both lines are there, and of an output
/// also where it is shown.
fn push_text(
    out: &mut String,
    processes: u8,
    column: usize,
    call: &Call,
    text: &Option<Payload>,
) -> Result<(), AllocError>
    ensures { OnOk result (string_bytes out.new ≡ string_bytes out.old ++ text_mark processes column call.now text.now) }
{
    match (*call, text) {
        (Call::Transmit { from, to, .. }, Some(said)) if from <= processes && to <= processes => {
            push_bytes(out, Side::far(from, to), column, from, said)
        }
        (Call::Arrive { .. }, Some(said)) => push_bytes(out, Side::Beyond, column, 0, said),
        _ => Ok(()),
    }
}

/// Writes the first four bytes of a message near a line, and two dots if it has more.
fn push_bytes(
    out: &mut String,
    side: Side,
    column: usize,
    line: u8,
    payload: &Payload,
) -> Result<(), AllocError>
    ensures { OnOk result (string_bytes out.new ≡ string_bytes out.old ++ label_text (codes "b") side column line (first_bytes payload.now)) }
{
    let bytes = payload.as_slice();
    let (x, y) = (column_x(column), side.height(column, line));
    if bytes.len() <= SHOWN_BYTES {
        let hex = Hex(bytes);
        writeln!(out, "<text class='b' x='{x}' y='{y}'>{hex}</text>")
    } else {
        let hex = Hex(&bytes[..SHOWN_BYTES]);
        writeln!(out, "<text class='b' x='{x}' y='{y}'>{hex}..</text>")
    }
}
