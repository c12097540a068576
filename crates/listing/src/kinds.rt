//! What is known of a register or of a word of the stack, as text.

ghost use Rattle.std.specs.Prelude.{◌≡◌, ◌++◌, ◌-◌, ◌*◌, OnOk, string_bytes};
ghost use Rattle.listing.specs.Kinds.{distances_text, is_whole, kind_text, places_text, range_text, region_text, register_kind, signed_text, span_text};

use crate::view::{View, region_len};
use decode::Reg;
use regtypes::Region;
use spans::{Span, SpanKind};
use std::alloc::AllocError;

/// The word of a region.
fn region_word(region: Region) -> &'static str
    ensures { result.now ≡ region_text region }
{
    match region {
        Region::Message => "message",
        Region::State => "state",
        Region::Stack => "stack",
    }
}

/// Writes a number with its sign before it.
fn push_signed(out: &mut String, number: i64) -> Result<(), AllocError>
    ensures { OnOk result (string_bytes out.new ≡ string_bytes out.old ++ signed_text number) }
{
    if number >= 0 {
        out.push('+')?;
    }
    write!(out, "{number}")
}

/// Whether a span has all numbers of 64 bits.
fn is_whole(span: Span) -> bool
    ensures { result ≡ is_whole span }
{
    span.lo == 0 && span.hi == u64::MAX
}

/// Writes one number, or the first and last of several.
pub fn push_range(out: &mut String, span: Span) -> Result<(), AllocError>
    ensures { OnOk result (string_bytes out.new ≡ string_bytes out.old ++ range_text span) }
{
    let (lo, hi) = (span.lo, span.hi);
    if lo == hi {
        return write!(out, "{lo}");
    }
    write!(out, "{lo} to {hi}")
}

/// Writes a space and what is known of a number.
fn push_span(out: &mut String, span: Span) -> Result<(), AllocError>
    ensures { OnOk result (string_bytes out.new ≡ string_bytes out.old ++ span_text span) }
{
    if is_whole(span) {
        return Ok(());
    }
    out.push(' ')?;
    push_range(out, span)
}

/// Writes one distance, or the first and last of several.
fn push_distances(out: &mut String, lo: i64, hi: i64) -> Result<(), AllocError>
    ensures { OnOk result (string_bytes out.new ≡ string_bytes out.old ++ distances_text lo hi) }
{
    push_signed(out, lo)?;
    if hi <= lo {
        return Ok(());
    }
    write!(out, " to {hi}")
}

/// Writes places of a region of this size.
pub fn push_places(
    out: &mut String,
    region: Region,
    lo: i64,
    hi: i64,
    size: u16,
) -> Result<(), AllocError>
    ensures { OnOk result (string_bytes out.new ≡ string_bytes out.old ++ places_text size region lo hi) }
{
    out.push_str(region_word(region))?;
    push_distances(out, lo, hi)?;
    write!(out, " of {size}")
}

/// Writes what is known of a register or of a word of the stack. The message has `low` bytes.
pub fn push_kind(
    out: &mut String,
    kind: SpanKind,
    low: u16,
    state_len: u16,
) -> Result<(), AllocError>
    ensures { OnOk result (string_bytes out.new ≡ string_bytes out.old ++ kind_text low state_len kind) }
{
    match kind {
        SpanKind::Unset => out.push_str("unset"),
        SpanKind::Num(span) => {
            out.push_str("number")?;
            push_span(out, span)
        }
        SpanKind::Place(region, reach) => {
            let size = region_len(region, low, state_len);
            push_places(out, region, reach.lo.into(), reach.hi.into(), size)
        }
    }
}

/// Writes what is known of a register.
pub fn push_register_kind(
    out: &mut String,
    reg: Reg,
    view: &View,
    state_len: u16,
) -> Result<(), AllocError>
    ensures { OnOk result (string_bytes out.new ≡ string_bytes out.old ++ register_kind state_len view.now reg.number) }
{
    if view.is_length(reg) {
        return out.push_str("length of the message");
    }
    push_kind(out, view.kind(reg), view.low(), state_len)
}

/// How far before the end of the stack the word of a cell begins, in bytes.
pub fn distance_of(cell: usize) -> usize
    ensures { result ≡ 600 - 8 * cell }
{
    if cell < 75 { 600 - 8 * cell } else { 0 }
}
