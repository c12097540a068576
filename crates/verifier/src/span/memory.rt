//! Loads and stores.

ghost use Rattle.std.specs.Prelude.{◌≡◌, ◌≤◌, ◌<◌, ◌*◌, ◌≤ℤ◌, true};
ghost use Rattle.verifier.specs.Span.Rules.{load_rule, read_rule, store_rule, write_rule};
ghost use Rattle.verifier.specs.Span.Ways.{StaysInside};
ghost use Rattle.spans.specs.Access.{is_inside, loaded_kind, stored_frame, whole_word, word_kind, written_frame};
ghost use Rattle.spans.specs.Frame.{kind_at, with_kind};
ghost use Rattle.spans.specs.Span.{whole};

use crate::span::access::{is_inside, whole_word, wiped, words_rule};
use crate::span::results::power;
use crate::span::rules::{lesser, number_rule, unless, value_rule};
use regtypes::{Region, Rule};
use spans::{Cells, Reach, Span, SpanKind};

/// The kind of a cell; after the last cell nothing is known.
fn kind_in(frame: &Cells, cell: usize) -> SpanKind
    ensures { result ≡ kind_at frame.now.kinds cell }
{
    if cell < 75 {
        frame.kinds[cell]
    } else {
        SpanKind::Unset
    }
}

/// The rule that a load inside the stack breaks.
fn read_rule(frame: &Cells, reach: Reach, offset: i16, bytes: u16) -> Option<Rule>
    ensures { result ≡ read_rule (whole_word reach offset bytes) (kind_at frame.now.kinds) reach offset bytes }
{
    match whole_word(reach, offset, bytes) {
        Some(cell) => value_rule(kind_in(frame, cell)),
        None => words_rule(frame, reach, offset, bytes),
    }
}

/// The rule that a store inside the stack breaks.
fn write_rule(frame: &Cells, kind: SpanKind, reach: Reach, offset: i16, bytes: u16) -> Option<Rule>
    ensures { result ≡ write_rule (whole_word reach offset bytes) (kind_at frame.now.kinds) kind reach offset bytes }
{
    match whole_word(reach, offset, bytes) {
        Some(_) => value_rule(kind),
        None => lesser(number_rule(kind), words_rule(frame, reach, offset, bytes)),
    }
}

/// The rule that a load through a base of this kind breaks.
pub fn load_rule(
    state_len: u16,
    frame: &Cells,
    base: SpanKind,
    offset: i16,
    bytes: u16,
) -> Option<Rule>
    ensures { result ≡ load_rule state_len (kind_at frame.now.kinds) base offset bytes }
{
    match base {
        SpanKind::Unset => Some(Rule::V3),
        SpanKind::Num(_) => Some(Rule::V5),
        SpanKind::Place(region, reach) => match region {
            Region::Message => unless(is_inside(512, reach, offset, bytes), Rule::V6),
            Region::State => unless(is_inside(state_len, reach, offset, bytes), Rule::V6),
            Region::Stack => {
                if is_inside(512, reach, offset, bytes) {
                    read_rule(frame, reach, offset, bytes)
                } else {
                    Some(Rule::V6)
                }
            }
        },
    }
}

/// A number of this many bytes, at most eight.
fn loaded_number(bytes: u16) -> SpanKind
    requires { bytes ≤ 8 }
    ensures { result ≡ SpanKind.Num (whole (8 * bytes)) }
{
    let hi = if bytes < 8 {
        power(u64::from(8 * bytes)) - 1
    } else {
        u64::MAX
    };
    SpanKind::Num(Span { lo: 0, hi })
}

/// The kind that a load from the stack gives; a whole word gives its own kind.
fn read(frame: &Cells, reach: Reach, offset: i16, bytes: u16) -> SpanKind
    requires { bytes ≤ 8 }
    ensures { result ≡ word_kind (whole_word reach offset bytes) (kind_at frame.now.kinds) bytes }
{
    match whole_word(reach, offset, bytes) {
        Some(cell) => kind_in(frame, cell),
        None => loaded_number(bytes),
    }
}

/// The kind that a load gives if it breaks no rule.
pub fn loaded(frame: &Cells, base: SpanKind, offset: i16, bytes: u16) -> SpanKind
    requires { bytes ≤ 8 }
    ensures { result ≡ loaded_kind (kind_at frame.now.kinds) base offset bytes }
{
    match base {
        SpanKind::Unset | SpanKind::Num(_) => loaded_number(bytes),
        SpanKind::Place(region, reach) => match region {
            Region::Message | Region::State => loaded_number(bytes),
            Region::Stack => read(frame, reach, offset, bytes),
        },
    }
}

/// The rule that a store of a kind through a base of another kind breaks.
pub fn store_rule(
    state_len: u16,
    frame: &Cells,
    kind: SpanKind,
    base: SpanKind,
    offset: i16,
    bytes: u16,
) -> Option<Rule>
    ensures { result ≡ store_rule state_len (kind_at frame.now.kinds) kind base offset bytes }
{
    match base {
        SpanKind::Unset => Some(Rule::V3),
        SpanKind::Num(_) => lesser(value_rule(kind), Some(Rule::V5)),
        SpanKind::Place(region, reach) => match region {
            Region::Message => {
                let rule = if is_inside(512, reach, offset, bytes) {
                    Rule::V7
                } else {
                    Rule::V6
                };
                lesser(number_rule(kind), Some(rule))
            }
            Region::State => {
                let inside = is_inside(state_len, reach, offset, bytes);
                lesser(number_rule(kind), unless(inside, Rule::V6))
            }
            Region::Stack => {
                if is_inside(512, reach, offset, bytes) {
                    write_rule(frame, kind, reach, offset, bytes)
                } else {
                    lesser(number_rule(kind), Some(Rule::V6))
                }
            }
        },
    }
}

/// The frame with another kind in a cell.
fn with_cell(frame: &Cells, cell: usize, kind: SpanKind) -> Cells
    requires { cell < 75 }
    ensures { kind_at result.kinds ≡ with_kind (kind_at frame.now.kinds) cell kind }
{
    let mut kinds = frame.kinds;
    kinds[cell] = kind;
    Cells { kinds }
}

/// The frame that a store inside the stack leaves.
fn written(frame: &Cells, kind: SpanKind, reach: Reach, offset: i16, bytes: u16) -> Cells
    requires some { reach.lo ≤ℤ reach.hi }
    requires inside { is_inside 512 reach offset bytes ≡ true }
    ensures { kind_at result.kinds ≡ written_frame (whole_word reach offset bytes) (kind_at frame.now.kinds) kind reach offset bytes }
{
    match whole_word(reach, offset, bytes) {
        Some(cell) => with_cell(frame, cell, kind),
        None => wiped(frame, reach, offset, bytes),
    }
}

/// The frame that a store leaves if it breaks no rule.
pub fn stored(frame: &Cells, kind: SpanKind, base: SpanKind, offset: i16, bytes: u16) -> Cells
    requires { StaysInside base offset bytes }
    ensures { kind_at result.kinds ≡ stored_frame (kind_at frame.now.kinds) kind base offset bytes }
{
    match base {
        SpanKind::Unset | SpanKind::Num(_) => *frame,
        SpanKind::Place(region, reach) => match region {
            Region::Message | Region::State => *frame,
            Region::Stack => written(frame, kind, reach, offset, bytes),
        },
    }
}
