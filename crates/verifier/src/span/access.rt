//! What an access reaches.

ghost use Rattle.std.specs.Prelude.{◌≡◌, ◌<◌, true};
ghost use Rattle.verifier.specs.Span.Rules.{words_rule};
ghost use Rattle.spans.specs.Access.{cell_at, is_inside, is_reached, whole_word, wiped};
ghost use Rattle.spans.specs.Frame.{kind_at};

use crate::span::distance::{begin, end};
use crate::span::results::whole;
use crate::span::rules::{lesser, number_rule};
use decode::Width;
use regtypes::Rule;
use spans::{Cells, Reach, SpanKind};

/// Whether the bytes of an access are in a region of this size, from each of its places.
pub fn is_inside(size: u16, reach: Reach, offset: i16, bytes: u16) -> bool
    ensures { result ≡ is_inside size reach offset bytes }
{
    0 <= begin(reach.lo, offset) && end(reach.hi, offset, bytes) <= i32::from(size)
}

/// The cell of the word that begins at a byte of the stack.
fn cell_at(byte: i32) -> Option<usize>
    ensures { result ≡ cell_at byte }
{
    if byte < 0 {
        return None;
    }
    let byte = byte as usize;
    if byte % 8 == 0 {
        Some(11 + byte / 8)
    } else {
        None
    }
}

/// The cell of the word that the access is, if it is a whole word.
pub fn whole_word(reach: Reach, offset: i16, bytes: u16) -> Option<usize>
    ensures { result ≡ whole_word reach offset bytes }
{
    if reach.hi <= reach.lo && bytes == 8 {
        cell_at(begin(reach.lo, offset))
    } else {
        None
    }
}

/// Whether an access may reach a byte of this cell's word.
fn is_reached(reach: Reach, offset: i16, bytes: u16, cell: u16) -> bool
    requires { cell < 75 }
    ensures { result ≡ is_reached reach offset bytes cell }
{
    if bytes == 0 || cell < 11 {
        return false;
    }
    let first = 8 * (cell - 11);
    i32::from(first) < end(reach.hi, offset, bytes)
        && begin(reach.lo, offset) < i32::from(first + 8)
}

/// The rule that is broken if an access may reach a word of the stack that is no number.
pub fn words_rule(frame: &Cells, reach: Reach, offset: i16, bytes: u16) -> Option<Rule>
    ensures { result ≡ words_rule 64 (kind_at frame.now.kinds) reach offset bytes }
{
    let mut rule = None;
    for word in 0..64 {
        let cell = 11 + word;
        if is_reached(reach, offset, bytes, cell as u16) {
            rule = lesser(rule, number_rule(frame.kinds[cell]));
        }
    }
    rule
}

/// The frame in which each word that an access may reach can be any number.
pub fn wiped(frame: &Cells, reach: Reach, offset: i16, bytes: u16) -> Cells
    requires { is_inside 512 reach offset bytes ≡ true }
    ensures { kind_at result.kinds ≡ wiped (kind_at frame.now.kinds) reach offset bytes }
{
    let mut kinds = frame.kinds;
    for cell in 0..75 {
        if is_reached(reach, offset, bytes, cell as u16) {
            kinds[cell] = SpanKind::Num(whole(Width::W64));
        }
    }
    Cells { kinds }
}
