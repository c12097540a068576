//! What is wrong with what an instruction reads.

ghost use Rattle.std.specs.Prelude.{◌≡◌, ◌<◌, ◌+ℤ◌, pos};
ghost use Rattle.spans.specs.Access.{is_reached};
ghost use Rattle.spans.specs.Frame.{kind_at};
ghost use Rattle.listing.specs.Flaw.{first_word, flawed_cell, flawed_word, has_flaw, is_flawed, reached_word};
ghost use Rattle.listing.specs.View.{known};

use crate::view::View;
use decode::{Access, Reg};
use regtypes::Region;
use spans::{Cells, Reach, SpanKind};

/// What can be wrong with a register or a word of the stack.
#[derive(Clone, Copy)]
pub enum Flaw {
    /// Nothing is known of it.
    Missing,
    /// It is a place.
    Pointing,
    /// It isn't known to be a number.
    NotNumber,
}

fn has_flaw(flaw: Flaw, kind: SpanKind) -> bool
    ensures { result ≡ has_flaw flaw kind }
{
    match (flaw, kind) {
        (Flaw::Missing, SpanKind::Unset) => true,
        (Flaw::Missing, _) => false,
        (Flaw::Pointing, SpanKind::Place(_, _)) => true,
        (Flaw::Pointing, _) => false,
        (Flaw::NotNumber, SpanKind::Num(_)) => false,
        (Flaw::NotNumber, _) => true,
    }
}

/// Whether a register has a flaw. `None` has none.
pub fn is_flawed(flaw: Flaw, view: &View, reg: Option<Reg>) -> bool
    ensures { result ≡ is_flawed flaw (known view.now) reg }
{
    match reg {
        None => false,
        Some(reg) => has_flaw(flaw, view.kind(reg)),
    }
}

/// A distance plus an offset.
pub fn distance_at(at: i16, offset: i16) -> i64
    ensures { result ≡ at +ℤ offset }
{
    i64::from(at) + i64::from(offset)
}

/// The end of the bytes that begin at an offset from a place.
fn end(at: i16, offset: i16, bytes: u16) -> i64
    ensures { result ≡ at +ℤ offset +ℤ pos bytes }
{
    distance_at(at, offset) + i64::from(bytes)
}

/// Whether an access may reach a byte of this cell's word.
fn reaches(reach: Reach, offset: i16, bytes: u16, cell: u16) -> bool
    requires { cell < 75 }
    ensures { result ≡ is_reached reach offset bytes cell }
{
    if bytes == 0 || cell < 11 {
        return false;
    }
    let first = 8 * (cell - 11);
    i64::from(first) < end(reach.hi, offset, bytes)
        && distance_at(reach.lo, offset) < i64::from(first + 8)
}

/// The cell, if an access may reach its word and it has the flaw.
fn flawed_cell(
    flaw: Flaw,
    frame: &Cells,
    reach: Reach,
    offset: i16,
    bytes: u16,
    cell: usize,
) -> Option<usize>
    requires { cell < 75 }
    ensures { result ≡ flawed_cell flaw (kind_at frame.now.kinds) reach offset bytes cell }
{
    if reaches(reach, offset, bytes, cell as u16) && has_flaw(flaw, frame.kinds[cell]) {
        Some(cell)
    } else {
        None
    }
}

/// The first cell with a flaw among those that an access to the stack may reach.
fn first_word(flaw: Flaw, frame: &Cells, reach: Reach, offset: i16, bytes: u16) -> Option<usize>
    ensures { result ≡ first_word 64 flaw (kind_at frame.now.kinds) reach offset bytes }
{
    let mut found = None;
    for word in 0..64 {
        found = found.or(flawed_cell(flaw, frame, reach, offset, bytes, 11 + word));
    }
    found
}

/// The first such cell for an access through a base of this kind.
pub fn flawed_word(
    flaw: Flaw,
    frame: &Cells,
    base: SpanKind,
    offset: i16,
    bytes: u16,
) -> Option<usize>
    ensures { result ≡ flawed_word flaw (kind_at frame.now.kinds) base offset bytes }
{
    match base {
        SpanKind::Place(Region::Stack, reach) => first_word(flaw, frame, reach, offset, bytes),
        _ => None,
    }
}

/// The first such cell for the access of an instruction.
pub fn reached_word(flaw: Flaw, frame: &Cells, access: Option<Access>) -> Option<usize>
    ensures { result ≡ reached_word flaw (kind_at frame.now.kinds) access }
{
    match access {
        None => None,
        Some(access) => flawed_word(
            flaw,
            frame,
            frame.kind(access.base),
            access.offset,
            access.bytes.into(),
        ),
    }
}
