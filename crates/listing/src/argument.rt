//! What is wrong with the arguments of a helper.

ghost use Rattle.std.specs.Prelude.{◌≡◌, ◌<◌};
ghost use Rattle.spans.specs.Frame.{is_num, kind_at};
ghost use Rattle.listing.specs.View.{known};
ghost use Rattle.listing.specs.Cause.{call_cause, payload_by, payload_cause, sized_by, sized_cause};

use crate::cause::{RefusalCause, WordFault, word_cause};
use crate::flaw::{Flaw, flawed_word};
use crate::view::View;
use decode::{Insn, Reg};
use regtypes::{ImageForm, Region};
use spans::{Cells, SpanKind};
use verifier::is_inside;

/// The cause at a register that is to be a place with this many bytes.
fn payload_by(frame: &Cells, reg: u8, bytes: u16, kind: SpanKind) -> RefusalCause
    ensures { result ≡ payload_by (kind_at frame.now.kinds) reg bytes kind }
{
    match kind {
        SpanKind::Place(Region::Stack, reach) if is_inside(512, reach, 0, bytes) => {
            let word = flawed_word(Flaw::NotNumber, frame, kind, 0, bytes);
            word_cause(WordFault::NoNumber, word)
        }
        _ => RefusalCause::NoPayload(reg, bytes),
    }
}

/// The cause at a register that is to be a place with as many bytes as another register says.
fn sized_by(frame: &Cells, reg: u8, count_reg: u8, count: SpanKind) -> RefusalCause
    requires { reg < 11 }
    ensures { result ≡ sized_by (kind_at frame.now.kinds) reg count_reg count }
{
    match count {
        SpanKind::Num(span) => {
            let bytes = span.hi.min(256) as u16;
            payload_by(frame, reg, bytes, frame.kinds[reg as usize])
        }
        SpanKind::Unset | SpanKind::Place(_, _) => RefusalCause::NoCount(count_reg),
    }
}

fn payload_cause(view: &View, reg: u8) -> RefusalCause
    requires { reg < 11 }
    ensures { result ≡ payload_cause view.now reg }
{
    match view {
        View::Flat(_) => RefusalCause::NoPayload(reg, 64),
        View::Spans(cells) => payload_by(cells, reg, 64, cells.kinds[reg as usize]),
    }
}

fn sized_cause(view: &View, reg: u8, count: u8) -> RefusalCause
    requires place { reg < 11 }
    requires number { count < 11 }
    ensures { result ≡ sized_cause view.now reg count }
{
    match view {
        View::Flat(_) => RefusalCause::NoSized(reg, count),
        View::Spans(cells) => sized_by(cells, reg, count, cells.kinds[count as usize]),
    }
}

/// Whether the first argument is known to be a number.
fn is_first_number(view: &View) -> bool
    ensures { result ≡ is_num (known view.now 1) }
{
    matches!(view.kind(Reg { number: 1 }), SpanKind::Num(_))
}

/// V9: the argument that isn't what a helper takes.
pub fn call_cause(form: ImageForm, view: &View, insn: &Insn) -> RefusalCause
    ensures { result ≡ call_cause form view.now insn.now }
{
    let Insn::Call { helper } = *insn else {
        return RefusalCause::Nothing;
    };
    let first = is_first_number(view);
    match (form, helper) {
        (_, 1) if first => payload_cause(view, 2),
        (_, 1) => RefusalCause::NoCount(1),
        (_, 2) => payload_cause(view, 1),
        (ImageForm::Sbi2, 5) if first => sized_cause(view, 2, 3),
        (ImageForm::Sbi2, 5) => RefusalCause::NoCount(1),
        (ImageForm::Sbi2, 6) => sized_cause(view, 1, 2),
        _ => RefusalCause::Nothing,
    }
}
