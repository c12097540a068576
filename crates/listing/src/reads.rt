//! Which registers an instruction reads.

ghost use Rattle.std.specs.Prelude.{◌≡◌, [], unwrap_or};
ghost use Rattle.regtypes.specs.Rules.{arguments_of, base_of, moved_of};
ghost use Rattle.listing.specs.Reads.{is_argument, is_named, is_numbered, is_read};

use decode::{Access, Attributes, Insn, Reg, attributes_from};
use regtypes::ImageForm;

/// Whether this is the register with this number.
fn is_numbered(reg: Option<Reg>, number: u8) -> bool
    ensures { result ≡ is_numbered number reg }
{
    match reg {
        None => false,
        Some(reg) => reg.number == number,
    }
}

/// The base register of an access.
pub fn base(access: Option<Access>) -> Option<Reg>
    ensures { result ≡ base_of access }
{
    match access {
        None => None,
        Some(access) => Some(access.base),
    }
}

/// The register that is moved.
pub fn shifted(moved: Option<(Reg, i64)>) -> Option<Reg>
    ensures { result ≡ moved_of moved }
{
    match moved {
        None => None,
        Some((reg, _)) => Some(reg),
    }
}

fn is_named(what: &Attributes, number: u8) -> bool
    ensures { result ≡ is_named number what.now }
{
    is_numbered(what.number, number)
        || (is_numbered(what.operand, number)
            || (is_numbered(what.copied, number)
                || (is_numbered(base(what.access), number)
                    || is_numbered(shifted(what.moved), number))))
}

/// Whether a helper takes this register as an argument.
fn is_given(form: ImageForm, helper: i32, number: u8) -> bool
    ensures { result ≡ is_argument number (unwrap_or (arguments_of form helper) []) }
{
    match (form, helper) {
        (_, 1) => number == 1 || number == 2,
        (_, 2) => number == 1,
        (ImageForm::Sbi2, 5) => number == 1 || (number == 2 || number == 3),
        (ImageForm::Sbi2, 6) => number == 1 || number == 2,
        _ => false,
    }
}

/// Whether an instruction reads the register with this number.
pub fn is_read(form: ImageForm, insn: &Insn, number: u8) -> bool
    ensures { result ≡ is_read form insn.now number }
{
    match *insn {
        Insn::Call { helper } => is_given(form, helper, number),
        Insn::Exit => number == 0,
        _ => is_named(&attributes_from(insn), number),
    }
}
