//! The rules of one instruction under a frame.

ghost use Rattle.std.specs.Prelude.{◌≡◌, false, ◌||◌, ◌&&◌, not, is_none, [], ◌∷◌};
ghost use Rattle.std.specs.Option.{option_map_or, option_and_then};
ghost use Rattle.std.specs.List.{list_any, list_all};
ghost use Rattle.decode.specs.declared.attributes.Access.{Access};
ghost use Rattle.regtypes.specs.Frame.{is_num, kind_at};
ghost use Rattle.regtypes.specs.Rules.{has, base_of, moved_of, is_unset, is_place, is_in_message, is_frame_pointer, reaches_out, moves_out, called, arguments_of, takes, ends_without};

use crate::frame::{Frame, is_num};
use crate::image_form::ImageForm;
use crate::kinds::{has_bytes, is_in_message, is_place, is_sized, is_unset, moves, reaches};
use decode::{Access, Attributes, Insn, Reg};
use limits::FORM_1_BYTES;

fn holds_nothing(frame: &Frame, reg: Option<Reg>) -> bool
    ensures { result ≡ has is_unset frame.now.kinds reg }
{
    match reg {
        None => false,
        Some(reg) => is_unset(frame.kind(reg)),
    }
}

fn holds_place(frame: &Frame, reg: Option<Reg>) -> bool
    ensures { result ≡ has is_place frame.now.kinds reg }
{
    match reg {
        None => false,
        Some(reg) => is_place(frame.kind(reg)),
    }
}

fn base(access: Option<Access>) -> Option<Reg>
    ensures { result ≡ base_of access }
{
    match access {
        None => None,
        Some(access) => Some(access.base),
    }
}

fn shifted(moved: Option<(Reg, i64)>) -> Option<Reg>
    ensures { result ≡ moved_of moved }
{
    match moved {
        None => None,
        Some((reg, _)) => Some(reg),
    }
}

/// V3: whether a register that is not set is read.
pub fn reads_unset(frame: &Frame, what: &Attributes) -> bool
    ensures { result ≡ list_any (has is_unset frame.now.kinds) (what.now.number ∷ what.now.operand ∷ what.now.copied ∷ base_of what.now.access ∷ moved_of what.now.moved ∷ []) }
{
    holds_nothing(frame, what.number)
        || (holds_nothing(frame, what.operand)
            || (holds_nothing(frame, what.copied)
                || (holds_nothing(frame, base(what.access))
                    || holds_nothing(frame, shifted(what.moved)))))
}

/// V4: whether r10 is written.
pub fn writes_frame_pointer(written: Option<Reg>) -> bool
    ensures { result ≡ option_map_or is_frame_pointer written false }
{
    match written {
        None => false,
        Some(reg) => reg.number == 10,
    }
}

fn has_number_as_base(frame: &Frame, access: Option<Access>) -> bool
    ensures { result ≡ has is_num frame.now.kinds (base_of access) }
{
    match access {
        None => false,
        Some(access) => is_num(frame.kind(access.base)),
    }
}

/// V5: whether a place is read as a number, or a number is a base.
pub fn mixes(frame: &Frame, what: &Attributes) -> bool
    ensures { result ≡ (has is_place frame.now.kinds what.now.number || (has is_place frame.now.kinds what.now.operand || has is_num frame.now.kinds (base_of what.now.access))) }
{
    holds_place(frame, what.number)
        || (holds_place(frame, what.operand) || has_number_as_base(frame, what.access))
}

/// V6: whether an access leaves its region.
pub fn reaches_out(frame: &Frame, access: Option<Access>, state_len: u16) -> bool
    ensures { result ≡ reaches_out state_len frame.now access }
{
    match access {
        None => false,
        Some(access) => !reaches(
            frame.kind(access.base),
            access.offset,
            access.bytes,
            frame.low,
            state_len,
        ),
    }
}

/// V6: whether a place is moved so far that 16 bits and a sign can't hold its distance.
pub fn moves_out(frame: &Frame, moved: Option<(Reg, i64)>) -> bool
    ensures { result ≡ moves_out frame.now.kinds moved }
{
    match moved {
        None => false,
        Some((reg, by)) => !moves(frame.kind(reg), by),
    }
}

/// V7: whether the message is written.
pub fn stores_in_message(frame: &Frame, access: Option<Access>) -> bool
    ensures { result ≡ option_map_or (λ (x : Access). x.stores && is_in_message (kind_at frame.now.kinds x.base.number)) access false }
{
    match access {
        None => false,
        Some(access) => access.stores && is_in_message(frame.kind(access.base)),
    }
}

/// V8: whether no helper has this number.
pub fn is_unknown(form: ImageForm, insn: &Insn) -> bool
    ensures { result ≡ option_map_or (λ h. is_none (arguments_of form h)) (called insn.now) false }
{
    match *insn {
        Insn::Call { helper } => match (form, helper) {
            (_, 1..=4) => false,
            (ImageForm::Sbi2, 5..=6) => false,
            _ => true,
        },
        _ => false,
    }
}

/// V9: whether a helper gets an argument of the wrong kind.
pub fn misgives(form: ImageForm, insn: &Insn, frame: &Frame, state_len: u16) -> bool
    ensures { result ≡ option_map_or (λ xs. not (list_all (takes state_len frame.now) xs)) (option_and_then (arguments_of form) (called insn.now)) false }
{
    let kinds = &frame.kinds;
    let low = frame.low;
    match *insn {
        Insn::Call { helper } => match (form, helper) {
            (_, 1) => !(is_num(kinds[1])
                && has_bytes(kinds[2], FORM_1_BYTES as u16, low, state_len)),
            (_, 2) => !has_bytes(kinds[1], FORM_1_BYTES as u16, low, state_len),
            (ImageForm::Sbi2, 5) => {
                !(is_num(kinds[1]) && is_sized(kinds[2], kinds[3], low, state_len))
            }
            (ImageForm::Sbi2, 6) => !is_sized(kinds[1], kinds[2], low, state_len),
            _ => false,
        },
        _ => false,
    }
}

/// V10: whether r0 isn't a number at the end.
pub fn ends_without(insn: &Insn, frame: &Frame) -> bool
    ensures { result ≡ ends_without insn.now frame.now.kinds }
{
    match *insn {
        Insn::Exit => !is_num(frame.kinds[0]),
        _ => false,
    }
}
