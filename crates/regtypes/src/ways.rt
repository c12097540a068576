//! What is known after an instruction, on each of its two ways.

ghost use Rattle.std.specs.Prelude.{◌≡◌, ℤ, true, false, Some, None, MatchResult, IfOk};
ghost use Rattle.regtypes.specs.Frame.{kind_at};
ghost use Rattle.decode.specs.Attributes.{attributes_of};
ghost use Rattle.regtypes.specs.Rules.{moves_out, first_broken, tests_by};
ghost use Rattle.regtypes.specs.Ways.{after, after_helper, given, least_shown, raised, next, taken, Leaves};

use crate::frame::{Frame, Kind};
use crate::image_form::ImageForm;
use crate::kinds::{is_len, moved};
use crate::local::{
    ends_without, is_unknown, misgives, mixes, moves_out, reaches_out, reads_unset,
    stores_in_message, writes_frame_pointer,
};
use crate::rule::Rule;
use decode::{Attributes, Condition, Insn, Operand, Reg, Width, attributes_from};
use limits::PAYLOAD_BYTES;

/// What is known after an instruction.
#[derive(Clone, Copy, Debug, PartialEq, Eq)]
pub struct Leaving {
    /// On the way to the next instruction.
    pub next: Frame,
    /// On the way of a jump.
    pub taken: Frame,
}

/// The kind of the written register.
fn given(frame: &Frame, what: &Attributes) -> Kind
    requires { moves_out frame.now.kinds what.now.moved ≡ false }
    ensures { result ≡ given frame.now.kinds what.now }
{
    match (what.copied, what.moved) {
        (Some(src), _) => frame.kind(src),
        (None, Some((reg, by))) => moved(frame.kind(reg), by),
        (None, None) => Kind::Num,
    }
}

/// The frame that a helper leaves.
fn after_helper(frame: &Frame) -> Frame
    ensures { result ≡ record frame.now { kinds = after_helper frame.now.kinds } }
{
    let mut kinds = frame.kinds;
    kinds[0] = Kind::Num;
    kinds[1] = Kind::Unset;
    kinds[2] = Kind::Unset;
    kinds[3] = Kind::Unset;
    kinds[4] = Kind::Unset;
    kinds[5] = Kind::Unset;
    Frame {
        kinds,
        low: frame.low,
    }
}

/// The registers after an instruction of these attributes.
fn after(insn: &Insn, what: &Attributes, frame: &Frame) -> Frame
    requires same { what.now ≡ attributes_of insn.now }
    requires moved { moves_out frame.now.kinds what.now.moved ≡ false }
    ensures { result ≡ record frame.now { kinds = after insn.now frame.now.kinds } }
{
    if let Insn::Call { .. } = *insn {
        return after_helper(frame);
    }
    match what.written {
        None => *frame,
        Some(reg) => frame.with(reg, given(frame, what)),
    }
}

fn least_met(condition: Condition, c: i32) -> Option<i64>
    ensures { result ≡ least_shown true condition c }
{
    match condition {
        Condition::Equal => Some(i64::from(c)),
        Condition::Greater => Some(i64::from(c) + 1),
        Condition::GreaterEqual => Some(i64::from(c)),
        _ => None,
    }
}

fn least_unmet(condition: Condition, c: i32) -> Option<i64>
    ensures { result ≡ least_shown false condition c }
{
    match condition {
        Condition::NotEqual => Some(i64::from(c)),
        Condition::Less => Some(i64::from(c)),
        Condition::LessEqual => Some(i64::from(c) + 1),
        _ => None,
    }
}

/// The least length of the message, if a test showed that it is at least a number. No message has more than 256 bytes.
fn raised(low: u16, least: Option<i64>) -> u16
    ensures { result ≡ raised low least }
{
    match least {
        None => low,
        Some(number) => {
            if i64::from(low) <= number && number <= PAYLOAD_BYTES as i64 {
                number as u16
            } else {
                low
            }
        }
    }
}

/// The frames that a comparison of the message's length with a number leaves.
fn compared(condition: Condition, c: i32, frame: &Frame) -> Leaving
    ensures next { result.next ≡ record frame.now { low = raised frame.now.low (least_shown false condition c) } }
    ensures taken { result.taken ≡ record frame.now { low = raised frame.now.low (least_shown true condition c) } }
{
    Leaving {
        next: Frame {
            kinds: frame.kinds,
            low: raised(frame.low, least_unmet(condition, c)),
        },
        taken: Frame {
            kinds: frame.kinds,
            low: raised(frame.low, least_met(condition, c)),
        },
    }
}

/// The frames that leave on each way.
fn leave(insn: &Insn, what: &Attributes, frame: &Frame) -> Leaving
    requires same { what.now ≡ attributes_of insn.now }
    requires moved { moves_out frame.now.kinds what.now.moved ≡ false }
    ensures next { result.next ≡ next insn.now frame.now }
    ensures taken { result.taken ≡ taken insn.now frame.now }
{
    if let Insn::JumpIf {
        condition,
        width: Width::W64,
        dst,
        operand: Operand::Imm(c),
        ..
    } = *insn
    {
        if is_len(frame.kind(dst)) {
            return compared(condition, c, frame);
        }
    }
    let left = after(insn, what, frame);
    Leaving {
        next: left,
        taken: left,
    }
}

/// The least of the rules V3 to V10 that an instruction of these attributes breaks.
fn first_broken(
    what: &Attributes,
    form: ImageForm,
    insn: &Insn,
    frame: &Frame,
    state_len: u16,
) -> Result<(), Rule>
    ensures rule { MatchResult result (λ _. first_broken (tests_by what.now form state_len insn.now frame.now) ≡ None) (λ r. first_broken (tests_by what.now form state_len insn.now frame.now) ≡ Some r) }
    ensures moved { IfOk result (λ _. moves_out frame.now.kinds what.now.moved ≡ false) }
{
    if reads_unset(frame, what) {
        return Err(Rule::V3);
    }
    if writes_frame_pointer(what.written) {
        return Err(Rule::V4);
    }
    if mixes(frame, what) {
        return Err(Rule::V5);
    }
    if reaches_out(frame, what.access, state_len) || moves_out(frame, what.moved) {
        return Err(Rule::V6);
    }
    if stores_in_message(frame, what.access) {
        return Err(Rule::V7);
    }
    if is_unknown(form, insn) {
        return Err(Rule::V8);
    }
    if misgives(form, insn, frame, state_len) {
        return Err(Rule::V9);
    }
    if ends_without(insn, frame) {
        return Err(Rule::V10);
    }
    Ok(())
}

/// The frames that leave an instruction, or the least of the rules V3 to V10 that it breaks. The two frames differ only
/// after a comparison of the message's length.
pub fn transfer(
    form: ImageForm,
    insn: &Insn,
    frame: &Frame,
    state_len: u16,
) -> Result<Leaving, Rule>
    ensures { Leaves form state_len insn.now frame.now result }
{
    let what = attributes_from(insn);
    match first_broken(&what, form, insn, frame, state_len) {
        Ok(()) => Ok(leave(insn, &what, frame)),
        Err(rule) => Err(rule),
    }
}
