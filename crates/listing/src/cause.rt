//! What breaks a rule at a slot.

ghost use Rattle.std.specs.Prelude.{◌≡◌, ◌∷◌, [], if◌then◌else◌};
ghost use Rattle.regtypes.specs.Rules.{base_of, moved_of};
ghost use Rattle.spans.specs.Frame.{kind_at};
ghost use Rattle.listing.specs.View.{known};
ghost use Rattle.listing.specs.Cause.{access_cause, by_missing, cause_of, first_place, flat_mixed, helper_cause, jump_of, message_cause, missing_word, mixed_by, mixed_cause, moved_cause, moved_or, out_by, reach_cause, sum_or, unset_cause, word_cause};
ghost use Rattle.listing.specs.Flaw.{first_flawed};
ghost use Rattle.listing.specs.declared.cause.WordFault.TheVariants as word;
ghost use Rattle.listing.specs.declared.flaw.Flaw.TheVariants.{Missing};

use crate::argument::call_cause;
use crate::flaw::{Flaw, distance_at, flawed_word, is_flawed, reached_word};
use crate::reads::{base, shifted};
use crate::view::{View, region_len};
use decode::{
    Access, AluOp, Attributes, Flow, Insn, Operand, Reg, Width, attributes_from, flow_from,
};
use regtypes::{ImageForm, Region, Rule};
use spans::{Cells, Span, SpanKind};

/// What is wrong with a register.
#[derive(Clone, Copy)]
pub enum RegisterFault {
    /// It is read but not set.
    Unset,
    /// It is read as a number but holds a place.
    PlaceAsNumber,
    /// It is the base of a load or store but holds a number.
    NumberAsBase,
    /// It holds a place, and is stored where no place can be kept.
    PlaceStored,
    /// It is a place in the message, and is stored to.
    Message,
}

/// What is wrong with a word of the stack.
#[derive(Clone, Copy)]
pub enum WordFault {
    /// It is read but not set.
    Unset,
    /// A helper takes it as a number, and it isn't known to be one.
    NoNumber,
    /// It holds a place, and this many of its bytes are read.
    Read(u8),
    /// It holds a place, and this many of its bytes are written.
    Written(u8),
}

/// What breaks a rule.
#[derive(Clone, Copy)]
pub enum RefusalCause {
    /// No cause is known.
    Nothing,
    /// A jump by this many slots.
    Jump(i32),
    /// No instruction follows.
    NothingFollows,
    /// r10 is written.
    FramePointer,
    /// r0 is no number at the exit.
    NoAnswer,
    OfRegister(Reg, RegisterFault),
    /// A word of the stack, by its cell.
    OfWord(usize, WordFault),
    /// Two registers are added, and both hold places.
    SumOfPlaces(Reg, Reg),
    /// An access of this many bytes to a region, at distances from the first to the second number. The last one is the
    /// region's size.
    Outside(u8, Region, i64, i64, u16),
    /// A place is moved too far by this number.
    MovedBy(Reg, Span),
    /// A place is moved too far by an immediate.
    ShiftedBy(Reg, i64),
    /// There is no helper with this number.
    NoHelper(i32),
    /// The argument of a helper in this register has to be a number.
    NoCount(u8),
    /// The argument in this register has to be a place with this many bytes.
    NoPayload(u8, u16),
    /// The arguments in these registers have to be a place and its length.
    NoSized(u8, u8),
}

/// V1: the jump of an instruction.
fn jump_of(flow: Flow) -> RefusalCause
    ensures { result ≡ jump_of flow }
{
    match flow {
        Flow::Leaps(distance) => RefusalCause::Jump(distance),
        Flow::Forks(distance) => RefusalCause::Jump(distance),
        Flow::Ends | Flow::Falls(_) => RefusalCause::Nothing,
    }
}

/// The first register that is read but not set.
fn first_unset(view: &View, what: &Attributes) -> Option<Reg>
    ensures { result ≡ first_flawed Missing (known view.now) (what.now.number ∷ what.now.operand ∷ what.now.copied ∷ base_of what.now.access ∷ moved_of what.now.moved ∷ []) }
{
    if is_flawed(Flaw::Missing, view, what.number) {
        return what.number;
    }
    if is_flawed(Flaw::Missing, view, what.operand) {
        return what.operand;
    }
    if is_flawed(Flaw::Missing, view, what.copied) {
        return what.copied;
    }
    if is_flawed(Flaw::Missing, view, base(what.access)) {
        return base(what.access);
    }
    if is_flawed(Flaw::Missing, view, shifted(what.moved)) {
        return shifted(what.moved);
    }
    None
}

/// What is wrong with a word of the stack, if there is one.
pub fn word_cause(fault: WordFault, word: Option<usize>) -> RefusalCause
    ensures { result ≡ word_cause fault word }
{
    match word {
        None => RefusalCause::Nothing,
        Some(cell) => RefusalCause::OfWord(cell, fault),
    }
}

fn by_missing(reg: Option<Reg>, word: Option<usize>) -> RefusalCause
    ensures { result ≡ by_missing reg word }
{
    match reg {
        Some(reg) => RefusalCause::OfRegister(reg, RegisterFault::Unset),
        None => word_cause(WordFault::Unset, word),
    }
}

/// The first word of the stack that is read but not set.
fn missing_word(view: &View, access: Option<Access>) -> Option<usize>
    ensures { result ≡ missing_word view.now access }
{
    match view {
        View::Flat(_) => None,
        View::Spans(cells) => reached_word(Flaw::Missing, cells, access),
    }
}

/// V3: the register or word that is read but not set.
fn unset_cause(view: &View, what: &Attributes) -> RefusalCause
    ensures { result ≡ unset_cause view.now what.now }
{
    by_missing(first_unset(view, what), missing_word(view, what.access))
}

/// The first register that is read as a number but holds a place.
fn first_place(view: &View, what: &Attributes) -> Option<Reg>
    ensures { result ≡ first_place view.now what.now }
{
    if is_flawed(Flaw::Pointing, view, what.number) {
        return what.number;
    }
    if is_flawed(Flaw::Pointing, view, what.operand) {
        return what.operand;
    }
    None
}

fn flat_mixed(access: Option<Access>, reg: Option<Reg>) -> RefusalCause
    ensures { result ≡ flat_mixed access reg }
{
    match (access, reg) {
        (_, Some(reg)) => RefusalCause::OfRegister(reg, RegisterFault::PlaceAsNumber),
        (Some(access), None) => RefusalCause::OfRegister(access.base, RegisterFault::NumberAsBase),
        (None, None) => RefusalCause::Nothing,
    }
}

fn part_fault(access: Access) -> WordFault
    ensures { result ≡ (if access.stores then word.Written access.bytes else word.Read access.bytes) }
{
    if access.stores {
        WordFault::Written(access.bytes)
    } else {
        WordFault::Read(access.bytes)
    }
}

fn access_cause(frame: &Cells, access: Access, stored: Option<Reg>, kind: SpanKind) -> RefusalCause
    ensures { result ≡ access_cause (kind_at frame.now.kinds) access stored kind }
{
    match (kind, stored) {
        (SpanKind::Unset, _) => RefusalCause::Nothing,
        (SpanKind::Num(_), _) => RefusalCause::OfRegister(access.base, RegisterFault::NumberAsBase),
        (SpanKind::Place(_, _), Some(reg)) => RefusalCause::OfRegister(
            reg,
            RegisterFault::PlaceStored,
        ),
        (SpanKind::Place(_, _), None) => {
            let bytes = access.bytes.into();
            let word = flawed_word(Flaw::Pointing, frame, kind, access.offset, bytes);
            word_cause(part_fault(access), word)
        }
    }
}

fn mixed_by(frame: &Cells, access: Option<Access>, reg: Option<Reg>) -> RefusalCause
    ensures { result ≡ mixed_by (kind_at frame.now.kinds) access reg }
{
    match access {
        None => flat_mixed(None, reg),
        Some(access) => access_cause(frame, access, reg, frame.kind(access.base)),
    }
}

/// A sum of two registers, or else another cause.
fn sum_or(insn: &Insn, other: RefusalCause) -> RefusalCause
    ensures { result ≡ sum_or insn.now other }
{
    match *insn {
        Insn::Alu {
            op: AluOp::Add,
            width: Width::W64,
            dst,
            operand: Operand::Reg(src),
        } => RefusalCause::SumOfPlaces(dst, src),
        _ => other,
    }
}

/// V5: a number where a place is needed, or a place where a number is needed.
fn mixed_cause(insn: &Insn, what: &Attributes, view: &View) -> RefusalCause
    ensures { result ≡ mixed_cause insn.now what.now view.now }
{
    let place = first_place(view, what);
    match view {
        View::Flat(_) => flat_mixed(what.access, place),
        View::Spans(cells) => sum_or(insn, mixed_by(cells, what.access, place)),
    }
}

fn moved_cause(dst: Reg, src: Reg, a: SpanKind, b: SpanKind) -> RefusalCause
    ensures { result ≡ moved_cause dst src a b }
{
    match (a, b) {
        (SpanKind::Place(_, _), SpanKind::Num(span)) => RefusalCause::MovedBy(dst, span),
        (SpanKind::Num(span), SpanKind::Place(_, _)) => RefusalCause::MovedBy(src, span),
        _ => RefusalCause::Nothing,
    }
}

fn reach_cause(state_len: u16, view: &View, access: Access, kind: SpanKind) -> RefusalCause
    ensures { result ≡ reach_cause state_len view.now access kind }
{
    match kind {
        SpanKind::Place(region, reach) => {
            let lo = distance_at(reach.lo, access.offset);
            let hi = distance_at(reach.hi, access.offset);
            let size = region_len(region, view.low(), state_len);
            RefusalCause::Outside(access.bytes, region, lo, hi, size)
        }
        SpanKind::Unset | SpanKind::Num(_) => RefusalCause::Nothing,
    }
}

/// V6: an access outside a region, or a place that an immediate moves too far.
fn out_by(
    state_len: u16,
    view: &View,
    access: Option<Access>,
    moved: Option<(Reg, i64)>,
) -> RefusalCause
    ensures { result ≡ out_by state_len view.now access moved }
{
    match (access, moved) {
        (Some(access), _) => reach_cause(state_len, view, access, view.kind(access.base)),
        (None, Some((reg, by))) => RefusalCause::ShiftedBy(reg, by),
        (None, None) => RefusalCause::Nothing,
    }
}

/// V6: a register that moves another to which it is added, or else another cause.
fn moved_or(insn: &Insn, view: &View, other: RefusalCause) -> RefusalCause
    ensures { result ≡ moved_or insn.now view.now other }
{
    match *insn {
        Insn::Alu {
            op: AluOp::Add,
            width: Width::W64,
            dst,
            operand: Operand::Reg(src),
        } => moved_cause(dst, src, view.kind(dst), view.kind(src)),
        _ => other,
    }
}

/// V7: the base of an access.
fn message_cause(access: Option<Access>) -> RefusalCause
    ensures { result ≡ message_cause access }
{
    match access {
        None => RefusalCause::Nothing,
        Some(access) => RefusalCause::OfRegister(access.base, RegisterFault::Message),
    }
}

/// V8: the number of a helper.
fn helper_cause(insn: &Insn) -> RefusalCause
    ensures { result ≡ helper_cause insn.now }
{
    match *insn {
        Insn::Call { helper } => RefusalCause::NoHelper(helper),
        _ => RefusalCause::Nothing,
    }
}

/// What breaks a rule at a slot where this is known. The form tells the helpers: form 3 has those of form 2.
pub fn cause_of(
    form: ImageForm,
    state_len: u16,
    insn: &Insn,
    view: &View,
    rule: Rule,
) -> RefusalCause
    ensures { result ≡ cause_of form state_len insn.now view.now rule }
{
    let what = attributes_from(insn);
    match rule {
        Rule::V1 => jump_of(flow_from(insn)),
        Rule::V2 => RefusalCause::NothingFollows,
        Rule::V3 => unset_cause(view, &what),
        Rule::V4 => RefusalCause::FramePointer,
        Rule::V5 => mixed_cause(insn, &what, view),
        Rule::V6 => moved_or(insn, view, out_by(state_len, view, what.access, what.moved)),
        Rule::V7 => message_cause(what.access),
        Rule::V8 => helper_cause(insn),
        Rule::V9 => call_cause(form, view, insn),
        Rule::V10 => RefusalCause::NoAnswer,
    }
}
