//! A cause as a sentence, and what to do about it.

ghost use Rattle.std.specs.Prelude.{◌≡◌, ◌++◌, OnOk, codes, decimal, string_bytes};
ghost use Rattle.listing.specs.Kinds.{places_text, range_text, reg_text, word_text};
ghost use Rattle.listing.specs.Sentence.{advice, cause_advice, cause_text, moved_advice, outside_advice, register_advice, register_words, rule_advice, word_advice, word_words};

use crate::cause::{RefusalCause, RegisterFault, WordFault};
use crate::kinds::{distance_of, push_places, push_range};
use crate::view::View;
use decode::Reg;
use regtypes::{Region, Rule};
use spans::Span;
use std::alloc::AllocError;

fn register_words(fault: RegisterFault) -> &'static str
    ensures { result.now ≡ register_words fault }
{
    match fault {
        RegisterFault::Unset => " is read and isn't set",
        RegisterFault::PlaceAsNumber => " is read as a number and holds a place",
        RegisterFault::NumberAsBase => " is the base of a load or store and holds a number",
        RegisterFault::PlaceStored =>
            " holds a place, which only a whole word of the stack can keep",
        RegisterFault::Message => " is a place of the message, which is for reading",
    }
}

/// Writes a word of the stack and what is wrong with it.
fn push_word(out: &mut String, cell: usize, fault: WordFault) -> Result<(), AllocError>
    ensures { OnOk result (string_bytes out.new ≡ string_bytes out.old ++ (codes "the word at " ++ word_text cell ++ word_words fault)) }
{
    let from = distance_of(cell);
    match fault {
        WordFault::Unset => write!(out, "the word at stack-{from} is read and isn't set"),
        WordFault::NoNumber => write!(out, "the word at stack-{from} is to be a number"),
        WordFault::Read(bytes) => write!(
            out,
            "the word at stack-{from} holds a place, of which {bytes} bytes are read"
        ),
        WordFault::Written(bytes) => write!(
            out,
            "the word at stack-{from} holds a place, of which {bytes} bytes are written"
        ),
    }
}

/// Writes which bytes an access reaches.
fn push_outside(
    out: &mut String,
    bytes: u8,
    region: Region,
    lo: i64,
    hi: i64,
    size: u16,
) -> Result<(), AllocError>
    ensures { OnOk result (string_bytes out.new ≡ string_bytes out.old ++ (codes "not all of the " ++ decimal bytes ++ (codes " bytes at " ++ places_text size region lo hi ++ codes " lie there"))) }
{
    write!(out, "not all of the {bytes} bytes at ")?;
    push_places(out, region, lo, hi, size)?;
    out.push_str(" lie there")
}

/// Writes by how much a place is moved.
fn push_moved(out: &mut String, reg: Reg, span: Span) -> Result<(), AllocError>
    ensures { OnOk result (string_bytes out.new ≡ string_bytes out.old ++ (reg_text reg ++ (codes " is moved by " ++ range_text span ++ codes ", out of the places from -32768 to 32767"))) }
{
    let number = reg.number;
    write!(out, "r{number} is moved by ")?;
    push_range(out, span)?;
    out.push_str(", out of the places from -32768 to 32767")
}

/// Writes what breaks a rule at a slot, in code of this many slots and of this form.
pub fn push_cause(
    out: &mut String,
    form: u8,
    slots: usize,
    slot: usize,
    cause: RefusalCause,
) -> Result<(), AllocError>
    ensures { OnOk result (string_bytes out.new ≡ string_bytes out.old ++ cause_text form slots slot cause) }
{
    match cause {
        RefusalCause::Nothing => Ok(()),
        RefusalCause::Jump(distance) => {
            let target = slot as i128 + 1 + i128::from(distance);
            write!(
                out,
                "the jump leads to slot {target} of {slots}, and has to lead to a later one at which an instruction begins"
            )
        }
        RefusalCause::NothingFollows => out.push_str("nothing follows this instruction"),
        RefusalCause::FramePointer => out.push_str("r10 is written, and is for reading"),
        RefusalCause::NoAnswer => out.push_str("r0 is to be a number at the end"),
        RefusalCause::OfRegister(Reg { number }, fault) => {
            let words = register_words(fault);
            write!(out, "r{number}{words}")
        }
        RefusalCause::OfWord(cell, fault) => push_word(out, cell, fault),
        RefusalCause::SumOfPlaces(Reg { number: first }, Reg { number: second }) => write!(
            out,
            "r{first} and r{second} are added, and both hold places"
        ),
        RefusalCause::Outside(bytes, region, lo, hi, size) => {
            push_outside(out, bytes, region, lo, hi, size)
        }
        RefusalCause::MovedBy(reg, span) => push_moved(out, reg, span),
        RefusalCause::ShiftedBy(Reg { number }, by) => write!(
            out,
            "r{number} is moved by {by}, out of the places from -32768 to 32767"
        ),
        RefusalCause::NoHelper(helper) => write!(out, "form {form} has no helper {helper}"),
        RefusalCause::NoCount(reg) => write!(out, "r{reg} is to be a number"),
        RefusalCause::NoPayload(reg, bytes) => write!(
            out,
            "r{reg} is to be a place, with {bytes} bytes from there on in its region"
        ),
        RefusalCause::NoSized(place, count) => write!(
            out,
            "r{place} is to be a place with 256 bytes from there on in its region, and r{count} a number; or they the message and its length"
        ),
    }
}

fn register_advice(fault: RegisterFault) -> &'static str
    ensures { result.now ≡ register_advice fault }
{
    match fault {
        RegisterFault::Unset =>
            "set it on each way that leads here, alike: a function that gives a pointer or NULL gives an index in its place, and one more for none; what a helper must not lose belongs in r6 to r9",
        RegisterFault::PlaceAsNumber => "compare and compute with indices in place of pointers",
        RegisterFault::NumberAsBase =>
            "load and store at an index of the message, the state or a local array: a pointer that was kept in the state comes back as a number",
        RegisterFault::PlaceStored =>
            "keep an index in its place; a pointer is kept by a local variable alone",
        RegisterFault::Message =>
            "copy it to a local array, and change the copy; where the state is meant, the message is the first argument, the state the second",
    }
}

fn word_advice(fault: WordFault) -> &'static str
    ensures { result.now ≡ word_advice fault }
{
    match fault {
        WordFault::Unset =>
            "set the local variable on each way that leads here, alike: a pointer on all, or a number on all",
        WordFault::NoNumber =>
            "send or output a local array of numbers, each of which is set on each way that leads here",
        WordFault::Read(_) | WordFault::Written(_) =>
            "compare the index of the local array with a number, or mask it, so that no pointer lies within its reach",
    }
}

/// What to do about an index.
const INDEX: &str =
    "compare the index with a number (if (i >= N) return 1;), or mask it (i & (N - 1), N a power of two), on each way that leads here, before it is added; % bounds nothing where its divisor may be 0, or where clang makes div, mul and sub of it; where the C does so already, within(index, most); right above the access does so anew";

/// What to do about an index that can be any number.
const ANY_INDEX: &str =
    "compare the index with a number (if (i >= N) return 1;), or mask it (i & (N - 1), N a power of two), on each way that leads here, before it is added; % bounds nothing where its divisor may be 0, or where clang makes div, mul and sub of it; where the C does so already, within(index, most); right above the access does so anew; one of a signed type, as int, may be negative: make it a u64, and compare that";

/// What to do about an access outside a region, if no index moves its place.
const REGION: &str =
    "stay inside the region: the message has 512 bytes with the zeros behind it, the local variables have 512, the state has as many as --state says";

/// What to do about an index into the state.
const STATE_INDEX: &str =
    "compare the index with a number (if (i >= N) return 1;), or mask it (i & (N - 1), N a power of two), on each way that leads here, before it is added; % bounds nothing where its divisor may be 0, or where clang makes div, mul and sub of it; where the C does so already, within(index, most); right above the access does so anew; or --state is too small";

/// What to do about an access outside the state, if no index moves its place.
const STATE: &str =
    "stay inside the state, which has as many bytes as --state says, or pack it with a greater one";

/// What to do about an access that reaches out of its region, at distances from `lo` to `hi`.
fn outside_advice(region: Region, lo: i64, hi: i64) -> &'static str
    ensures { result.now ≡ outside_advice region lo hi }
{
    match region {
        Region::State => { if hi <= lo { STATE } else { STATE_INDEX } }
        Region::Message | Region::Stack => { if hi <= lo { REGION } else { INDEX } }
    }
}

/// What to do about an index that moves a place too far.
fn moved_advice(span: Span) -> &'static str
    ensures { result.now ≡ moved_advice span }
{
    if span.hi == u64::MAX {
        ANY_INDEX
    } else {
        INDEX
    }
}

/// What to do about a cause in form 3.
fn cause_advice(cause: RefusalCause) -> &'static str
    ensures { result.now ≡ cause_advice cause }
{
    match cause {
        RefusalCause::Nothing => "read the listing from here upward",
        RefusalCause::Jump(_) =>
            "jump forward, to where an instruction begins: write unrolled above a loop of known length, and turn() first in it where clang leaves it as one",
        RefusalCause::NothingFollows => "end each way with exit",
        RefusalCause::FramePointer => "copy it by mov, and change the copy",
        RefusalCause::NoAnswer => "return a number on each way",
        RefusalCause::OfRegister(_, fault) => register_advice(fault),
        RefusalCause::OfWord(_, fault) => word_advice(fault),
        RefusalCause::SumOfPlaces(_, _) => "compare and compute with indices in place of pointers",
        RefusalCause::Outside(_, region, lo, hi, _) => outside_advice(region, lo, hi),
        RefusalCause::MovedBy(_, span) => moved_advice(span),
        RefusalCause::ShiftedBy(_, _) => REGION,
        RefusalCause::NoHelper(_) => "call helper 1 to 6",
        RefusalCause::NoCount(_) => "give the helper a number, set on each way that leads here",
        RefusalCause::NoPayload(_, _) | RefusalCause::NoSized(_, _) =>
            "compare the length with a number that fits before the call, or give a fixed one, and begin where so many bytes are left; where the C compares it already, within(length, most); right above the call does so anew; or --state is too small",
    }
}

/// What to do about a broken rule in forms 1 and 2.
fn rule_advice(rule: Rule) -> &'static str
    ensures { result.now ≡ rule_advice rule }
{
    match rule {
        Rule::V1 => "jump forward, to where an instruction begins; unroll a loop",
        Rule::V2 => "end each way with exit",
        Rule::V3 =>
            "set it on each way that leads here, alike; what a helper must not lose belongs in r6 to r9; r3 is the length in forms 2 and 3 alone, and a handler in C wants --form 3",
        Rule::V4 => "copy it by mov, and change the copy",
        Rule::V5 =>
            "compute with numbers alone; load and store through places, and move them by add and sub of a constant; a handler in C wants --form 3",
        Rule::V6 =>
            "stay inside the region (the state has as many bytes as --state says, the message 64 in form 1); in form 2 compare the length before the message is read; a handler in C wants --form 3",
        Rule::V7 =>
            "write to the state or the stack; in C the message is the first argument, the state the second",
        Rule::V8 => "call helper 1, 2, 3 or 4, or in forms 2 and 3 also 5 or 6",
        Rule::V9 =>
            "set the arguments right before the call, and let the bytes lie inside one region",
        Rule::V10 => "put a number in r0 before exit, as by mov r0, 0",
    }
}

/// What to do: in forms 1 and 2 about the rule, in form 3 about the cause.
pub fn advice(view: &View, rule: Rule, cause: RefusalCause) -> &'static str
    ensures { result.now ≡ advice view.now rule cause }
{
    match view {
        View::Flat(_) => rule_advice(rule),
        View::Spans(_) => cause_advice(cause),
    }
}
