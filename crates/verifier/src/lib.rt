//! Images of all forms: code that is verified once and then runs with no test for a fault.
//!
//! [`load`] reads an image file of form 1 or 2, [`verify_form`] takes instructions and a form, and [`verify`]
//! instructions of form 1. Each answers an [`Image`] exactly if the code is typable; if memory runs out, the error says
//! so. Code is typable if there is a table with a frame for each instruction that a path leads to, such that no
//! instruction breaks a rule under its frame and all that leaves it fits the frames where it leads. The image keeps the
//! least such table, and its type keeps the fact. For each instruction that a path leads to the image has a dense
//! operation. A refusal names the first slot whose frame breaks a rule, and the least rule that it breaks; no other
//! slot or rule could be named. [`frames_of`] tells what is known of the registers slot by slot, also for code that is
//! refused. [`parts`] and [`file`] read and write image files without checking the rules.
//!
//! Files of form 3 begin with `SBI3`, and the rest has the format of forms 1 and 2. [`load_span`], [`span_parts`] and
//! [`span_file`] take only form 3; there a refused file has one cause ([`span_file_refusals_are_one`]). The type of a
//! [`SpanImage`] keeps that its code is typable and that its bytes are its code. [`SpanImage::frames`] computes what is
//! known at each slot when it is called; the image keeps no memory for that.
//!
//! [`load_any`] takes a file of any form and answers an [`AnyImage`]; [`any_parts`] and [`any_file`] read and write. A
//! file that begins with the magic of no form is refused as no image file.
//!
//! [`span_frames_of`] makes the pass of form 3. It tells what is known at each slot of registers and of the stack's
//! words; [`span_verify`] answers the frames of typable code only. Its typing is one of `spans`
//! ([`typings_are_typings`]), so it never comes to a fault. [`transfer`] applies the rules to one instruction: it
//! answers the frames that leave on its two ways, none on a way that no number takes, or the least of the rules V3 to
//! V10 that is broken. `specs/Span/Rules` defines that rule and `specs/Span/Ways` the frames that leave.
//! [`rules_are_exact`] says that both agree with the definition of form 3, which defines only whether frames leave,
//! and which. Each part of [`transfer`] promises the equation that is its definition: [`alu_rule`] and [`alu_kind`]
//! for arithmetic, [`shown`] for conditions, [`load_rule`], [`loaded`], [`store_rule`] and [`stored`] for memory,
//! [`call_rule`] and [`answered`] for helpers. [`entry`] is the frame of the entry, and [`join`] keeps what two
//! frames both say.
//!
//! What a verdict means is one definition for all forms. `specs/Form` says what a form gives for a slot and which laws
//! it has to keep, and `specs/Fixpoint` defines the least typing and a refusal. `proofs/Passes` has the lemmas: how a
//! join and a slot change the least typing, and that there is only one refusal. Forms 1 and 2 are `flat_form`
//! (`specs/Least`; [`flat_typings_are_typings`]), form 3 is `span_form` (`specs/Span/Typing`). Each has its own pass,
//! since its frames take memory in another way. Both share `decode::lay_out`, which puts instructions slot by slot, and
//! `regtypes::leads`, which judges where an instruction leads, by the rules V1 and V2.
//!
//! Form 3 takes all that forms 1 and 2 take. A frame of theirs is read as one of form 3 (`specs/Span/FlatFrames`): a
//! number is any number, the message's length a number up to 256, a place that one place, and each word of the stack
//! any number. Read so, a frame that says more still does ([`order_is_kept`]), an instruction that breaks no rule
//! breaks none of form 3, and what leaves it there says no less ([`rules_are_subsumed`]); so a typing is one of form 3,
//! of the same code with the same state ([`typings_are_subsumed`]), and a file that loads does so with a 3 in its
//! fourth byte ([`files_are_subsumed`]).
//!
//! ```
//! let image = load(alloc, &bytes)?;
//! let count = image.count(); // instructions
//! let frame = image.kinds_at(0); // what is known as a call begins
//! let form = load_any(alloc, &bytes)?.form().number(); // 1, 2 or 3
//! let frames = span_verify(alloc, &code, 64)?;
//! let cells = &frames.table[0]; // what form 3 knows as a call begins
//! // r3 is a number from 0 to 256, and r2 the state's first byte: their sum is a place of the state
//! let add = Insn::Alu { op: AluOp::Add, width: Width::W64, dst: r2, operand: Operand::Reg(r3) };
//! let left = transfer(&add, &entry(), 257);
//! // in both frames r3 is a number: from 1 to 4 in one, from 3 to 9 in the other; so in both it is one from 1 to 9
//! assert!(rt; join(&first, &second).kind(r3) == Kind::Num(Span { lo: 1, hi: 9 }));
//! ```
#![tactic(auto)]

mod any_image;
mod compilation;
mod fault;
mod file_form;
mod header;
mod image;
mod judgement;
mod laws;
mod loader;
mod pass;
mod span;
mod translation;
mod verification;
mod writer;

pub use any_image::AnyImage;
pub use fault::{HeaderFault, ImageError, VerifyError};
pub use file_form::FileForm;
pub use header::{FileHeader, header_at};
pub use image::Image;
pub use laws::{file_refusals_are_one, flat_typings_are_typings, refusals_are_one};
pub use loader::{any_parts, load, load_any, load_span, parts, span_parts};
pub use pass::{Frames, frames_of};
pub use span::access::{is_inside, whole_word, wiped, words_rule};
pub use span::alu::{alu_kind, alu_rule, any_number, extended, operand_kind};
pub use span::call::{answered, call_rule};
pub use span::exactness::rules_are_exact;
pub use span::fault::SpanVerifyError;
pub use span::flat_laws::{
    files_are_subsumed, order_is_kept, rules_are_subsumed, typings_are_subsumed,
};
pub use span::frame::{entry, join};
pub use span::image::SpanImage;
pub use span::laws::{
    form_3_keeps_laws, span_file_refusals_are_one, span_refusals_are_one, typings_are_typings,
};
pub use span::memory::{load_rule, loaded, store_rule, stored};
pub use span::narrowing::{opposite, shown};
pub use span::pass::{SpanFrames, span_frames_of};
pub use span::results::{result, whole};
pub use span::rules::{argument_rule, exit_rule, lesser, number_rule, value_rule};
pub use span::verification::span_verify;
pub use span::ways::{SpanLeaving, transfer};
pub use verification::{verify, verify_form};
pub use writer::{any_file, file, span_file};
