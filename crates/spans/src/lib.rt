//! What is known of registers and of the stack's words in form 3 of images, why a step from what fits it is no fault, and
//! what a call of form 3 does in eleven words and one array.
//!
//! A number is known to lie between two others, and a place to have one of the distances between two
//! others from its region's first byte; each of the stack's 64 words has such a kind too. So a handler
//! may add a checked index to a place, and keep a place in a word of the stack. `specs/Span` says where
//! the results of operations lie, `specs/Narrowing` what a conditional jump shows of its numbers,
//! `specs/Frame` what is known at a slot and its order, `specs/Access` and `specs/Ways` what an
//! instruction asks of it and leaves. The configurations of a call and its steps know of no frame:
//! `specs/Configuration`, `specs/Memory` and `specs/Step`.
//!
//! In code there are the types of kinds and frames alone; `verifier` has their join and the rules,
//! and goes through a handler by them. [`Cells`] is a frame as an array. The functions without a body are
//! there for their laws: [`rules_are_monotone`] and the laws of order and join make the least typing
//! decide; [`steps_fit`] and [`calls_fit`] say that code with a typing never comes to a fault. No law says
//! that the rules refuse no more than they have to.
//!
//! A call in words and one array (run by `interp`): the array has the message and
//! zeros after it, the state, and the stack (`specs/Concrete`). A place is its address there, modulo
//! 2 ^ 64 if it lies outside of its region, and a place in a word of the stack is its address in eight
//! bytes (`specs/Shows`), so no operation has to know what is a place. Code of which there is a typing
//! (`specs/Typing`) makes no access outside of the array and no store into the message
//! ([`accesses_stay_within`]), so its operations need no test; and each of its steps does what the step of
//! the configurations does ([`steps_are_shown`]).
//!
//! ```
//! // in this frame r3 is a number from 1 to 9, and all else as before
//! let shown = cells.with(r3, Kind::Num(Span { lo: 1, hi: 9 }));
//! assert!(rt; shown.kind(r3) == Kind::Num(Span { lo: 1, hi: 9 }));
//! ```
#![tactic(auto)]

mod call_laws;
mod cells;
mod kind;
mod laws;
mod span;

pub use call_laws::{
    accesses_stay_within, lists_are_arrays, spilled_place_is_typed, steps_are_shown,
    typed_code_goes_forward,
};
pub use cells::Cells;
pub use kind::{Reach, SpanKind};
pub use laws::{
    calls_fit, frames_are_ordered, frames_stay_frames, joins_are_least, rules_are_monotone,
    steps_fit,
};
pub use span::Span;
