//! Listings of image files for writers of handlers.
//!
//! [`explain_file`] writes the code of an image file of any form, slot by slot. Under each
//! instruction that a path reaches, it says what is known of the registers that the instruction
//! reads. In form 3 it also says so of the stack's word that the instruction loads, or in which it
//! keeps a place. If the verifier refuses the code, the slot that it names has the broken rule,
//! what breaks it, and what to do about that. In forms 1 and 2 a register that is not set there has
//! the reason.
//! [`explain`] does the same for forms 1 and 2 only.
//!
//! The text is the listing of the verifier's frames and verdict for the file's code: those of
//! `verifier::frames_of` for forms 1 and 2, and of `verifier::span_frames_of` for form 3. So a file
//! is listed as refused by a rule at a slot exactly if it is refused so when it is loaded. What the
//! listing says of a register or a word is what the least typing says; for refused code, up to the
//! slot that is named. A reason why a register isn't set is given only if it holds
//! (`specs/Why.antt`).
//!
//! [`page_of`] gives the page of a rule: what it means, C that breaks it, and how to mend that
//! (`specs/RulePage.antt`). That a page describes the verifier rightly is not proved.
//!
//! ```text
//! let text = explain_file(alloc, &bytes)?;
//! // form 1, 8 bytes of state
//! // 0: ldxdw r3, [r1+0]
//! //     r1 message+0 of 64
//! // ..
//! // accepted 6 instructions
//! ```
#![tactic(auto)]

mod argument;
mod cause;
mod flaw;
mod kinds;
mod listing;
mod notes;
mod reads;
mod rule_page;
mod rule_text;
mod sentence;
mod study;
mod view;
mod why;

pub use listing::{explain, explain_file};
pub use rule_page::page_of;
