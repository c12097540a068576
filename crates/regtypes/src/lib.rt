//! What is known of a handler's registers in forms 1 and 2, and the local rules of the verifier.
//!
//! A [`Frame`] says of each of the eleven registers that it is not set, holds a number, holds the message's length, or
//! holds one place in the message, the state or the stack. It also says how many bytes the message has at least. An
//! image has one of two forms ([`ImageForm`]): in the first a message has 64 bytes, in the second the handler is told
//! how many. [`transfer`] applies the local rules V3 to V10 of one instruction to a frame. It answers the frames that
//! leave on the instruction's two ways, or the least rule that is broken. [`leq`] orders frames by what they say, and
//! [`join`] keeps what two frames both say, so a pass over the code can join all frames that arrive at an instruction.
//! The rules are monotone: a frame that says more breaks no more of them, and on each way a frame leaves that says
//! more. [`leads`] applies V1 and V2, which need no frame.
//!
//! ```
//! let entry = Frame::entry(ImageForm::Sbi1);
//! let load = Insn::Load { size: Size::Double, dst: r3, src: r1, offset: 0 };
//! // of eight bytes of the message, whose place is in r1: r3 is a number then
//! let left = transfer(ImageForm::Sbi1, &load, &entry, 0);
//! ```
#![tactic(auto)]

mod frame;
mod image_form;
mod kinds;
mod laws;
mod local;
mod rule;
mod targets;
mod ways;

pub use frame::{Frame, Kind, Region, join, leq};
pub use image_form::ImageForm;
pub use kinds::region_start;
pub use laws::rules_are_monotone;
pub use rule::Rule;
pub use targets::leads;
pub use ways::{Leaving, transfer};
