//! Calls of images for `c_images`: checks, calls, reports, records of machine code, and a handler
//! that is kept from call to call.
//!
//! A call takes a file or an [`OpenHandler`](handler::OpenHandler), numbers and slices of bytes. It
//! writes state and report, or says why not: then both are unchanged. `c_images` exports a function
//! for each, and opens and closes handles. Its wrong body has all of that crate proved once more,
//! so what none is tried on is here.
//!
//! ```rust
//! calls::call(alloc, &file, &mut state, &message, who, &mut report)?;
//! let code = runs::run(&mut handler, &mut state, &messages, 1, 0, 1, &mut reports);
//! ```
#![tactic(auto)]

mod alone;
mod array;
mod bytes;
pub mod call_record;
pub mod calls;
pub mod handler;
pub mod machine_code;
mod message;
pub mod refusal;
pub mod report;
pub mod runs;
mod span_array;
