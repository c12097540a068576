//! Images for programs in C and Rust: a static library that checks an image file and calls its
//! handler.
//!
//! [`exports`] and [`handles`] have the functions for C: numbers and slices of bytes go in, a code
//! comes out, and what a call emits is written into a buffer of the caller. Each unfit argument has
//! its own code, except a handle that was closed, which no function can tell. docs/EMBEDDING.md
//! describes the functions and the bytes.
//!
//! Code 0 means that the file is that of an image, that its handler was called, and that state and
//! buffer hold what the call left, by the definition of a handler call. Any other code says which
//! fault there is, and that state and buffer are unchanged; only `sblog_check` writes the rule and
//! the slot of a refusal. A handle stands for the image of the file that was opened, and owns its
//! memory until it is closed.
//!
//! ```c
//! uint8_t state[8] = {0}, message[64] = {5}, report[SBLOG_REPORT_LIMIT];
//! uint32_t code = sblog_call(adder, 56, state, 8, message, 64, 1, 0, 1, report, sizeof report);
//! /* code is 0, and the state is 5 */
//! sblog_handle *handle = NULL;
//! code = sblog_open(adder, 56, &handle);
//! code = sblog_run(handle, state, 8, message, 64, 1, 0, 1, report, sizeof report);
//! /* code is 0, and the state is 10 */
//! sblog_close(handle);
//! ```
#![tactic(auto)]

mod exports;
mod handles;
mod lifetime;
