//! Sessions for programs in C and Rust: a static library over `sessions`.
//!
//! [`exports`] has the functions that C calls. A program holds a session by a handle: two words of
//! its own, which it sets to zeros. That is a closed handle. `sblog_session_open` opens it, the
//! other functions make calls and read, and `sblog_session_close` frees all memory. Code 0 says
//! that a call was made or something was read; 1 to 15 is the number of the session's refusal;
//! greater ones say what is wrong with the arguments. docs/EMBEDDING.md describes the functions and
//! codes.
//!
//! Each function that makes a call of the session guarantees what that call does, word for word.
//! Each that reads gives what the session's contract says. Any code but 0 leaves the session as it
//! was, with two exceptions: a drive that ran out of memory or of journal, and an arrival that ran
//! out of memory for the result of its job. A record tells its whole entry ([`one_entry`]).
//!
//! ```c
//! sblog_session session = {0};
//! uint32_t ssn, calls;
//! uint32_t code = sblog_session_open(file, file_len, &length, 1, &session);
//! code = sblog_session_input(&session, 1, feed, payload, 8, &ssn);
//! code = sblog_session_drive(&session, 100, &calls);
//! ```
#![tactic(auto)]

mod calls;
mod entry;
mod exports;
mod fault;
mod handle;
mod journal;
mod lifetime;
mod loose;
mod places;
mod queries;
mod schedule;

pub use entry::one_entry;
