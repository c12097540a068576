//! The limits that several crates share. The table of docs/FORMATS.md, "Limits", has the same numbers.
//!
//! Code and contracts cite these names. A limit that only one crate uses is defined in that crate.
//!
//! ```
//! // a process has a number from 1 to limits::PROCESSES, and 0 is the outside, so a number of
//! // either is below limits::PARTIES
//! ```
#![tactic(auto)]

/// Processes of a session.
pub const PROCESSES: usize = 15;

/// Senders and receivers: the outside, which is number 0, and the processes.
pub const PARTIES: usize = 16;

/// Bytes of a message's payload.
pub const PAYLOAD_BYTES: usize = 256;

/// Bytes of a message that a handler of form 1 sees, and of one that helpers 1 and 2 take.
pub const FORM_1_BYTES: usize = 64;

/// Bytes of a process's state.
pub const STATE_BYTES: usize = 1024;

/// Bytes of the stack of one handler call.
pub const STACK_BYTES: usize = 512;

/// Bytes of the memory of one handler call: its message, its state and its stack.
pub const MEMORY_BYTES: usize = 1792;

/// Registers of a handler, r0 to r10.
pub const REGISTERS: usize = 11;

/// Slots of an image, of eight bytes each.
pub const SLOTS: usize = 1024;

/// Messages that one handler call may send, and outputs that it may give.
pub const EFFECTS: usize = 8;

/// Entries of a journal, counting one for each open job.
pub const ENTRIES: usize = 65_536;

/// Messages that a process receives: each is an entry of the journal.
pub const RECEIPTS: usize = 65_536;

/// Messages from one process to one destination: 8 for each of its receipts.
pub const SENDS: usize = 524_288;

/// Packets on the wire, counting one for each open job of an arrived message. Their keys are below this number.
pub const PACKETS: usize = 4096;

/// Workers of a run.
pub const WORKERS: usize = 16;

/// Seats of a session: one for nobody, worker 0, and one for each worker.
pub const SEATS: usize = 17;

// How the limits depend on one another.
const _: () = prove!(PARTIES == PROCESSES + 1);

const _: () = prove!(MEMORY_BYTES == PAYLOAD_BYTES + STATE_BYTES + STACK_BYTES);

const _: () = prove!(SEATS == WORKERS + 1);

const _: () = prove!(RECEIPTS == ENTRIES);

const _: () = prove!(SENDS == EFFECTS * RECEIPTS);
