//! The functions for C. Code 0 means done, any other code is the number of a refusal; the contracts
//! say what that means for file, state and buffers.

ghost use Rattle.c_runs.specs.CallRecord.{Reports};
ghost use Rattle.c_runs.specs.Calls.{caller};
ghost use Rattle.c_runs.specs.Exports.{Answers, AnswersCall, AnswersCalls, IsChecked, IsUnchecked};

use c_handles::code;
use c_runs::{call_record, calls};
use helpers::Who;
use std::alloc::Global;

/// Checks an image file. If it is refused, writes the rule and the slot into `out`, which has at
/// least 16 bytes.
#[unsafe(no_mangle)]
pub extern "C" fn sblog_check(alloc: Global, file: &[u8], out: &mut [u8]) -> u32
    ensures { Answers result (IsChecked file.now out.old out.new) (IsUnchecked file.now out.old out.new) }
{
    code(calls::check(alloc, file, out))
}

/// Loads an image file and calls its handler with one message of 64 bytes. Changes the state in
/// place, and writes the report into `out`, which has at least 1,064 bytes.
#[unsafe(no_mangle)]
pub extern "C" fn sblog_call(
    alloc: Global,
    file: &[u8],
    state: &mut [u8],
    message: &[u8],
    me: u8,
    from: u8,
    count: u8,
    out: &mut [u8],
) -> u32
    ensures { AnswersCall result file.now (caller me from count) state.old message.now state.new out.old out.new }
{
    code(calls::call(alloc, file, state, message, Who { me, from, count }, out))
}

/// Loads an image file and calls its handler with each message of 64 bytes in turn. Changes the
/// state in place, and writes the reports into `out`, one after another. `out` has at least 1,064
/// bytes for each message.
#[unsafe(no_mangle)]
pub extern "C" fn sblog_call_many(
    alloc: Global,
    file: &[u8],
    state: &mut [u8],
    messages: &[u8],
    me: u8,
    from: u8,
    count: u8,
    out: &mut [u8],
) -> u32
    ensures { AnswersCalls result file.now (caller me from count) state.old messages.now state.new out.old out.new }
{
    code(calls::call_many(alloc, file, state, messages, Who { me, from, count }, out))
}

/// Writes the report of a call of machine code from its r0 and the record that it left. `out` has
/// at least 1,064 bytes.
#[unsafe(no_mangle)]
pub extern "C" fn sblog_native_report(r0: u64, bytes: &[u8], out: &mut [u8]) -> u32
    ensures { Reports result r0 bytes.now out.old out.new }
{
    call_record::report(r0, bytes, out)
}
