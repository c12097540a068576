//! Calls of form 3, one after another in one array.

ghost use Rattle.std.specs.Prelude.{◌≡◌, ◌≤◌, ◌+◌, ◌*◌, ◌/◌, ◌%◌, length, slice_range};
ghost use Rattle.interp.specs.CallArray.{HoldsEntry, IsLeft, state_in};
ghost use Rattle.c_runs.specs.Arrays.{IsReportedAfter, span_image};
ghost use Rattle.c_runs.specs.Calls.{AreReported, IsSeat};

use crate::calls::MESSAGE;
use crate::message::message_at;
use crate::report::{REPORT_LIMIT, put_report};
use helpers::{Effects, Who};
use interp::{Program, span_call_flat, span_fill, span_refill, span_take};

/// Calls the handler with the message in the array, and writes its report at `at`. Answers the
/// place after it. Drops what an earlier call emitted.
#[inline(always)]
fn call_once(
    program: &Program,
    mem: &mut [u8; 2048],
    who: Who,
    effects: &mut Effects,
    out: &mut [u8],
    at: usize,
) -> usize
    requires seat { IsSeat who }
    requires holds { HoldsEntry program.now.len (slice_range mem.old 0 MESSAGE) (state_in program.now.len mem.old) mem.old }
    requires room { at + REPORT_LIMIT ≤ length out.old }
    ensures reported { IsReportedAfter program.now who mem.old mem.new out.old at out.new result }
    ensures left { IsLeft MESSAGE program.now.len mem.new }
{
    effects.clear();
    let end = span_call_flat(program, mem, MESSAGE, who, effects);
    put_report(out, at, end, effects)
}

/// Calls the handler with each message in turn, and writes the reports from the front of `out`. The
/// state stays in one array during these calls; a call clears only what the one before wrote.
pub fn call_spans(
    program: &Program,
    effects: &mut Effects,
    state: &mut [u8],
    messages: &[u8],
    who: Who,
    out: &mut [u8],
)
    requires seat { IsSeat who }
    requires state { length state.old ≡ program.now.len }
    requires whole { length messages.now % MESSAGE ≡ 0 }
    requires room { REPORT_LIMIT * (length messages.now / MESSAGE) ≤ length out.old }
    ensures { AreReported (span_image program.now) who state.old messages.now state.new out.old out.new }
{
    // For the proof: the state lies in the array.
    let _len = program.state_len();
    let mut mem = [0; 2048];
    span_fill(program, &mut mem, &[], state);
    let mut end = 0;
    'calls: for i in 0..messages.len() / MESSAGE {
        let message = message_at(messages, MESSAGE * i);
        span_refill(program, &mut mem, MESSAGE, message);
        end = call_once(program, &mut mem, who, effects, out, end);
    }
    span_take(&mem, state);
}
