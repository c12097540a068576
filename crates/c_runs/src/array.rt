//! Calls of form 1, one after another in one array.

ghost use Rattle.std.specs.Prelude.{◌≡◌, ◌≤◌, ◌+◌, ◌*◌, ◌/◌, ◌%◌, length};
ghost use Rattle.regtypes.specs.declared.image_form.ImageForm.TheVariants.{Sbi1};
ghost use Rattle.interp.specs.Flat.{Holds, entry_in, IsSpent};
ghost use Rattle.c_runs.specs.Arrays.{IsReportedIn, flat_image, state_in};
ghost use Rattle.c_runs.specs.Calls.{AreReported};

use crate::bytes::put;
use crate::calls::MESSAGE;
use crate::message::message_at;
use crate::report::{REPORT_LIMIT, put_report};
use helpers::{Effects, Who};
use interp::{call_flat, refill, take};
use verifier::Image;

/// Calls the handler with the message in the array, and writes its report at `at`. Answers the
/// place after it. Drops what an earlier call emitted.
#[inline(always)]
fn call_once(
    image: &Image,
    mem: &mut [u8; 1792],
    who: Who,
    effects: &mut Effects,
    out: &mut [u8],
    at: usize,
) -> usize
    requires form { image.now.form ≡ Sbi1 }
    requires holds { Holds MESSAGE image.now.len (entry_in image.now.form MESSAGE image.now.len mem.old) mem.old }
    requires room { at + REPORT_LIMIT ≤ length out.old }
    ensures reported { IsReportedIn image.now who mem.old mem.new out.old at out.new result }
    ensures spent { IsSpent MESSAGE image.now.len image.now.low mem.new }
{
    // For the proof: the slots are those of the code.
    let _code = image.code();
    effects.clear();
    let end = call_flat(image, mem, MESSAGE, who, effects);
    put_report(out, at, end, effects)
}

/// Writes the state into an array in which no call is under way.
fn lay(image: &Image, mem: &mut [u8; 1792], state: &[u8])
    requires state { length state.now ≡ image.now.len }
    requires spent { IsSpent MESSAGE image.now.len image.now.low mem.old }
    ensures state { state_in image.now mem.new ≡ state.now }
    ensures spent { IsSpent MESSAGE image.now.len image.now.low mem.new }
{
    // For the proof: state and stack lie in the array.
    let _low = image.low();
    let _len = image.state_len();
    put(mem, 256, state);
}

/// Calls the handler with each message in turn, and writes the reports from the front of `out`. The
/// state stays in one array during these calls, and the array is kept for the next ones.
pub fn call_each(
    image: &Image,
    mem: &mut [u8; 1792],
    effects: &mut Effects,
    state: &mut [u8],
    messages: &[u8],
    who: Who,
    out: &mut [u8],
)
    requires form { image.now.form ≡ Sbi1 }
    requires spent { IsSpent MESSAGE image.now.len image.now.low mem.old }
    requires state { length state.old ≡ image.now.len }
    requires whole { length messages.now % MESSAGE ≡ 0 }
    requires room { REPORT_LIMIT * (length messages.now / MESSAGE) ≤ length out.old }
    ensures reported { AreReported (flat_image image.now) who state.old messages.now state.new out.old out.new }
    ensures spent { IsSpent MESSAGE image.now.len image.now.low mem.new }
{
    // For the proof: the state lies in the array.
    let _len = image.state_len();
    lay(image, mem, state);
    let mut end = 0;
    'calls: for i in 0..messages.len() / MESSAGE {
        let message = message_at(messages, MESSAGE * i);
        refill(image, mem, MESSAGE, message);
        end = call_once(image, mem, who, effects, out, end);
    }
    take(mem, state);
}
