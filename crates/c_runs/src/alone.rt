//! One call of a handler of any form.

ghost use Rattle.std.specs.Prelude.{◌≡◌, ◌≤◌, ◌+◌, length};
ghost use Rattle.interp.specs.Image.{the_image};
ghost use Rattle.c_runs.specs.Calls.{IsReported, IsSeat};

use crate::calls::MESSAGE;
use crate::report::{REPORT_LIMIT, put_report};
use helpers::{Effects, Payload, Who};
use interp::Handler;

/// Calls the handler with one message, and writes its report at `at`. Answers the place after it.
/// Drops what an earlier call emitted.
pub fn call_alone(
    handler: &Handler,
    effects: &mut Effects,
    state: &mut [u8],
    message: &[u8],
    who: Who,
    out: &mut [u8],
    at: usize,
) -> usize
    requires seat { IsSeat who }
    requires state { length state.old ≡ (the_image handler.now).len }
    requires message { length message.now ≡ MESSAGE }
    requires room { at + REPORT_LIMIT ≤ length out.old }
    ensures { IsReported (the_image handler.now) who state.old message.now state.new out.old at out.new result }
{
    let payload = Payload::from_slice(message);
    effects.clear();
    let end = handler.call(state, &payload, who, effects);
    put_report(out, at, end, effects)
}
