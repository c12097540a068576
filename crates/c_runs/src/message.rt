//! Messages, one after another.

ghost use Rattle.std.specs.Prelude.{◌≡◌, ◌≤◌, ◌+◌, length, slice_range};

use crate::calls::MESSAGE;

/// The 64 bytes of the message at `at`.
#[inline(always)]
pub fn message_at(messages: &[u8], at: usize) -> &[u8]
    requires { at + MESSAGE ≤ length messages.now }
    ensures value { result.now ≡ slice_range messages.now at (at + MESSAGE) }
    ensures size { length result.now ≡ MESSAGE }
{
    &messages[at..at + MESSAGE]
}
