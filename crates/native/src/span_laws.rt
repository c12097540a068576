//! Laws of the code: there is one for each image, and it keeps the caller's registers.

ghost use Rattle.std.specs.Prelude.{◌≡◌};
ghost use Rattle.native.specs.SpanCallers.{ReturnsToC};
ghost use Rattle.native.specs.HandlerCode.{IsOneInAnyForm};
ghost use Rattle.native.specs.SpanWritten.{IsOneCode};

use crate::handler_code::Code;

/// Images with the same instructions and the same length of the state have the same machine code, byte for byte.
pub fn span_code_is_one()
    ensures { IsOneCode }
{}

/// The same for images of any form.
pub fn code_is_one_in_any_form()
    ensures { IsOneInAnyForm }
{}

/// Two codes of one image have the same bytes.
pub fn codes_are_one<'h, 'k>(one: &Code<'h>, other: &Code<'k>)
    ensures { one.now.image ≡ other.now.image → one.now.bytes ≡ other.now.bytes }
{
    // For the proof: the contracts say what both bytes are.
    let _mine = one.bytes();
    let _its = other.bytes();
}

/// After a call of form 3 the registers that belong to the caller are unchanged.
pub fn span_callers_registers_are_kept()
    ensures { ReturnsToC }
{}
