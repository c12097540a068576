//! Laws of calls, of their records, and of the code.

ghost use Rattle.native.specs.Worked.{CanBeCalled, IsLaidOut, ReturnsToC, TellsOne};
ghost use Rattle.native.specs.Written.{IsOneCode};

/// Any call by the C calling convention meets what the code of `compile` requires.
pub fn calls_can_be_made()
    ensures { CanBeCalled }
{}

/// After the call the registers that belong to the caller are unchanged.
pub fn callers_registers_are_kept()
    ensures { ReturnsToC }
{}

/// A record is laid out as C lays out its struct.
pub fn records_are_laid_out()
    ensures { IsLaidOut }
{}

/// A record tells who was called and what was emitted: different calls or effects have different records.
pub fn records_tell_one_thing()
    ensures { TellsOne }
{}

/// Images of one form with the same instructions and the same length of the state have the same machine code, byte for
/// byte.
pub fn code_is_one()
    ensures { IsOneCode }
{}
