//! Laws of every step and every call of typable code.

ghost use Rattle.interp.specs.Laws.{IsEntered, IsExited, IsFound, IsOneCall, IsPreserved, IsSpanExited};
ghost use Rattle.interp.specs.Laws.{IsWordEntered, IsWordKept};
ghost use Rattle.interp.specs.WorkedCauses.{AreAccessFaults, AreEndFaults, AreHelperFaults, AreRegisterFaults};
ghost use Rattle.interp.specs.WorkedCauses.{AreSlotFaults, AreSpanFaults};

/// A step from a configuration that fits its frame is no fault: it exits, or goes to a later slot, whose frame the next
/// configuration fits, with the same message.
pub fn steps_fit()
    ensures { IsPreserved }
{}

/// The configuration at the entry fits the first slot's frame.
pub fn calls_fit()
    ensures { IsEntered }
{}

/// A call of typable code exits within its number of instructions, also in form 3.
pub fn calls_exit()
    ensures flat { IsExited }
    ensures span { IsSpanExited }
{}

/// A call leaves only one state, one list of effects and one r0, in one number of steps.
pub fn calls_are_one()
    ensures { IsOneCall }
{}

/// The result of a call is found within as many steps as there are slots.
pub fn calls_are_found()
    ensures { IsFound }
{}

/// Registers hold numbers below 2 ^ 64, and memory bytes, at all times.
pub fn numbers_stay_words()
    ensures first { IsWordEntered }
    ensures next { IsWordKept }
{}

/// Each test for a fault is made, and tells its own cause: worked rows, which the compiler checks by computation.
pub fn faults_have_causes()
    ensures registers { AreRegisterFaults }
    ensures accesses { AreAccessFaults }
    ensures helpers { AreHelperFaults }
    ensures ends { AreEndFaults }
    ensures slots { AreSlotFaults }
    ensures spans { AreSpanFaults }
{}
