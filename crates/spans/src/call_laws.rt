//! Why words and one array are enough.

ghost use Rattle.spans.specs.CallLaws.{AreAccessesWithin, AreMessagesKept, AreRequestsShown, AreStepsShown};
ghost use Rattle.spans.specs.CallLaws.{IsEntryShown, IsForward};
ghost use Rattle.spans.specs.Slices.{TakesSlice, WritesBytes};
ghost use Rattle.spans.specs.Worked.{IsSpillingTyped};

/// Words and array show the entry. If they show a configuration and its step is no fault, they show the result of the
/// step after theirs, which asks a helper the same. No step of any code writes the message, nor the zeros after it.
pub fn steps_are_shown()
    ensures entry { IsEntryShown }
    ensures step { AreStepsShown }
    ensures requests { AreRequestsShown }
    ensures messages { AreMessagesKept }
{}

/// If a configuration fits a frame under which an instruction breaks no rule, the instruction's access is in the array,
/// and a store is after the message: no test is needed.
pub fn accesses_stay_within()
    ensures { AreAccessesWithin }
{}

/// An instruction of typed code leads to no slot but later ones, so each call ends.
pub fn typed_code_goes_forward()
    ensures { IsForward }
{}

/// An array of bytes is a list: n bytes from a on are a slice, and a word is written over the list byte by byte.
pub fn lists_are_arrays()
    ensures takes { TakesSlice }
    ensures writes { WritesBytes }
{}

/// A handler that keeps a place in a word of the stack has a typing.
pub fn spilled_place_is_typed()
    ensures { IsSpillingTyped }
{}
