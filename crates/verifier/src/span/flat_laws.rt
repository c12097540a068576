//! What holds of frames, instructions and typings of forms 1 and 2, read as those of form 3.

ghost use Rattle.verifier.specs.Span.FlatFiles.{AreFilesSubsumed};
ghost use Rattle.verifier.specs.Span.FlatLaws.{AreRulesSubsumed, AreTypingsSubsumed, IsOrderKept};

/// If one frame says more than another, it also does so when both are read as frames of form 3.
pub fn order_is_kept()
    ensures { IsOrderKept }
{}

/// An instruction that breaks no rule of form 1 or 2 under a frame breaks none of form 3 under that frame. On each way
/// no frame of form 3 leaves, or one that says no less.
pub fn rules_are_subsumed()
    ensures { AreRulesSubsumed }
{}

/// A typing of form 1 or 2 is one of form 3, of the same code with a state of the same length. The
/// least typing of form 3 says no less.
pub fn typings_are_subsumed()
    ensures { AreTypingsSubsumed }
{}

/// A file of typable code of any form is, with a 3 as its fourth byte, a file of form 3 whose code is typable.
pub fn files_are_subsumed()
    ensures { AreFilesSubsumed }
{}
