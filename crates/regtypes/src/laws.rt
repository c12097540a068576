//! What holds of all frames and instructions.

ghost use Rattle.regtypes.specs.Ways.{IsMonotone};

/// The local rules are monotone: a frame that says more breaks no more rules, and leaves
/// more on each way.
pub fn rules_are_monotone()
    ensures { IsMonotone }
{}
