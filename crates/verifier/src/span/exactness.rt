//! The law of the rules.

ghost use Rattle.verifier.specs.Span.Exactness.{IsExact};

/// Frames leave exactly if no rule is broken, and they are those of the definition of form 3.
pub fn rules_are_exact()
    ensures { IsExact }
{}
