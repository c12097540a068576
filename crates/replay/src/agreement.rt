//! What is collected from the logs is the plan of the protocol's definitions.

ghost use Rattle.replay.specs.Agreement.{PlanIsGathered, SameIsFound};

/// If logs have the entries that the definitions give them, the same message is found under each
/// number.
pub fn same_is_found()
    ensures { SameIsFound }
{}

/// A plan of what such logs hold is the plan of the definitions.
pub fn plan_is_gathered()
    ensures { PlanIsGathered }
{}
