//! The whole rules, with recoveries that meet, and what it means that all nodes stayed exact.

ghost use Rattle.cluster.specs.Exact.{ExactRunsDontMeet, ExactRunsKeep, StepsAreEvents};

/// A run in which every node was always exact is a run in which no recoveries meet, of nodes that
/// need not be durable.
pub fn exact_runs_dont_meet()
    ensures { ExactRunsDontMeet }
{}

/// So it keeps the promises of such runs: no orphan, each output once, and each message received
/// once.
pub fn exact_runs_keep()
    ensures { ExactRunsKeep }
{}

/// Each run of the whole rules is a list of events, so it keeps their promises whatever fails.
pub fn steps_are_events()
    ensures { StepsAreEvents }
{}
