//! Laws of all frames, and of each step that a frame admits.

ghost use Rattle.spans.specs.Laws.{IsClosed, IsEntered, IsLeastJoin, IsMonotone, IsOrder, IsPreserved};

/// Frames are ordered by what they say.
pub fn frames_are_ordered()
    ensures { IsOrder }
{}

/// The join of two frames says all that both say.
pub fn joins_are_least()
    ensures { IsLeastJoin }
{}

/// The frames that leave a frame are frames: each kind in them has a value.
pub fn frames_stay_frames()
    ensures { IsClosed }
{}

/// The local rules are monotone: a frame that says more breaks no more rules, and on each way a frame leaves that says
/// more, or none.
pub fn rules_are_monotone()
    ensures { IsMonotone }
{}

/// A step is no fault if its configuration fits a frame under which the instruction breaks no rule. The next
/// configuration fits the frame that leaves on the way that the step takes.
pub fn steps_fit()
    ensures { IsPreserved }
{}

/// The configuration at the entry fits the frame of the entry.
pub fn calls_fit()
    ensures { IsEntered }
{}
