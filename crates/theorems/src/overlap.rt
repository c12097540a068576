//! Why failures have to come one at a time.

ghost use Rattle.theorems.specs.WorkedOverlap.{OverlappingFailuresLose};

/// If failures overlap, a process can lose what was acknowledged, and an output that was shown can
/// become an orphan.
pub fn overlapping_failures_lose()
    ensures { OverlappingFailuresLose }
{}
