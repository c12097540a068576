//! Worked runs about what a node keeps in memory.

ghost use Rattle.cluster.specs.WorkedSizes.{MemoryIsFilled, SavedMayBeLost, ToldAgain};

/// A message is in a log until its sender is told that the receiver's checkpoint covers it. A
/// receipt is kept until a checkpoint covers it.
pub fn memory_is_filled()
    ensures { MemoryIsFilled }
{}

/// A node that dies after it was told has the log entry again during its recovery, and no longer
/// when it is up.
pub fn told_again()
    ensures { ToldAgain }
{}

/// If a Saved is lost, the one of the next checkpoint makes up for it.
pub fn saved_may_be_lost()
    ensures { SavedMayBeLost }
{}
