//! How much a process keeps.

ghost use Rattle.process.specs.Holds.{EntriesAreGiven, CoveredAreDropped, SavedDrops};

/// A process keeps more messages only if its handler runs: then as many more as it sends.
pub fn entries_are_given()
    ensures { EntriesAreGiven }
{}

/// Of the messages that a receiver says are covered for good, the log for it keeps none.
pub fn covered_are_dropped()
    ensures { CoveredAreDropped }
{}

/// When the checkpoint for which a process waits is durable, it keeps no receipt, and waits for no
/// acknowledgement.
pub fn saved_drops()
    ensures { SavedDrops }
{}
