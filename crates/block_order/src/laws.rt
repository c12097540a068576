//! Why code in another order does the same, and so does the code of its file.

ghost use Rattle.block_order.specs.Laws.{AreMovedRunsKept, AreRunsKept};

/// A call of code with its blocks in another order ends as a call of the code does, and the other way round: with the
/// same r0, registers and memory, after the same requests of helpers.
pub fn moved_runs_are_kept()
    ensures { AreMovedRunsKept }
{}

/// The same for a call of the code that is written to a file.
pub fn runs_are_kept()
    ensures { AreRunsKept }
{}
