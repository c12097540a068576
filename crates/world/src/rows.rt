//! Worked lists of calls, which the compiler checks by computation.

ghost use Rattle.world.specs.Worked.{FirstRunIsReleased, LostJobIsLegal, LostNumberEndsTheRun, LostNumberIsToldAgain, OldAcknowledgementIsStale, OldNumberIsStale, OneMessageIsLegal, RelayedMessageIsKept, ReplayedMessageIsKept, SavedMessageIsKept, TrimmedLogComesBack, TwoCrashesAreLegal};

/// A journal of one message, from its feed to the committed state, is legal.
pub fn one_message_is_legal()
    ensures { OneMessageIsLegal }
{}

/// Two processes crash at once and both come back alone: that is legal, and not a single failure.
pub fn two_crashes_are_legal()
    ensures { TwoCrashesAreLegal }
{}

/// A crash while a job is open is legal, and the job's result is refused.
pub fn lost_job_is_legal()
    ensures { LostJobIsLegal }
{}

/// A message that a checkpoint covers outlives a crash, though its sender has dropped it.
pub fn saved_message_is_kept()
    ensures { SavedMessageIsKept }
{}

/// A message whose number is acknowledged outlives a crash, and is replayed.
pub fn replayed_message_is_kept()
    ensures { ReplayedMessageIsKept }
{}

/// A process that got its numbers back from a receiver can give them back when the receiver
/// crashes.
pub fn relayed_message_is_kept()
    ensures { RelayedMessageIsKept }
{}

/// What the handler sent for a message is released when that message and all before it are
/// acknowledged. It waits for no later message.
pub fn first_run_is_released()
    ensures { FirstRunIsReleased }
{}

/// A number of an earlier incarnation is stale.
pub fn old_number_is_stale()
    ensures { OldNumberIsStale }
{}

/// An acknowledgement of an earlier incarnation is stale, though a message with its number was
/// received since.
pub fn old_acknowledgement_is_stale()
    ensures { OldAcknowledgementIsStale }
{}

/// A recovery ends before the first number that no log has.
pub fn lost_number_ends_the_run()
    ensures { LostNumberEndsTheRun }
{}

/// A message whose number was lost is sent again, and its number is told again. It is received
/// once, and its output is shown once.
pub fn lost_number_is_told_again()
    ensures { LostNumberIsToldAgain }
{}

/// A crash takes a log back to its checkpoint: entries that were dropped before it stay dropped,
/// and entries that were dropped after it are there again.
pub fn trimmed_log_comes_back()
    ensures { TrimmedLogComesBack }
{}
