//! What holds of processes that restore RSNs, together with others.

ghost use Rattle.recovery.specs.RestorationBeside.{ReplayedStands, RestoringStands};
ghost use Rattle.recovery.specs.Fits.{PagesFit};

/// A process that has finished its replay still agrees with the cluster after the events of another.
pub fn replayed_stands()
    ensures { ReplayedStands }
{}

/// So does one that restores its RSNs.
pub fn restoring_stands()
    ensures { RestoringStands }
{}

/// A page that a peer sent to a process that waits for it never tells of more messages than were
/// sent to that peer. So none is dropped for that.
pub fn pages_fit()
    ensures { PagesFit }
{}
