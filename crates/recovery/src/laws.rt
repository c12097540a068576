//! What holds of recovering processes together with others.

ghost use Rattle.recovery.specs.Beside.{OthersStand, ReplayingStands, ComesBackAgain};
ghost use Rattle.recovery.specs.Kept.{WrittenRevives, KeptRevives};
ghost use Rattle.recovery.specs.Moment.{KeepsWhatItHad};
ghost use Rattle.recovery.specs.Resumption.{IsOneNode};
ghost use Rattle.recovery.specs.StandsAtReplay.{OnlyReplays};

/// A process that collects still agrees with the cluster after the events of another.
pub fn others_stand()
    ensures { OthersStand }
{}

/// So does a process that replays.
pub fn replaying_stands()
    ensures { ReplayingStands }
{}

/// While a process has messages left to replay, it can only replay the next one, send a Resume, or
/// die: the rules let it take no packet.
pub fn only_replays()
    ensures { OnlyReplays }
{}

/// A process can come back from what a node wrote while it waits for its checkpoint, if that is
/// durable and the node dies.
pub fn written_revives()
    ensures { WrittenRevives }
{}

/// A process can come back from its kept state whenever it dies, until a newer checkpoint is
/// durable.
pub fn kept_revives()
    ensures { KeptRevives }
{}

/// A process with kept state may die, whatever it does, and come back from that state again.
pub fn comes_back_again()
    ensures { ComesBackAgain }
{}

/// In each run, a process that recovers keeps exactly the messages that it had received after its
/// checkpoint, up to the first that no peer has. All that was acknowledged without a gap is among
/// them.
pub fn keeps_what_it_had()
    ensures { KeepsWhatItHad }
{}

/// Bytes are those of one suspended node at most, but for its limits and the packets that waited.
pub fn one_node()
    ensures { IsOneNode }
{}
