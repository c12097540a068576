//! What holds of several nodes together.

ghost use Rattle.node.specs.Beside.{OthersStand};
ghost use Rattle.node.specs.Kept.{KeptStays};
ghost use Rattle.node.specs.Suspension.{WokenStands};

/// A node still agrees with the cluster after the events of another.
pub fn others_stand()
    ensures { OthersStand }
{}

/// What is kept of a process is what its checkpoint covers until a newer one is durable, whatever
/// happens, also if it dies.
pub fn kept_stays()
    ensures { KeptStays }
{}

/// A node that was suspended and is resumed, whatever limits it is given, agrees with each cluster
/// with which it agreed, if it is durable by its limits where it is so there. So a resume is no act
/// of the cluster, and needs no answer of a peer.
pub fn woken_stands()
    ensures { WokenStands }
{}
