//! Runs in which recoveries meet, computed from the rules.

ghost use Rattle.cluster.specs.WorkedDurable.{DurableNodesKeep, LossIsTold, MeetingFailuresLose, OldAskIsNoLoss};

/// If no node is durable, an acknowledged message can be lost, and an output that was shown can
/// become an orphan.
pub fn meeting_failures_lose()
    ensures { MeetingFailuresLose }
{}

/// The node that lost it was told so, and is no longer exact once it took that answer.
pub fn loss_is_told()
    ensures { LossIsTold }
{}

/// Durable nodes still have the cause of what was shown.
pub fn durable_nodes_keep()
    ensures { DurableNodesKeep }
{}

/// An Ask that arrives again at a node that collects makes no node less exact: its sender may be
/// up.
pub fn old_ask_is_no_loss()
    ensures { OldAskIsNoLoss }
{}
