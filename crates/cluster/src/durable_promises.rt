//! What is promised of durable nodes.

ghost use Rattle.cluster.specs.DurablePromises.{AllDurableKeep, AlwaysInOrder, CheckpointsStay, DurableKeep};

/// Whatever anyone has from a durable node, the messages that its durable checkpoint covers send
/// it.
pub fn durable_keep()
    ensures { DurableKeep }
{}

/// A message that a checkpoint covers stays covered for good.
pub fn checkpoints_stay()
    ensures { CheckpointsStay }
{}

/// If all nodes are durable: no orphan, and each output once.
pub fn all_durable_keep()
    ensures { AllDurableKeep }
{}

/// Whatever fails, and also if no node is durable: a node has received, and the gateway has shown,
/// the messages 1, 2 and so on of each sender, in order and without a gap.
pub fn always_in_order()
    ensures { AlwaysInOrder }
{}
