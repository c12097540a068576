//! How much a node keeps in memory.

ghost use Rattle.cluster.specs.Memory.{FewWait, LogsWait, ReceiptsAreNew, ToldIsDropped, ToldIsNew};

/// A node keeps receipts only of messages that it received since its last durable checkpoint.
pub fn receipts_are_new()
    ensures { ReceiptsAreNew }
{}

/// A node's log for a receiver has two kinds of messages: those that no durable checkpoint of the
/// receiver covers, and those for which no Saved has told the node so.
pub fn logs_wait()
    ensures { LogsWait }
{}

/// A node that is up has dropped from its log every message that its receiver ever reported as
/// covered for good, also if the node crashed since.
pub fn told_is_dropped()
    ensures { ToldIsDropped }
{}

/// At most a window of RSNs wait for their acknowledgement.
pub fn few_wait()
    ensures { FewWait }
{}

/// A node that collects holds, of what one peer told it, at most as many messages as it took from
/// that peer since its last durable checkpoint.
pub fn told_is_new()
    ensures { ToldIsNew }
{}
