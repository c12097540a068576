//! Nodes come back.

ghost use Rattle.cluster.specs.Return.{AllComeBack, LoneComesBack};

/// If all nodes except one are up, that one can come back without a further death, whatever its
/// stage.
pub fn lone_comes_back()
    ensures { LoneComesBack }
{}

/// By the whole rules all nodes come back once no node dies any more: from any cluster that a run
/// led to, whatever failed, the nodes can go on, without a death or an input, until all are up.
pub fn all_come_back()
    ensures { AllComeBack }
{}
