//! The exports are calls of hosts.

ghost use Rattle.c_cluster.specs.Nodes.HostCalls.{ExportsAreCalls};

/// Each export that made a call made the call of a host in crate `node_laws`, and each one for a
/// bundle made such calls. A process that comes back or is resumed with the image file with which it
/// was opened has the handler that it had, whatever the image's form.
pub fn exports_are_calls()
    ensures { ExportsAreCalls }
{}
