//! What holds of the calls that hosts make.

ghost use Rattle.node_laws.specs.HostLaws.{HostedAgree, HostedAlone, HostedBack, HostedBackAlone, HostedEvents, HostedInOrder, HostedKeep, HostedLast};
ghost use Rattle.node_laws.specs.HostLaws.{HostedRecovers, HostedRecoversAlone, HostedRun, HostedRunAlone, HostedStayOut, HostedStays, HostedWithoutGap};
ghost use Rattle.node_laws.specs.Losses.{LossIsDropped};
ghost use Rattle.node_laws.specs.Worked.{HostsCanCall};
ghost use Rattle.node_laws.specs.WorkedBeside.{HostsComeBackBeside};
ghost use Rattle.node_laws.specs.WorkedOverlap.{HostsMeet};

/// Calls of hosts on their processes, as the contracts of the functions say, and of the gateway,
/// from their opening on, are a run of a cluster, if at the end of each call all processes that are
/// alive are exact. The calls may be in any order, and packets may come late, twice or never. Each
/// process may be killed at any moment and revived from its stored bytes, and the gateway from its
/// store. One that is suspended may be resumed once, if it isn't revived. So no message of it is an
/// orphan, each output is shown once, each message is received once, and what is stored of a
/// process is what its checkpoint covers.
pub fn hosted_run()
    ensures { HostedRun }
{}

/// If a process is killed only while all others are up, all that are alive are exact, whatever
/// packets come late or twice. So the laws of exact processes need no such premise then.
pub fn hosted_alone()
    ensures { HostedAlone }
{}

/// If processes fail one at a time, the calls are a run of a cluster.
pub fn hosted_run_alone()
    ensures { HostedRunAlone }
{}

/// A process that is up at two moments has at the second all that was acknowledged without a gap at
/// the first, and the state of each moment is the one after its messages.
pub fn hosted_back()
    ensures { HostedBack }
{}

/// So it has if processes fail one at a time.
pub fn hosted_back_alone()
    ensures { HostedBackAlone }
{}

/// A call before which a process collects, and after which it doesn't: it had received what it then
/// keeps, and all that was acknowledged without a gap is among that. These messages stay its first,
/// and when it is up with no more, its state is the one that it had after them.
pub fn hosted_recovers()
    ensures { HostedRecovers }
{}

/// So it recovers if processes fail one at a time.
pub fn hosted_recovers_alone()
    ensures { HostedRecoversAlone }
{}

/// Whatever fails, and whichever recoveries meet, the calls are a run of the whole rules, of a cluster
/// of which these processes are durable, and at their end all agree with it.
pub fn hosted_events()
    ensures { HostedEvents }
{}

/// Whatever fails, all processes at once too, and whichever recoveries meet: what is stored of a
/// process, durable or not, is its state after some messages, and what they send. These messages
/// only become more, and a process that is up has at least these.
pub fn hosted_stays()
    ensures { HostedStays }
{}

/// Whatever fails, the messages that are stored of a durable process send all that it ever gave,
/// each by its SSN. So it takes nothing back.
pub fn hosted_last()
    ensures { HostedLast }
{}

/// Whatever fails, the messages that are stored of a durable process send all that anyone has from
/// it: what another process received, stored or in memory, in order and without a gap; all that it
/// ever gave; and each of its outputs that the gateway ever gave. So nothing from it is an orphan.
pub fn hosted_keep()
    ensures { HostedKeep }
{}

/// Whatever fails, the gateway in each of its lives gives the outputs of a process in order, each
/// SSN one more than the last: from SSN 1 on in its first life, and in a later one from at most one
/// after what it had given before.
pub fn hosted_in_order()
    ensures { HostedInOrder }
{}

/// The gateway leaves no output out.
pub fn hosted_without_gap()
    ensures { HostedWithoutGap }
{}

/// The gateway never gives an output again once it has stored that it gave it.
pub fn hosted_stay_out()
    ensures { HostedStayOut }
{}

/// The outputs of a durable process that it gives again are the same as before.
pub fn hosted_agree()
    ensures { HostedAgree }
{}

/// A node that is up, and the gateway too, drops a packet that says that all is lost.
pub fn loss_is_dropped()
    ensures { LossIsDropped }
{}

/// A worked list: the only process of a cluster has a handler whose state is the first byte of the
/// last message. It receives three messages, its checkpoint is stored after the first, it is
/// suspended then and resumed, and it is killed when two are acknowledged. It is revived from its
/// checkpoint, replays two that the gateway tells it, and is up with all three and the state that it
/// had. It fails alone, and stays exact. This holds for each image of that handler, and there is one
/// whose code is typable.
pub fn hosts_can_call()
    ensures { HostsCanCall }
{}

/// A worked list: one of two processes is killed while the other is up, comes back from the bytes
/// of its opening, is told by the other and the gateway what they have, recovers, and is up. It
/// fails alone.
pub fn hosts_come_back_beside()
    ensures { HostsComeBackBeside }
{}

/// A worked list: two durable processes are killed at once, come back as durable ones, and their
/// recoveries meet, so one of them isn't exact.
pub fn hosts_meet()
    ensures { HostsMeet }
{}
