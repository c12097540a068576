//! Arrivals of packets, in the order that a program chooses.

ghost use Rattle.std.specs.Prelude.{◌≡◌, MatchResult};
ghost use Rattle.sessions.specs.Service.{KeepsPromises};
ghost use Rattle.c_sessions.specs.Session.{Results};
ghost use Rattle.c_sessions.specs.Schedule.{Arrives, IsReceived, IsUnarrived, IsUnreceived};

use crate::entry::Record;
use crate::fault::SessionFault;
use crate::handle::SessionHandle;
use sessions::Service;
use std::alloc::Global;
use world::{Call, Entry, Refusal};

/// Makes a packet arrive and runs the job that it starts. Answers the entry of the arrival, or of
/// the job's result. If memory runs out for a result, its job stays open.
fn receive(service: &mut Service, key: usize) -> Result<Entry, Refusal>
    ensures { MatchResult result (Arrives key service.old service.new) (IsUnarrived key service.old service.new) }
{
    let call = Call::Arrive { key };
    let reply = service.call(&call)?;
    let Some(job) = reply.job else {
        return Ok(Entry {
            worker: 0,
            call,
            answer: reply.answer,
        });
    };
    let process = job.task().process();
    let Ok(finished) = service.finish(Service::run(job)) else {
        return Err(Refusal::Memory);
    };
    Ok(Entry {
        worker: 0,
        call: Call::Finish { process },
        answer: finished.answer(),
    })
}

/// Makes a packet arrive, runs the job that it starts, and writes the record of the last entry.
pub(crate) fn arrive(
    alloc: Global,
    handle: &mut SessionHandle,
    key: usize,
    out: &mut Record,
) -> Result<(), SessionFault>
    ensures { Results result handle.old.session.value handle.new.session.value (IsReceived key out.new) (IsUnreceived key out.old out.new) }
{
    let Some(mut service) = handle.take(alloc) else {
        return Err(SessionFault::Handle);
    };
    let received = receive(&mut service, key);
    service.promises();
    handle.put(service);
    match received {
        Ok(entry) => {
            *out = Record::of(&entry);
            Ok(())
        }
        Err(refusal) => Err(SessionFault::Session(refusal)),
    }
}
