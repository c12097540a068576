//! Calls of the session in a handle.

ghost use Rattle.std.specs.Prelude.{◌≡◌, ◌≤◌, length};
ghost use Rattle.machine.specs.Dispatch.{IsJobless};
ghost use Rattle.c_sessions.specs.Session.{number_of, IsCalled, IsClosed, IsDriven, IsHandedBack, IsHandedIn, IsUncalled, IsUndriven, Results, WasClosed};
ghost use Rattle.c_sessions.specs.Inside.Calls.{HasKey};

use crate::fault::SessionFault;
use crate::handle::SessionHandle;
use crate::places::{is_stopped, refusal_of_input};
use helpers::Payload;
use limits::PAYLOAD_BYTES;
use std::alloc::Global;
use world::{Answer, Call, Refusal};

/// The number in an answer, or 0 if it has none.
fn number_of(answer: &Answer) -> u32
    requires { HasKey answer.now }
    ensures { result ≡ number_of answer.now }
{
    match *answer {
        Answer::Logged(ssn) => ssn,
        Answer::Placed(key) => key as u32,
        Answer::Saved(length) => length,
        Answer::Trimmed(count) => count,
        Answer::Crashed(incarnation) => incarnation,
        Answer::Kept(count) => count,
        Answer::Restored(count) => count,
        _ => 0,
    }
}

/// Makes a call, and writes the number in its answer.
pub(crate) fn call(
    alloc: Global,
    handle: &mut SessionHandle,
    call: Call,
    number: &mut u32,
) -> Result<(), SessionFault>
    requires { IsJobless call }
    ensures { Results result handle.old.session.value handle.new.session.value (IsCalled call number.new) (IsUncalled call number.old number.new) }
{
    let Some(mut service) = handle.take(alloc) else {
        return Err(SessionFault::Handle);
    };
    let answered = service.call(&call);
    service.promises();
    handle.put(service);
    match answered {
        Ok(reply) => {
            *number = number_of(&reply.answer);
            Ok(())
        }
        Err(refusal) => Err(SessionFault::Session(refusal)),
    }
}

/// Drives the session, and writes how many calls were accepted, also if the end of the journal
/// stopped it (`JournalFull`).
pub(crate) fn drive(
    alloc: Global,
    handle: &mut SessionHandle,
    budget: u32,
    accepted: &mut u32,
) -> Result<(), SessionFault>
    ensures { Results result handle.old.session.value handle.new.session.value (IsDriven budget accepted.new) (IsUndriven budget accepted.old accepted.new) }
{
    let Some(mut service) = handle.take(alloc) else {
        return Err(SessionFault::Handle);
    };
    let driven = service.drive(budget);
    let stopped = is_stopped(&service);
    service.promises();
    handle.put(service);
    let Ok(count) = driven else {
        return Err(SessionFault::Session(Refusal::Memory));
    };
    *accepted = count;
    if count >= budget {
        return Ok(());
    }
    if stopped {
        return Err(SessionFault::Session(Refusal::JournalFull));
    }
    Ok(())
}

/// Hands in a payload for a process under a feed number, and writes the message's SSN. The journal
/// keeps room for the message to go on the wire, arrive and be received.
pub(crate) fn input(
    alloc: Global,
    handle: &mut SessionHandle,
    to: u8,
    feed: u32,
    payload: &[u8],
    ssn: &mut u32,
) -> Result<(), SessionFault>
    ensures { Results result handle.old.session.value handle.new.session.value (IsHandedIn to feed payload.now ssn.new) (IsHandedBack to feed payload.now ssn.old ssn.new) }
{
    if payload.len() > PAYLOAD_BYTES {
        return Err(SessionFault::Payload);
    }
    let payload = Payload::from_slice(payload);
    let Some(service) = handle.take(alloc) else {
        return Err(SessionFault::Handle);
    };
    let refusal = refusal_of_input(&service, to);
    handle.put(service);
    if let Some(refusal) = refusal {
        return Err(SessionFault::Session(refusal));
    }
    call(alloc, handle, Call::Input { to, feed, payload }, ssn)
}

/// Closes a handle, and frees its session's memory.
pub(crate) fn close(alloc: Global, handle: &mut SessionHandle) -> Result<(), SessionFault>
    ensures { Results result handle.old.session.value handle.new.session.value IsClosed WasClosed }
{
    match handle.take(alloc) {
        Some(_service) => Ok(()),
        None => Err(SessionFault::Handle),
    }
}
