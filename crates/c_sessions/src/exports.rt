//! The functions that C calls. Each answers a code: 0 says that it is done, any other is the number
//! of a fault. The contracts say what each code means for the handle and the buffers.

ghost use Rattle.std.specs.Prelude.{◌≡◌, length};
ghost use Rattle.c_sessions.specs.Session.{Answers, IsCalled, IsClosed, IsDriven, IsHandedBack, IsHandedIn, IsUncalled, IsUndriven, NoneIsOpen, Tells, WasClosed};
ghost use Rattle.c_handles.specs.Buffer.{OnFault};
ghost use Rattle.c_sessions.specs.Lifetime.{IsOpened, IsUnopened};
ghost use Rattle.c_sessions.specs.Entries.{AreEntriesFrom, IsEntryAt, IsNoEntry};
ghost use Rattle.c_sessions.specs.Places.{places_left};
ghost use Rattle.c_sessions.specs.Schedule.{IsReceived, IsUnreceived};
ghost use Rattle.c_sessions.specs.Queries.{IsNotStanding, IsReadOf, IsSaved, IsShown, IsStanding, IsState, IsTraced, IsUnreadOf, IsUnshown, IsUntraced, OfPromised, exact_number};

use crate::entry::Record;
use crate::handle::SessionHandle;
use crate::{calls, journal, lifetime, places, queries, schedule};
use c_handles::code;
use std::alloc::Global;
use world::Call;

/// Opens a session of processes 1, 2, .. from their image files. The files come one after the
/// other, each as long as its length says. The handle has to be closed.
#[unsafe(no_mangle)]
pub extern "C" fn sblog_session_open(
    alloc: Global,
    files: &[u8],
    lengths: &[u32],
    handle: &mut SessionHandle,
) -> u32
    ensures { Answers result handle.old.session.value handle.new.session.value (IsOpened files.now lengths.now) (IsUnopened files.now lengths.now) }
{
    code(lifetime::open(alloc, files, lengths, handle))
}

/// Closes a handle, and frees its session's memory.
#[unsafe(no_mangle)]
pub extern "C" fn sblog_session_close(alloc: Global, handle: &mut SessionHandle) -> u32
    ensures { Answers result handle.old.session.value handle.new.session.value IsClosed WasClosed }
{
    code(calls::close(alloc, handle))
}

/// Hands in a payload of at most 256 bytes for a process, and writes the message's SSN. A feed
/// number is taken once. The journal keeps three places for the message; if it can't, the input is
/// refused (12).
#[unsafe(no_mangle)]
pub extern "C" fn sblog_session_input(
    alloc: Global,
    handle: &mut SessionHandle,
    to: u8,
    feed: u32,
    payload: &[u8],
    ssn: &mut u32,
) -> u32
    ensures { Answers result handle.old.session.value handle.new.session.value (IsHandedIn to feed payload.now ssn.new) (IsHandedBack to feed payload.now ssn.old ssn.new) }
{
    code(calls::input(alloc, handle, to, feed, payload, ssn))
}

/// Makes useful calls until there is none or `budget` were accepted, and writes how many were. If
/// only the end of the journal stopped it, it answers 12 and also writes how many were.
#[unsafe(no_mangle)]
pub extern "C" fn sblog_session_drive(
    alloc: Global,
    handle: &mut SessionHandle,
    budget: u32,
    accepted: &mut u32,
) -> u32
    ensures { Answers result handle.old.session.value handle.new.session.value (IsDriven budget accepted.new) (IsUndriven budget accepted.old accepted.new) }
{
    code(calls::drive(alloc, handle, budget, accepted))
}

/// Puts a logged message on the wire, by its sender, its receiver and its SSN. Either of them may
/// be the outside (0). Writes the key of the packet, below 4,096.
#[unsafe(no_mangle)]
pub extern "C" fn sblog_session_transmit(
    alloc: Global,
    handle: &mut SessionHandle,
    from: u8,
    to: u8,
    ssn: u32,
    packet: &mut u32,
) -> u32
    ensures { Answers result handle.old.session.value handle.new.session.value (IsCalled (Call.Transmit from to ssn) packet.new) (IsUncalled (Call.Transmit from to ssn) packet.old packet.new) }
{
    let call = Call::Transmit { from, to, ssn };
    code(calls::call(alloc, handle, call, packet))
}

/// Puts the packet with this key on the wire a second time, and writes the key of the copy.
#[unsafe(no_mangle)]
pub extern "C" fn sblog_session_copy(
    alloc: Global,
    handle: &mut SessionHandle,
    packet: u32,
    copy: &mut u32,
) -> u32
    ensures { Answers result handle.old.session.value handle.new.session.value (IsCalled (Call.Copy packet) copy.new) (IsUncalled (Call.Copy packet) copy.old copy.new) }
{
    let key = packet as usize;
    code(calls::call(alloc, handle, Call::Copy { key }, copy))
}

/// The wire loses the packet with this key.
#[unsafe(no_mangle)]
pub extern "C" fn sblog_session_lose(alloc: Global, handle: &mut SessionHandle, packet: u32) -> u32
    ensures { Answers result handle.old.session.value handle.new.session.value (IsCalled (Call.Lose packet) 0) (IsUncalled (Call.Lose packet) 0 0) }
{
    let key = packet as usize;
    let mut number = 0;
    code(calls::call(alloc, handle, Call::Lose { key }, &mut number))
}

/// Takes the packet with this key from the wire to its receiver. If it starts a job, it also calls
/// the handler and commits the result. Writes the last entry: that of the result, or if there was
/// no job that of the arrival.
#[unsafe(no_mangle)]
pub extern "C" fn sblog_session_arrive(
    alloc: Global,
    handle: &mut SessionHandle,
    packet: u32,
    entry: &mut Record,
) -> u32
    ensures { Answers result handle.old.session.value handle.new.session.value (IsReceived packet entry.new) (IsUnreceived packet entry.old entry.new) }
{
    code(schedule::arrive(alloc, handle, packet as usize, entry))
}

/// Saves a process, and writes how many messages its checkpoint covers.
#[unsafe(no_mangle)]
pub extern "C" fn sblog_session_checkpoint(
    alloc: Global,
    handle: &mut SessionHandle,
    process: u8,
    covered: &mut u32,
) -> u32
    ensures { Answers result handle.old.session.value handle.new.session.value (IsCalled (Call.Checkpoint process) covered.new) (IsUncalled (Call.Checkpoint process) covered.old covered.new) }
{
    let call = Call::Checkpoint { process };
    code(calls::call(alloc, handle, call, covered))
}

/// Each sender that is up drops its messages to a process that the process's checkpoint covers, or
/// if it is the outside (0) those that were shown. Writes how many.
#[unsafe(no_mangle)]
pub extern "C" fn sblog_session_trim(
    alloc: Global,
    handle: &mut SessionHandle,
    to: u8,
    dropped: &mut u32,
) -> u32
    ensures { Answers result handle.old.session.value handle.new.session.value (IsCalled (Call.Trim to) dropped.new) (IsUncalled (Call.Trim to) dropped.old dropped.new) }
{
    let call = Call::Trim { to };
    code(calls::call(alloc, handle, call, dropped))
}

/// A process loses all but its checkpoint. Writes its new incarnation.
#[unsafe(no_mangle)]
pub extern "C" fn sblog_session_crash(
    alloc: Global,
    handle: &mut SessionHandle,
    process: u8,
    incarnation: &mut u32,
) -> u32
    ensures { Answers result handle.old.session.value handle.new.session.value (IsCalled (Call.Crash process) incarnation.new) (IsUncalled (Call.Crash process) incarnation.old incarnation.new) }
{
    let call = Call::Crash { process };
    code(calls::call(alloc, handle, call, incarnation))
}

/// A process comes back. Writes how many messages it keeps. A drive replays them.
#[unsafe(no_mangle)]
pub extern "C" fn sblog_session_recover(
    alloc: Global,
    handle: &mut SessionHandle,
    process: u8,
    kept: &mut u32,
) -> u32
    ensures { Answers result handle.old.session.value handle.new.session.value (IsCalled (Call.Recover process) kept.new) (IsUncalled (Call.Recover process) kept.old kept.new) }
{
    let call = Call::Recover { process };
    code(calls::call(alloc, handle, call, kept))
}

/// A process comes back though others aren't up (docs/PROTOCOL.md). Writes how many messages it
/// keeps. A drive replays them. After it failures didn't come one at a time.
#[unsafe(no_mangle)]
pub extern "C" fn sblog_session_recover_alone(
    alloc: Global,
    handle: &mut SessionHandle,
    process: u8,
    kept: &mut u32,
) -> u32
    ensures { Answers result handle.old.session.value handle.new.session.value (IsCalled (Call.RecoverAlone process) kept.new) (IsUncalled (Call.RecoverAlone process) kept.old kept.new) }
{
    let call = Call::RecoverAlone { process };
    code(calls::call(alloc, handle, call, kept))
}

/// Writes how many messages are in the state of a process, and the number of its phase.
#[unsafe(no_mangle)]
pub extern "C" fn sblog_session_standing(
    alloc: Global,
    handle: &mut SessionHandle,
    process: u8,
    length: &mut u32,
    phase: &mut u32,
) -> u32
    ensures { Tells result handle.old.session.value handle.new.session.value (IsStanding process length.new phase.new) (IsNotStanding process length.old length.new phase.old phase.new) }
{
    code(queries::standing(alloc, handle, process, length, phase))
}

/// Writes the state of a process, and its length in bytes.
#[unsafe(no_mangle)]
pub extern "C" fn sblog_session_state(
    alloc: Global,
    handle: &mut SessionHandle,
    process: u8,
    out: &mut [u8],
    size: &mut usize,
) -> u32
    ensures { Tells result handle.old.session.value handle.new.session.value (IsReadOf process IsState out.old out.new size.new) (IsUnreadOf process IsState out.old out.new size.old size.new) }
{
    code(queries::state(alloc, handle, process, out, size))
}

/// Writes the bytes of a process's latest checkpoint, and how many there are.
#[unsafe(no_mangle)]
pub extern "C" fn sblog_session_saved(
    alloc: Global,
    handle: &mut SessionHandle,
    process: u8,
    out: &mut [u8],
    size: &mut usize,
) -> u32
    ensures { Tells result handle.old.session.value handle.new.session.value (IsReadOf process IsSaved out.old out.new size.new) (IsUnreadOf process IsSaved out.old out.new size.old size.new) }
{
    code(queries::saved(alloc, handle, process, out, size))
}

/// Writes an output that was shown, by its place from 0: its sender, its SSN, its bytes, and how
/// many bytes these are.
#[unsafe(no_mangle)]
pub extern "C" fn sblog_session_shown(
    alloc: Global,
    handle: &mut SessionHandle,
    place: usize,
    sender: &mut u8,
    ssn: &mut u32,
    out: &mut [u8],
    size: &mut usize,
) -> u32
    ensures shown { Tells result handle.old.session.value handle.new.session.value (IsShown place sender.new ssn.new out.old out.new size.new) (IsUnshown place out.old out.new size.old size.new) }
    ensures kept { OnFault result ((sender.new ≡ sender.old) × (ssn.new ≡ ssn.old)) }
{
    code(queries::shown(alloc, handle, place, sender, ssn, out, size))
}

/// How many sends and outputs of a process's handler the helpers refused with this code: 1 for a
/// send to no other process, 2 for more than 8 in a call, 3 for more than 256 bytes. It is 0 for
/// any other code or process, and for a closed handle. No contract says how many.
#[unsafe(no_mangle)]
pub extern "C" fn sblog_session_refused(
    alloc: Global,
    handle: &mut SessionHandle,
    process: u8,
    code: u32,
) -> u64
    ensures { handle.new.session.value ≡ handle.old.session.value }
{
    queries::refused(alloc, handle, process, code)
}

/// Writes 1 if failures came one at a time, else 0.
#[unsafe(no_mangle)]
pub extern "C" fn sblog_session_exact(
    alloc: Global,
    handle: &mut SessionHandle,
    answer: &mut u32,
) -> u32
    ensures { Tells result handle.old.session.value handle.new.session.value (OfPromised (λ s. answer.new ≡ exact_number s)) (NoneIsOpen (answer.new ≡ answer.old)) }
{
    code(queries::exact(alloc, handle, answer))
}

/// Writes the trace of the journal, and its length in bytes.
#[unsafe(no_mangle)]
pub extern "C" fn sblog_session_trace(
    alloc: Global,
    handle: &mut SessionHandle,
    out: &mut [u8],
    size: &mut usize,
) -> u32
    ensures { Tells result handle.old.session.value handle.new.session.value (IsTraced out.old out.new size.new) (IsUntraced out.old out.new size.old size.new) }
{
    code(queries::trace(alloc, handle, out, size))
}

/// Writes how many places the journal has left, without those that open jobs hold. A call takes
/// one, or two if it starts a job.
#[unsafe(no_mangle)]
pub extern "C" fn sblog_session_room(
    alloc: Global,
    handle: &mut SessionHandle,
    places: &mut usize,
) -> u32
    ensures { Tells result handle.old.session.value handle.new.session.value (OfPromised (λ s. places.new ≡ places_left s)) (NoneIsOpen (places.new ≡ places.old)) }
{
    code(places::room(alloc, handle, places))
}

/// Writes how many entries the journal has.
#[unsafe(no_mangle)]
pub extern "C" fn sblog_session_journal(
    alloc: Global,
    handle: &mut SessionHandle,
    count: &mut usize,
) -> u32
    ensures { Tells result handle.old.session.value handle.new.session.value (OfPromised (λ s. count.new ≡ length s.entries)) (NoneIsOpen (count.new ≡ count.old)) }
{
    code(journal::length(alloc, handle, count))
}

/// Writes the entry of the journal at a place from 0.
#[unsafe(no_mangle)]
pub extern "C" fn sblog_session_entry(
    alloc: Global,
    handle: &mut SessionHandle,
    place: usize,
    entry: &mut Record,
) -> u32
    ensures { Tells result handle.old.session.value handle.new.session.value (IsEntryAt place entry.new) (IsNoEntry place entry.old entry.new) }
{
    code(journal::entry(alloc, handle, place, entry))
}

/// Writes the entries of the journal from a place on, as many as there are and fit into the buffer,
/// and how many these are.
#[unsafe(no_mangle)]
pub extern "C" fn sblog_session_entries(
    alloc: Global,
    handle: &mut SessionHandle,
    from: usize,
    out: &mut [Record],
    count: &mut usize,
) -> u32
    ensures { Tells result handle.old.session.value handle.new.session.value (AreEntriesFrom from out.old out.new count.new) (NoneIsOpen ((out.new ≡ out.old) × (count.new ≡ count.old))) }
{
    code(journal::entries(alloc, handle, from, out, count))
}
