//! Handler calls that a program makes outside of the node.

ghost use Rattle.std.specs.Prelude.{◌≡◌, ◌≤◌, ◌<◌, ◌+◌, ◌↔◌, length, IfErr, IsTrue, MatchOption, MatchResult, OnErr, OnOk};
ghost use Rattle.interp.specs.Handler.{image_of};
ghost use Rattle.process.specs.Job.{array_size, ticket_at};
ghost use Rattle.c_calls.specs.declared.nodes.fault.NodeFault.TheVariants.{Room};
ghost use Rattle.c_calls.specs.Nodes.Answers.{Results};
ghost use Rattle.c_cluster.specs.Nodes.NodeJob.{words_of, state_place, IsStateIn, LaysOut, DoesNotLayOut, GivesJob, GivesNone, IsGiven, IsNotGiven, TakesLeft, LeavesOut, IsDone, IsNotDone};

use crate::nodes::outcome::left_in;
use c_calls::nodes::fault::NodeFault;
use c_calls::nodes::handle::NodeHandle;
use c_handles::copy;
use dense::ARRAY_BYTES;
use interp::Handler;
use limits::{STACK_BYTES, STATE_BYTES};
use process::{HandlerJob, HandlerTicket, Member, Undone};
use std::alloc::Global;

/// Where the state begins in the array of forms 1 and 2.
pub const STATE_AT: usize = 256;

/// Where the state begins in the array of form 3.
pub const SPAN_STATE_AT: usize = 512;

/// The next call of the handler, as a program in C reads it: six words of 8 bytes.
#[repr(C)]
#[derive(Clone, Copy)]
pub struct NodeJob {
    /// The incarnation of the node.
    pub incarnation: u64,
    /// How many messages it received before this one.
    pub received: u64,
    /// How many bytes of the message the handler sees.
    pub message_len: u64,
    /// The number of the process.
    pub me: u64,
    /// The sender of the message.
    pub from: u64,
    /// How many processes there are.
    pub count: u64,
}

impl NodeJob {
    fn of(job: &HandlerJob) -> NodeJob
        ensures { result ≡ words_of job.now }
    {
        let ticket = job.ticket();
        let who = job.who();
        NodeJob {
            incarnation: ticket.incarnation,
            received: ticket.received,
            message_len: job.message_len() as u64,
            me: u64::from(who.me),
            from: u64::from(who.from),
            count: u64::from(who.count),
        }
    }
}

/// Gives out the next call: writes its array to the front of the buffer, and its words.
pub(crate) fn job(
    alloc: Global,
    handle: &mut NodeHandle,
    array: &mut [u8],
    size: &mut usize,
    words: &mut NodeJob,
) -> Result<(), NodeFault>
    ensures given { Results result handle.old.process.value handle.new.process.value (IsGiven array.old array.new size.new words.new) (IsNotGiven array.old array.new size.old size.new) }
    ensures kept { OnErr result (words.new ≡ words.old) }
{
    let Some(process) = handle.take(alloc) else {
        return Err(NodeFault::Handle);
    };
    let given = job_of(alloc, &process, array, size, words);
    handle.put(process);
    given
}

fn job_of(
    alloc: Global,
    process: &Member,
    array: &mut [u8],
    size: &mut usize,
    words: &mut NodeJob,
) -> Result<(), NodeFault>
    ensures given { MatchResult result (λ _. GivesJob array.old array.new size.new words.new process.now) (GivesNone array.old array.new size.old size.new process.now) }
    ensures kept { OnErr result (words.new ≡ words.old) }
{
    let job = match process.job(alloc) {
        Ok(Some(job)) => job,
        Ok(None) => return Err(NodeFault::Absent),
        Err(_) => return Err(NodeFault::Memory),
    };
    lay(&job, array, size)?;
    *words = NodeJob::of(&job);
    Ok(())
}

/// Writes the array of a job to the front of a buffer.
fn lay(job: &HandlerJob, array: &mut [u8], size: &mut usize) -> Result<(), NodeFault>
    ensures laid { OnOk result (LaysOut job.now array.old array.new size.new) }
    ensures room { IfErr result (λ why. (why ≡ Room) × DoesNotLayOut job.now array.old array.new size.new) }
{
    let mut laid = [0; ARRAY_BYTES];
    let len = array_len(job);
    job.lay(&mut laid[..len]);
    copy(&laid[..len], array, size, NodeFault::Room)
}

/// The size of the array of a job in bytes.
fn array_len(job: &HandlerJob) -> usize
    ensures value { result ≡ array_size job.now.image }
    ensures bound { result ≤ ARRAY_BYTES }
{
    job.array_len()
}

/// Takes what a call made outside left in its array and its record.
pub(crate) fn done(
    alloc: Global,
    handle: &mut NodeHandle,
    ticket: HandlerTicket,
    array: &[u8],
    left: &[u8],
) -> Result<(), NodeFault>
    ensures { Results result handle.old.process.value handle.new.process.value (IsDone ticket array.now left.now) (IsNotDone ticket array.now left.now) }
{
    let Some(mut process) = handle.take(alloc) else {
        return Err(NodeFault::Handle);
    };
    let taken = done_of(alloc, &mut process, ticket, array, left);
    handle.put(process);
    taken
}

fn done_of(
    alloc: Global,
    process: &mut Member,
    ticket: HandlerTicket,
    array: &[u8],
    left: &[u8],
) -> Result<(), NodeFault>
    ensures taken { MatchResult result (λ _. TakesLeft ticket array.now left.now process.old process.new) (LeavesOut ticket array.now left.now process.old) }
    ensures kept { OnErr result (process.new ≡ process.old) }
{
    let Some((_, who)) = process.next_call() else {
        return Err(NodeFault::Absent);
    };
    if !is_next(process, ticket) {
        return Err(NodeFault::Unready);
    }
    let Some(state) = state_of(process.handler(), array) else {
        return Err(NodeFault::Left);
    };
    let Some(effects) = left_in(who, left) else {
        return Err(NodeFault::Left);
    };
    match process.done_unchecked(alloc, ticket, state, &effects) {
        Ok(()) => Ok(()),
        Err(Undone::Memory) => Err(NodeFault::Memory),
        Err(Undone::Absent) => Err(NodeFault::Absent),
        Err(Undone::Other) => Err(NodeFault::Unready),
        Err(Undone::State) => Err(NodeFault::Left),
    }
}

/// Whether the next call of a process has this ticket.
fn is_next(process: &Member, ticket: HandlerTicket) -> bool
    ensures { IsTrue result ↔ (ticket_at process.now.lifecycle ≡ ticket) }
{
    let standing = process.standing();
    standing.incarnation == ticket.incarnation && standing.length == ticket.received
}

/// The state in the array of a call, if the array is long enough.
fn state_of<'a>(handler: &Handler, array: &'a [u8]) -> Option<&'a [u8]>
    ensures { MatchOption result (length array.now < array_size (image_of handler.now)) (λ state. IsStateIn (image_of handler.now) array.now state.now) }
{
    let at = state_at(handler);
    let len = usize::from(handler.state_len());
    if array.len() < at + STATE_BYTES + STACK_BYTES {
        return None;
    }
    Some(&array[at..at + len])
}

/// Where the state begins in the array of a handler. After it there is room for the longest state
/// and for a stack.
fn state_at(handler: &Handler) -> usize
    ensures value { result ≡ state_place (image_of handler.now) }
    ensures size { result + STATE_BYTES + STACK_BYTES ≡ array_size (image_of handler.now) }
{
    match handler {
        Handler::Flat(_) => STATE_AT,
        Handler::Span(_) => SPAN_STATE_AT,
    }
}
