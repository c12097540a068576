//! Nodes that are suspended and resumed, for C.

ghost use Rattle.std.specs.Prelude.{◌≡◌};
ghost use Rattle.c_calls.specs.Nodes.Answers.{Answers, Results};
ghost use Rattle.c_cluster.specs.Nodes.Lifetime.{limits_from};
ghost use Rattle.c_cluster.specs.Nodes.Suspension.{IsWritten, IsUnwritten, Resumes, DoesNotResume, IsToldSo, AnswersResume};

use crate::nodes::lifetime::{NodeLimits, handler_of, put};
use c_calls::nodes::fault::{NodeFault, code_of_bytes};
use c_calls::nodes::handle::NodeHandle;
use c_handles::{code, copy};
use process::{Member, ResumeError};
use std::alloc::Global;

/// Writes the bytes of the whole node, and their number, if its checkpoint is durable and it
/// received and sent nothing since. The node stays open.
#[unsafe(no_mangle)]
pub extern "C" fn sblog_node_suspend(
    alloc: Global,
    node: &mut NodeHandle,
    out: &mut [u8],
    size: &mut usize,
) -> u32
    ensures { Answers result node.old.process.value node.new.process.value (IsWritten out.old out.new size.new) (IsUnwritten out.old out.new size.old size.new) }
{
    code(suspend(alloc, node, out, size))
}

/// Opens a node with the image file of its handler from the bytes of a suspended one, as it was. If
/// they are refused, writes the number of their fault: 1, they are those of no suspended node; 2, its
/// state is not as long as the image's.
#[unsafe(no_mangle)]
pub extern "C" fn sblog_node_resume(
    alloc: Global,
    image: &[u8],
    suspended: &[u8],
    page: u32,
    tick: u32,
    numbers: u32,
    receipts: u32,
    durable: u32,
    node: &mut NodeHandle,
    fault: &mut u32,
) -> u32
    ensures { AnswersResume image.now suspended.now (limits_from page tick numbers receipts durable) result node.old.process.value node.new.process.value fault.old fault.new }
{
    let limits = NodeLimits {
        page,
        tick,
        numbers,
        receipts,
        durable,
    };
    code_of_bytes(resume(alloc, image, suspended, limits, node), fault)
}

fn suspend(
    alloc: Global,
    handle: &mut NodeHandle,
    out: &mut [u8],
    size: &mut usize,
) -> Result<(), NodeFault>
    ensures { Results result handle.old.process.value handle.new.process.value (IsWritten out.old out.new size.new) (IsUnwritten out.old out.new size.old size.new) }
{
    let Some(process) = handle.take(alloc) else {
        return Err(NodeFault::Handle);
    };
    let suspended = process.suspend(alloc);
    handle.put(process);
    match suspended {
        Ok(Some(bytes)) => copy(bytes.as_slice(), out, size, NodeFault::Room),
        Ok(None) => Err(NodeFault::Unready),
        Err(_) => Err(NodeFault::Memory),
    }
}

fn resume(
    alloc: Global,
    image: &[u8],
    suspended: &[u8],
    limits: NodeLimits,
    handle: &mut NodeHandle,
) -> Result<(), NodeFault>
    ensures { Results result handle.old.process.value handle.new.process.value (Resumes image.now suspended.now limits) (DoesNotResume image.now suspended.now limits) }
{
    if handle.is_open() {
        return Err(NodeFault::Handle);
    }
    let Some(limits) = limits.of_node() else {
        return Err(NodeFault::Limit);
    };
    let image = handler_of(alloc, image)?;
    match Member::resume(alloc, image, limits, suspended) {
        Ok(process) => put(alloc, process, handle),
        Err(why) => Err(refused(why)),
    }
}

/// The fault that tells why no process is resumed.
fn refused(why: ResumeError) -> NodeFault
    ensures { IsToldSo why result }
{
    match why {
        ResumeError::Memory => NodeFault::Memory,
        ResumeError::Bytes => NodeFault::Bytes(1),
        ResumeError::State => NodeFault::Bytes(2),
    }
}
