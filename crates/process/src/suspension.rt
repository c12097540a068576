//! A process is suspended and resumed.

ghost use Rattle.std.specs.Prelude.{◌≡◌, IfNone, IfSome, IfOk, IfErr};
ghost use Rattle.std.specs.Arc.{arc_value};
ghost use Rattle.interp.specs.Handler.{image_of};
ghost use Rattle.node.specs.Limit.{AreAllowed};
ghost use Rattle.node.specs.Suspension.{CanSuspend, IsSuspended};
ghost use Rattle.process.specs.Suspension.{MaySuspend, Suspends, error_of, IsResumed, IsUnresumed};

use crate::process::Member;
use interp::Handler;
use limits::STATE_BYTES;
use node::{Limits, Node, Unsuspended};
use recovery::{Lifecycle, Unresumed, resume_sized};
use std::alloc::{AllocError, Global};
use std::sync::Arc;
use thiserror::Error;

/// Why no process is resumed from bytes.
#[derive(Debug, Drop, Error)]
pub enum ResumeError {
    /// Memory ran out.
    #[error("out of memory")]
    Memory,
    /// 1: They are the bytes of no suspended process.
    #[error("these are not the bytes of a suspended process")]
    Bytes,
    /// 2: the state is not as long as that of the image.
    #[error("the state is not as long as the image's")]
    State,
}

impl From<Unresumed> for ResumeError {
    ghost from_gives = { λ e r. r ≡ error_of e };

    fn from(e: Unresumed) -> ResumeError {
        match e {
            Unresumed::Memory => ResumeError::Memory,
            Unresumed::Bytes => ResumeError::Bytes,
        }
    }
}

impl Member {
    /// The bytes of the whole process, if it can be suspended: it is up, its checkpoint is durable,
    /// and it received and sent nothing since. They have neither its image, nor its limits, nor the
    /// packets that wait. The process stays as it is: its host must not call it any more once it is
    /// resumed from the bytes.
    pub fn suspend(&self, alloc: Global) -> Result<Option<Vec<u8>>, AllocError>
        ensures none { IfOk result (λ o. IfNone o (¬ MaySuspend self.now.lifecycle)) }
        ensures some { IfOk result (λ o. IfSome o (λ v. Suspends self.now.lifecycle v.items)) }
    {
        match &self.lifecycle {
            Lifecycle::Up(node) => suspend(alloc, node),
            _ => Ok(None),
        }
    }

    /// The process that [`Member::suspend`] wrote as these bytes, with these limits. It is the same
    /// incarnation: it asks no peer, and none waits for it.
    pub fn resume(
        alloc: Global,
        image: Arc<Handler>,
        limits: Limits,
        bytes: &[u8],
    ) -> Result<Member, ResumeError>
        requires limits { AreAllowed limits }
        ensures resumed { IfOk result (IsResumed (image_of (arc_value image)) limits bytes.now) }
        ensures refused { IfErr result (IsUnresumed (image_of (arc_value image)) bytes.now) }
    {
        let len = image.state_len() as usize;
        let Some(node) = resume_sized(alloc, limits, len, bytes)? else {
            return Err(ResumeError::State);
        };
        Ok(Member::new(image, Lifecycle::Up(node)))
    }
}

/// The bytes of a node, if it can be suspended.
fn suspend(alloc: Global, node: &Node) -> Result<Option<Vec<u8>>, AllocError>
    ensures none { IfOk result (λ o. IfNone o (¬ CanSuspend node.now)) }
    ensures some { IfOk result (λ o. IfSome o (λ v. IsSuspended node.now v.items)) }
{
    if node.state().len() > STATE_BYTES {
        return Ok(None);
    }
    match node.suspend(alloc) {
        Ok(bytes) => Ok(Some(bytes)),
        Err(Unsuspended::Memory) => Err(AllocError),
        Err(Unsuspended::Frozen) => Ok(None),
        Err(Unsuspended::Busy) => Ok(None),
        Err(Unsuspended::Uncovered) => Ok(None),
    }
}
