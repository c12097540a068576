//! The handle that a program in C holds.

ghost use Rattle.std.specs.Prelude.{◌≡◌, IfNone, IfSome, Some, None, false, is_some};
ghost use Rattle.std.specs.Ptr.{null_ptr};

use crate::nodes::loose::LooseProcess;
use c_handles::Loose;
use process::Member;
use std::alloc::Global;
use std::mem::replace;

/// A process, or none if it is closed. A program makes it of zeros, and doesn't touch its bytes.
#[repr(C)]
#[derive(Drop)]
pub struct NodeHandle {
    pub process: LooseProcess,
    held: bool,
    ghost held_is: { held ≡ is_some process.value },
}

impl NodeHandle {
    /// A closed handle, which is all zeros: a null pointer and a mark of 0.
    #[inline(always)]
    pub fn closed(alloc: Global) -> NodeHandle
        ensures closed { result.process.value ≡ None }
        ensures zeros { (result.process.at ≡ null_ptr) × (result.held ≡ false) }
    {
        NodeHandle {
            process: LooseProcess::empty(alloc),
            held: false,
        }
    }

    /// Takes the process out, and leaves the handle closed.
    #[inline(always)]
    pub fn take(&mut self, alloc: Global) -> Option<Box<Member>>
        ensures closed { self.new.process.value ≡ None }
        ensures none { IfNone result (self.old.process.value ≡ None) }
        ensures some { IfSome result (λ b. self.old.process.value ≡ Some b.value) }
    {
        if !self.held {
            return None;
        }
        let NodeHandle { process, held: _ } = replace(self, NodeHandle::closed(alloc));
        Some(process.into_loose().into_box())
    }

    /// Puts a process into a closed handle.
    #[inline(always)]
    pub fn put(&mut self, process: Box<Member>)
        ensures { self.new.process.value ≡ Some process.value }
    {
        *self = NodeHandle {
            process: LooseProcess::of(Loose::of(process)),
            held: true,
        };
    }

    /// Whether it is open.
    pub fn is_open(&mut self) -> bool
        ensures same { self.new.process.value ≡ self.old.process.value }
        ensures open { result ≡ is_some self.old.process.value }
    {
        self.held
    }
}
