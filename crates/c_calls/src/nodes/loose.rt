//! A process on the heap as an untyped pointer, since only plain types cross to C.

ghost use Rattle.std.specs.Prelude.{◌≡◌, Option, Some, None};
ghost use Rattle.std.specs.Ptr.{null_ptr};
ghost use Rattle.process.specs.Process.{TheProcess};
ghost use Rattle.c_calls.specs.Inside.Held.{held_process};

use c_handles::Loose;
use process::Member;
use std::alloc::Global;
use std::marker::Model;
use std::ptr::null_mut;

/// A process, or nothing.
#[repr(C)]
#[derive(Drop)]
pub struct LooseProcess {
    at: *mut u8,
    alloc: Global,
    pub ghost value: { Option TheProcess },
}

impl Model for LooseProcess {
    ghost also_owns = { λ l. held_process l.alloc l.at l.value };
}

impl LooseProcess {
    /// Nothing, at null.
    pub(crate) fn empty(alloc: Global) -> LooseProcess
        ensures { (result.value ≡ None) × (result.at ≡ null_ptr) }
    {
        LooseProcess {
            at: null_mut(),
            alloc,
        }
    }

    /// The process of a box.
    pub(crate) fn of(held: Loose<Member, Global>) -> LooseProcess
        ensures { result.value ≡ Some held.value }
    {
        let Loose { at, alloc } = held;
        LooseProcess {
            at: at as *mut u8,
            alloc,
        }
    }

    /// Puts the box together again.
    pub(crate) fn into_loose(self) -> Loose<Member, Global>
        ghost v: { TheProcess }
        requires { self.value ≡ Some v }
        ensures { result.value ≡ v }
    {
        let LooseProcess { at, alloc } = self;
        Loose {
            at: at as *mut Member,
            alloc,
        }
    }
}
