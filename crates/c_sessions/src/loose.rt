//! A service on the heap behind an untyped pointer, since only plain types cross to C.

ghost use Rattle.std.specs.Prelude.{◌≡◌, Option, Some, None};
ghost use Rattle.std.specs.Ptr.{null_ptr};
ghost use Rattle.sessions.specs.Journal.{TheSession};
ghost use Rattle.c_sessions.specs.Inside.Held.{held_service};

use c_handles::Loose;
use sessions::Service;
use std::alloc::Global;
use std::marker::Model;
use std::ptr::null_mut;

/// A service, or none.
#[repr(C)]
#[derive(Drop)]
pub struct LooseService {
    at: *mut u8,
    alloc: Global,
    pub ghost value: { Option TheSession },
}

impl Model for LooseService {
    ghost also_owns = { λ l. held_service l.alloc l.at l.value };
}

impl LooseService {
    /// None: a null pointer.
    pub(crate) fn empty(alloc: Global) -> LooseService
        ensures { (result.value ≡ None) × (result.at ≡ null_ptr) }
    {
        LooseService {
            at: null_mut(),
            alloc,
        }
    }

    /// The service of a box.
    pub(crate) fn of(held: Loose<Service, Global>) -> LooseService
        ensures { result.value ≡ Some held.value }
    {
        let Loose { at, alloc } = held;
        LooseService {
            at: at as *mut u8,
            alloc,
        }
    }

    /// The box of the service.
    pub(crate) fn into_loose(self) -> Loose<Service, Global>
        ghost v: { TheSession }
        requires { self.value ≡ Some v }
        ensures { result.value ≡ v }
    {
        let LooseService { at, alloc } = self;
        Loose {
            at: at as *mut Service,
            alloc,
        }
    }
}
