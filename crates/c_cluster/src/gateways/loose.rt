//! A gateway on the heap as an untyped pointer, since only plain types cross to C.

ghost use Rattle.std.specs.Prelude.{◌≡◌, Option, Some, None};
ghost use Rattle.std.specs.Ptr.{null_ptr};
ghost use Rattle.gateway.specs.Gateway.{TheGateway};
ghost use Rattle.c_cluster.specs.Inside.Held.{held_gateway};

use c_handles::Loose;
use gateway::Gateway;
use std::alloc::Global;
use std::marker::Model;
use std::ptr::null_mut;

/// A gateway, or nothing.
#[repr(C)]
#[derive(Drop)]
pub struct LooseGateway {
    at: *mut u8,
    alloc: Global,
    pub ghost value: { Option TheGateway },
}

impl Model for LooseGateway {
    ghost also_owns = { λ l. held_gateway l.alloc l.at l.value };
}

impl LooseGateway {
    /// Nothing, at null.
    pub(crate) fn empty(alloc: Global) -> LooseGateway
        ensures { (result.value ≡ None) × (result.at ≡ null_ptr) }
    {
        LooseGateway {
            at: null_mut(),
            alloc,
        }
    }

    /// The gateway of a box.
    pub(crate) fn of(held: Loose<Gateway, Global>) -> LooseGateway
        ensures { result.value ≡ Some held.value }
    {
        let Loose { at, alloc } = held;
        LooseGateway {
            at: at as *mut u8,
            alloc,
        }
    }

    /// Puts the box together again.
    pub(crate) fn into_loose(self) -> Loose<Gateway, Global>
        ghost v: { TheGateway }
        requires { self.value ≡ Some v }
        ensures { result.value ≡ v }
    {
        let LooseGateway { at, alloc } = self;
        Loose {
            at: at as *mut Gateway,
            alloc,
        }
    }
}
