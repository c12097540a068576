//! The handle that a program in C holds.

ghost use Rattle.std.specs.Prelude.{◌≡◌, IfNone, IfSome, Some, None, false, is_some};
ghost use Rattle.std.specs.Ptr.{null_ptr};

use crate::gateways::loose::LooseGateway;
use c_handles::Loose;
use gateway::Gateway;
use std::alloc::Global;
use std::mem::replace;

/// A gateway, or none if it is closed. A program makes it of zeros, and doesn't touch its bytes.
#[repr(C)]
#[derive(Drop)]
pub struct GatewayHandle {
    pub gateway: LooseGateway,
    held: bool,
    ghost held_is: { held ≡ is_some gateway.value },
}

impl GatewayHandle {
    /// A closed handle, which is all zeros: a null pointer and a mark of 0.
    #[inline(always)]
    pub fn closed(alloc: Global) -> GatewayHandle
        ensures closed { result.gateway.value ≡ None }
        ensures zeros { (result.gateway.at ≡ null_ptr) × (result.held ≡ false) }
    {
        GatewayHandle {
            gateway: LooseGateway::empty(alloc),
            held: false,
        }
    }

    /// Takes the gateway out, and leaves the handle closed.
    #[inline(always)]
    pub fn take(&mut self, alloc: Global) -> Option<Box<Gateway>>
        ensures closed { self.new.gateway.value ≡ None }
        ensures none { IfNone result (self.old.gateway.value ≡ None) }
        ensures some { IfSome result (λ b. self.old.gateway.value ≡ Some b.value) }
    {
        if !self.held {
            return None;
        }
        let GatewayHandle { gateway, held: _ } = replace(self, GatewayHandle::closed(alloc));
        Some(gateway.into_loose().into_box())
    }

    /// Puts a gateway into a closed handle.
    #[inline(always)]
    pub fn put(&mut self, gateway: Box<Gateway>)
        ensures { self.new.gateway.value ≡ Some gateway.value }
    {
        *self = GatewayHandle {
            gateway: LooseGateway::of(Loose::of(gateway)),
            held: true,
        };
    }

    /// Whether it is open.
    pub fn is_open(&mut self) -> bool
        ensures same { self.new.gateway.value ≡ self.old.gateway.value }
        ensures open { result ≡ is_some self.old.gateway.value }
    {
        self.held
    }
}
