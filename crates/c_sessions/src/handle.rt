//! The handle by which a program in C holds a session.

ghost use Rattle.std.specs.Prelude.{◌≡◌, IfNone, IfSome, Some, None, false, is_some};
ghost use Rattle.std.specs.Ptr.{null_ptr};

use crate::loose::LooseService;
use c_handles::Loose;
use sessions::Service;
use std::alloc::Global;
use std::mem::replace;

/// A session, or none if the handle is closed. A program makes it of zeros and doesn't touch its
/// bytes.
#[repr(C)]
#[derive(Drop)]
pub struct SessionHandle {
    pub session: LooseService,
    held: bool,
    ghost held_is: { held ≡ is_some session.value },
}

impl SessionHandle {
    /// A closed handle, which is all zeros: a null pointer and a mark of 0.
    #[inline(always)]
    pub(crate) fn closed(alloc: Global) -> SessionHandle
        ensures closed { result.session.value ≡ None }
        ensures zeros { (result.session.at ≡ null_ptr) × (result.held ≡ false) }
    {
        SessionHandle {
            session: LooseService::empty(alloc),
            held: false,
        }
    }

    /// Takes out the session. The handle is closed then.
    #[inline(always)]
    pub(crate) fn take(&mut self, alloc: Global) -> Option<Box<Service>>
        ensures closed { self.new.session.value ≡ None }
        ensures none { IfNone result (self.old.session.value ≡ None) }
        ensures some { IfSome result (λ b. self.old.session.value ≡ Some b.value) }
    {
        if !self.held {
            return None;
        }
        let SessionHandle { session, held: _ } = replace(self, SessionHandle::closed(alloc));
        Some(session.into_loose().into_box())
    }

    /// Puts a session into a closed handle.
    #[inline(always)]
    pub(crate) fn put(&mut self, service: Box<Service>)
        ensures { self.new.session.value ≡ Some service.value }
    {
        *self = SessionHandle {
            session: LooseService::of(Loose::of(service)),
            held: true,
        };
    }

    /// Whether the handle is open.
    pub(crate) fn is_open(&mut self) -> bool
        ensures same { self.new.session.value ≡ self.old.session.value }
        ensures open { result ≡ is_some self.old.session.value }
    {
        self.held
    }
}
