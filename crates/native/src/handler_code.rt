//! Machine code that knows its image.

use interp::Handler;
use std::marker::Model;

/// The machine code of a handler's image, for x86-64 processors, entered at its first byte. Its type says that its
/// bytes are the code of just this image. It borrows the handler, and keeps nothing else of it.
#[derive(Drop)]
pub struct Code<'h> {
    pub(crate) handler: &'h Handler,
    pub(crate) bytes: Vec<u8>,
}

impl<'h> Model for Code<'h> {
    ghost use Rattle.interp.specs.Image.{the_image};
    ghost use Rattle.native.specs.HandlerCode.{IsCode, TheCode};

    ghost Value = { TheCode };

    ghost view = { λ c. record { image = the_image c.handler.now; bytes = c.bytes.items } };

    ghost invariant = { λ c. IsCode (the_image c.handler.now) c.bytes.items };
}

impl<'h> Code<'h> {
    ghost use Rattle.std.specs.Prelude.{◌≡◌};
    ghost use Rattle.native.specs.AnyForm.{IsNativeOf};
    ghost use Rattle.native.specs.HandlerCode.{IsCode};

    /// Its bytes.
    pub fn bytes(&self) -> &[u8]
        ensures bytes { result.now ≡ self.now.bytes }
        ensures native { IsNativeOf self.now.image result.now }
        ensures code { IsCode self.now.image result.now }
    {
        self.bytes.as_slice()
    }

    /// Its bytes, without the handler.
    pub fn into_bytes(self) -> Vec<u8>
        ensures bytes { result.items ≡ self.entry.bytes }
        ensures native { IsNativeOf self.entry.image result.items }
        ensures code { IsCode self.entry.image result.items }
    {
        let Code { handler: _, bytes } = self;
        bytes
    }
}
