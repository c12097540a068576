//! Streams in memory.

ghost use Rattle.std.specs.Prelude.{◌≡◌, [], Some, false, string_bytes};

use std::alloc::Global;
use std::fmt::Display;
use tracer::{Failure, Stream};

/// A text that is written to.
#[derive(Drop)]
pub struct Sheet {
    pub text: String,
    /// Whether memory ran out.
    pub failed: bool,
}

impl Sheet {
    /// The empty text.
    pub fn new(alloc: Global) -> Sheet
        ensures empty { string_bytes result.text ≡ [] }
        ensures sound { result.failed ≡ false }
    {
        Sheet {
            text: String::new(alloc),
            failed: false,
        }
    }
}

impl Stream for Sheet {
    ghost contents = { λ s. Some (string_bytes s.text) };

    ghost failed = { λ s. s.failed };

    fn print<D: Display + Drop>(&mut self, text: D) -> Result<(), Failure> {
        let written = write!(self.text, "{text}");
        if written.is_err() {
            self.failed = true;
            return Err(Failure::Memory);
        }
        Ok(())
    }
}
