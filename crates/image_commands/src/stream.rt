//! Streams of texts.

ghost use Rattle.std.specs.Prelude.{◌≡◌, ℕ, Bool, true, List, Option, None, IfSome, OnErr, OnOk};
ghost use Rattle.std.specs.Io.KnownBytes.{Appends};

use crate::files::{Failure, Reason};
use std::fmt::Display;
use std::io;
use std::io::Write;

/// A stream that takes whole texts.
pub trait Stream {
    // The bytes that were written, if they are known.
    ghost contents: { Self → Option (List ℕ) } = { λ _. None };

    // Whether a write has failed, if that is known.
    ghost failed: { Self → Bool } = { λ _. true };

    /// Writes a text. If that fails, a part of it may have been written.
    fn print<D: Display + Drop>(&mut self, text: D) -> Result<(), Failure>
        ensures whole { OnOk result (IfSome (D.output text) (Appends (contents self.old) (contents self.new))) }
        ensures sound { OnOk result (failed self.new ≡ failed self.old) }
        ensures fault { OnErr result (failed self.new ≡ true) };
}

/// A writer as a stream.
#[derive(Drop)]
pub struct Written<'a, W: Write> {
    pub writer: &'a mut W,
    /// Whether a write has failed.
    pub failed: bool,
}

impl<'a, W: Write> Written<'a, W> {
    /// The stream of a writer, before its first write.
    pub fn new(writer: &'a mut W) -> Written<'a, W> {
        Written {
            writer,
            failed: false,
        }
    }
}

impl<W: Write> Stream for Written<'_, W> {
    ghost contents = { λ w. W.contents w.writer.now };

    ghost failed = { λ w. w.failed };

    fn print<D: Display + Drop>(&mut self, text: D) -> Result<(), Failure> {
        let written = write!(self.writer, "{text}");
        if written.is_err() {
            self.failed = true;
        }
        written.map_err(Failure::from)
    }
}

impl From<io::Error> for Failure {
    fn from(e: io::Error) -> Failure {
        match e.kind() {
            io::ErrorKind::OutOfMemory => Failure::Memory,
            io::ErrorKind::NotFound | io::ErrorKind::NotADirectory => {
                Failure::InputOutput(Reason::Missing)
            }
            io::ErrorKind::PermissionDenied | io::ErrorKind::ReadOnlyFilesystem => {
                Failure::InputOutput(Reason::Denied)
            }
            io::ErrorKind::IsADirectory => Failure::InputOutput(Reason::Folder),
            io::ErrorKind::StorageFull | io::ErrorKind::QuotaExceeded => {
                Failure::InputOutput(Reason::Full)
            }
            _ => Failure::InputOutput(Reason::Other),
        }
    }
}
