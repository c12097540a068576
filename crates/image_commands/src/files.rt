//! Whole files by their paths.

ghost use Rattle.std.specs.Prelude.{◌≡◌, ◌≢◌, ℕ, Bool, true, List, Option, None, Some, IfErr, IfOk, OnErr, OnOk};
ghost use Rattle.image_commands.specs.Files.{up_to};
ghost use Rattle.image_commands.specs.declared.files.Failure.TheVariants.{Memory};

use std::alloc::{AllocError, Global};
use thiserror::Error;

/// Why a file was not read or written, or a stream not written.
#[derive(Clone, Copy, Debug, PartialEq, Eq, Error)]
pub enum Failure {
    #[error("out of memory")]
    Memory,
    #[error("input or output")]
    InputOutput(Reason),
}

/// Why input or output failed, as far as that is known.
#[derive(Clone, Copy, Debug, PartialEq, Eq)]
pub enum Reason {
    /// Nothing is there, or no folder on the way to it.
    Missing,
    /// Not allowed.
    Denied,
    /// It is a folder.
    Folder,
    /// No space is left.
    Full,
    Other,
}

impl From<AllocError> for Failure {
    ghost from_gives = { λ _ e. e ≡ Memory };

    fn from(_e: AllocError) -> Failure {
        Failure::Memory
    }
}

/// Files that can be read, and replaced whole.
pub trait Files {
    // The bytes of the file at a path, if they are known.
    ghost content: { Self → List ℕ → Option (List ℕ) } = { λ _ _. None };

    // Whether a read or a write has failed by input or output, if that is known.
    ghost failed: { Self → Bool } = { λ _. true };

    // Whether two paths may lead to one file.
    ghost may_be_one: { List ℕ → List ℕ → Bool } = { λ _ _. true };

    /// Whether two paths lead to one file. A path leads to the same file as itself, even if nothing is there.
    fn is_one(&self, alloc: Global, path: &str, other: &str) -> Result<bool, Failure>
        ensures one { IfOk result (λ one. one ≡ true → may_be_one path.now other.now ≡ true) }
        ensures same { IfOk result (λ one. path.now ≡ other.now → one ≡ true) }
        ensures fault { IfErr result (λ e. e ≡ Memory) };

    /// The bytes of a file, at most as many as the limit.
    fn read(&mut self, alloc: Global, path: &str, limit: Option<usize>) -> Result<Vec<u8>, Failure>
        ensures bytes { IfOk result (λ v. (bytes : List ℕ) → content self.old path.now ≡ Some bytes
            → v.items ≡ up_to limit bytes) }
        ensures same { content self.new ≡ content self.old }
        ensures sound { OnOk result (failed self.new ≡ failed self.old) }
        ensures fault { IfErr result (λ e. e ≢ Memory → failed self.new ≡ true) };

    /// Makes a file of these bytes, or replaces the bytes of the file that is there. If that fails, the file stays as it was.
    fn write(&mut self, path: &str, bytes: &[u8]) -> Result<(), Failure>
        ensures bytes { OnOk result ((old : List ℕ) → content self.old path.now ≡ Some old
            → content self.new path.now ≡ Some bytes.now) }
        ensures others { OnOk result ((other : List ℕ) → other ≢ path.now
            → content self.new other ≡ content self.old other) }
        ensures same { OnErr result (content self.new ≡ content self.old) }
        ensures fault { IfErr result (λ e. e ≢ Memory → failed self.new ≡ true) };
}
