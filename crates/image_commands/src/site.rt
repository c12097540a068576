//! The file that a command reads or writes.

ghost use Rattle.std.specs.Prelude.{◌≡◌, ◌≢◌, ℕ, true, List, Some, IfErr, IfOk, OnErr, OnOk};
ghost use Rattle.image_commands.specs.Files.{up_to};
ghost use Rattle.image_commands.specs.declared.files.Failure.TheVariants.{Memory};

use crate::files::{Failure, Files, Reason};
use crate::kind::{FileKind, kind_of};
use crate::look::{look_of, lost_words};
use std::alloc::{AllocError, Global};
use std::fmt;

/// The file that a command reads or writes, or did last. It prints as its path, after the process whose image it is.
#[derive(Debug, Drop)]
pub struct Site {
    pub process: Option<String>,
    pub path: String,
    /// Why it was not read or written, if that failed.
    pub reason: Option<Reason>,
    /// What it looks like, if it was read.
    pub kind: FileKind,
    /// What is wrong with the line that the fault names, or what the file looks like in place of an image, as a line of text; or
    /// empty.
    pub words: String,
    /// The bytes of the image that was read last, for hints on its code; or empty.
    pub image: Vec<u8>,
    /// Hints on a command that was carried out, as lines of text; or empty.
    pub note: String,
}

impl Site {
    /// A site before the first file.
    pub fn new(alloc: Global) -> Site {
        Site {
            process: None,
            path: String::new(alloc),
            reason: None,
            kind: FileKind::Other,
            words: String::new(alloc),
            image: Vec::new(alloc),
            note: String::new(alloc),
        }
    }

    /// Keeps what the command line may be meant for until a file is read or written.
    pub fn expect(&mut self, words: &str) {
        let _kept = self.words.push_str(words);
    }

    /// The image of this process is read next.
    pub fn enter(&mut self, alloc: Global, process: &str) -> Result<(), AllocError> {
        self.process = Some(String::from_str(alloc, process)?);
        Ok(())
    }

    /// The file at this path is read or written next.
    fn reach(&mut self, path: &str) -> Result<(), AllocError> {
        self.reason = None;
        self.kind = FileKind::Other;
        self.words.clear();
        self.image.clear();
        self.path.clear();
        self.path.push_str(path)
    }

    /// Keeps why the file was not read or written.
    fn keep(&mut self, failure: Failure) {
        if let Failure::InputOutput(reason) = failure {
            self.reason = Some(reason);
        }
    }

    /// Reads a file, as `Files::read` does.
    pub fn read<F: Files>(
        &mut self,
        alloc: Global,
        path: &str,
        limit: Option<usize>,
        files: &mut F,
    ) -> Result<Vec<u8>, Failure>
        ensures bytes { IfOk result (λ v. (bytes : List ℕ) → F.content files.old path.now ≡ Some bytes
            → v.items ≡ up_to limit bytes) }
        ensures same { F.content files.new ≡ F.content files.old }
        ensures sound { OnOk result (F.failed files.new ≡ F.failed files.old) }
        ensures fault { IfErr result (λ e. e ≢ Memory → F.failed files.new ≡ true) }
    {
        self.reach(path)?;
        match files.read(alloc, path, limit) {
            Ok(bytes) => {
                self.kind = kind_of(bytes.as_slice());
                if self.kind == FileKind::Other {
                    self.words.push_str(look_of(bytes.as_slice()))?;
                } else if self.kind != FileKind::Object {
                    self.image.extend_from_slice(bytes.as_slice())?;
                }
                Ok(bytes)
            }
            Err(failure) => {
                self.keep(failure);
                if self.reason == Some(Reason::Missing) {
                    self.words
                        .push_str(lost_words(path, self.process.is_some()))?;
                }
                Err(failure)
            }
        }
    }

    /// Writes a file that is no process's image, as `Files::write` does.
    pub fn write<F: Files>(
        &mut self,
        path: &str,
        bytes: &[u8],
        files: &mut F,
    ) -> Result<(), Failure>
        ensures bytes { OnOk result ((old : List ℕ) → F.content files.old path.now ≡ Some old
            → F.content files.new path.now ≡ Some bytes.now) }
        ensures others { OnOk result ((other : List ℕ) → other ≢ path.now
            → F.content files.new other ≡ F.content files.old other) }
        ensures same { OnErr result (F.content files.new ≡ F.content files.old) }
        ensures fault { IfErr result (λ e. e ≢ Memory → F.failed files.new ≡ true) }
    {
        self.process = None;
        self.reach(path)?;
        match files.write(path, bytes) {
            Ok(()) => Ok(()),
            Err(failure) => {
                self.keep(failure);
                Err(failure)
            }
        }
    }
}

impl fmt::Display for Site {
    fn fmt<W: fmt::Write>(&self, f: &mut fmt::Formatter<W>) -> fmt::Result {
        let path = self.path.as_str();
        match &self.process {
            None => f.write_str(path),
            Some(name) => write!(f, "process {name}, {path}"),
        }
    }
}
