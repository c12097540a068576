//! Files in memory.

ghost use Rattle.std.specs.Prelude.{◌≡◌, IfErr, IfOk, map, option_map, string_bytes};
ghost use Rattle.std.specs.Str.{bytes_eq};
ghost use Rattle.image_commands.specs.Files.{up_to};
ghost use Rattle.image_commands.specs.declared.files.Failure.TheVariants.{Memory};
ghost use Rattle.page_calls.specs.Shelf.{content_of, content_with};

use std::alloc::Global;
use std::marker::{Brand, PhantomData};
use tracer::{Failure, Files, Reason};

/// The files that a call gave.
pub trait Stock {
    ghost use Rattle.std.specs.Prelude.{List, ℕ};

    ghost names: { List (List ℕ) };

    ghost files: { List (List ℕ) };
}

impl Stock for Brand {
    ghost use Rattle.std.specs.Prelude.{[]};

    ghost names = { [] };

    ghost files = { [] };
}

/// A file that was written.
#[derive(Drop)]
pub struct ShelvedFile {
    pub name: String,
    pub bytes: Vec<u8>,
}

/// Files in memory by their names, of which the first with a name counts, and before them the one that was written. The call's
/// files never change.
#[derive(Drop)]
pub struct Shelf<S: Stock> {
    pub alloc: Global,
    pub names: Vec<String>,
    pub files: Vec<Vec<u8>>,
    pub written: Option<ShelvedFile>,
    /// Whether a file was not there, or a second one was written.
    pub failed: bool,
    pub stock: PhantomData<S>,
    ghost same_names: { map string_bytes names.items ≡ S.names },
    ghost same_files: { map (λ v. v.items) files.items ≡ S.files },
}

/// The first file of this name.
fn find<'a>(names: &[String], files: &'a [Vec<u8>], path: &str) -> Option<&'a Vec<u8>>
    ensures { option_map (λ file. file.now.items) result ≡ content_of (map string_bytes names.now) (map (λ v. v.items) files.now) path.now }
{
    let (Some((name, names)), Some((file, files))) = (names.split_first(), files.split_first())
    else {
        return None;
    };
    if name.as_str() == path {
        return Some(file);
    }
    find(names, files, path)
}

/// The bytes, at most as many as the limit.
fn some_of(alloc: Global, bytes: &[u8], limit: Option<usize>) -> Result<Vec<u8>, Failure>
    ensures some { IfOk result (λ v. v.items ≡ up_to limit bytes.now) }
    ensures fault { IfErr result (λ e. e ≡ Memory) }
{
    let read = match limit {
        Some(limit) if limit < bytes.len() => &bytes[..limit],
        _ => bytes,
    };
    match read.to_vec(alloc) {
        Ok(bytes) => Ok(bytes),
        Err(_) => Err(Failure::Memory),
    }
}

impl<S: Stock> Files for Shelf<S> {
    ghost content = { λ s. content_with s.written (map string_bytes s.names.items) (map (λ v. v.items) s.files.items) };

    ghost failed = { λ s. s.failed };

    ghost may_be_one = { bytes_eq };

    fn is_one(&self, _alloc: Global, path: &str, other: &str) -> Result<bool, Failure> {
        Ok(path == other)
    }

    fn read(
        &mut self,
        alloc: Global,
        path: &str,
        limit: Option<usize>,
    ) -> Result<Vec<u8>, Failure> {
        if let Some(written) = &self.written
            && written.name.as_str() == path
        {
            return some_of(alloc, written.bytes.as_slice(), limit);
        }
        let Some(bytes) = find(self.names.as_slice(), self.files.as_slice(), path) else {
            self.failed = true;
            return Err(Failure::InputOutput(Reason::Missing));
        };
        some_of(alloc, bytes.as_slice(), limit)
    }

    /// Writes a file, but no second one.
    fn write(&mut self, path: &str, bytes: &[u8]) -> Result<(), Failure> {
        if self.written.is_some() {
            self.failed = true;
            return Err(Failure::InputOutput(Reason::Other));
        }
        let Ok(name) = path.to_string(self.alloc) else {
            return Err(Failure::Memory);
        };
        let Ok(bytes) = bytes.to_vec(self.alloc) else {
            return Err(Failure::Memory);
        };
        self.written = Some(ShelvedFile { name, bytes });
        Ok(())
    }
}
