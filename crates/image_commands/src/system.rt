//! The files of the system.

ghost use Rattle.std.specs.Prelude.{◌≡◌, IfErr};
ghost use Rattle.image_commands.specs.declared.files.Failure.TheVariants.{Memory};

use crate::files::{Failure, Files};
use crate::place::Place;
use crate::standard_streams::note;
use std::alloc::Global;
use std::cell::Cell;
use std::fs::{OpenFile, OpenOptions, Permissions};
use std::io::{Read, Write};
use std::os::unix::fs::MetadataExt;
use std::path::Path;
use std::{fs, io, rt};

/// The files of the system. A plain file is written next to its place first, and then takes the place at once.
#[derive(Drop)]
pub struct SystemFiles<'a, R: rt::Files + AllocGlobal> {
    pub rt: &'a R,
    /// The number of this process, so that no other process writes a file of the same name next to a place.
    pub process: u32,
    /// Whether a write has failed since nobody reads any more.
    pub broken: &'a Cell<bool>,
}

impl<'a, R: rt::Files + AllocGlobal> Files for SystemFiles<'a, R> {
    fn is_one(&self, _alloc: Global, path: &str, other: &str) -> Result<bool, Failure> {
        if path == other {
            return Ok(true);
        }
        match (identity(self.rt, path)?, identity(self.rt, other)?) {
            (Some(one), Some(other)) => Ok(one == other),
            _ => Ok(false),
        }
    }

    fn read(
        &mut self,
        alloc: Global,
        path: &str,
        limit: Option<usize>,
    ) -> Result<Vec<u8>, Failure> {
        let mut bytes = Vec::new(alloc);
        let mut file = fs::open(self.rt, path)?;
        match limit {
            Some(limit) => file.take(limit as u64).read_to_end(&mut bytes)?,
            None => file.read_to_end(&mut bytes)?,
        };
        Ok(bytes)
    }

    fn write(&mut self, path: &str, bytes: &[u8]) -> Result<(), Failure> {
        let written = put(self.rt, self.process, path, bytes);
        if let Err(e) = &written {
            note(e, self.broken);
        }
        written.map_err(Failure::from)
    }
}

/// The device and the number of the plain file to which a path leads. A device or a pipe has none, since it may be read and
/// written at once, and so has what isn't found.
fn identity<R: rt::Files + AllocGlobal>(rt: &R, path: &str) -> Result<Option<(u64, u64)>, Failure>
    ensures { IfErr result (λ e. e ≡ Memory) }
{
    match fs::metadata(rt, path) {
        Ok(found) if found.is_file() => Ok(Some((found.dev(), found.ino()))),
        Err(e) if e.kind() == io::ErrorKind::OutOfMemory => Err(Failure::Memory),
        _ => Ok(None),
    }
}

/// Puts these bytes at the place to which a path leads.
fn put<R: rt::Files + AllocGlobal>(
    rt: &R,
    process: u32,
    path: &str,
    bytes: &[u8],
) -> io::Result<()> {
    match Place::of(rt, path)? {
        Place::Plain(place, permissions) => {
            replace(rt, process, place.as_str(), bytes, permissions)
        }
        Place::Open(place) => {
            let mut file = OpenOptions::new().append(true).open(rt, place.as_str())?;
            file.write_all(bytes)
        }
        Place::Special(place) => {
            let mut file = OpenOptions::new().write(true).open(rt, place.as_str())?;
            file.write_all(bytes)
        }
    }
}

/// Puts a file of these bytes at a path as a whole. If that fails, what was there stays.
fn replace<R: rt::Files + AllocGlobal>(
    rt: &R,
    process: u32,
    place: &str,
    bytes: &[u8],
    permissions: Option<Permissions>,
) -> io::Result<()> {
    let alloc = rt.alloc();
    // An earlier process of the same number may have left a file of this name: try the next one.
    for counter in 0..u32::MAX {
        let name = format!(in alloc; ".sblog-{process}-{counter}")?;
        let beside = Path::new(place).with_file_name(alloc, name.as_str())?;
        let mut file = match OpenOptions::new()
            .write(true)
            .create_new(true)
            .open(rt, beside.as_str())
        {
            Ok(file) => file,
            Err(e) if e.kind() == io::ErrorKind::AlreadyExists => continue,
            Err(e) => return Err(e),
        };
        let placed = fill(&mut file, bytes, permissions).and_then(|()| fs::rename(
            rt,
            beside.as_str(),
            place,
        ));
        if placed.is_err() {
            let _ = fs::remove_file(rt, beside.as_str());
        }
        return placed;
    }
    Err(io::Error::from(io::ErrorKind::AlreadyExists))
}

/// Writes a new file.
fn fill<W: Write + OpenFile>(
    file: &mut W,
    bytes: &[u8],
    permissions: Option<Permissions>,
) -> io::Result<()> {
    if let Some(permissions) = permissions {
        file.set_permissions(permissions)?;
    }
    file.write_all(bytes)
}
