//! The place to which a path leads.

use std::fs::Permissions;
use std::os::unix::fs::PermissionsExt;
use std::path::{Path, PathBuf};
use std::{fs, io, rt};

/// How many links in a row are followed; as many as the system follows.
const LINKS: u32 = 40;

/// The bits of a mode that say who may read, write and run. Setuid, setgid and sticky lie above them.
const ACCESS: u32 = 0o777;

/// The place to which a path leads, after all links.
#[derive(Drop)]
pub enum Place {
    /// A plain file, with the permissions that a new one takes over; or nothing yet, without permissions.
    Plain(PathBuf, Option<Permissions>),
    /// The link of an open file in `/proc`, as that of `/dev/stdout`: it has what was written to it so far.
    Open(PathBuf),
    /// A device, a pipe or a folder.
    Special(PathBuf),
}

impl Place {
    /// Follows the links of a path. A link that leads to nothing leads to the place of a new file.
    pub fn of<R: rt::Files + AllocGlobal>(rt: &R, path: &str) -> io::Result<Place> {
        let mut path = PathBuf::from_str(rt.alloc(), path)?;
        for _ in 0..LINKS {
            let found = match fs::symlink_metadata(rt, path.as_str()) {
                Ok(found) => found,
                Err(e) if e.kind() == io::ErrorKind::NotFound => {
                    return Ok(Place::Plain(path, None));
                }
                Err(e) => return Err(e),
            };
            if found.is_file() {
                let mode = found.permissions().mode() & ACCESS;
                return Ok(Place::Plain(path, Some(Permissions::from_mode(mode))));
            }
            if !found.is_symlink() {
                return Ok(Place::Special(path));
            }
            if is_open_file(rt, path.as_str())? {
                return Ok(Place::Open(path));
            }
            let target = fs::read_link(rt, path.as_str())?;
            path.pop();
            path.push(target.as_str())?;
        }
        Err(io::Error::from(io::ErrorKind::FilesystemLoop))
    }
}

/// Whether a link lies in `/proc`: such a link leads to an open file, and not to the path that it says.
fn is_open_file<R: rt::Files + AllocGlobal>(rt: &R, link: &str) -> io::Result<bool> {
    let here = Path::new(link).with_file_name(rt.alloc(), ".")?;
    let folder = fs::canonicalize(rt, here.as_str())?;
    Ok(folder.starts_with("/proc"))
}
