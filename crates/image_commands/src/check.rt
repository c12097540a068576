//! The command `check`.

ghost use Rattle.std.specs.Prelude.{◌≡◌, ℕ, List, IfErr, IfOk, Some};
ghost use Rattle.image_commands.specs.Check.{IsAccepted, IsUnaccepted, accepted_text};
ghost use Rattle.image_commands.specs.Fault.{FaultOf};

use crate::fault::Fault;
use crate::files::Files;
use crate::site::Site;
use limits::SLOTS;
use std::alloc::Global;
use std::fmt;

/// How many bytes of an image file are read: as many as the largest one has, and one more.
pub const IMAGE_LIMIT: usize = 8 + 8 * SLOTS + 1;

/// The answer of `check`. It prints as its line.
#[derive(Clone, Copy, Debug, PartialEq, Eq)]
pub struct Accepted {
    /// How many instructions the image has; a wide one counts once.
    pub count: usize,
}

impl fmt::Display for Accepted {
    ghost output = { λ a. Some (accepted_text a.count) };

    fn fmt<W: fmt::Write>(&self, f: &mut fmt::Formatter<W>) -> fmt::Result {
        let count = self.count;
        writeln!(f, "accepted {count} instructions")
    }
}

/// Verifies the image in a file, of any form.
pub fn check_image<F: Files>(
    alloc: Global,
    path: &str,
    files: &mut F,
    site: &mut Site,
) -> Result<Accepted, Fault>
    ensures accepted { IfOk result (λ a. (bytes : List ℕ) → F.content files.old path.now ≡ Some bytes
        → IsAccepted bytes a.count) }
    ensures same { F.content files.new ≡ F.content files.old }
    ensures fault { IfErr result (FaultOf (F.content files.old) (F.failed files.new) path.now IsUnaccepted) }
{
    let bytes = site.read(alloc, path, Some(IMAGE_LIMIT), files)?;
    let image = verifier::load_any(alloc, bytes.as_slice())?;
    let count = image.count();
    Ok(Accepted { count })
}
