//! The command `explain`.

ghost use Rattle.std.specs.Prelude.{◌≡◌, ℕ, List, IfErr, IfOk, Some, string_bytes};
ghost use Rattle.listing.specs.FileListing.{IsFileExplained};
ghost use Rattle.image_commands.specs.Explain.{IsUnexplained};
ghost use Rattle.image_commands.specs.Fault.{FaultOf};

use crate::check::IMAGE_LIMIT;
use crate::fault::Fault;
use crate::files::Files;
use crate::site::Site;
use listing::explain_file;
use std::alloc::Global;

/// The listing of the image in a file, whether or not the verifier accepts its code.
pub fn explain_image<F: Files>(
    alloc: Global,
    path: &str,
    files: &mut F,
    site: &mut Site,
) -> Result<String, Fault>
    ensures listing { IfOk result (λ t. (bytes : List ℕ) → F.content files.old path.now ≡ Some bytes
        → IsFileExplained bytes (string_bytes t)) }
    ensures same { F.content files.new ≡ F.content files.old }
    ensures fault { IfErr result (FaultOf (F.content files.old) (F.failed files.new) path.now IsUnexplained) }
{
    let bytes = site.read(alloc, path, Some(IMAGE_LIMIT), files)?;
    let text = explain_file(alloc, bytes.as_slice())?;
    Ok(text)
}
