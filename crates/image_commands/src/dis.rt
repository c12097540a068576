//! The command `dis`.

ghost use Rattle.std.specs.Prelude.{◌≡◌, ℕ, List, IfErr, IfOk, Some, string_bytes};
ghost use Rattle.image_commands.specs.Dis.{IsListing, IsUnlisted};
ghost use Rattle.image_commands.specs.Fault.{FaultOf};

use crate::check::IMAGE_LIMIT;
use crate::fault::Fault;
use crate::files::Files;
use crate::site::Site;
use assemble::disassemble;
use std::alloc::Global;
use verifier::any_parts;

/// The assembler text of the image in a file. It does not verify the code.
pub fn disassemble_image<F: Files>(
    alloc: Global,
    path: &str,
    files: &mut F,
    site: &mut Site,
) -> Result<String, Fault>
    ensures listing { IfOk result (λ t. (bytes : List ℕ) → F.content files.old path.now ≡ Some bytes
        → IsListing bytes (string_bytes t)) }
    ensures same { F.content files.new ≡ F.content files.old }
    ensures fault { IfErr result (FaultOf (F.content files.old) (F.failed files.new) path.now IsUnlisted) }
{
    let bytes = site.read(alloc, path, Some(IMAGE_LIMIT), files)?;
    let (code, _state, _form) = any_parts(alloc, bytes.as_slice())?;
    let text = disassemble(alloc, code.as_slice())?;
    Ok(text)
}
