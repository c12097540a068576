//! The command `native`.

ghost use Rattle.std.specs.Prelude.{◌≡◌, ℕ, List, IfErr, IfOk, OnErr, OnOk, Some};
ghost use Rattle.image_commands.specs.Check.{IsUnaccepted};
ghost use Rattle.image_commands.specs.Files.{IsWritten, MakesFile};
ghost use Rattle.image_commands.specs.Native.{IsMachineCode};
ghost use Rattle.image_commands.specs.OwnInput.{IsMakeFault};
ghost use Rattle.image_commands.specs.Fault.{FaultOf};

use crate::fault::Fault;
use crate::files::Files;
use crate::loader::load_handler;
use crate::own_input::spare;
use crate::site::Site;
use native::compile_handler;
use std::alloc::Global;

/// The machine code of the image in a file, of any form.
fn machine_code<F: Files>(
    alloc: Global,
    path: &str,
    files: &mut F,
    site: &mut Site,
) -> Result<Vec<u8>, Fault>
    ensures compiled { IfOk result (λ v. (bytes : List ℕ) → F.content files.old path.now ≡ Some bytes
        → IsMachineCode bytes v.items) }
    ensures same { F.content files.new ≡ F.content files.old }
    ensures fault { IfErr result (FaultOf (F.content files.old) (F.failed files.new) path.now IsUnaccepted) }
{
    let handler = load_handler(alloc, path, files, site)?;
    let code = compile_handler(alloc, &handler)?;
    Ok(code.into_bytes())
}

/// Verifies the image in a file, of any form, and writes its machine code into another file.
pub fn write_machine_code<F: Files>(
    alloc: Global,
    image: &str,
    code: &str,
    files: &mut F,
    site: &mut Site,
) -> Result<(), Fault>
    ensures made { OnOk result (MakesFile (F.content files.old) image.now (λ bytes file. IsMachineCode bytes file)) }
    ensures left { OnOk result (IsWritten image.now code.now (λ bytes file. IsMachineCode bytes file)
        (F.content files.old) (F.content files.new)) }
    ensures fault { IfErr result (IsMakeFault F.may_be_one (F.content files.old) (F.failed files.new) image.now code.now IsUnaccepted) }
    ensures kept { OnErr result (F.content files.new ≡ F.content files.old) }
{
    spare(alloc, image, code, files)?;
    let bytes = machine_code(alloc, image, files, site)?;
    site.write(code, bytes.as_slice(), files)?;
    Ok(())
}
