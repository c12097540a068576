//! The command `asm`.

ghost use Rattle.std.specs.Prelude.{◌≡◌, ◌≤◌, ℕ, IfErr, IfOk, List, OnErr, OnOk, take};
ghost use Rattle.image_commands.specs.Asm.{IsAssembled, IsUnassembled};
ghost use Rattle.image_commands.specs.Files.{IsWritten, MakesFile};
ghost use Rattle.image_commands.specs.Inside.{IsNoUsage};
ghost use Rattle.image_commands.specs.OwnInput.{IsMakeFault};

use crate::fault::Fault;
use crate::files::Files;
use crate::judged::{TEXT_LIMIT, judged};
use crate::kind::FileKind;
use crate::look::broken_line;
use crate::own_input::spare;
use crate::site::Site;
use assemble::assemble;
use hints::assembler_words;
use limits::STATE_BYTES;
use std::alloc::{AllocError, Global};
use verifier::{FileForm, HeaderFault, any_file};

/// How many bytes of a source are read: as many as a text has at most, and one more.
pub const SOURCE_LIMIT: usize = TEXT_LIMIT + 1;

/// The image file of this form of a source, of which these are the first bytes, with a state of at most 1,024 bytes. It does not
/// verify the code. A source that is not UTF-8 is `Fault::InputOutput`. One that is longer than a text may be comes to the first
/// fault of the lines that end within the limit, or else to `HeaderFault::SlotCount`.
pub fn asm(alloc: Global, source: &[u8], state: u16, form: FileForm) -> Result<Vec<u8>, Fault>
    requires { state ≤ STATE_BYTES }
    ensures written { IfOk result (λ v. (whole : List ℕ) → source.now ≡ take SOURCE_LIMIT whole
        → IsAssembled whole state form v.items) }
    ensures refused { IfErr result (λ f. (whole : List ℕ) → source.now ≡ take SOURCE_LIMIT whole → IsUnassembled whole f) }
    ensures kind { IfErr result IsNoUsage }
{
    let Ok(text) = str::from_utf8(judged(source)) else {
        return Err(Fault::InputOutput);
    };
    let code = assemble(alloc, text)?;
    if source.len() > TEXT_LIMIT {
        return Err(Fault::Header(HeaderFault::SlotCount));
    }
    let bytes = any_file(alloc, form, code.as_slice(), state)?;
    Ok(bytes)
}

/// As [`asm`]; the site keeps what is wrong with the refused line.
pub fn asm_at(
    alloc: Global,
    source: &[u8],
    state: u16,
    form: FileForm,
    site: &mut Site,
) -> Result<Vec<u8>, Fault>
    requires { state ≤ STATE_BYTES }
    ensures written { IfOk result (λ v. (whole : List ℕ) → source.now ≡ take SOURCE_LIMIT whole
        → IsAssembled whole state form v.items) }
    ensures refused { IfErr result (λ f. (whole : List ℕ) → source.now ≡ take SOURCE_LIMIT whole → IsUnassembled whole f) }
    ensures kind { IfErr result IsNoUsage }
{
    match asm(alloc, source, state, form) {
        Ok(bytes) => Ok(bytes),
        Err(fault) => {
            let Ok(words) = said(alloc, source, &fault, site.kind) else {
                return Err(Fault::Memory);
            };
            site.words = words;
            Err(fault)
        }
    }
}

/// What is wrong with the refused line of a source, or with the line that is no text, as a line of text; empty for any other
/// fault.
fn said(alloc: Global, source: &[u8], fault: &Fault, kind: FileKind) -> Result<String, AllocError> {
    if matches!(fault, Fault::InputOutput) {
        return broken_line(alloc, judged(source), kind);
    }
    let Fault::Assemble { line, .. } = fault else {
        return Ok(String::new(alloc));
    };
    let line = *line;
    let Ok(text) = str::from_utf8(judged(source)) else {
        return Ok(String::new(alloc));
    };
    assembler_words(alloc, text, line)
}

/// Writes the image file of this form of a source file, with a state of this length.
pub fn write_image<F: Files>(
    alloc: Global,
    source: &str,
    image: &str,
    state: u16,
    form: FileForm,
    files: &mut F,
    site: &mut Site,
) -> Result<(), Fault>
    requires { state ≤ STATE_BYTES }
    ensures made { OnOk result (MakesFile (F.content files.old) source.now (λ bytes file. IsAssembled bytes state form file)) }
    ensures left { OnOk result (IsWritten source.now image.now (λ bytes file. IsAssembled bytes state form file)
        (F.content files.old) (F.content files.new)) }
    ensures fault { IfErr result (IsMakeFault F.may_be_one (F.content files.old) (F.failed files.new) source.now image.now IsUnassembled) }
    ensures kept { OnErr result (F.content files.new ≡ F.content files.old) }
{
    spare(alloc, source, image, files)?;
    let text = site.read(alloc, source, Some(SOURCE_LIMIT), files)?;
    let bytes = asm_at(alloc, text.as_slice(), state, form, site)?;
    site.write(image, bytes.as_slice(), files)?;
    Ok(())
}
