//! The command `pack`.

ghost use Rattle.std.specs.Prelude.{◌≡◌, ◌<◌, ◌≤◌, ℕ, None, true, IfErr, IfOk, IfSome, List, OnErr, OnOk, option_map, take};
ghost use Rattle.block_order.specs.declared.blocks.Blocks.{Blocks};
ghost use Rattle.image_commands.specs.Files.{IsWritten, MakesFile};
ghost use Rattle.image_commands.specs.Pack.{IsFileBy, IsLength, IsMade, IsPacked, IsUnfiledBy, IsUnmade, IsUnpacked};
ghost use Rattle.image_commands.specs.Inside.{IsNoUsage};
ghost use Rattle.image_commands.specs.OwnInput.{IsMakeFault};

use crate::fault::Fault;
use crate::files::Files;
use crate::own_input::spare;
use crate::packing::{refused_words, state_words};
use crate::site::Site;
use block_order::{Ordered, ordered_file};
use cli::Packing;
use decode::decode;
use elf::{ObjectFault, is_object, read_object};
use limits::{SLOTS, STATE_BYTES};
use std::alloc::Global;
use verifier::{FileForm, HeaderFault};

/// How many bytes an object file has at most.
pub const OBJECT_BYTES: usize = 16_777_216;

/// How many bytes of a source are read: as many as an object file has at most, and one more.
pub const SOURCE_LIMIT: usize = OBJECT_BYTES + 1;

/// The image file of this form of code, with a state of at most 1,024 bytes, and the order of its blocks. Code that the verifier
/// refuses has a file too; more than 1,024 slots have none.
fn pack_code(alloc: Global, code: &[u8], state: u16, form: FileForm) -> Result<Ordered, Fault>
    requires { state ≤ STATE_BYTES }
    ensures written { IfOk result (λ o. IsPacked code.now state form o.bytes.items o.blocks) }
    ensures refused { IfErr result (IsUnpacked code.now) }
    ensures kind { IfErr result IsNoUsage }
{
    if code.len() > 8 * SLOTS {
        return Err(Fault::Header(HeaderFault::SlotCount));
    }
    let insns = decode(alloc, code)?;
    let packed = ordered_file(alloc, form, insns.as_slice(), state)?;
    Ok(packed)
}

/// The length of a state: the one that is asked for, or the function's own, unless that is too long or isn't known.
fn state_of(asked: Option<u16>, own: Option<usize>) -> Result<u16, Option<usize>>
    requires { IfSome asked (λ n. n ≤ STATE_BYTES) }
    ensures range { IfOk result (λ n. n ≤ STATE_BYTES) }
    ensures length { IfOk result (IsLength asked) }
    ensures refused { IfErr result (λ own. (asked ≡ None) × IfSome own (λ n. STATE_BYTES < n)) }
{
    match (asked, own) {
        (Some(asked), _) => Ok(asked),
        (None, Some(own)) if own <= STATE_BYTES => Ok(own as u16),
        (None, own) => Err(own),
    }
}

/// The image file of a function of an object file.
fn pack_object(alloc: Global, file: &[u8], asked: Packing<'_>) -> Result<Ordered, Fault>
    requires { IfSome asked.state (λ n. n ≤ STATE_BYTES) }
    ensures written { IfOk result (λ o. IsFileBy true asked.entry.state asked.entry.form (option_map (λ n. n.now) asked.entry.function) file.now o.bytes.items o.blocks) }
    ensures refused { IfErr result (IsUnfiledBy true asked.entry.state (option_map (λ n. n.now) asked.entry.function) file.now) }
    ensures kind { IfErr result IsNoUsage }
{
    let found = read_object(alloc, file, asked.function)?;
    let form = asked.form.unwrap_or(FileForm::Sbi3);
    match state_of(asked.state, found.state) {
        Ok(state) => pack_code(alloc, found.code, state, form),
        Err(Some(length)) => Err(Fault::Object(ObjectFault::State { length })),
        Err(None) => Err(Fault::NoState),
    }
}

/// The image file of a source.
fn pack_source(alloc: Global, file: &[u8], asked: Packing<'_>) -> Result<Ordered, Fault>
    requires { IfSome asked.state (λ n. n ≤ STATE_BYTES) }
    ensures written { IfOk result (λ o. IsMade asked.entry.state asked.entry.form (option_map (λ n. n.now) asked.entry.function) file.now o.bytes.items o.blocks) }
    ensures refused { IfErr result (IsUnmade asked.entry.state (option_map (λ n. n.now) asked.entry.function) file.now) }
    ensures kind { IfErr result IsNoUsage }
{
    if is_object(file) {
        return pack_object(alloc, file, asked);
    }
    let form = asked.form.unwrap_or(FileForm::Sbi1);
    match asked.state {
        Some(state) => pack_code(alloc, file, state, form),
        None => Err(Fault::NoState),
    }
}

/// The image file of a source, of which these are the first bytes.
fn pack(alloc: Global, file: &[u8], asked: Packing<'_>) -> Result<Ordered, Fault>
    requires { IfSome asked.state (λ n. n ≤ STATE_BYTES) }
    ensures written { IfOk result (λ o. (whole : List ℕ) → file.now ≡ take SOURCE_LIMIT whole
        → IsMade asked.entry.state asked.entry.form (option_map (λ n. n.now) asked.entry.function) whole o.bytes.items o.blocks) }
    ensures refused { IfErr result (λ f. (whole : List ℕ) → file.now ≡ take SOURCE_LIMIT whole
        → IsUnmade asked.entry.state (option_map (λ n. n.now) asked.entry.function) whole f) }
    ensures kind { IfErr result IsNoUsage }
{
    if file.len() > OBJECT_BYTES {
        return Err(Fault::Header(HeaderFault::SlotCount));
    }
    pack_source(alloc, file, asked)
}

/// Writes the image file of a source: bare code, or an object file. The site keeps the order of its blocks, or what is wrong with an
/// object file.
pub fn write_packed<F: Files>(
    alloc: Global,
    source: &str,
    image: &str,
    asked: Packing<'_>,
    files: &mut F,
    site: &mut Site,
) -> Result<(), Fault>
    requires { IfSome asked.state (λ n. n ≤ STATE_BYTES) }
    ensures made { OnOk result (MakesFile (F.content files.old) source.now (λ bytes file. (blocks : Blocks)
        × IsMade asked.entry.state asked.entry.form (option_map (λ n. n.now) asked.entry.function) bytes file blocks)) }
    ensures left { OnOk result (IsWritten source.now image.now (λ bytes file. (blocks : Blocks)
        × IsMade asked.entry.state asked.entry.form (option_map (λ n. n.now) asked.entry.function) bytes file blocks)
        (F.content files.old) (F.content files.new)) }
    ensures fault { IfErr result (IsMakeFault F.may_be_one (F.content files.old) (F.failed files.new) source.now image.now
        (IsUnmade asked.entry.state (option_map (λ n. n.now) asked.entry.function))) }
    ensures kept { OnErr result (F.content files.new ≡ F.content files.old) }
{
    spare(alloc, source, image, files)?;
    let bytes = site.read(alloc, source, Some(SOURCE_LIMIT), files)?;
    let packed = match pack(alloc, bytes.as_slice(), asked) {
        Ok(packed) => packed,
        Err(fault) => {
            site.words = refused_words(alloc, bytes.as_slice(), asked, &fault);
            return Err(fault);
        }
    };
    site.note = packed.blocks.to_string(alloc)?;
    let length = state_words(alloc, bytes.as_slice(), asked, image)?;
    site.note.push_str(length.as_str())?;
    site.write(image, packed.bytes.as_slice(), files)?;
    Ok(())
}
