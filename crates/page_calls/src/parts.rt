//! Parts that come one after the other, each as long as its length says.

ghost use Rattle.std.specs.Prelude.{◌≡◌, ◌≢◌, ◌++◌, IfErr, OnOk, length, map, string_bytes};
ghost use Rattle.std.specs.Str.{IsUtf8};
ghost use Rattle.page_calls.specs.Parts.{parts_of, AreParts, IsMisfit};
ghost use Rattle.page_calls.specs.declared.misfit.Misfit.TheVariants.{Shape, Room};

use crate::misfit::Misfit;
use std::alloc::Global;
use std::str;

/// Appends the parts of these lengths.
pub fn cut_bytes(
    alloc: Global,
    bytes: &[u8],
    lengths: &[u32],
    parts: &mut Vec<Vec<u8>>,
) -> Result<(), Misfit>
    ensures parts { OnOk result (map (λ v. v.items) parts.new.items ≡ map (λ v. v.items) parts.old.items ++ parts_of bytes.now lengths.now) }
    ensures filled { OnOk result (AreParts (λ _. Unit {0}) bytes.now lengths.now) }
    ensures fault { IfErr result (λ e. e ≢ Room) }
    ensures misfit { IfErr result (λ e. e ≡ Shape → IsMisfit (λ _. Unit {0}) bytes.now lengths.now) }
{
    let Some((first, rest)) = lengths.split_first() else {
        if !bytes.is_empty() {
            return Err(Misfit::Shape);
        }
        return Ok(());
    };
    let size = *first as usize;
    if size > bytes.len() {
        return Err(Misfit::Shape);
    }
    let (part, others) = bytes.split_at(size);
    let Ok(part) = part.to_vec(alloc) else {
        return Err(Misfit::Memory);
    };
    if parts.push(part).is_err() {
        return Err(Misfit::Memory);
    }
    cut_bytes(alloc, others, rest, parts)
}

/// Appends the texts of these lengths.
pub fn cut_texts(
    alloc: Global,
    bytes: &[u8],
    lengths: &[u32],
    texts: &mut Vec<String>,
) -> Result<(), Misfit>
    ensures parts { OnOk result (map string_bytes texts.new.items ≡ map string_bytes texts.old.items ++ parts_of bytes.now lengths.now) }
    ensures filled { OnOk result (AreParts IsUtf8 bytes.now lengths.now) }
    ensures fault { IfErr result (λ e. e ≢ Room) }
    ensures misfit { IfErr result (λ e. e ≡ Shape → IsMisfit IsUtf8 bytes.now lengths.now) }
{
    let Some((first, rest)) = lengths.split_first() else {
        if !bytes.is_empty() {
            return Err(Misfit::Shape);
        }
        return Ok(());
    };
    let size = *first as usize;
    if size > bytes.len() {
        return Err(Misfit::Shape);
    }
    let (part, others) = bytes.split_at(size);
    let Ok(text) = str::from_utf8(part) else {
        return Err(Misfit::Shape);
    };
    let Ok(text) = text.to_string(alloc) else {
        return Err(Misfit::Memory);
    };
    if texts.push(text).is_err() {
        return Err(Misfit::Memory);
    }
    cut_texts(alloc, others, rest, texts)
}
