//! Laws of all checkpoints.

ghost use Rattle.std.specs.Prelude.{Ok};
ghost use Rattle.checkpoint.specs.Laws.{IsOneCheckpoint, IsTooLong, IsTooShort};
ghost use Rattle.checkpoint.specs.Reader.{Gives};

use crate::fault::SavedError;
use crate::reader::decode;
use crate::saved::Saved;
use crate::writer::encode;
use std::alloc::Global;

/// Bytes are the checkpoint of at most one saved process, in one form.
pub fn one_checkpoint()
    ensures { IsOneCheckpoint }
{}

/// A checkpoint that is cut short is refused for its length, wherever it is cut.
pub fn too_short()
    ensures { IsTooShort }
{}

/// A checkpoint with more bytes at its end is refused for its length.
pub fn too_long()
    ensures { IsTooLong }
{}

/// What is written is read back, unless memory runs out.
pub fn there_and_back(alloc: Global, saved: &Saved) -> Result<Saved, SavedError>
    ensures { Gives (λ s. s) result (Ok saved.now) }
{
    let bytes = encode(alloc, saved)?;
    decode(alloc, &bytes)
}
