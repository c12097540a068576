//! Migration from either form to the second.

ghost use Rattle.std.specs.Prelude.{IfOk, IfErr, Ok};
ghost use Rattle.checkpoint.specs.declared.form.CheckpointForm.{CheckpointForm};
ghost use Rattle.checkpoint.specs.declared.form.CheckpointForm.TheVariants.{Second};
ghost use Rattle.checkpoint.specs.Saved.{TheSaved};
ghost use Rattle.checkpoint.specs.Format.{IsCheckpoint, bytes_of};
ghost use Rattle.checkpoint.specs.Laws.{IsMigrated};
ghost use Rattle.checkpoint.specs.Reader.{Gives, Fails, reading};

use crate::fault::SavedError;
use crate::reader::decode;
use crate::writer::encode;
use std::alloc::Global;

/// The second form of a checkpoint in either form. Other bytes are refused as `decode` refuses
/// them.
pub fn migrate(alloc: Global, bytes: &[u8]) -> Result<Vec<u8>, SavedError>
    // The answer is the second form of the same saved process.
    ensures found { IfOk result (λ v. IsMigrated bytes.now v.items) }
    // A checkpoint in either form is migrated, unless memory runs out.
    ensures only { (form : CheckpointForm) (s : TheSaved) → IsCheckpoint form s bytes.now → Gives (λ v. v.items) result (Ok (bytes_of Second s)) }
    ensures refused { IfErr result (λ e. Fails e (reading bytes.now)) }
{
    let saved = decode(alloc, bytes)?;
    Ok(encode(alloc, &saved)?)
}
