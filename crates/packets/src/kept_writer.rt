//! Writes the kept state of a process.

ghost use Rattle.std.specs.Prelude.{◌≡◌, ◌++◌, ◌∷◌, length, IfOk, OnOk};
ghost use Rattle.packets.specs.Format.{short_bytes, sealed};
ghost use Rattle.packets.specs.Kept.{kept_body, kept_fields, KeptFits, IsKept};

use crate::field::put_many;
use crate::kept::Kept;
use crate::kept_reader::KEPT_MAGIC;
use crate::writer::{put_checksum, put_u16, put_u64};
use std::alloc::{AllocError, Global};

/// The bytes of kept state.
pub fn encode_kept(alloc: Global, kept: &Kept) -> Result<Vec<u8>, AllocError>
    requires { KeptFits kept.now }
    ensures { IfOk result (λ v. IsKept kept.now v.items) }
{
    let mut out = Vec::from_slice(alloc, &KEPT_MAGIC)?;
    put_kept(&mut out, kept)?;
    Ok(out)
}

/// Appends all that follows the magic, and then the checksum.
fn put_kept(out: &mut Vec<u8>, kept: &Kept) -> Result<(), AllocError>
    requires { KeptFits kept.now }
    ensures { OnOk result (out.new.items ≡ sealed (out.old.items ++ kept_body kept.now)) }
{
    put_kept_head(out, kept)?;
    put_kept_fields(out, kept)?;
    put_checksum(out)
}

/// Appends the process, the number of processes, and the length of the state.
fn put_kept_head(out: &mut Vec<u8>, kept: &Kept) -> Result<(), AllocError>
    requires { KeptFits kept.now }
    ensures { OnOk result (out.new.items ≡ out.old.items ++ (kept.now.me ∷ kept.now.count ∷ short_bytes (length kept.now.state))) }
{
    out.extend_from_slice(&[kept.me, kept.count])?;
    put_u16(out, kept.state.as_slice().len() as u16)
}

/// Appends the fields after the head.
fn put_kept_fields(out: &mut Vec<u8>, kept: &Kept) -> Result<(), AllocError>
    requires { KeptFits kept.now }
    ensures { OnOk result (out.new.items ≡ out.old.items ++ kept_fields kept.now) }
{
    put_u64(out, kept.length)?;
    put_many(out, kept.counts.as_slice())?;
    out.extend_from_slice(kept.state.as_slice())?;
    put_many(out, kept.logs.as_slice())
}
