//! From a saved process to bytes.

ghost use Rattle.std.specs.Prelude.{◌≡◌, ◌++◌, ◌<◌, ◌≤◌, length, take, IfOk, OnOk, OnErr};
ghost use Rattle.std.specs.Int.{w16, w32, to_le_bytes};
ghost use Rattle.std.specs.List.{flat_map, AllByRecursion};
ghost use Rattle.checkpoint.specs.declared.form.CheckpointForm.TheVariants.{Second};
ghost use Rattle.checkpoint.specs.Format.{number_bytes, payload_bytes, kept_bytes, IsCheckpoint};

use crate::form::CheckpointForm;
use crate::kept::KeptMessages;
use crate::saved::Saved;
use byteorder::{ByteOrder, LittleEndian};
use limits::PAYLOAD_BYTES;
use std::alloc::{AllocError, Global};

/// The checkpoint of a saved process, in the second form.
pub fn encode(alloc: Global, saved: &Saved) -> Result<Vec<u8>, AllocError>
    ensures { IfOk result (λ v. IsCheckpoint Second saved.now v.items) }
{
    let mut out = Vec::from_slice(alloc, &CheckpointForm::Second.magic())?;
    put_numbers(&mut out, saved)?;
    out.extend_from_slice(saved.state())?;
    out.extend_from_slice(saved.senders())?;
    let queues = saved.queues();
    let own = saved.me() as usize;
    put_queues(&mut out, &queues[..own])?;
    put_queues(&mut out, &queues[own + 1..])?;
    out.shrink_to_fit();
    Ok(out)
}

/// Appends the length of the state, the number of processes, the process's own number, and how many
/// messages were received.
fn put_numbers(out: &mut Vec<u8>, saved: &Saved) -> Result<(), AllocError>
    ensures { OnOk result (out.new.items ≡ out.old.items ++ number_bytes saved.now) }
{
    put_u16(out, saved.state().len() as u16)?;
    out.extend_from_slice(&[saved.count(), saved.me()])?;
    put_u32(out, saved.length())
}

/// Appends what is kept for each of these destinations.
fn put_queues(out: &mut Vec<u8>, queues: &[KeptMessages]) -> Result<(), AllocError>
    ensures { OnOk result (out.new.items ≡ out.old.items ++ flat_map (kept_bytes Second) queues.now) }
{
    for kept in queues {
        put_kept(out, kept)?;
    }
    Ok(())
}

/// Appends the first SSN, how many messages are kept, and their payloads.
fn put_kept(out: &mut Vec<u8>, kept: &KeptMessages) -> Result<(), AllocError>
    ensures { OnOk result (out.new.items ≡ out.old.items ++ kept_bytes Second kept.now) }
{
    put_u32(out, kept.first())?;
    let payloads = kept.payloads();
    put_u32(out, payloads.count())?;
    out.extend_from_slice(payloads.bytes())
}

/// Appends the length of a payload and then the payload. Earlier bytes stay, even if memory is
/// refused.
pub fn put_payload(out: &mut Vec<u8>, payload: &[u8]) -> Result<(), AllocError>
    requires { length payload.now ≤ PAYLOAD_BYTES }
    ensures ok { OnOk result (out.new.items ≡ out.old.items ++ payload_bytes Second payload.now) }
    ensures err { OnErr result (take (length out.old.items) out.new.items ≡ out.old.items) }
{
    put_u16(out, payload.len() as u16)?;
    out.extend_from_slice(payload)
}

/// Appends a number of two bytes, the lowest first.
fn put_u16(out: &mut Vec<u8>, number: u16) -> Result<(), AllocError>
    ensures ok { OnOk result (out.new.items ≡ out.old.items ++ to_le_bytes w16 number) }
    ensures err { OnErr result (out.new.items ≡ out.old.items) }
{
    let mut bytes = [0; 2];
    LittleEndian::write_u16(&mut bytes, number);
    out.extend_from_slice(&bytes)
}

/// Appends a number of four bytes, the lowest first.
fn put_u32(out: &mut Vec<u8>, number: u32) -> Result<(), AllocError>
    ensures { OnOk result (out.new.items ≡ out.old.items ++ to_le_bytes w32 number) }
{
    let mut bytes = [0; 4];
    LittleEndian::write_u32(&mut bytes, number);
    out.extend_from_slice(&bytes)
}
