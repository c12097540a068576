//! What holds of all packets.

ghost use Rattle.std.specs.Prelude.{◌≡◌, IfOk};
ghost use Rattle.packets.specs.Format.{Fits};
ghost use Rattle.packets.specs.Faults.{Reads};
ghost use Rattle.packets.specs.Laws.{IsOnePacket};
ghost use Rattle.packets.specs.Kept.{KeptFits};
ghost use Rattle.packets.specs.KeptFaults.{ReadsKept, IsOneKept};

use crate::fault::PacketError;
use crate::kept::Kept;
use crate::kept_fault::KeptError;
use crate::kept_reader::decode_kept;
use crate::kept_writer::encode_kept;
use crate::packet::NodePacket;
use crate::reader::decode;
use crate::writer::encode;
use std::alloc::Global;

/// Bytes are those of one packet at most.
pub fn one_packet()
    ensures { IsOnePacket }
{}

/// What is written is read back, unless memory runs out.
pub fn there_and_back(alloc: Global, packet: &NodePacket) -> Result<NodePacket, PacketError>
    requires { Fits packet.now }
    ensures { Reads result packet.now }
{
    let bytes = encode(alloc, packet)?;
    decode(alloc, &bytes)
}

/// What is read is written as the same bytes, unless memory runs out.
pub fn back_and_there(alloc: Global, bytes: &[u8]) -> Result<Vec<u8>, PacketError>
    ensures { IfOk result (λ v. v.items ≡ bytes.now) }
{
    let packet = decode(alloc, bytes)?;
    encode(alloc, &packet).map_err(PacketError::from)
}

/// Bytes are those of one kept state at most.
pub fn one_kept()
    ensures { IsOneKept }
{}

/// Kept state that is written is read back, unless memory runs out.
pub fn kept_again(alloc: Global, kept: &Kept) -> Result<Kept, KeptError>
    requires { KeptFits kept.now }
    ensures { ReadsKept result kept.now }
{
    let bytes = encode_kept(alloc, kept)?;
    decode_kept(alloc, &bytes)
}

/// Kept state that is read is written as the same bytes, unless memory runs out.
pub fn same_bytes_again(alloc: Global, bytes: &[u8]) -> Result<Vec<u8>, KeptError>
    ensures { IfOk result (λ v. v.items ≡ bytes.now) }
{
    let kept = decode_kept(alloc, bytes)?;
    encode_kept(alloc, &kept).map_err(KeptError::from)
}
