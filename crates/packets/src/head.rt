//! The first bytes of a packet.

ghost use Rattle.std.specs.Prelude.{◌≡◌, ◌≤◌, length, IfOk};
ghost use Rattle.std.specs.Result.{result_map_both};
ghost use Rattle.packets.specs.Inside.Reader.{Gives, sealed_fields, fields_at, head_at};

use crate::checksum::crc32c;
use crate::fault::{PacketError, PacketFault};
use crate::kind::PacketKind;
use byteorder::{ByteOrder, LittleEndian};
use limits::PROCESSES;

/// `SBP1`, the four bytes that a packet begins with.
pub const MAGIC: [u8; 4] = [0x53, 0x42, 0x50, 0x31];

/// How many bytes magic, kind, count, from and to have.
pub const HEAD_LEN: usize = 8;

/// How many bytes the checksum has.
pub const CHECKSUM_LEN: usize = 4;

/// The fields of the head.
#[derive(Clone, Copy)]
pub struct PacketHead {
    pub kind: PacketKind,
    pub count: u8,
    pub from: u8,
    pub to: u8,
}

/// The bytes of the fields, if there are at least so many bytes, and magic and checksum are right.
/// The first three are the faults of the length, the magic and the checksum.
pub fn fields_under<F: Copy>(
    short: F,
    other: F,
    changed: F,
    least: usize,
    magic: [u8; 4],
    bytes: &[u8],
) -> Result<&[u8], F>
    requires { 12 ≤ least }
    ensures exact { result_map_both (λ x. x.now) (λ f. f) result ≡ sealed_fields short other changed least magic bytes.now }
    ensures long { IfOk result (λ x. least ≤ length bytes.now) }
{
    if bytes.len() < least {
        return Err(short);
    }
    if &bytes[..4] != magic.as_slice() {
        return Err(other);
    }
    let (text, checksum) = bytes.split_at(bytes.len() - CHECKSUM_LEN);
    if LittleEndian::read_u32(checksum) != crc32c(text) {
        return Err(changed);
    }
    Ok(&bytes[HEAD_LEN..bytes.len() - CHECKSUM_LEN])
}

/// The bytes of the fields, if magic and checksum are right.
#[tactic(auto, unfolding(crate::specs::Inside::Reader::fields_at))]
pub fn fields_of(bytes: &[u8]) -> Result<&[u8], PacketError>
    ensures exact { Gives (λ x. x.now) result (fields_at bytes.now) }
    ensures long { IfOk result (λ x. 12 ≤ length bytes.now) }
{
    let least = HEAD_LEN + CHECKSUM_LEN;
    fields_under(
        PacketFault::Short,
        PacketFault::Magic,
        PacketFault::Checksum,
        least,
        MAGIC,
        bytes,
    )
    .map_err(PacketError::Fault)
}

/// Kind, the number of processes, from and to.
#[tactic(auto, unfolding(crate::specs::Inside::Reader::head_at))]
pub fn head_of(bytes: &[u8]) -> Result<PacketHead, PacketError>
    requires { 8 ≤ length bytes.now }
    ensures { Gives (λ x. x) result (head_at bytes.now) }
{
    let Some(kind) = PacketKind::of(bytes[4]) else {
        return Err(PacketError::Fault(PacketFault::Kind));
    };
    let count = bytes[5];
    let from = bytes[6];
    let to = bytes[7];
    if count < 1 || count > PROCESSES as u8 {
        return Err(PacketError::Fault(PacketFault::Count));
    }
    if from > count || to > count || from == to {
        return Err(PacketError::Fault(PacketFault::Ends));
    }
    Ok(PacketHead {
        kind,
        count,
        from,
        to,
    })
}
