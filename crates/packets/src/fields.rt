//! Reads the fields of a packet.

ghost use Rattle.std.specs.Prelude.{◌≡◌, ◌≤◌, length, IfOk};
ghost use Rattle.packets.specs.Inside.Reader.{Gives, bytes_at, byte_at, number_at, both, payload_at};

use crate::fault::{PacketError, PacketFault};
use crate::field::Readable;
use crate::page::{LoggedMessage, Pair};
use byteorder::{ByteOrder, LittleEndian};
use helpers::Payload;
use limits::PAYLOAD_BYTES;
use std::alloc::Global;

/// The first `len` bytes, and the bytes after them.
pub fn bytes_of(len: usize, bytes: &[u8]) -> Result<(&[u8], &[u8]), PacketError>
    ensures exact { Gives (λ x. (x.0.now, x.1.now)) result (bytes_at len bytes.now) }
    ensures len { IfOk result (λ x. length x.0.now ≡ len) }
{
    if bytes.len() < len {
        return Err(PacketError::Fault(PacketFault::Fields));
    }
    Ok(bytes.split_at(len))
}

/// One byte.
pub fn byte_of(bytes: &[u8]) -> Result<(u8, &[u8]), PacketError>
    ensures { Gives (λ x. (x.0, x.1.now)) result (byte_at bytes.now) }
{
    let [byte, rest @ ..] = bytes else {
        return Err(PacketError::Fault(PacketFault::Fields));
    };
    Ok((*byte, rest))
}

/// A number of two bytes.
pub fn u16_of(bytes: &[u8]) -> Result<(u16, &[u8]), PacketError>
    ensures { Gives (λ x. (x.0, x.1.now)) result (number_at 2 bytes.now) }
{
    if bytes.len() < 2 {
        return Err(PacketError::Fault(PacketFault::Fields));
    }
    Ok((LittleEndian::read_u16(bytes), &bytes[2..]))
}

/// A number of four bytes.
pub fn u32_of(bytes: &[u8]) -> Result<(u32, &[u8]), PacketError>
    ensures { Gives (λ x. (x.0, x.1.now)) result (number_at 4 bytes.now) }
{
    if bytes.len() < 4 {
        return Err(PacketError::Fault(PacketFault::Fields));
    }
    Ok((LittleEndian::read_u32(bytes), &bytes[4..]))
}

/// A number of eight bytes.
pub fn u64_of(bytes: &[u8]) -> Result<(u64, &[u8]), PacketError>
    ensures { Gives (λ x. (x.0, x.1.now)) result (number_at 8 bytes.now) }
{
    if bytes.len() < 8 {
        return Err(PacketError::Fault(PacketFault::Fields));
    }
    Ok((LittleEndian::read_u64(bytes), &bytes[8..]))
}

/// Two numbers of eight bytes.
#[inline(always)]
pub fn two_of(bytes: &[u8]) -> Result<(u64, u64, &[u8]), PacketError>
    ensures { Gives (λ x. ((x.0, x.1), x.2.now)) result (both (number_at 8) (number_at 8) bytes.now) }
{
    if bytes.len() < 16 {
        return Err(PacketError::Fault(PacketFault::Fields));
    }
    let a = LittleEndian::read_u64(bytes);
    let b = LittleEndian::read_u64(&bytes[8..]);
    Ok((a, b, &bytes[16..]))
}

/// Three numbers of eight bytes.
#[inline(always)]
pub fn three_of(bytes: &[u8]) -> Result<(u64, u64, u64, &[u8]), PacketError>
    ensures { Gives (λ x. ((x.0, (x.1, x.2)), x.3.now)) result (both (number_at 8) (both (number_at 8) (number_at 8)) bytes.now) }
{
    if bytes.len() < 24 {
        return Err(PacketError::Fault(PacketFault::Fields));
    }
    let a = LittleEndian::read_u64(bytes);
    let b = LittleEndian::read_u64(&bytes[8..]);
    let c = LittleEndian::read_u64(&bytes[16..]);
    Ok((a, b, c, &bytes[24..]))
}

/// A payload after its length.
#[tactic(auto, unfolding(crate::specs::Inside::Reader::payload_at))]
pub fn payload_of(bytes: &[u8]) -> Result<(&[u8], &[u8]), PacketError>
    ensures exact { Gives (λ x. (x.0.now, x.1.now)) result (payload_at bytes.now) }
    ensures bound { IfOk result (λ x. length x.0.now ≤ PAYLOAD_BYTES) }
{
    let (len, rest) = u16_of(bytes)?;
    if len as usize > PAYLOAD_BYTES {
        return Err(PacketError::Fault(PacketFault::Fields));
    }
    bytes_of(len as usize, rest)
}

impl Readable for u64 {
    ghost use Rattle.packets.specs.Inside.Reader.{number_at};

    ghost reader = { number_at 8 };

    fn read(_alloc: Global, bytes: &[u8]) -> Result<(u64, &[u8]), PacketError> {
        u64_of(bytes)
    }
}

impl Readable for Payload {
    ghost use Rattle.packets.specs.Inside.Reader.{payload_at};

    ghost reader = { payload_at };

    fn read(_alloc: Global, bytes: &[u8]) -> Result<(Payload, &[u8]), PacketError> {
        let (payload, rest) = payload_of(bytes)?;
        Ok((Payload::from_slice(payload), rest))
    }
}

impl Readable for LoggedMessage {
    ghost use Rattle.packets.specs.Inside.Reader.{entry_at};

    ghost reader = { entry_at };

    #[tactic(auto, unfolding(crate::specs::Inside::Reader::entry_at))]
    fn read(_alloc: Global, bytes: &[u8]) -> Result<(LoggedMessage, &[u8]), PacketError> {
        let (number, ssn, rest) = two_of(bytes)?;
        let (payload, rest) = payload_of(rest)?;
        let payload = Payload::from_slice(payload);
        let entry = LoggedMessage {
            number,
            ssn,
            payload,
        };
        Ok((entry, rest))
    }
}

impl Readable for Pair {
    ghost use Rattle.packets.specs.Inside.Reader.{pair_at};

    ghost reader = { pair_at };

    #[tactic(auto, unfolding(crate::specs::Inside::Reader::pair_at))]
    fn read(_alloc: Global, bytes: &[u8]) -> Result<(Pair, &[u8]), PacketError> {
        let (ssn, number, rest) = two_of(bytes)?;
        Ok((Pair { ssn, number }, rest))
    }
}
