//! Reads a packet.

ghost use Rattle.std.specs.Prelude.{IfOk, IfErr};
ghost use Rattle.packets.specs.declared.packet.NodePacket.{NodePacket};
ghost use Rattle.packets.specs.declared.kind.PacketKind.TheVariants as kinds;
ghost use Rattle.packets.specs.Format.{IsPacket};
ghost use Rattle.packets.specs.Faults.{IsReason, Reads};
ghost use Rattle.packets.specs.Inside.Reader.{Gives, byte_at, number_at, counted_at, both, whole, body_at, reading};

use crate::fault::{PacketError, PacketFault};
use crate::field::{Readable, many_of};
use crate::fields::{byte_of, payload_of, three_of, two_of, u16_of, u64_of};
use crate::head::{fields_of, head_of};
use crate::kind::PacketKind;
use crate::packet::{Body, NodePacket};
use crate::page::{Flags, Page};
use byteorder::{ByteOrder, LittleEndian};
use helpers::Payload;
use std::alloc::Global;

/// The packet in these bytes. A refusal names the first fault by its number.
pub fn decode(alloc: Global, bytes: &[u8]) -> Result<NodePacket, PacketError>
    // `encode` writes what is read as these bytes.
    ensures found { IfOk result (λ p. IsPacket p bytes.now) }
    // Whatever `encode` writes is read, unless memory runs out.
    ensures only { (p : NodePacket) → IsPacket p bytes.now → Reads result p }
    // A refusal names a fault of the bytes, and no lesser fault is theirs.
    ensures refused { IfErr result (λ e. IsReason e bytes.now) }
{
    packet_of(alloc, bytes)
}

/// The packet in these bytes, read field by field.
#[tactic(auto, unfolding(crate::specs::Inside::Reader::reading))]
fn packet_of(alloc: Global, bytes: &[u8]) -> Result<NodePacket, PacketError>
    ensures { Gives (λ x. x) result (reading bytes.now) }
{
    let fields = fields_of(bytes)?;
    let head = head_of(bytes)?;
    let mut packet = NodePacket {
        count: head.count,
        from: head.from,
        to: head.to,
        body: Body::Saved { covered: 0 },
    };
    read_body(alloc, head.kind, fields, &mut packet.body)?;
    if !packet.body.is_in_range() {
        return Err(PacketError::Fault(PacketFault::Range));
    }
    Ok(packet)
}

/// Reads the fields of a kind into a body, in place, since a body can take 280 bytes.
fn read_body(
    alloc: Global,
    kind: PacketKind,
    bytes: &[u8],
    body: &mut Body,
) -> Result<(), PacketError>
    ensures { Gives (λ _. body.new) result (body_at kind bytes.now) }
{
    match kind {
        PacketKind::Delivery => read_delivery(bytes, body),
        PacketKind::Number => read_number(bytes, body),
        PacketKind::Acknowledgement => read_acknowledgement(bytes, body),
        PacketKind::Ask => read_ask(bytes, body),
        PacketKind::Told => read_told(alloc, bytes, body),
        PacketKind::Resume => read_resume(bytes, body),
        PacketKind::Restored => read_restored(alloc, bytes, body),
        PacketKind::Saved => read_saved(bytes, body),
    }
}

/// Two numbers of eight bytes, with nothing after them.
fn two_alone(bytes: &[u8]) -> Result<(u64, u64), PacketError>
    ensures { Gives (λ x. x) result (whole (both (number_at 8) (number_at 8)) bytes.now) }
{
    if bytes.len() != 16 {
        return Err(PacketError::Fault(PacketFault::Fields));
    }
    let a = LittleEndian::read_u64(bytes);
    let b = LittleEndian::read_u64(&bytes[8..]);
    Ok((a, b))
}

/// Three numbers of eight bytes, with nothing after them.
fn three_alone(bytes: &[u8]) -> Result<(u64, u64, u64), PacketError>
    ensures { Gives (λ x. (x.0, (x.1, x.2))) result (whole (both (number_at 8) (both (number_at 8) (number_at 8))) bytes.now) }
{
    if bytes.len() != 24 {
        return Err(PacketError::Fault(PacketFault::Fields));
    }
    let a = LittleEndian::read_u64(bytes);
    let b = LittleEndian::read_u64(&bytes[8..]);
    let c = LittleEndian::read_u64(&bytes[16..]);
    Ok((a, b, c))
}

/// Flags and a page, with nothing after them.
#[tactic(auto, unfolding(crate::specs::Inside::Reader::counted_at))]
fn page_alone<T: Readable>(alloc: Global, bytes: &[u8]) -> Result<(u8, Page<T>), PacketError>
    ensures { Gives (λ x. x) result (whole (both byte_at (counted_at 2 T.reader)) bytes.now) }
{
    let (bits, rest) = byte_of(bytes)?;
    let (count, rest) = u16_of(rest)?;
    let (items, rest) = many_of(alloc, u64::from(count), rest)?;
    if !rest.is_empty() {
        return Err(PacketError::Fault(PacketFault::Fields));
    }
    Ok((bits, items))
}

#[tactic(auto, unfolding(crate::specs::Inside::Reader::body_at))]
fn read_delivery(bytes: &[u8], body: &mut Body) -> Result<(), PacketError>
    ensures { Gives (λ _. body.new) result (body_at kinds.Delivery bytes.now) }
{
    let (incarnation, ssn, rest) = two_of(bytes)?;
    let (payload, rest) = payload_of(rest)?;
    let payload = Payload::from_slice(payload);
    if !rest.is_empty() {
        return Err(PacketError::Fault(PacketFault::Fields));
    }
    *body = Body::Delivery {
        incarnation,
        ssn,
        payload,
    };
    Ok(())
}

#[tactic(auto, unfolding(crate::specs::Inside::Reader::body_at))]
fn read_number(bytes: &[u8], body: &mut Body) -> Result<(), PacketError>
    ensures { Gives (λ _. body.new) result (body_at kinds.Number bytes.now) }
{
    let (incarnation, ssn, number) = three_alone(bytes)?;
    *body = Body::Number {
        incarnation,
        ssn,
        number,
    };
    Ok(())
}

#[tactic(auto, unfolding(crate::specs::Inside::Reader::body_at))]
fn read_acknowledgement(bytes: &[u8], body: &mut Body) -> Result<(), PacketError>
    ensures { Gives (λ _. body.new) result (body_at kinds.Acknowledgement bytes.now) }
{
    let (incarnation, number) = two_alone(bytes)?;
    *body = Body::Acknowledgement {
        incarnation,
        number,
    };
    Ok(())
}

#[tactic(auto, unfolding(crate::specs::Inside::Reader::body_at))]
fn read_ask(bytes: &[u8], body: &mut Body) -> Result<(), PacketError>
    ensures { Gives (λ _. body.new) result (body_at kinds.Ask bytes.now) }
{
    let (incarnation, above) = two_alone(bytes)?;
    *body = Body::Ask { incarnation, above };
    Ok(())
}

#[tactic(auto, unfolding(crate::specs::Inside::Reader::body_at))]
fn read_told(alloc: Global, bytes: &[u8], body: &mut Body) -> Result<(), PacketError>
    ensures { Gives (λ _. body.new) result (body_at kinds.Told bytes.now) }
{
    let (incarnation, teller, above, rest) = three_of(bytes)?;
    let (bits, entries) = page_alone(alloc, rest)?;
    *body = Body::Told {
        incarnation,
        teller,
        above,
        flags: Flags { bits },
        entries,
    };
    Ok(())
}

#[tactic(auto, unfolding(crate::specs::Inside::Reader::body_at))]
fn read_resume(bytes: &[u8], body: &mut Body) -> Result<(), PacketError>
    ensures { Gives (λ _. body.new) result (body_at kinds.Resume bytes.now) }
{
    let (incarnation, kept, above) = three_alone(bytes)?;
    *body = Body::Resume {
        incarnation,
        kept,
        above,
    };
    Ok(())
}

#[tactic(auto, unfolding(crate::specs::Inside::Reader::body_at))]
fn read_restored(alloc: Global, bytes: &[u8], body: &mut Body) -> Result<(), PacketError>
    ensures { Gives (λ _. body.new) result (body_at kinds.Restored bytes.now) }
{
    let (incarnation, teller, covered, rest) = three_of(bytes)?;
    let (above, rest) = u64_of(rest)?;
    let (bits, pairs) = page_alone(alloc, rest)?;
    *body = Body::Restored {
        incarnation,
        teller,
        covered,
        above,
        flags: Flags { bits },
        pairs,
    };
    Ok(())
}

#[tactic(auto, unfolding(crate::specs::Inside::Reader::body_at))]
fn read_saved(bytes: &[u8], body: &mut Body) -> Result<(), PacketError>
    ensures { Gives (λ _. body.new) result (body_at kinds.Saved bytes.now) }
{
    if bytes.len() != 8 {
        return Err(PacketError::Fault(PacketFault::Fields));
    }
    let covered = LittleEndian::read_u64(bytes);
    *body = Body::Saved { covered };
    Ok(())
}
