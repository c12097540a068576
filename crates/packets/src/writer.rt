//! Writes a packet.

ghost use Rattle.std.specs.Prelude.{◌≡◌, ◌++◌, ◌∷◌, [], ◌<◌, ◌≤◌, ◌^◌, ℕ, Some, length, slice_get, IfOk, OnOk};
ghost use Rattle.packets.specs.Format.{short_bytes, long_bytes, payload_bytes, page_bytes, body_bytes, unsealed, sealed, HasRoom, Fits, IsPacket};
ghost use Rattle.packets.specs.Kept.{word_bytes};

use crate::checksum::crc32c;
use crate::field::{Spelled, put_many};
use crate::head::MAGIC;
use crate::packet::{Body, NodePacket};
use crate::page::{Flags, LoggedMessage, Pair};
use byteorder::{ByteOrder, LittleEndian};
use helpers::Payload;
use limits::PAYLOAD_BYTES;
use std::alloc::{AllocError, Global};

/// The bytes reserved first: those of the longest packet without a page, a Delivery.
const WITHOUT_A_PAGE: usize = 286;

/// The bytes of a packet.
pub fn encode(alloc: Global, packet: &NodePacket) -> Result<Vec<u8>, AllocError>
    requires { Fits packet.now }
    ensures { IfOk result (λ v. IsPacket packet.now v.items) }
{
    let mut out = Vec::with_capacity(alloc, WITHOUT_A_PAGE)?;
    put_packet(&mut out, packet)?;
    Ok(out)
}

/// Appends the head and the fields, and then their checksum.
fn put_packet(out: &mut Vec<u8>, packet: &NodePacket) -> Result<(), AllocError>
    requires { HasRoom packet.now.body }
    ensures { OnOk result (out.new.items ≡ sealed (out.old.items ++ unsealed packet.now)) }
{
    put_unsealed(out, packet)?;
    put_checksum(out)
}

/// Appends the head and the fields.
fn put_unsealed(out: &mut Vec<u8>, packet: &NodePacket) -> Result<(), AllocError>
    requires { HasRoom packet.now.body }
    ensures { OnOk result (out.new.items ≡ out.old.items ++ unsealed packet.now) }
{
    out.extend_from_slice(&MAGIC)?;
    let head = [
        packet.body.kind().number(),
        packet.count,
        packet.from,
        packet.to,
    ];
    out.extend_from_slice(&head)?;
    put_body(out, &packet.body)
}

/// Appends the fields.
fn put_body(out: &mut Vec<u8>, body: &Body) -> Result<(), AllocError>
    requires { HasRoom body.now }
    ensures { OnOk result (out.new.items ≡ out.old.items ++ body_bytes body.now) }
{
    match body {
        Body::Delivery {
            incarnation,
            ssn,
            payload,
        } => put_message(out, *incarnation, *ssn, payload.as_slice()),
        Body::Number {
            incarnation: a,
            ssn: b,
            number: c,
        }
        | Body::Resume {
            incarnation: a,
            kept: b,
            above: c,
        } => put_three(out, *a, *b, *c),
        Body::Acknowledgement {
            incarnation: a,
            number: b,
        }
        | Body::Ask {
            incarnation: a,
            above: b,
        } => put_two(out, *a, *b),
        Body::Told {
            incarnation,
            teller,
            above,
            flags,
            entries,
        } => {
            put_three(out, *incarnation, *teller, *above)?;
            put_page(out, *flags, entries.as_slice())
        }
        Body::Restored {
            incarnation,
            teller,
            covered,
            above,
            flags,
            pairs,
        } => {
            put_three(out, *incarnation, *teller, *covered)?;
            put_u64(out, *above)?;
            put_page(out, *flags, pairs.as_slice())
        }
        Body::Saved { covered } => put_u64(out, *covered),
    }
}

/// Appends two numbers of eight bytes.
#[inline(always)]
fn put_two(out: &mut Vec<u8>, a: u64, b: u64) -> Result<(), AllocError>
    ensures { OnOk result (out.new.items ≡ out.old.items ++ (long_bytes a ++ long_bytes b)) }
{
    put_u64(out, a)?;
    put_u64(out, b)
}

/// Appends three numbers of eight bytes.
#[inline(always)]
fn put_three(out: &mut Vec<u8>, a: u64, b: u64, c: u64) -> Result<(), AllocError>
    ensures { OnOk result (out.new.items ≡ out.old.items ++ (long_bytes a ++ (long_bytes b ++ long_bytes c))) }
{
    put_two(out, a, b)?;
    put_u64(out, c)
}

/// Appends two numbers of eight bytes and a payload.
#[inline(always)]
fn put_message(out: &mut Vec<u8>, a: u64, b: u64, payload: &[u8]) -> Result<(), AllocError>
    requires { length payload.now ≤ PAYLOAD_BYTES }
    ensures { OnOk result (out.new.items ≡ out.old.items ++ (long_bytes a ++ (long_bytes b ++ payload_bytes payload.now))) }
{
    put_two(out, a, b)?;
    put_payload(out, payload)
}

/// Appends flags, the number of items, and each.
fn put_page<T: Spelled>(out: &mut Vec<u8>, flags: Flags, items: &[T]) -> Result<(), AllocError>
    requires few { length items.now < 2 ^ 16 }
    requires fit { (i : ℕ) (x : _) → slice_get items.now i ≡ Some x → T.fits x }
    ensures { OnOk result (out.new.items ≡ out.old.items ++ (flags.bits ∷ [] ++ page_bytes T.spelling items.now)) }
{
    out.extend_from_slice(&[flags.bits])?;
    put_u16(out, items.len() as u16)?;
    put_many(out, items)
}

/// Appends a number of two bytes.
#[tactic(auto, unfolding(crate::specs::Format::short_bytes))]
pub fn put_u16(out: &mut Vec<u8>, n: u16) -> Result<(), AllocError>
    ensures { OnOk result (out.new.items ≡ out.old.items ++ short_bytes n) }
{
    let mut bytes = [0; 2];
    LittleEndian::write_u16(&mut bytes, n);
    out.extend_from_slice(&bytes)
}

/// Appends the checksum of what was appended.
#[tactic(auto, unfolding(crate::specs::Format::checksum_bytes))]
pub fn put_checksum(out: &mut Vec<u8>) -> Result<(), AllocError>
    ensures { OnOk result (out.new.items ≡ sealed out.old.items) }
{
    let mut bytes = [0; 4];
    LittleEndian::write_u32(&mut bytes, crc32c(out));
    out.extend_from_slice(&bytes)
}

/// Appends a number of eight bytes.
#[tactic(auto, unfolding(crate::specs::Format::long_bytes))]
pub fn put_u64(out: &mut Vec<u8>, n: u64) -> Result<(), AllocError>
    ensures { OnOk result (out.new.items ≡ out.old.items ++ long_bytes n) }
{
    let mut bytes = [0; 8];
    LittleEndian::write_u64(&mut bytes, n);
    out.extend_from_slice(&bytes)
}

/// Appends a payload after its length.
pub fn put_payload(out: &mut Vec<u8>, payload: &[u8]) -> Result<(), AllocError>
    requires { length payload.now ≤ PAYLOAD_BYTES }
    ensures { OnOk result (out.new.items ≡ out.old.items ++ payload_bytes payload.now) }
{
    put_u16(out, payload.len() as u16)?;
    out.extend_from_slice(payload)
}

/// Appends a number of four bytes.
#[tactic(auto, unfolding(crate::specs::Kept::word_bytes))]
pub fn put_u32(out: &mut Vec<u8>, n: u32) -> Result<(), AllocError>
    ensures { OnOk result (out.new.items ≡ out.old.items ++ word_bytes n) }
{
    let mut bytes = [0; 4];
    LittleEndian::write_u32(&mut bytes, n);
    out.extend_from_slice(&bytes)
}

impl Spelled for u64 {
    ghost use Rattle.packets.specs.Format.{long_bytes};

    ghost spelling = { long_bytes };

    fn put(&self, out: &mut Vec<u8>) -> Result<(), AllocError> {
        put_u64(out, *self)
    }
}

impl Spelled for Payload {
    ghost use Rattle.packets.specs.Format.{payload_bytes};

    ghost spelling = { payload_bytes };

    fn put(&self, out: &mut Vec<u8>) -> Result<(), AllocError> {
        put_payload(out, self.as_slice())
    }
}

impl Spelled for LoggedMessage {
    ghost use Rattle.packets.specs.Format.{entry_bytes};

    ghost spelling = { entry_bytes };

    fn put(&self, out: &mut Vec<u8>) -> Result<(), AllocError> {
        put_message(out, self.number, self.ssn, self.payload.as_slice())
    }
}

impl Spelled for Pair {
    ghost use Rattle.packets.specs.Format.{pair_bytes};

    ghost spelling = { pair_bytes };

    fn put(&self, out: &mut Vec<u8>) -> Result<(), AllocError> {
        put_two(out, self.ssn, self.number)
    }
}
