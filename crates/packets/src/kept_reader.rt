//! Reads the kept state of a process.

ghost use Rattle.std.specs.Prelude.{◌≤◌, if◌then◌else◌, length, Result, Ok, Err, IfOk, IfErr};
ghost use Rattle.packets.specs.declared.kept.Kept.{Kept};
ghost use Rattle.packets.specs.declared.fault.PacketFault.{PacketFault};
ghost use Rattle.packets.specs.declared.kept_fault.KeptFault.TheVariants as faults;
ghost use Rattle.packets.specs.Kept.{kept_in_range, IsKept};
ghost use Rattle.packets.specs.KeptFaults.{IsKeptReason, ReadsKept};
ghost use Rattle.packets.specs.Inside.Reader.{Gives, or_fault, bytes_at, both, times, whole};
ghost use Rattle.packets.specs.Inside.KeptReader.{GivesKept, log_at, kept_at, kept_fields_at, kept_head_at, kept_reading};

use crate::fault::{PacketError, PacketFault};
use crate::field::many_of;
use crate::fields::{bytes_of, u64_of};
use crate::head::fields_under;
use crate::kept::{Kept, KeptLog};
use crate::kept_fault::{KeptError, KeptFault};
use crate::page::Page;
use byteorder::{ByteOrder, LittleEndian};
use limits::{PROCESSES, STATE_BYTES};
use std::alloc::Global;

/// `SBN1`, the first four bytes.
pub const KEPT_MAGIC: [u8; 4] = [0x53, 0x42, 0x4e, 0x31];

/// The least length in bytes.
pub const KEPT_LEN: usize = 20;

/// The fields of the head.
#[derive(Clone, Copy)]
pub struct KeptHead {
    pub me: u8,
    pub count: u8,
    pub state_len: u16,
}

/// The kept state in these bytes. A refusal names the first fault by its number.
pub fn decode_kept(alloc: Global, bytes: &[u8]) -> Result<Kept, KeptError>
    // `encode_kept` writes what is read as these bytes.
    ensures found { IfOk result (λ k. IsKept k bytes.now) }
    // Whatever `encode_kept` writes is read, unless memory runs out.
    ensures only { (k : Kept) → IsKept k bytes.now → ReadsKept result k }
    // A refusal names a fault of the bytes, and no lesser fault is theirs.
    ensures refused { IfErr result (λ e. IsKeptReason e bytes.now) }
{
    kept_of(alloc, bytes)
}

/// The kept state, read field by field.
#[tactic(auto, unfolding(crate::specs::Inside::KeptReader::kept_reading))]
fn kept_of(alloc: Global, bytes: &[u8]) -> Result<Kept, KeptError>
    ensures { GivesKept (λ x. x) result (kept_reading bytes.now) }
{
    let fields = fields_of(bytes)?;
    let head = head_of(bytes)?;
    let kept = with_fault(body_of(alloc, head, fields))?;
    ranged(kept)
}

/// The same, if each number is in range.
fn ranged(kept: Kept) -> Result<Kept, KeptError>
    ensures { GivesKept (λ x. x) result (if kept_in_range kept then Ok kept else Err faults.Range) }
{
    if !kept.is_in_range() {
        return Err(KeptError::Fault(KeptFault::Range));
    }
    Ok(kept)
}

/// The bytes of the fields, if magic and checksum are right.
#[tactic(auto, unfolding(crate::specs::Inside::KeptReader::kept_fields_at))]
fn fields_of(bytes: &[u8]) -> Result<&[u8], KeptError>
    ensures exact { GivesKept (λ x. x.now) result (kept_fields_at bytes.now) }
    ensures long { IfOk result (λ x. 20 ≤ length bytes.now) }
{
    fields_under(
        KeptFault::Short,
        KeptFault::Magic,
        KeptFault::Checksum,
        KEPT_LEN,
        KEPT_MAGIC,
        bytes,
    )
    .map_err(KeptError::Fault)
}

/// The process, the number of processes, and the length of the state.
#[tactic(auto, unfolding(crate::specs::Inside::KeptReader::kept_head_at))]
fn head_of(bytes: &[u8]) -> Result<KeptHead, KeptError>
    requires { 8 ≤ length bytes.now }
    ensures { GivesKept (λ x. x) result (kept_head_at bytes.now) }
{
    let me = bytes[4];
    let count = bytes[5];
    let state_len = LittleEndian::read_u16(&bytes[6..8]);
    if count < 1 || count > PROCESSES as u8 {
        return Err(KeptError::Fault(KeptFault::Count));
    }
    if me < 1 || me > count {
        return Err(KeptError::Fault(KeptFault::Own));
    }
    if state_len as usize > STATE_BYTES {
        return Err(KeptError::Fault(KeptFault::State));
    }
    Ok(KeptHead {
        me,
        count,
        state_len,
    })
}

/// The fields after a head.
#[tactic(auto, unfolding(crate::specs::Inside::KeptReader::kept_at))]
fn body_of(alloc: Global, head: KeptHead, bytes: &[u8]) -> Result<Kept, PacketError>
    ensures { Gives (λ x. x) result (kept_at head bytes.now) }
{
    let (length, rest) = u64_of(bytes)?;
    let (counts, rest) = many_of(alloc, u64::from(head.count), rest)?;
    let (state, logs) = state_and_logs(alloc, head, rest)?;
    Ok(Kept {
        me: head.me,
        count: head.count,
        state,
        length,
        counts,
        logs,
    })
}

/// The state and the logs, with nothing after them.
fn state_and_logs(
    alloc: Global,
    head: KeptHead,
    bytes: &[u8],
) -> Result<(Page<u8>, Page<KeptLog>), PacketError>
    ensures { Gives (λ x. x) result (whole (both (bytes_at head.state_len) (times log_at head.count)) bytes.now) }
{
    let (state, rest) = bytes_of(head.state_len as usize, bytes)?;
    let (logs, rest) = many_of(alloc, u64::from(head.count), rest)?;
    if !rest.is_empty() {
        return Err(PacketError::Fault(PacketFault::Fields));
    }
    let state = Page::copied(alloc, state)?;
    Ok((state, logs))
}

/// A field that can't be read is fault 7.
fn with_fault(read: Result<Kept, PacketError>) -> Result<Kept, KeptError>
    ensures { (r : Result Kept PacketFault) → Gives (λ x. x) read r → GivesKept (λ x. x) result (or_fault faults.Fields r) }
{
    match read {
        Ok(kept) => Ok(kept),
        Err(PacketError::Memory) => Err(KeptError::Memory),
        Err(PacketError::Fault(_)) => Err(KeptError::Fault(KeptFault::Fields)),
    }
}
