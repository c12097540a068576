//! Reading the fields of a checkpoint.

ghost use Rattle.std.specs.Prelude.{◌≡◌, ◌≤◌, true, length, IfOk};
ghost use Rattle.std.specs.Int.{w16, w32};
ghost use Rattle.std.specs.List.{list_all};
ghost use Rattle.checkpoint.specs.Saved.{is_sender};
ghost use Rattle.checkpoint.specs.Inside.Saved.{HeadFits};
ghost use Rattle.checkpoint.specs.Reader.{Gives, bytes_at, byte_at, number_at, form_at, senders_at, payload_at, head_at};

use crate::fault::{SavedError, SavedFault};
use crate::form::CheckpointForm;
use byteorder::{ByteOrder, LittleEndian};
use limits::{PAYLOAD_BYTES, PROCESSES, RECEIPTS, STATE_BYTES};
use std::alloc::Global;

/// The first fields of a checkpoint.
#[derive(Clone, Copy, Debug, PartialEq, Eq)]
pub struct CheckpointHead {
    pub form: CheckpointForm,
    /// How many bytes the state has.
    pub state: u16,
    pub count: u8,
    pub me: u8,
    /// How many messages were received.
    pub received: u32,
}

/// How many bytes a payload of the first form has.
const FIRST_PAYLOAD: usize = 64;

/// The first `len` bytes, and those after them.
pub fn bytes_of(len: usize, bytes: &[u8]) -> Result<(&[u8], &[u8]), SavedError>
    ensures exact { Gives (λ x. (x.0.now, x.1.now)) result (bytes_at len bytes.now) }
    ensures len { IfOk result (λ x. length x.0.now ≡ len) }
{
    if bytes.len() < len {
        return Err(SavedError::Fault(SavedFault::Length));
    }
    Ok(bytes.split_at(len))
}

/// A byte in a range.
pub fn byte_of(least: u8, most: u8, bytes: &[u8]) -> Result<(u8, &[u8]), SavedError>
    ensures exact { Gives (λ x. (x.0, x.1.now)) result (byte_at least most bytes.now) }
    ensures range { IfOk result (λ x. (least ≤ x.0) × (x.0 ≤ most)) }
{
    let [byte, rest @ ..] = bytes else {
        return Err(SavedError::Fault(SavedFault::Length));
    };
    if *byte < least || *byte > most {
        return Err(SavedError::Fault(SavedFault::Range));
    }
    Ok((*byte, rest))
}

/// A number of two bytes, in a range.
#[tactic(auto, using(crate::proofs::ByteLemmas::little_16), unfolding(crate::specs::Reader::number_at))]
pub fn u16_of(least: u16, most: u16, bytes: &[u8]) -> Result<(u16, &[u8]), SavedError>
    ensures exact { Gives (λ x. (x.0, x.1.now)) result (number_at w16 least most bytes.now) }
    ensures range { IfOk result (λ x. (least ≤ x.0) × (x.0 ≤ most)) }
{
    let (front, rest) = bytes_of(2, bytes)?;
    let number = LittleEndian::read_u16(front);
    if number < least || number > most {
        return Err(SavedError::Fault(SavedFault::Range));
    }
    Ok((number, rest))
}

/// A number of four bytes, in a range.
#[tactic(auto, using(crate::proofs::ByteLemmas::little_32), unfolding(crate::specs::Reader::number_at))]
pub fn u32_of(least: u32, most: u32, bytes: &[u8]) -> Result<(u32, &[u8]), SavedError>
    ensures exact { Gives (λ x. (x.0, x.1.now)) result (number_at w32 least most bytes.now) }
    ensures range { IfOk result (λ x. (least ≤ x.0) × (x.0 ≤ most)) }
{
    let (front, rest) = bytes_of(4, bytes)?;
    let number = LittleEndian::read_u32(front);
    if number < least || number > most {
        return Err(SavedError::Fault(SavedFault::Range));
    }
    Ok((number, rest))
}

/// The form with this magic.
#[tactic(auto, unfolding(crate::specs::Reader::form_at))]
fn form_of(bytes: &[u8]) -> Result<(CheckpointForm, &[u8]), SavedError>
    ensures { Gives (λ x. (x.0, x.1.now)) result (form_at bytes.now) }
{
    let (front, rest) = bytes_of(4, bytes)?;
    if front == CheckpointForm::First.magic().as_slice() {
        Ok((CheckpointForm::First, rest))
    } else if front == CheckpointForm::Second.magic().as_slice() {
        Ok((CheckpointForm::Second, rest))
    } else {
        Err(SavedError::Fault(SavedFault::Magic))
    }
}

/// The fields up to the number of receipts.
#[tactic(auto, unfolding(crate::specs::Reader::head_at))]
pub fn head_of(bytes: &[u8]) -> Result<(CheckpointHead, &[u8]), SavedError>
    ensures exact { Gives (λ x. (x.0, x.1.now)) result (head_at bytes.now) }
    ensures fits { IfOk result (λ x. HeadFits x.0) }
{
    let (form, rest) = form_of(bytes)?;
    let (state, rest) = u16_of(0, STATE_BYTES as u16, rest)?;
    let (count, rest) = byte_of(1, PROCESSES as u8, rest)?;
    let (me, rest) = byte_of(1, count, rest)?;
    let (received, rest) = u32_of(0, RECEIPTS as u32, rest)?;
    let head = CheckpointHead {
        form,
        state,
        count,
        me,
        received,
    };
    Ok((head, rest))
}

/// The senders of the received messages, a byte each.
#[tactic(auto, unfolding(crate::specs::Reader::senders_at))]
pub fn senders_of(head: CheckpointHead, bytes: &[u8]) -> Result<(&[u8], &[u8]), SavedError>
    ensures exact { Gives (λ x. (x.0.now, x.1.now)) result (senders_at head.me head.count head.received bytes.now) }
    ensures len { IfOk result (λ x. length x.0.now ≡ head.received) }
    ensures senders { IfOk result (λ x. list_all (is_sender head.me head.count) x.0.now ≡ true) }
{
    let (senders, rest) = bytes_of(head.received as usize, bytes)?;
    if !are_senders(head, senders) {
        return Err(SavedError::Fault(SavedFault::Range));
    }
    Ok((senders, rest))
}

/// Whether each of these is the outside or another process.
fn are_senders(head: CheckpointHead, senders: &[u8]) -> bool
    ensures { result ≡ list_all (is_sender head.me head.count) senders.now }
{
    senders
        .iter()
        .all(|sender| *sender <= head.count && *sender != head.me)
}

/// A payload. In the second form its length comes first.
#[tactic(auto, unfolding(crate::specs::Reader::payload_at))]
pub fn payload_of(form: CheckpointForm, bytes: &[u8]) -> Result<(&[u8], &[u8]), SavedError>
    ensures exact { Gives (λ x. (x.0.now, x.1.now)) result (payload_at form bytes.now) }
    ensures bound { IfOk result (λ x. length x.0.now ≤ PAYLOAD_BYTES) }
{
    match form {
        CheckpointForm::First => bytes_of(FIRST_PAYLOAD, bytes),
        CheckpointForm::Second => {
            let (len, rest) = u16_of(0, PAYLOAD_BYTES as u16, bytes)?;
            bytes_of(len as usize, rest)
        }
    }
}
