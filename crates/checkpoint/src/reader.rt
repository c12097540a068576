//! From bytes to a saved process.

ghost use Rattle.std.specs.Prelude.{◌≡◌, ◌≢◌, ◌+◌, ◌*◌, ◌≤◌, true, length, IfOk, Ok};
ghost use Rattle.std.specs.List.{AllByRecursion};
ghost use Rattle.checkpoint.specs.declared.form.CheckpointForm.{CheckpointForm};
ghost use Rattle.checkpoint.specs.declared.form.CheckpointForm.TheVariants.{Second};
ghost use Rattle.checkpoint.specs.Saved.{TheSaved, PayloadFits, KeptFits};
ghost use Rattle.checkpoint.specs.Inside.Saved.{HeadFits};
ghost use Rattle.checkpoint.specs.Format.{IsCheckpoint, bytes_of};
ghost use Rattle.checkpoint.specs.Reader.{Gives, payload_at, kept_at, times, body_at, reading};

use crate::fault::{SavedError, SavedFault};
use crate::fields::{CheckpointHead, bytes_of, head_of, payload_of, senders_of, u32_of};
use crate::form::CheckpointForm;
use crate::kept::KeptMessages;
use crate::payloads::Payloads;
use crate::saved::Saved;
use limits::SENDS;
use std::alloc::Global;

/// The saved process of a checkpoint in either form. The error is the first fault in the order of
/// reading.
pub fn decode(alloc: Global, bytes: &[u8]) -> Result<Saved, SavedError>
    // The bytes are the checkpoint of what is answered, in one of the forms.
    ensures found { IfOk result (λ s. (form : CheckpointForm) × IsCheckpoint form s bytes.now) }
    // A checkpoint is read, unless memory runs out.
    ensures only { (form : CheckpointForm) (s : TheSaved) → IsCheckpoint form s bytes.now → Gives (λ x. x) result (Ok s) }
    // The error is the first fault that reading meets.
    ensures exact { Gives (λ x. x) result (reading bytes.now) }
{
    whole(alloc, bytes)
}

/// All of the bytes, field by field.
#[tactic(auto, unfolding(crate::specs::Reader::reading))]
fn whole(alloc: Global, bytes: &[u8]) -> Result<Saved, SavedError>
    ensures { Gives (λ x. x) result (reading bytes.now) }
{
    let (head, rest) = head_of(bytes)?;
    let (saved, rest) = body_of(alloc, head, rest)?;
    if !rest.is_empty() {
        return Err(SavedError::Fault(SavedFault::Length));
    }
    Ok(saved)
}

/// The state, the receipts, and what is kept for each destination.
#[tactic(auto, unfolding(crate::specs::Reader::body_at))]
fn body_of(alloc: Global, head: CheckpointHead, bytes: &[u8]) -> Result<(Saved, &[u8]), SavedError>
    requires { HeadFits head }
    ensures { Gives (λ x. (x.0, x.1.now)) result (body_at head bytes.now) }
{
    let (state, rest) = bytes_of(head.state as usize, bytes)?;
    let (senders, rest) = senders_of(head, rest)?;
    let (mut queues, rest) = queues_of(alloc, head.form, head.count, rest)?;
    queues.insert(head.me as usize, KeptMessages::nothing(alloc))?;
    let state = Vec::from_slice(alloc, state)?;
    let senders = Vec::from_slice(alloc, senders)?;
    Ok((
        Saved::new(head.me, head.count, state, senders, queues),
        rest,
    ))
}

/// What is kept for `count` destinations.
fn queues_of(
    alloc: Global,
    form: CheckpointForm,
    count: u8,
    bytes: &[u8],
) -> Result<(Vec<KeptMessages>, &[u8]), SavedError>
    ensures exact { Gives (λ x. (x.0.items, x.1.now)) result (times (kept_at form) count bytes.now) }
    ensures count { IfOk result (λ x. length x.0.items ≡ count) }
    ensures fits { IfOk result (λ x. AllByRecursion (KeptFits Second) x.0.items) }
{
    let mut queues = Vec::new(alloc);
    let mut rest = bytes;
    for _ in 0..count {
        let (kept, after) = kept_of(alloc, form, rest)?;
        queues.push(kept)?;
        rest = after;
    }
    Ok((queues, rest))
}

/// What is kept for one destination.
#[tactic(auto, unfolding(crate::specs::Reader::kept_at))]
fn kept_of(
    alloc: Global,
    form: CheckpointForm,
    bytes: &[u8],
) -> Result<(KeptMessages, &[u8]), SavedError>
    ensures exact { Gives (λ x. (x.0, x.1.now)) result (kept_at form bytes.now) }
    ensures fits { IfOk result (λ x. KeptFits Second x.0) }
{
    let (first, rest) = u32_of(1, SENDS as u32 + 1, bytes)?;
    let (count, rest) = u32_of(0, SENDS as u32 + 1 - first, rest)?;
    let (payloads, rest) = payloads_of(alloc, form, count, rest)?;
    Ok((KeptMessages::new(first, payloads), rest))
}

/// `count` payloads.
fn payloads_of(
    alloc: Global,
    form: CheckpointForm,
    count: u32,
    bytes: &[u8],
) -> Result<(Payloads, &[u8]), SavedError>
    ensures exact { Gives (λ x. (x.0, x.1.now)) result (times (payload_at form) count bytes.now) }
    ensures count { IfOk result (λ x. length x.0 ≡ count) }
    ensures fits { IfOk result (λ x. AllByRecursion (PayloadFits Second) x.0) }
{
    let mut payloads = Payloads::with_room(alloc, room_of(form, count, bytes))?;
    let mut rest = bytes;
    for _ in 0..count {
        let (payload, after) = payload_of(form, rest)?;
        payloads.push(payload)?;
        rest = after;
    }
    Ok((payloads, rest))
}

/// How many bytes the payloads take, each after its length, up to the first that can't be read.
fn room_of(form: CheckpointForm, count: u32, bytes: &[u8]) -> usize
    ensures { result ≤ length bytes.now + 2 * count }
{
    let mut room = 0;
    let mut rest = bytes;
    for _ in 0..count {
        let Ok((payload, after)) = payload_of(form, rest) else {
            return room;
        };
        room += payload.len() + 2;
        rest = after;
    }
    room
}
