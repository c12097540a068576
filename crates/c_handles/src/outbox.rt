//! Packets that wait to be sent, and are given out as those of a bundle.

ghost use Rattle.std.specs.Prelude.{◌≡◌, ◌+◌, ◌<◌, ℕ, List, length, true, IfOk, IfErr, IfSome, IfNone, MatchOption, MatchResult, OnErr};
ghost use Rattle.c_handles.specs.Buffer.{IsUncopied};
ghost use Rattle.c_handles.specs.Bundle.{FitsFrom, IsUnfit, GivesFirst, GivesAll, GivesNext, IsNoMore};
ghost use Rattle.c_handles.specs.Outbox.{GivesNone, IsNoFirst};

use crate::buffer::copy;
use crate::bundle::{LENGTH_BYTES, fits, put_part};
use std::alloc::{AllocError, Global};

/// How the packets that wait to be sent are taken from who has them.
pub trait Outgoing<S> {
    /// The first packet that waits goes to this process, and these are its bytes.
    ghost waits: { S → ℕ → List ℕ → Type 0 };

    /// No packet waits.
    ghost is_empty: { S → Type 0 };

    /// The first packet that waits, which goes to this process and has these bytes, is taken.
    ghost leaves: { ℕ → List ℕ → S → S → Type 0 };

    /// The receiver and the bytes of the first packet that waits.
    fn first(alloc: Global, sender: &S) -> Result<Option<(u8, Vec<u8>)>, AllocError>
        ensures waits { IfOk result (λ o. MatchOption o (is_empty sender.now) (λ v. waits sender.now v.0 v.1.items)) }
        ensures some { IfOk result (λ o. IfSome o (λ v. 0 < length v.1.items)) };

    /// Takes the first packet that waits.
    fn take_first(sender: &mut S)
        ensures { (to : ℕ) (packet : List ℕ) → waits sender.old to packet → leaves to packet sender.old sender.new };
}

/// Why no packet is given out.
#[derive(Clone, Copy)]
pub enum Ungiven {
    /// Memory ran out.
    Memory,
    /// None waits.
    Absent,
    /// The buffer is too short.
    Room,
}

/// The first packet that waits: its receiver and its bytes.
fn first_of<S, O: Outgoing<S>>(alloc: Global, sender: &S) -> Result<(u8, Vec<u8>), Ungiven>
    ensures first { IfOk result (λ v. O.waits sender.now v.0 v.1.items × (0 < length v.1.items)) }
    ensures none { IfErr result (IsNoFirst (O.is_empty sender.now)) }
{
    match O::first(alloc, sender) {
        Ok(Some(first)) => Ok(first),
        Ok(None) => Err(Ungiven::Absent),
        Err(_) => Err(Ungiven::Memory),
    }
}

/// Takes the first packet that waits, if the buffer is long enough: writes its bytes, their number,
/// and its receiver.
pub fn give_first<S, O: Outgoing<S>>(
    alloc: Global,
    sender: &mut S,
    out: &mut [u8],
    size: &mut usize,
    to: &mut u8,
) -> Result<(), Ungiven>
    ensures given { MatchResult result (λ _. GivesFirst O.leaves out.old out.new size.new to.new sender.old sender.new) (GivesNone O.is_empty O.waits IsUncopied out.old out.new size.old size.new sender.old sender.new) }
    ensures kept { OnErr result (to.new ≡ to.old) }
{
    let (receiver, packet) = first_of::<S, O>(alloc, sender)?;
    copy(&packet, out, size, Ungiven::Room)?;
    O::take_first(sender);
    *to = receiver;
    Ok(())
}

/// Takes the first packets that wait, as many as go to the same process and fit: writes them as those
/// of a bundle, their length in bytes, their receiver, and their number. Answers whether these are
/// all: if not, memory ran out for the next one.
pub fn give_all<S, O: Outgoing<S>>(
    alloc: Global,
    sender: &mut S,
    out: &mut [u8],
    size: &mut usize,
    to: &mut u8,
    count: &mut u64,
) -> Result<bool, Ungiven>
    ensures given { MatchResult result (λ _. GivesAll O.leaves out.old out.new size.new to.new count.new sender.old sender.new) (GivesNone O.is_empty O.waits IsUnfit out.old out.new size.old size.new sender.old sender.new) }
    ensures all { IfOk result (λ all. all ≡ true → IsNoMore (O.is_empty sender.new) (O.waits sender.new) to.new size.new (length out.old)) }
    ensures kept { OnErr result ((to.new ≡ to.old) × (count.new ≡ count.old)) }
{
    let (receiver, end) = give_front::<S, O>(alloc, sender, out, size)?;
    *size = end;
    *to = receiver;
    *count = 1;
    loop {
        match give_next::<S, O>(alloc, sender, out, *size, receiver) {
            Ok(Some(end)) => {
                *size = end;
                *count += 1;
            }
            Ok(None) => return Ok(true),
            Err(_) => return Ok(false),
        }
    }
}

/// Writes the first packet that waits as that of a bundle, if it fits, and takes it. Answers its
/// receiver and the place after it.
fn give_front<S, O: Outgoing<S>>(
    alloc: Global,
    sender: &mut S,
    out: &mut [u8],
    size: &mut usize,
) -> Result<(u8, usize), Ungiven>
    ensures { MatchResult result (λ v. GivesNext O.leaves out.old out.new 0 v.1 v.0 sender.old sender.new) (GivesNone O.is_empty O.waits IsUnfit out.old out.new size.old size.new sender.old sender.new) }
{
    let (receiver, packet) = first_of::<S, O>(alloc, sender)?;
    let Some(end) = give::<S, O>(sender, out, 0, &packet) else {
        *size = LENGTH_BYTES + packet.len();
        return Err(Ungiven::Room);
    };
    Ok((receiver, end))
}

/// Writes the first packet that waits at `at`, if it goes to this process and fits, and takes it.
/// Answers the place after it.
fn give_next<S, O: Outgoing<S>>(
    alloc: Global,
    sender: &mut S,
    out: &mut [u8],
    at: usize,
    to: u8,
) -> Result<Option<usize>, AllocError>
    ensures given { IfOk result (λ o. IfSome o (λ end. GivesNext O.leaves out.old out.new at end to sender.old sender.new)) }
    ensures all { IfOk result (λ o. IfNone o (IsNoMore (O.is_empty sender.old) (O.waits sender.old) to at (length out.old) × (sender.new ≡ sender.old) × (out.new ≡ out.old))) }
    ensures kept { OnErr result ((sender.new ≡ sender.old) × (out.new ≡ out.old)) }
{
    let Some((next, packet)) = O::first(alloc, sender)? else {
        return Ok(None);
    };
    if next != to {
        return Ok(None);
    }
    Ok(give::<S, O>(sender, out, at, &packet))
}

/// Writes the first packet that waits at `at`, after its length, if it fits, and takes it. Answers the
/// place after it.
fn give<S, O: Outgoing<S>>(
    sender: &mut S,
    out: &mut [u8],
    at: usize,
    packet: &[u8],
) -> Option<usize>
    ensures some { IfSome result (λ end. (to : ℕ) → O.waits sender.old to packet.now → 0 < length packet.now → GivesNext O.leaves out.old out.new at end to sender.old sender.new) }
    ensures none { IfNone result ((¬ FitsFrom at (length out.old) packet.now) × (sender.new ≡ sender.old) × (out.new ≡ out.old)) }
{
    if !fits(out, at, packet) {
        return None;
    }
    let end = put_part(out, at, packet);
    O::take_first(sender);
    Some(end)
}
