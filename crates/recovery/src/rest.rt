//! Reads what a suspended node has beside its kept state.

ghost use Rattle.std.specs.Prelude.{◌≡◌, IfOk};
ghost use Rattle.packets.specs.Inside.Reader.{Gives, bytes_at, times};
ghost use Rattle.recovery.specs.Resumption.{text_at, codes_at, rest_at};

use packets::{PacketError, PacketFault, Page, byte_of, many_of, u64_of};
use std::alloc::Global;

/// What a suspended node has beside its kept state, as it is written.
#[derive(Drop)]
pub(crate) struct Rest {
    pub(crate) life: u64,
    /// Whether it is exact, as 0 or 1.
    pub(crate) exact: u8,
    /// By peer: the greatest incarnation that it heard.
    pub(crate) heard: Page<u64>,
    /// By peer: whether it obeyed the Resume of that incarnation, as 0 or 1.
    pub(crate) resumed: Page<u8>,
    /// By destination: the codes of the RSNs of the messages that it keeps.
    pub(crate) codes: Page<Page<u64>>,
}

/// The bytes after their length, and the bytes after them.
#[tactic(auto, unfolding(crate::specs::Resumption::text_at))]
pub(crate) fn text_of(bytes: &[u8]) -> Result<(&[u8], &[u8]), PacketError>
    ensures { Gives (λ x. (x.0.now, x.1.now)) result (text_at bytes.now) }
{
    let (len, rest) = u64_of(bytes)?;
    bytes_of(len, rest)
}

/// The first `len` bytes, and the bytes after them.
fn bytes_of(len: u64, bytes: &[u8]) -> Result<(&[u8], &[u8]), PacketError>
    ensures { Gives (λ x. (x.0.now, x.1.now)) result (bytes_at len bytes.now) }
{
    if (bytes.len() as u64) < len {
        return Err(PacketError::Fault(PacketFault::Fields));
    }
    Ok(bytes.split_at(len as usize))
}

/// What a node of `wide` peers, itself included, has beside its kept state.
#[tactic(auto, unfolding(crate::specs::Resumption::rest_at))]
pub(crate) fn rest_of(alloc: Global, wide: u8, bytes: &[u8]) -> Result<(Rest, &[u8]), PacketError>
    ensures { Gives (λ x. (x.0, x.1.now)) result (rest_at wide bytes.now) }
{
    let (life, after) = u64_of(bytes)?;
    let (exact, after) = byte_of(after)?;
    let (heard, after) = many_of(alloc, u64::from(wide), after)?;
    let (flags, after) = bytes_of(u64::from(wide), after)?;
    let resumed = Page::copied(alloc, flags)?;
    let (codes, after) = logs_of(alloc, wide, after)?;
    let rest = Rest {
        life,
        exact,
        heard,
        resumed,
        codes,
    };
    Ok((rest, after))
}

/// The codes of `wide` logs, and the bytes after them.
fn logs_of(alloc: Global, wide: u8, bytes: &[u8]) -> Result<(Page<Page<u64>>, &[u8]), PacketError>
    ensures { Gives (λ x. (x.0, x.1.now)) result (times codes_at wide bytes.now) }
{
    let mut logs = Page::new(alloc);
    let mut rest = bytes;
    for _ in 0..wide {
        let (codes, after) = codes_of(alloc, rest)?;
        logs.push(codes)?;
        rest = after;
    }
    Ok((logs, rest))
}

/// How many codes there are, and each.
#[tactic(auto, unfolding(crate::specs::Resumption::codes_at))]
fn codes_of(alloc: Global, bytes: &[u8]) -> Result<(Page<u64>, &[u8]), PacketError>
    ensures { Gives (λ x. (x.0, x.1.now)) result (codes_at bytes.now) }
{
    let (count, rest) = u64_of(bytes)?;
    many_of(alloc, count, rest)
}
