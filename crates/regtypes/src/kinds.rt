//! What the rules ask of a kind.

ghost use Rattle.std.specs.Prelude.{◌≡◌, ◌≤◌, ◌+◌, IsTrue};
ghost use Rattle.regtypes.specs.Rules.{is_unset, is_len, is_place, is_in_message, is_message, is_sized, has_bytes, moved, is_near, region_len, region_start};

use crate::frame::{Kind, Region, is_num};
use limits::{MEMORY_BYTES, PAYLOAD_BYTES, STACK_BYTES, STATE_BYTES};

pub fn is_unset(kind: Kind) -> bool
    ensures { result ≡ is_unset kind }
{
    matches!(kind, Kind::Unset)
}

pub fn is_len(kind: Kind) -> bool
    ensures { result ≡ is_len kind }
{
    matches!(kind, Kind::Len)
}

pub fn is_place(kind: Kind) -> bool
    ensures { result ≡ is_place kind }
{
    matches!(kind, Kind::Place(_, _))
}

pub fn is_in_message(kind: Kind) -> bool
    ensures { result ≡ is_in_message kind }
{
    matches!(kind, Kind::Place(Region::Message, _))
}

fn is_message(kind: Kind) -> bool
    ensures { result ≡ is_message kind }
{
    matches!(kind, Kind::Place(Region::Message, 0))
}

/// The least size of a region: the message has at least `low` bytes, the state has `state_len`.
fn region_len(region: Region, low: u16, state_len: u16) -> usize
    ensures { result ≡ region_len low state_len region }
{
    match region {
        Region::Message => low as usize,
        Region::State => state_len as usize,
        Region::Stack => STACK_BYTES,
    }
}

/// Where a region begins in the array of a call, which has the message, then a state of this length, then the stack.
pub fn region_start(region: Region, len: u16) -> u16
    requires { len ≤ STATE_BYTES }
    ensures value { result ≡ region_start len region }
    ensures within { result + region_len PAYLOAD_BYTES len region ≤ MEMORY_BYTES }
{
    match region {
        Region::Message => 0,
        Region::State => PAYLOAD_BYTES as u16,
        Region::Stack => PAYLOAD_BYTES as u16 + len,
    }
}

/// Whether bytes at a place and an offset lie in its region.
pub fn reaches(kind: Kind, offset: i16, bytes: u8, low: u16, state_len: u16) -> bool
    ensures { result ≡ has_bytes low state_len bytes (moved offset kind) }
{
    match kind {
        Kind::Place(region, at) => {
            let from = i32::from(at) + i32::from(offset);
            from >= 0 && from as usize + bytes as usize <= region_len(region, low, state_len)
        }
        _ => false,
    }
}

/// Whether this many bytes at a place lie in its region.
pub fn has_bytes(kind: Kind, bytes: u16, low: u16, state_len: u16) -> bool
    ensures { result ≡ has_bytes low state_len bytes kind }
{
    match kind {
        Kind::Place(region, at) => {
            at >= 0 && at as usize + bytes as usize <= region_len(region, low, state_len)
        }
        _ => false,
    }
}

/// Whether these are a place and a length that a helper may take: 256 bytes lie there, or they are the whole message.
pub fn is_sized(place: Kind, count: Kind, low: u16, state_len: u16) -> bool
    ensures { result ≡ is_sized low state_len place count }
{
    is_num(count)
        && (has_bytes(place, PAYLOAD_BYTES as u16, low, state_len)
            || (is_message(place) && is_len(count)))
}

/// Whether a frame can still name the place after it is moved.
pub fn moves(kind: Kind, by: i64) -> bool
    ensures { result ≡ is_near (moved by kind) }
{
    match kind {
        Kind::Place(_, at) => {
            let to = i128::from(at) + i128::from(by);
            -32768 <= to && to <= 32767
        }
        _ => true,
    }
}

/// The kind after a number is added to it.
pub fn moved(kind: Kind, by: i64) -> Kind
    requires { IsTrue (is_near (moved by kind)) }
    ensures { result ≡ moved by kind }
{
    match kind {
        Kind::Place(region, at) => Kind::Place(region, (i128::from(at) + i128::from(by)) as i16),
        _ => Kind::Num,
    }
}
