//! The packets of a bundle, one after another, and how many of them were taken.

ghost use Rattle.std.specs.Prelude.{◌≡◌, ◌++◌, ◌↔◌, ◌≤◌, ◌+◌, List, ℕ, length, IsTrue, MatchOption};
ghost use Rattle.operations.specs.Bytes.{overwritten};
ghost use Rattle.c_handles.specs.Bundle.{IsPart, IsBundle, part_bytes, BeginsWithNone, FitsFrom};

use byteorder::{ByteOrder, LittleEndian};

/// How many bytes the length of a packet has.
pub(crate) const LENGTH_BYTES: usize = 2;

/// The fault of bytes that are not the packets of a bundle.
pub const NOT_BUNDLE: u8 = 1;

/// How the packets of a bundle fared, as a program in C reads it: three words of 8 bytes.
#[repr(C)]
#[derive(Clone, Copy)]
pub struct BundleTally {
    /// Packets that were taken.
    pub taken: u64,
    /// Those that are no packets.
    pub refused: u64,
    /// Those for which there was no memory.
    pub lost: u64,
}

/// The first packet, and the bytes after it.
pub fn first_of(bytes: &[u8]) -> Option<(&[u8], &[u8])>
    ensures { MatchOption result (BeginsWithNone bytes.now) (λ p. IsPart p.0.now × (bytes.now ≡ part_bytes p.0.now ++ p.1.now)) }
{
    if bytes.len() < LENGTH_BYTES {
        return None;
    }
    let size = usize::from(LittleEndian::read_u16(bytes));
    let rest = &bytes[LENGTH_BYTES..];
    if size == 0 || size > rest.len() {
        return None;
    }
    Some(rest.split_at(size))
}

/// Whether these bytes are the packets of a bundle.
pub fn is_bundle(bytes: &[u8]) -> bool
    ensures { IsTrue result ↔ (xs : List (List ℕ)) × IsBundle xs bytes.now }
{
    let mut rest = bytes;
    while let Some((_packet, after)) = first_of(rest) {
        rest = after;
    }
    rest.is_empty()
}

/// Whether a packet and its length fit from `at` on.
pub(crate) fn fits(out: &[u8], at: usize, packet: &[u8]) -> bool
    ensures { IsTrue result ↔ FitsFrom at (length out.now) packet.now }
{
    if packet.len() > usize::from(u16::MAX) || at > out.len() {
        return false;
    }
    LENGTH_BYTES + packet.len() <= out.len() - at
}

/// Writes bytes at `at`, and answers the place after them.
fn put(out: &mut [u8], at: usize, bytes: &[u8]) -> usize
    requires { at + length bytes.now ≤ length out.old }
    ensures written { out.new ≡ overwritten out.old at bytes.now }
    ensures end { result ≡ at + length bytes.now }
{
    let end = at + bytes.len();
    out[at..end].copy_from_slice(bytes);
    end
}

/// Writes a packet after its length at `at`, and answers the place after it.
pub(crate) fn put_part(out: &mut [u8], at: usize, packet: &[u8]) -> usize
    requires { FitsFrom at (length out.old) packet.now }
    ensures written { out.new ≡ overwritten out.old at (part_bytes packet.now) }
    ensures end { result ≡ at + length (part_bytes packet.now) }
{
    let mut size = [0; LENGTH_BYTES];
    LittleEndian::write_u16(&mut size, packet.len() as u16);
    let end = put(out, at, &size);
    put(out, end, packet)
}
