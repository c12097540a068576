//! Fields that are read and written one after another.

ghost use Rattle.std.specs.Prelude.{◌≡◌, ◌++◌, ℕ, List, Result, Some, slice_get, OnOk};
ghost use Rattle.std.specs.List.{flat_map};
ghost use Rattle.packets.specs.declared.fault.PacketFault.{PacketFault};
ghost use Rattle.packets.specs.Inside.Reader.{Gives, counted_at, times};

use crate::fault::PacketError;
use crate::fields::u32_of;
use crate::page::Page;
use std::alloc::{AllocError, Global};

/// What is read of bytes.
pub trait Readable: Drop {
    // Reads one, and tells the bytes after it.
    ghost reader: { List ℕ → Result (Self × List ℕ) PacketFault };

    /// The first of some bytes, and the bytes after it.
    fn read(alloc: Global, bytes: &[u8]) -> Result<(Self, &[u8]), PacketError>
        ensures { Gives (λ x. (x.0, x.1.now)) result (reader bytes.now) };
}

/// `count` of them, and the bytes after them.
pub fn many_of<T: Readable>(
    alloc: Global,
    count: u64,
    bytes: &[u8],
) -> Result<(Page<T>, &[u8]), PacketError>
    ensures { Gives (λ x. (x.0, x.1.now)) result (times T.reader count bytes.now) }
{
    let mut items = Page::new(alloc);
    let mut rest = bytes;
    for _ in 0..count {
        let (item, after) = T::read(alloc, rest)?;
        items.push(item)?;
        rest = after;
    }
    Ok((items, rest))
}

/// How many there are, in four bytes, and each.
#[tactic(auto, unfolding(crate::specs::Inside::Reader::counted_at))]
pub fn all_of<T: Readable>(alloc: Global, bytes: &[u8]) -> Result<(Page<T>, &[u8]), PacketError>
    ensures { Gives (λ x. (x.0, x.1.now)) result (counted_at 4 T.reader bytes.now) }
{
    let (count, rest) = u32_of(bytes)?;
    many_of(alloc, u64::from(count), rest)
}

/// What is written as bytes.
pub trait Spelled {
    // Its bytes.
    ghost spelling: { Self → List ℕ };

    // What it needs so that its fields fit their bytes.
    ghost fits: { Self → Type 0 } = { λ _. Unit {0} };

    /// Appends its bytes.
    fn put(&self, out: &mut Vec<u8>) -> Result<(), AllocError>
        requires { fits self.now }
        ensures { OnOk result (out.new.items ≡ out.old.items ++ spelling self.now) };
}

/// Appends each of them.
pub fn put_many<T: Spelled>(out: &mut Vec<u8>, items: &[T]) -> Result<(), AllocError>
    requires { (i : ℕ) (x : _) → slice_get items.now i ≡ Some x → T.fits x }
    ensures { OnOk result (out.new.items ≡ out.old.items ++ flat_map T.spelling items.now) }
{
    for item in items {
        item.put(out)?;
    }
    Ok(())
}
