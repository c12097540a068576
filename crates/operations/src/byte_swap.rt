//! Byte order.

ghost use Rattle.std.specs.Prelude.{◌≡◌};
ghost use Rattle.operations.specs.Operations.{reorder_of};

use crate::word::low;
use decode::{ByteOrder, SwapBits};

/// What END leaves in its destination, which held `a` (RFC 9669 section 4.2).
pub fn reordered(order: ByteOrder, bits: SwapBits, a: u64) -> u64
    ensures { result ≡ reorder_of order bits a }
{
    match (order, bits) {
        (ByteOrder::Little, SwapBits::Bits16) => a % 0x1_0000,
        (ByteOrder::Little, SwapBits::Bits32) => a % 0x1_0000_0000,
        (ByteOrder::Little, SwapBits::Bits64) => a,
        (_, SwapBits::Bits16) => u64::from(((a % 0x1_0000) as u16).swap_bytes()),
        (_, SwapBits::Bits32) => u64::from(low(a).swap_bytes()),
        (_, SwapBits::Bits64) => a.swap_bytes(),
    }
}
