//! Distances from a region's first byte, in 16 bits and a sign.

ghost use Rattle.std.specs.Prelude.{◌≡◌, ◌+ℤ◌, pos};

/// A distance after a number is added.
pub fn further(at: i16, by: u64) -> i128
    ensures { result ≡ at +ℤ pos by }
{
    i128::from(at) + i128::from(by)
}

/// A distance after an immediate is added.
pub fn changed(at: i16, by: i64) -> i128
    ensures { result ≡ at +ℤ by }
{
    i128::from(at) + i128::from(by)
}

/// Where the bytes at an offset from this distance begin.
pub fn begin(at: i16, offset: i16) -> i32
    ensures { result ≡ at +ℤ offset }
{
    i32::from(at) + i32::from(offset)
}

/// Where `bytes` bytes at an offset from this distance end.
pub fn end(at: i16, offset: i16, bytes: u16) -> i32
    ensures { result ≡ at +ℤ offset +ℤ pos bytes }
{
    begin(at, offset) + i32::from(bytes)
}
