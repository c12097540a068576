//! Bytes written one after another.

ghost use Rattle.std.specs.Prelude.{◌≡◌, ◌≤◌, ◌+◌, length};
ghost use Rattle.operations.specs.Bytes.{overwritten};
ghost use Rattle.c_runs.specs.Layout.{number_bytes};

/// Writes bytes at `at`, and answers the place after them.
pub fn put(out: &mut [u8], at: usize, bytes: &[u8]) -> usize
    requires { at + length bytes.now ≤ length out.old }
    ensures written { out.new ≡ overwritten out.old at bytes.now }
    ensures end { result ≡ at + length bytes.now }
{
    let end = at + bytes.len();
    out[at..end].copy_from_slice(bytes);
    end
}

/// Writes a number as eight bytes at `at`, the lowest first, and answers the place after them.
pub fn put_number(out: &mut [u8], at: usize, number: u64) -> usize
    requires { at + 8 ≤ length out.old }
    ensures written { out.new ≡ overwritten out.old at (number_bytes number) }
    ensures end { result ≡ at + 8 }
{
    put(out, at, &number.to_le_bytes())
}
