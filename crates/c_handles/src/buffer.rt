//! Bytes written into a buffer of the caller.

ghost use Rattle.std.specs.Prelude.{◌≡◌, ◌<◌, ◌≤◌, length, IfErr, MatchResult, OnOk};
ghost use Rattle.c_handles.specs.Buffer.{IsCopied, IsUncopied};

/// If a buffer is too short for the bytes, writes their number and answers `room`.
pub fn measure<E: Drop>(bytes: &[u8], out: &[u8], size: &mut usize, room: E) -> Result<(), E>
    ensures { MatchResult result (λ _. (length bytes.now ≤ length out.now) × (size.new ≡ size.old)) (λ why. (why ≡ room) × (length out.now < length bytes.now) × (size.new ≡ length bytes.now)) }
{
    if bytes.len() > out.len() {
        *size = bytes.len();
        return Err(room);
    }
    Ok(())
}

/// Writes bytes to the front of a buffer, and their number.
pub fn write(bytes: &[u8], out: &mut [u8], size: &mut usize)
    requires { length bytes.now ≤ length out.old }
    ensures { IsCopied bytes.now out.old out.new size.new }
{
    *size = bytes.len();
    out[..bytes.len()].copy_from_slice(bytes);
}

/// The same if the buffer is long enough. One that is too short is left as it was, the answer is
/// `room`, and the number is written.
pub fn copy<E: Drop>(bytes: &[u8], out: &mut [u8], size: &mut usize, room: E) -> Result<(), E>
    ensures done { OnOk result (IsCopied bytes.now out.old out.new size.new) }
    ensures room { IfErr result (λ why. (why ≡ room) × IsUncopied bytes.now out.old out.new size.new) }
{
    measure(bytes, out, size, room)?;
    write(bytes, out, size);
    Ok(())
}
