//! Writing bytes in hexadecimal.

ghost use Rattle.std.specs.Prelude.{◌≡◌, ◌<◌, Some};
ghost use Rattle.std.specs.Char.{digit_char};
ghost use Rattle.scenario.specs.Hex.{hex_text};

use std::fmt;

/// Bytes that print as two lower-case hexadecimal digits each, or as `-` if there are none.
#[derive(Clone, Copy, Debug)]
pub struct Hex<'a>(pub &'a [u8]);

impl fmt::Display for Hex<'_> {
    ghost output = { λ h. Some (hex_text h.0.now) };

    fn fmt<W: fmt::Write>(&self, f: &mut fmt::Formatter<W>) -> fmt::Result {
        if self.0.is_empty() {
            return f.write_str("-");
        }
        for byte in self.0 {
            f.write_char(digit(*byte / 16))?;
            f.write_char(digit(*byte % 16))?;
        }
        Ok(())
    }
}

/// The digit of a number below 16.
fn digit(n: u8) -> char
    requires { n < 16 }
    ensures { result ≡ digit_char n }
{
    if n < 10 {
        char::from(b'0' + n)
    } else {
        char::from(b'a' + (n - 10))
    }
}
