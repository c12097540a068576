//! Sign extension.

ghost use Rattle.std.specs.Prelude.{◌≡◌};
ghost use Rattle.operations.specs.Operations.{extension_of, sign_extension_of, word_of};

use crate::word::low;
use decode::{Extension, SignedSize};

/// What MOVSX leaves in its destination if its source holds `a` (RFC 9669 section 4.1).
pub fn extended(extension: Extension, a: u64) -> u64
    ensures { result ≡ extension_of extension a }
{
    let byte = ((a % 0x100) as u8).cast_signed();
    let half = ((a % 0x1_0000) as u16).cast_signed();
    match extension {
        Extension::W32From8 => u64::from(i32::from(byte).cast_unsigned()),
        Extension::W32From16 => u64::from(i32::from(half).cast_unsigned()),
        Extension::W64From8 => i64::from(byte).cast_unsigned(),
        Extension::W64From16 => i64::from(half).cast_unsigned(),
        Extension::W64From32 => i64::from(low(a).cast_signed()).cast_unsigned(),
    }
}

/// What a sign-extending load leaves in its destination after it read `value` (RFC 9669 section 5.2).
pub fn sign_extended(size: SignedSize, value: u64) -> u64
    ensures { result ≡ sign_extension_of size value }
{
    match size {
        SignedSize::Word => extended(Extension::W64From32, value),
        SignedSize::Half => extended(Extension::W64From16, value),
        SignedSize::Byte => extended(Extension::W64From8, value),
    }
}

/// An immediate as an operand of 64 bits (RFC 9669 section 4.1).
pub fn word_of_imm(imm: i32) -> u64
    ensures { result ≡ word_of imm }
{
    i64::from(imm).cast_unsigned()
}
