//! Arithmetic on registers.

ghost use Rattle.std.specs.Prelude.{◌≡◌};
ghost use Rattle.operations.specs.Operations.{negation_of, result_of};

use crate::double;
use crate::word::{self, low};
use decode::{AluOp, Width};

/// What `op` leaves in its destination, which held `a`, with the operand `b` (RFC 9669 section 4.1).
pub fn alu(op: AluOp, width: Width, a: u64, b: u64) -> u64
    ensures { result ≡ result_of op width a b }
{
    match width {
        Width::W32 => u64::from(word::alu(op, low(a), low(b))),
        Width::W64 => double::alu(op, a, b),
    }
}

/// What NEG leaves in its destination, which held `a` (RFC 9669 section 4.1).
pub fn negated(width: Width, a: u64) -> u64
    ensures { result ≡ negation_of width a }
{
    match width {
        Width::W32 => u64::from(low(a).wrapping_neg()),
        Width::W64 => a.wrapping_neg(),
    }
}
