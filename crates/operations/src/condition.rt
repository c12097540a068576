//! Conditional jumps.

ghost use Rattle.std.specs.Prelude.{◌≡◌};
ghost use Rattle.operations.specs.Operations as operations;

use crate::double;
use crate::word::{self, low};
use decode::{Condition, Width};

/// Whether a jump on `condition` is taken if its register holds `a` and its operand is `b` (RFC 9669 section 4.3).
pub fn holds(condition: Condition, width: Width, a: u64, b: u64) -> bool
    ensures { result ≡ operations.holds condition width a b }
{
    match width {
        Width::W32 => word::holds(condition, low(a), low(b)),
        Width::W64 => double::holds(condition, a, b),
    }
}
