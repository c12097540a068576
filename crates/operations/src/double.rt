//! Operations on double words of 64 bits.

ghost use Rattle.std.specs.Prelude.{◌≡◌};
ghost use Rattle.decode.specs.declared.insn.AluOp.{AluOp};
ghost use Rattle.operations.specs.Arithmetic.{computed};
ghost use Rattle.operations.specs.Conditions.{compared};

use decode::{AluOp, Condition};

/// The result of an operation of 64 bits (RFC 9669 section 4.1).
pub fn alu(op: AluOp, a: u64, b: u64) -> u64
    ensures { result ≡ computed op 64 a b }
{
    match op {
        AluOp::Add => a.wrapping_add(b),
        AluOp::Sub => a.wrapping_sub(b),
        AluOp::Mul => a.wrapping_mul(b),
        AluOp::Div => a.checked_div(b).unwrap_or(0),
        AluOp::Sdiv => signed_quotient(a, b),
        AluOp::Or => a | b,
        AluOp::And => a & b,
        AluOp::Lsh => a << (b % 64),
        AluOp::Rsh => a >> (b % 64),
        AluOp::Mod => a.checked_rem(b).unwrap_or(a),
        AluOp::Smod => signed_remainder(a, b),
        AluOp::Xor => a ^ b,
        AluOp::Mov => b,
        AluOp::Arsh => (a.cast_signed() >> (b % 64)).cast_unsigned(),
    }
}

/// Whether a condition of 64 bits holds (RFC 9669 section 4.3).
pub fn holds(condition: Condition, a: u64, b: u64) -> bool
    ensures { result ≡ compared condition 64 a b }
{
    match condition {
        Condition::Equal => a == b,
        Condition::Greater => a > b,
        Condition::GreaterEqual => a >= b,
        Condition::Set => a & b != 0,
        Condition::NotEqual => a != b,
        Condition::SignedGreater => a.cast_signed() > b.cast_signed(),
        Condition::SignedGreaterEqual => a.cast_signed() >= b.cast_signed(),
        Condition::Less => a < b,
        Condition::LessEqual => a <= b,
        Condition::SignedLess => a.cast_signed() < b.cast_signed(),
        Condition::SignedLessEqual => a.cast_signed() <= b.cast_signed(),
    }
}

// truncated toward zero
fn signed_quotient(a: u64, b: u64) -> u64
    ensures { result ≡ computed AluOp.Sdiv 64 a b }
{
    if b == 0 {
        0
    } else {
        a.cast_signed()
            .wrapping_div(b.cast_signed())
            .cast_unsigned()
    }
}

// with the sign of the dividend
fn signed_remainder(a: u64, b: u64) -> u64
    ensures { result ≡ computed AluOp.Smod 64 a b }
{
    if b == 0 {
        a
    } else {
        a.cast_signed()
            .wrapping_rem(b.cast_signed())
            .cast_unsigned()
    }
}
