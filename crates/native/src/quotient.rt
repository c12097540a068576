//! Quotients and remainders.

ghost use Rattle.std.specs.Prelude.{◌≡◌, ◌≤◌, ◌+◌, ◌-◌, ◌*◌, ◌^◌, [], ◌∷◌, ◌++◌, OnOk};
ghost use Rattle.x86.specs.declared.instruction.Instr.TheVariants as instr;
ghost use Rattle.native.specs.Quotient as specs;
ghost use Rattle.native.specs.Code.{codes, IsShort};

use crate::body::{gpr, number};
use crate::sequence::write_all;
use decode::{Operand, Reg, Width};
use std::alloc::AllocError;
use x86::{Alu, ConditionCode, Instr};

/// rcx gets the divisor.
pub(crate) fn divisor_code(width: Width, operand: Operand) -> Instr
    ensures value { result ≡ specs.divisor_code width operand }
    ensures short { IsShort operand }
{
    match operand {
        Operand::Imm(imm) => {
            let imm = number(imm);
            match width {
                Width::W64 => Instr::MovSigned { to: 1, imm },
                Width::W32 => Instr::MovImm { to: 1, imm },
            }
        }
        Operand::Reg(src) => Instr::Mov {
            width,
            to: 1,
            from: gpr(src),
        },
    }
}

// If the divisor is `imm`, jumps by `past`.
fn write_divisor_test(
    code: &mut Vec<u8>,
    width: Width,
    imm: u64,
    past: u8,
) -> Result<(), AllocError>
    ensures { OnOk result (code.new.items ≡ code.old.items ++ codes (specs.divisor_test width imm past)) }
{
    write_all(
        code,
        &[
            Instr::AluImm {
                op: Alu::Cmp,
                width,
                to: 1,
                imm,
            },
            Instr::JumpIfShort {
                condition: ConditionCode::Equal,
                distance: past,
            },
        ],
    )
}

// How many bytes a width adds to an instruction.
fn width_size(width: Width) -> u8
    ensures value { result ≡ specs.width_size width }
    ensures few { result ≤ 1 }
{
    match width {
        Width::W32 => 0,
        Width::W64 => 1,
    }
}

/// How many bytes an instruction with one register has, or with the same register twice.
pub(crate) fn two_size(width: Width, reg: u8) -> u8
    ensures value { result ≡ specs.two_size width reg }
    ensures few { result ≤ 3 }
{
    match width {
        Width::W32 => { if reg / 8 % 2 == 0 { 2 } else { 3 } }
        Width::W64 => 3,
    }
}

// The division itself: its result is in rax or rdx, and is moved to a register.
fn write_division(
    code: &mut Vec<u8>,
    to: u8,
    from: u8,
    high: Instr,
    divide: Instr,
) -> Result<(), AllocError>
    ensures { OnOk result (code.new.items ≡ code.old.items ++ codes (specs.division_code to from high divide)) }
{
    write_all(
        code,
        &[
            Instr::Push { reg: 0 },
            Instr::Mov {
                width: Width::W64,
                to: 0,
                from: to,
            },
            high,
            divide,
            Instr::Mov {
                width: Width::W64,
                to: 1,
                from,
            },
            Instr::Pop { reg: 0 },
            Instr::Mov {
                width: Width::W64,
                to,
                from: 1,
            },
        ],
    )
}

// The divisor, and a jump by `past` if it is 0.
fn write_divisor(code: &mut Vec<u8>, first: Instr, width: Width, past: u8) -> Result<(), AllocError>
    ensures { OnOk result (code.new.items ≡ code.old.items ++ codes (first ∷ specs.divisor_test width 0 past)) }
{
    write_all(code, &[first])?;
    write_divisor_test(code, width, 0, past)
}

/// An unsigned quotient or remainder.
pub(crate) fn write_quotient(
    code: &mut Vec<u8>,
    first: Instr,
    width: Width,
    to: u8,
    from: u8,
    none: Instr,
    size: u8,
) -> Result<(), AllocError>
    ensures { OnOk result (code.new.items ≡ code.old.items ++ codes (specs.quotient_code first width to from none size)) }
{
    write_divisor(code, first, width, 20 + width_size(width))?;
    write_division(
        code,
        to,
        from,
        Instr::MovImm { to: 2, imm: 0 },
        Instr::Div { width, by: 1 },
    )?;
    write_all(code, &[Instr::JumpShort { distance: size }, none])
}

/// The code for the divisor -1, the code for the divisor 0, and how long each is.
#[derive(Clone, Copy)]
pub(crate) struct Ways {
    pub(crate) minus: Instr,
    pub(crate) minus_size: u8,
    pub(crate) none: Instr,
    pub(crate) none_size: u8,
}

// The divisor, and jumps over the division if it is 0 or -1.
fn write_signed_tests(
    code: &mut Vec<u8>,
    first: Instr,
    width: Width,
    ways: Ways,
) -> Result<(), AllocError>
    requires { ways.minus_size ≤ 3 }
    ensures { OnOk result (code.new.items ≡ code.old.items ++ codes (first ∷ specs.divisor_test width 0 (ways.minus_size + 23 + 3 * specs.width_size width) ++ specs.divisor_test width (2 ^ 64 - 1) (16 + 2 * specs.width_size width))) }
{
    let wide = width_size(width);
    write_all(code, &[first])?;
    write_divisor_test(code, width, 0, ways.minus_size + 23 + 3 * wide)?;
    write_divisor_test(code, width, 0xffff_ffff_ffff_ffff, 16 + 2 * wide)?;
    Ok(())
}

// The division, and the code for the divisors -1 and 0.
fn write_signed_ways(
    code: &mut Vec<u8>,
    width: Width,
    to: u8,
    from: u8,
    ways: Ways,
) -> Result<(), AllocError>
    requires minus { ways.minus_size ≤ 3 }
    requires none { ways.none_size ≤ 3 }
    ensures { OnOk result (code.new.items ≡ code.old.items ++ codes (specs.division_code to from (instr.Spread width) (instr.SignedDiv width 1) ++ instr.JumpShort (ways.minus_size + 2 + ways.none_size) ∷ ways.minus ∷ instr.JumpShort ways.none_size ∷ ways.none ∷ [])) }
{
    write_division(
        code,
        to,
        from,
        Instr::Spread { width },
        Instr::SignedDiv { width, by: 1 },
    )?;
    let past = Instr::JumpShort {
        distance: ways.minus_size + 2 + ways.none_size,
    };
    let past_none = Instr::JumpShort {
        distance: ways.none_size,
    };
    write_all(code, &[past, ways.minus, past_none, ways.none])
}

/// A signed quotient or remainder.
pub(crate) fn write_signed(
    code: &mut Vec<u8>,
    first: Instr,
    width: Width,
    to: u8,
    from: u8,
    ways: Ways,
) -> Result<(), AllocError>
    requires minus { ways.minus_size ≤ 3 }
    requires none { ways.none_size ≤ 3 }
    ensures { OnOk result (code.new.items ≡ code.old.items ++ codes (specs.signed_code first width to from ways.minus ways.minus_size ways.none ways.none_size)) }
{
    write_signed_tests(code, first, width, ways)?;
    write_signed_ways(code, width, to, from, ways)
}
