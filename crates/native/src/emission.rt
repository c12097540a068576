//! Helpers that emit: their tests, and their answers if a test fails.

ghost use Rattle.std.specs.Prelude.{◌≡◌, ◌≤◌, ◌++◌, OnOk};
ghost use Rattle.native.specs.Code.{codes};
ghost use Rattle.native.specs.Emission as specs;

use crate::sequence::write_all;
use decode::{Size, Width};
use std::alloc::AllocError;
use x86::{Alu, ConditionCode, Instr};

/// A helper that emits.
#[derive(Clone, Copy)]
pub(crate) enum Helper {
    /// 1
    Send,
    /// 2
    Output,
    /// 5
    SendSized,
    /// 6
    OutputSized,
}

// rcx gets the count. If it is eight, jumps by `none`.
fn write_room_test(code: &mut Vec<u8>, count_at: u64, none: u8) -> Result<(), AllocError>
    ensures { OnOk result (code.new.items ≡ code.old.items ++ codes (specs.room_test count_at none)) }
{
    write_all(
        code,
        &[
            Instr::Load {
                size: Size::Double,
                to: 1,
                base: 6,
                disp: count_at,
            },
            Instr::AluImm {
                op: Alu::Cmp,
                width: Width::W64,
                to: 1,
                imm: 8,
            },
            Instr::JumpIfShort {
                condition: ConditionCode::AboveEqual,
                distance: none,
            },
        ],
    )
}

// If the destination is 0, jumps by `none`.
fn write_least_test(code: &mut Vec<u8>, none: u8) -> Result<(), AllocError>
    ensures { OnOk result (code.new.items ≡ code.old.items ++ codes (specs.least_test none)) }
{
    write_all(
        code,
        &[
            Instr::AluImm {
                op: Alu::Cmp,
                width: Width::W64,
                to: 8,
                imm: 1,
            },
            Instr::JumpIfShort {
                condition: ConditionCode::Below,
                distance: none,
            },
        ],
    )
}

// If the destination is above the number of processes, jumps by `none`.
fn write_most_test(code: &mut Vec<u8>, none: u8) -> Result<(), AllocError>
    ensures { OnOk result (code.new.items ≡ code.old.items ++ codes (specs.most_test none)) }
{
    write_all(
        code,
        &[
            Instr::Load {
                size: Size::Double,
                to: 1,
                base: 6,
                disp: 40,
            },
            Instr::Alu {
                op: Alu::Cmp,
                width: Width::W64,
                to: 1,
                from: 8,
            },
            Instr::JumpIfShort {
                condition: ConditionCode::Below,
                distance: none,
            },
        ],
    )
}

// If the destination is the process itself, jumps by `none`.
fn write_other_test(code: &mut Vec<u8>, none: u8) -> Result<(), AllocError>
    ensures { OnOk result (code.new.items ≡ code.old.items ++ codes (specs.other_test none)) }
{
    write_all(
        code,
        &[
            Instr::Load {
                size: Size::Double,
                to: 1,
                base: 6,
                disp: 24,
            },
            Instr::Alu {
                op: Alu::Cmp,
                width: Width::W64,
                to: 8,
                from: 1,
            },
            Instr::JumpIfShort {
                condition: ConditionCode::Equal,
                distance: none,
            },
        ],
    )
}

// All three tests, each with its distance to the answer.
fn write_peer_tests(code: &mut Vec<u8>, none: u8, beyond: u8, own: u8) -> Result<(), AllocError>
    ensures { OnOk result (code.new.items ≡ code.old.items ++ codes (specs.peer_tests none beyond own)) }
{
    write_least_test(code, none)?;
    write_most_test(code, beyond)?;
    write_other_test(code, own)
}

// If a register holds more than 256, jumps by `long`.
fn write_length_test(code: &mut Vec<u8>, len: u8, long: u8) -> Result<(), AllocError>
    ensures { OnOk result (code.new.items ≡ code.old.items ++ codes (specs.length_test len long)) }
{
    write_all(
        code,
        &[
            Instr::AluImm {
                op: Alu::Cmp,
                width: Width::W64,
                to: len,
                imm: 256,
            },
            Instr::JumpIfShort {
                condition: ConditionCode::Above,
                distance: long,
            },
        ],
    )
}

// The tests of a message of 64 bytes.
fn write_send_tests(code: &mut Vec<u8>, size: u8) -> Result<(), AllocError>
    requires { size ≤ 80 }
    ensures { OnOk result (code.new.items ≡ code.old.items ++ codes (specs.send_tests size)) }
{
    write_peer_tests(code, size + 28, size + 19, size + 10)?;
    write_room_test(code, 0, size + 7)
}

// The tests of a message of any length.
fn write_send_sized_tests(code: &mut Vec<u8>, size: u8) -> Result<(), AllocError>
    requires { size ≤ 80 }
    ensures { OnOk result (code.new.items ≡ code.old.items ++ codes (specs.send_sized_tests size)) }
{
    write_peer_tests(code, size + 44, size + 35, size + 26)?;
    write_room_test(code, 0, size + 23)?;
    write_length_test(code, 9, size)
}

// The tests of an output of any length.
fn write_output_sized_tests(code: &mut Vec<u8>, size: u8) -> Result<(), AllocError>
    requires { size ≤ 80 }
    ensures { OnOk result (code.new.items ≡ code.old.items ++ codes (specs.output_sized_tests size)) }
{
    write_room_test(code, 8, size + 16)?;
    write_length_test(code, 12, size)
}

/// The tests of a helper. A test that fails jumps over the effect, which has `size` bytes.
pub(crate) fn write_tests(code: &mut Vec<u8>, helper: Helper, size: u8) -> Result<(), AllocError>
    requires { size ≤ 80 }
    ensures { OnOk result (code.new.items ≡ code.old.items ++ codes (specs.tests_of helper size)) }
{
    match helper {
        Helper::Send => write_send_tests(code, size),
        Helper::Output => write_room_test(code, 8, size),
        Helper::SendSized => write_send_sized_tests(code, size),
        Helper::OutputSized => write_output_sized_tests(code, size),
    }
}

// The answers of a send of 64 bytes that fails: the destination is no peer; there is no room.
fn write_send_end(code: &mut Vec<u8>) -> Result<(), AllocError>
    ensures { OnOk result (code.new.items ≡ code.old.items ++ codes specs.send_end) }
{
    write_all(
        code,
        &[
            Instr::MovImm { to: 0, imm: 1 },
            Instr::JumpShort { distance: 5 },
            Instr::MovImm { to: 0, imm: 2 },
        ],
    )
}

// The answer of an output of 64 bytes that fails: there is no room.
fn write_output_end(code: &mut Vec<u8>) -> Result<(), AllocError>
    ensures { OnOk result (code.new.items ≡ code.old.items ++ codes specs.output_end) }
{
    write_all(code, &[Instr::MovImm { to: 0, imm: 2 }])
}

// The answers of a send of any length that fails: it is too long; the destination is no peer; there is no room.
fn write_send_sized_end(code: &mut Vec<u8>) -> Result<(), AllocError>
    ensures { OnOk result (code.new.items ≡ code.old.items ++ codes specs.send_sized_end) }
{
    write_all(
        code,
        &[
            Instr::MovImm { to: 0, imm: 3 },
            Instr::JumpShort { distance: 12 },
            Instr::MovImm { to: 0, imm: 1 },
            Instr::JumpShort { distance: 5 },
            Instr::MovImm { to: 0, imm: 2 },
        ],
    )
}

// The answers of an output of any length that fails: it is too long; there is no room.
fn write_output_sized_end(code: &mut Vec<u8>) -> Result<(), AllocError>
    ensures { OnOk result (code.new.items ≡ code.old.items ++ codes specs.output_sized_end) }
{
    write_all(
        code,
        &[
            Instr::MovImm { to: 0, imm: 3 },
            Instr::JumpShort { distance: 5 },
            Instr::MovImm { to: 0, imm: 2 },
        ],
    )
}

/// The answers of a helper if a test fails.
pub(crate) fn write_end(code: &mut Vec<u8>, helper: Helper) -> Result<(), AllocError>
    ensures { OnOk result (code.new.items ≡ code.old.items ++ codes (specs.end_of helper)) }
{
    match helper {
        Helper::Send => write_send_end(code),
        Helper::Output => write_output_end(code),
        Helper::SendSized => write_send_sized_end(code),
        Helper::OutputSized => write_output_sized_end(code),
    }
}
