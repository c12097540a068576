//! Helpers that emit: their effects.

ghost use Rattle.std.specs.Prelude.{◌≡◌, ◌<◌, ◌^◌, ◌++◌, Some, None, OnOk};
ghost use Rattle.native.specs.Code.{codes, seen};
ghost use Rattle.native.specs.Emission as specs;

use crate::body::{clear, seen};
use crate::emission::Helper;
use crate::sequence::write_all;
use decode::{Size, Width};
use std::alloc::AllocError;
use x86::Instr;

// rdx gets the address of the next free place; rcx is increased by one.
fn write_place(code: &mut Vec<u8>, base: u64) -> Result<(), AllocError>
    ensures { OnOk result (code.new.items ≡ code.old.items ++ codes (specs.place_code base)) }
{
    write_all(
        code,
        &[
            Instr::MulImm {
                width: Width::W64,
                to: 2,
                from: 1,
                imm: 272,
            },
            Instr::LeaBy {
                to: 2,
                base: 6,
                index: 2,
                disp: base,
            },
            Instr::Lea {
                to: 1,
                base: 1,
                disp: 1,
            },
        ],
    )
}

// Stores the destination.
fn write_aim(code: &mut Vec<u8>) -> Result<(), AllocError>
    ensures { OnOk result (code.new.items ≡ code.old.items ++ codes specs.aim_code) }
{
    write_all(
        code,
        &[Instr::Store {
            size: Size::Double,
            base: 2,
            disp: 0,
            from: 8,
        }],
    )
}

// Stores the length, and copies 64 bytes.
fn write_copy(code: &mut Vec<u8>, at: u64) -> Result<(), AllocError>
    requires { at < 2 ^ 16 }
    ensures { OnOk result (code.new.items ≡ code.old.items ++ codes (specs.copy_code at)) }
{
    write_all(
        code,
        &[
            Instr::StoreImm {
                size: Size::Double,
                base: 2,
                disp: 8,
                imm: 64,
            },
            Instr::LoadLong {
                base: 7,
                disp: seen(at),
            },
            Instr::StoreLong { base: 2, disp: 16 },
            Instr::LoadLong {
                base: 7,
                disp: seen(at + 16),
            },
            Instr::StoreLong { base: 2, disp: 32 },
            Instr::LoadLong {
                base: 7,
                disp: seen(at + 32),
            },
            Instr::StoreLong { base: 2, disp: 48 },
            Instr::LoadLong {
                base: 7,
                disp: seen(at + 48),
            },
            Instr::StoreLong { base: 2, disp: 64 },
        ],
    )
}

// Copies bytes to the place: `writes` stores their number, `counts` moves it to rcx, and `finds` moves their address to
// rsi.
fn write_moved(
    code: &mut Vec<u8>,
    writes: Instr,
    counts: Instr,
    finds: Instr,
) -> Result<(), AllocError>
    ensures { OnOk result (code.new.items ≡ code.old.items ++ codes (specs.moved_code writes counts finds)) }
{
    write_all(
        code,
        &[
            writes,
            Instr::Push { reg: 1 },
            Instr::Push { reg: 6 },
            Instr::Push { reg: 7 },
            counts,
            finds,
            Instr::Lea {
                to: 7,
                base: 2,
                disp: 16,
            },
            Instr::CopyBytes,
            Instr::Pop { reg: 7 },
            Instr::Pop { reg: 6 },
            Instr::Pop { reg: 1 },
        ],
    )
}

// Stores a length in a register to the place.
fn length_store(len: u8) -> Instr
    ensures { result ≡ Instr.Store Size.Double 2 8 len }
{
    Instr::Store {
        size: Size::Double,
        base: 2,
        disp: 8,
        from: len,
    }
}

// rcx gets a length in a register.
fn length_move(len: u8) -> Instr
    ensures { result ≡ Instr.Mov Width.W64 1 len }
{
    Instr::Mov {
        width: Width::W64,
        to: 1,
        from: len,
    }
}

// rsi gets the address of a position in a register.
fn position_code(at: u8) -> Instr
    ensures { result ≡ Instr.LeaBy 6 7 at (seen 0) }
{
    Instr::LeaBy {
        to: 6,
        base: 7,
        index: at,
        disp: seen(0),
    }
}

// Stores a length in a register, and copies that many bytes.
fn write_sized(code: &mut Vec<u8>, at: u64, len: u8) -> Result<(), AllocError>
    ensures { OnOk result (code.new.items ≡ code.old.items ++ codes (specs.sized_code at len)) }
{
    let finds = Instr::Lea {
        to: 6,
        base: 7,
        disp: seen(at),
    };
    write_moved(code, length_store(len), length_move(len), finds)
}

// The same from a position in a register.
fn write_sized_by(code: &mut Vec<u8>, at: u8, len: u8) -> Result<(), AllocError>
    ensures { OnOk result (code.new.items ≡ code.old.items ++ codes (specs.sized_by_code at len)) }
{
    write_moved(code, length_store(len), length_move(len), position_code(at))
}

// Stores the length, and copies 64 bytes from a position in a register.
fn write_copy_by(code: &mut Vec<u8>, at: u8) -> Result<(), AllocError>
    ensures { OnOk result (code.new.items ≡ code.old.items ++ codes (specs.copy_by_code at)) }
{
    let writes = Instr::StoreImm {
        size: Size::Double,
        base: 2,
        disp: 8,
        imm: 64,
    };
    let counts = Instr::MovImm { to: 1, imm: 64 };
    write_moved(code, writes, counts, position_code(at))
}

// Stores the new count, sets r0 to 0, and jumps over the other answers.
fn write_good_end(code: &mut Vec<u8>, count_at: u64, past: u8) -> Result<(), AllocError>
    ensures { OnOk result (code.new.items ≡ code.old.items ++ codes (specs.good_end count_at past)) }
{
    write_all(
        code,
        &[
            Instr::Store {
                size: Size::Double,
                base: 6,
                disp: count_at,
                from: 1,
            },
            clear(0),
            Instr::JumpShort { distance: past },
        ],
    )
}

fn write_send(code: &mut Vec<u8>, at: u64) -> Result<(), AllocError>
    requires { at < 2 ^ 16 }
    ensures { OnOk result (code.new.items ≡ code.old.items ++ codes (specs.send_good at)) }
{
    write_place(code, 64)?;
    write_aim(code)?;
    write_copy(code, at)?;
    write_good_end(code, 0, 12)
}

fn write_output(code: &mut Vec<u8>, at: u64) -> Result<(), AllocError>
    requires { at < 2 ^ 16 }
    ensures { OnOk result (code.new.items ≡ code.old.items ++ codes (specs.output_good at)) }
{
    write_place(code, 2240)?;
    write_copy(code, at)?;
    write_good_end(code, 8, 5)
}

fn write_send_sized(code: &mut Vec<u8>, at: u64) -> Result<(), AllocError>
    ensures { OnOk result (code.new.items ≡ code.old.items ++ codes (specs.send_sized_good at)) }
{
    write_place(code, 64)?;
    write_aim(code)?;
    write_sized(code, at, 9)?;
    write_good_end(code, 0, 19)
}

fn write_output_sized(code: &mut Vec<u8>, at: u64) -> Result<(), AllocError>
    ensures { OnOk result (code.new.items ≡ code.old.items ++ codes (specs.output_sized_good at)) }
{
    write_place(code, 2240)?;
    write_sized(code, at, 12)?;
    write_good_end(code, 8, 12)
}

fn write_send_by(code: &mut Vec<u8>) -> Result<(), AllocError>
    ensures { OnOk result (code.new.items ≡ code.old.items ++ codes specs.send_by_good) }
{
    write_place(code, 64)?;
    write_aim(code)?;
    write_copy_by(code, 12)?;
    write_good_end(code, 0, 12)
}

fn write_output_by(code: &mut Vec<u8>) -> Result<(), AllocError>
    ensures { OnOk result (code.new.items ≡ code.old.items ++ codes specs.output_by_good) }
{
    write_place(code, 2240)?;
    write_copy_by(code, 8)?;
    write_good_end(code, 8, 5)
}

fn write_send_sized_by(code: &mut Vec<u8>) -> Result<(), AllocError>
    ensures { OnOk result (code.new.items ≡ code.old.items ++ codes specs.send_sized_by_good) }
{
    write_place(code, 64)?;
    write_aim(code)?;
    write_sized_by(code, 12, 9)?;
    write_good_end(code, 0, 19)
}

fn write_output_sized_by(code: &mut Vec<u8>) -> Result<(), AllocError>
    ensures { OnOk result (code.new.items ≡ code.old.items ++ codes specs.output_sized_by_good) }
{
    write_place(code, 2240)?;
    write_sized_by(code, 8, 12)?;
    write_good_end(code, 8, 12)
}

// The effect of a helper after its tests, from a constant position.
fn write_good_at(code: &mut Vec<u8>, helper: Helper, at: u64) -> Result<(), AllocError>
    requires { at < 2 ^ 16 }
    ensures { OnOk result (code.new.items ≡ code.old.items ++ codes (specs.good_of helper (Some at))) }
{
    match helper {
        Helper::Send => write_send(code, at),
        Helper::Output => write_output(code, at),
        Helper::SendSized => write_send_sized(code, at),
        Helper::OutputSized => write_output_sized(code, at),
    }
}

// The effect of a helper after its tests, from a position in a register.
fn write_good_by(code: &mut Vec<u8>, helper: Helper) -> Result<(), AllocError>
    ensures { OnOk result (code.new.items ≡ code.old.items ++ codes (specs.good_of helper None)) }
{
    match helper {
        Helper::Send => write_send_by(code),
        Helper::Output => write_output_by(code),
        Helper::SendSized => write_send_sized_by(code),
        Helper::OutputSized => write_output_sized_by(code),
    }
}

/// The effect of a helper after its tests, from a constant position or from one in a register.
pub(crate) fn write_good(
    code: &mut Vec<u8>,
    helper: Helper,
    at: Option<u16>,
) -> Result<(), AllocError>
    ensures { OnOk result (code.new.items ≡ code.old.items ++ codes (specs.good_of helper at)) }
{
    match at {
        Some(at) => write_good_at(code, helper, u64::from(at)),
        None => write_good_by(code, helper),
    }
}
