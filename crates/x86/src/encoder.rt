//! The bytes of instructions.

ghost use Rattle.std.specs.Prelude.{◌≡◌, ◌<◌, ◌==◌, ◌+◌, ◌*◌, ◌/◌, ◌%◌, [], ◌∷◌, ◌++◌, OnOk, if◌then◌else◌};
ghost use Rattle.operations.specs.Bytes.{le_bytes};
ghost use Rattle.x86.specs.Encoding as encoding;

use crate::instruction::{Alu, ConditionCode, Instr, Shift};
use decode::{Extension, SignedSize, Size, Width};
use std::alloc::AllocError;

// Appends a byte.
fn put(code: &mut Vec<u8>, byte: u8) -> Result<(), AllocError>
    ensures { OnOk result (code.new.items ≡ code.old.items ++ byte ∷ []) }
{
    code.push(byte)?;
    Ok(())
}

// Appends bytes.
fn put_all(code: &mut Vec<u8>, bytes: &[u8]) -> Result<(), AllocError>
    ensures { OnOk result (code.new.items ≡ code.old.items ++ bytes.now) }
{
    code.extend_from_slice(bytes)
}

// Appends two bytes.
fn put_pair(code: &mut Vec<u8>, first: u8, second: u8) -> Result<(), AllocError>
    ensures { OnOk result (code.new.items ≡ code.old.items ++ first ∷ second ∷ []) }
{
    put_all(code, &[first, second])
}

// Appends the low 16 bits of a number.
fn put_half(code: &mut Vec<u8>, number: u64) -> Result<(), AllocError>
    ensures { OnOk result (code.new.items ≡ code.old.items ++ le_bytes 2 number) }
{
    put_all(code, &number.to_le_bytes()[..2])
}

// Appends the low 32 bits of a number.
fn put_number(code: &mut Vec<u8>, number: u64) -> Result<(), AllocError>
    ensures { OnOk result (code.new.items ≡ code.old.items ++ le_bytes 4 number) }
{
    put_all(code, &number.to_le_bytes()[..4])
}

// Appends a number of 64 bits.
fn put_wide(code: &mut Vec<u8>, number: u64) -> Result<(), AllocError>
    ensures { OnOk result (code.new.items ≡ code.old.items ++ le_bytes 8 number) }
{
    put_all(code, &number.to_le_bytes())
}

// REX, with W for 64 bits, R, X and B for registers from 8 on.
fn rex_by(width: Width, reg: u8, index: u8, rm: u8) -> u8
    ensures { result ≡ encoding.rex_by width reg index rm }
{
    let wide = match width {
        Width::W32 => 0,
        Width::W64 => 8,
    };
    64 + wide + 4 * (reg / 8 % 2) + 2 * (index / 8 % 2) + rm / 8 % 2
}

// Appends a REX, unless it would say nothing.
fn put_prefix_by(
    code: &mut Vec<u8>,
    width: Width,
    reg: u8,
    index: u8,
    rm: u8,
) -> Result<(), AllocError>
    ensures { OnOk result (code.new.items ≡ code.old.items ++ encoding.prefix_by width reg index rm) }
{
    let rex = rex_by(width, reg, index, rm);
    match width {
        Width::W64 => put(code, rex),
        Width::W32 => { if rex == 64 { Ok(()) } else { put(code, rex) } }
    }
}

// Appends a REX, unless it would say nothing, and bytes.
fn put_rexed(
    code: &mut Vec<u8>,
    width: Width,
    reg: u8,
    index: u8,
    rm: u8,
    bytes: &[u8],
) -> Result<(), AllocError>
    ensures { OnOk result (code.new.items ≡ code.old.items ++ encoding.prefix_by width reg index rm ++ bytes.now) }
{
    put_prefix_by(code, width, reg, index, rm)?;
    put_all(code, bytes)
}

// Appends the REX of an instruction with a byte register, unless it would say nothing.
fn put_byte_prefix(code: &mut Vec<u8>, byte: u8, reg: u8, rm: u8) -> Result<(), AllocError>
    ensures { OnOk result (code.new.items ≡ code.old.items ++ encoding.byte_prefix byte reg rm) }
{
    let rex = rex_by(Width::W32, reg, 0, rm);
    if byte < 4 && rex == 64 {
        Ok(())
    } else {
        put(code, rex)
    }
}

// Appends the REX of an instruction with a byte register, unless it would say nothing, and bytes.
fn put_byte_rexed(
    code: &mut Vec<u8>,
    byte: u8,
    reg: u8,
    rm: u8,
    bytes: &[u8],
) -> Result<(), AllocError>
    ensures { OnOk result (code.new.items ≡ code.old.items ++ encoding.byte_prefix byte reg rm ++ bytes.now) }
{
    put_byte_prefix(code, byte, reg, rm)?;
    put_all(code, bytes)
}

// The ModR/M of two registers.
fn two(reg: u8, rm: u8) -> u8
    ensures { result ≡ encoding.two reg rm }
{
    192 + 8 * (reg % 8) + rm % 8
}

// Whether a number is its low 8 bits, sign-extended.
fn is_small(number: u64) -> bool
    ensures { result ≡ encoding.is_small number }
{
    number % 0x1_0000_0000 < 128 || 0xffff_ff80 <= number % 0x1_0000_0000
}

// Appends a number in 8 bits, or in 32 if it needs them.
fn put_short(code: &mut Vec<u8>, number: u64) -> Result<(), AllocError>
    ensures { OnOk result (code.new.items ≡ code.old.items ++ encoding.number number) }
{
    if is_small(number) {
        put(code, (number % 256) as u8)
    } else {
        put_number(code, number)
    }
}

// The number n of an operation in its opcode.
fn op_number(op: Alu) -> u8
    ensures { result ≡ encoding.op_number op }
{
    match op {
        Alu::Add => 0,
        Alu::Or => 1,
        Alu::And => 4,
        Alu::Sub => 5,
        Alu::Xor => 6,
        Alu::Cmp => 7,
    }
}

// The number n of a shift in its opcode.
fn shift_number(op: Shift) -> u8
    ensures { result ≡ encoding.shift_number op }
{
    match op {
        Shift::Left => 4,
        Shift::Right => 5,
        Shift::RightSigned => 7,
    }
}

// The number n of a condition in its opcode.
fn code_of(condition: ConditionCode) -> u8
    ensures { result ≡ encoding.code_of condition }
{
    match condition {
        ConditionCode::Below => 2,
        ConditionCode::AboveEqual => 3,
        ConditionCode::Equal => 4,
        ConditionCode::NotEqual => 5,
        ConditionCode::BelowEqual => 6,
        ConditionCode::Above => 7,
        ConditionCode::Less => 12,
        ConditionCode::GreaterEqual => 13,
        ConditionCode::LessEqual => 14,
        ConditionCode::Greater => 15,
    }
}

// Appends an instruction with two registers.
fn put_two(code: &mut Vec<u8>, width: Width, opcode: u8, reg: u8, rm: u8) -> Result<(), AllocError>
    ensures { OnOk result (code.new.items ≡ code.old.items ++ encoding.with_two width opcode reg rm) }
{
    put_rexed(code, width, reg, 0, rm, &[opcode, two(reg, rm)])
}

// The same, with a byte after it.
fn put_two_byte(
    code: &mut Vec<u8>,
    width: Width,
    opcode: u8,
    reg: u8,
    rm: u8,
    byte: u8,
) -> Result<(), AllocError>
    ensures { OnOk result (code.new.items ≡ code.old.items ++ encoding.with_two width opcode reg rm ++ byte ∷ []) }
{
    put_rexed(code, width, reg, 0, rm, &[opcode, two(reg, rm), byte])
}

// The same, with 32 bits after it.
fn put_two_number(
    code: &mut Vec<u8>,
    width: Width,
    opcode: u8,
    reg: u8,
    rm: u8,
    number: u64,
) -> Result<(), AllocError>
    ensures { OnOk result (code.new.items ≡ code.old.items ++ encoding.with_two width opcode reg rm ++ le_bytes 4 number) }
{
    put_two(code, width, opcode, reg, rm)?;
    put_number(code, number)
}

// Appends an instruction with two registers and an opcode of two bytes.
fn put_two_0f(
    code: &mut Vec<u8>,
    width: Width,
    opcode: u8,
    reg: u8,
    rm: u8,
) -> Result<(), AllocError>
    ensures { OnOk result (code.new.items ≡ code.old.items ++ encoding.with_two_0f width opcode reg rm) }
{
    put_rexed(code, width, reg, 0, rm, &[0x0f, opcode, two(reg, rm)])
}

// The mode and reg of the ModR/M of memory.
fn mode(disp: u64, reg: u8) -> u8
    ensures { result ≡ (if encoding.is_small disp then 64 else 128) + 8 * (reg % 8) }
{
    let mode = if is_small(disp) { 64 } else { 128 };
    mode + 8 * (reg % 8)
}

// Appends the ModR/M of memory at a base, with a SIB if the base needs one.
fn put_base(code: &mut Vec<u8>, reg: u8, base: u8, disp: u64) -> Result<(), AllocError>
    ensures { OnOk result (code.new.items ≡ code.old.items ++ ((if encoding.is_small disp then 64 else 128) + 8 * (reg % 8) + base % 8) ∷ (if base % 8 == 4 then 36 ∷ [] else [])) }
{
    let first = mode(disp, reg) + base % 8;
    if base % 8 == 4 {
        put_pair(code, first, 36)
    } else {
        put(code, first)
    }
}

// Appends the ModR/M of memory at a base, and the displacement.
fn memory(code: &mut Vec<u8>, reg: u8, base: u8, disp: u64) -> Result<(), AllocError>
    ensures { OnOk result (code.new.items ≡ code.old.items ++ encoding.memory reg base disp) }
{
    put_base(code, reg, base, disp)?;
    put_short(code, disp)
}

// The same for memory at a base and an index.
fn memory_by(code: &mut Vec<u8>, reg: u8, base: u8, index: u8, disp: u64) -> Result<(), AllocError>
    ensures { OnOk result (code.new.items ≡ code.old.items ++ encoding.memory_by reg base index disp) }
{
    put_pair(code, mode(disp, reg) + 4, 8 * (index % 8) + base % 8)?;
    put_short(code, disp)
}

// Appends an instruction with memory.
fn put_memory(
    code: &mut Vec<u8>,
    width: Width,
    opcode: u8,
    reg: u8,
    base: u8,
    disp: u64,
) -> Result<(), AllocError>
    ensures { OnOk result (code.new.items ≡ code.old.items ++ encoding.with_memory width opcode reg base disp) }
{
    put_rexed(code, width, reg, 0, base, &[opcode])?;
    memory(code, reg, base, disp)
}

// The same, with 32 bits after it.
fn put_memory_number(
    code: &mut Vec<u8>,
    width: Width,
    opcode: u8,
    base: u8,
    disp: u64,
    number: u64,
) -> Result<(), AllocError>
    ensures { OnOk result (code.new.items ≡ code.old.items ++ encoding.with_memory width opcode 0 base disp ++ le_bytes 4 number) }
{
    put_memory(code, width, opcode, 0, base, disp)?;
    put_number(code, number)
}

// Appends an instruction with memory and an opcode of two bytes.
fn put_memory_0f(
    code: &mut Vec<u8>,
    width: Width,
    opcode: u8,
    reg: u8,
    base: u8,
    disp: u64,
) -> Result<(), AllocError>
    ensures { OnOk result (code.new.items ≡ code.old.items ++ encoding.with_memory_0f width opcode reg base disp) }
{
    put_rexed(code, width, reg, 0, base, &[0x0f, opcode])?;
    memory(code, reg, base, disp)
}

fn put_movsx_byte(code: &mut Vec<u8>, to: u8, from: u8) -> Result<(), AllocError>
    ensures { OnOk result (code.new.items ≡ code.old.items ++ encoding.movsx Extension.W32From8 to from) }
{
    put_byte_rexed(code, from, to, from, &[0x0f, 0xbe, two(to, from)])
}

fn put_movsx(code: &mut Vec<u8>, extension: Extension, to: u8, from: u8) -> Result<(), AllocError>
    ensures { OnOk result (code.new.items ≡ code.old.items ++ encoding.movsx extension to from) }
{
    match extension {
        Extension::W32From8 => put_movsx_byte(code, to, from),
        Extension::W32From16 => put_two_0f(code, Width::W32, 0xbf, to, from),
        Extension::W64From8 => put_two_0f(code, Width::W64, 0xbe, to, from),
        Extension::W64From16 => put_two_0f(code, Width::W64, 0xbf, to, from),
        Extension::W64From32 => put_two(code, Width::W64, 0x63, to, from),
    }
}

fn put_alu_imm(
    code: &mut Vec<u8>,
    op: Alu,
    width: Width,
    to: u8,
    imm: u64,
) -> Result<(), AllocError>
    ensures { OnOk result (code.new.items ≡ code.old.items ++ encoding.alu_imm op width to imm) }
{
    if is_small(imm) {
        put_two_byte(code, width, 0x83, op_number(op), to, (imm % 256) as u8)
    } else {
        put_two_number(code, width, 0x81, op_number(op), to, imm)
    }
}

// Appends an instruction that has its register in the opcode.
fn put_named(code: &mut Vec<u8>, width: Width, opcode: u8, reg: u8) -> Result<(), AllocError>
    requires { opcode < 248 }
    ensures { OnOk result (code.new.items ≡ code.old.items ++ encoding.prefix width 0 reg ++ (opcode + reg % 8) ∷ []) }
{
    put_rexed(code, width, 0, 0, reg, &[opcode + reg % 8])
}

fn put_mov_imm(code: &mut Vec<u8>, to: u8, imm: u64) -> Result<(), AllocError>
    ensures { OnOk result (code.new.items ≡ code.old.items ++ encoding.bytes_of (Instr.MovImm to imm)) }
{
    put_named(code, Width::W32, 0xb8, to)?;
    put_number(code, imm)
}

fn put_mov_wide(code: &mut Vec<u8>, to: u8, imm: u64) -> Result<(), AllocError>
    ensures { OnOk result (code.new.items ≡ code.old.items ++ encoding.bytes_of (Instr.MovWide to imm)) }
{
    put_named(code, Width::W64, 0xb8, to)?;
    put_wide(code, imm)
}

fn put_swap_low(code: &mut Vec<u8>, to: u8) -> Result<(), AllocError>
    ensures { OnOk result (code.new.items ≡ code.old.items ++ encoding.bytes_of (Instr.SwapLow to)) }
{
    put(code, 0x66)?;
    put_two_byte(code, Width::W32, 0xc1, 0, to, 8)
}

fn put_swap(code: &mut Vec<u8>, width: Width, to: u8) -> Result<(), AllocError>
    ensures { OnOk result (code.new.items ≡ code.old.items ++ encoding.bytes_of (Instr.Swap width to)) }
{
    put_rexed(code, width, 0, 0, to, &[0x0f, 0xc8 + to % 8])
}

fn put_load(code: &mut Vec<u8>, size: Size, to: u8, base: u8, disp: u64) -> Result<(), AllocError>
    ensures { OnOk result (code.new.items ≡ code.old.items ++ encoding.bytes_of (Instr.Load size to base disp)) }
{
    match size {
        Size::Byte => put_memory_0f(code, Width::W32, 0xb6, to, base, disp),
        Size::Half => put_memory_0f(code, Width::W32, 0xb7, to, base, disp),
        Size::Word => put_memory(code, Width::W32, 0x8b, to, base, disp),
        Size::Double => put_memory(code, Width::W64, 0x8b, to, base, disp),
    }
}

fn put_load_sx(
    code: &mut Vec<u8>,
    size: SignedSize,
    to: u8,
    base: u8,
    disp: u64,
) -> Result<(), AllocError>
    ensures { OnOk result (code.new.items ≡ code.old.items ++ encoding.bytes_of (Instr.LoadSx size to base disp)) }
{
    match size {
        SignedSize::Byte => put_memory_0f(code, Width::W64, 0xbe, to, base, disp),
        SignedSize::Half => put_memory_0f(code, Width::W64, 0xbf, to, base, disp),
        SignedSize::Word => put_memory(code, Width::W64, 0x63, to, base, disp),
    }
}

fn put_store_byte(code: &mut Vec<u8>, base: u8, disp: u64, from: u8) -> Result<(), AllocError>
    ensures { OnOk result (code.new.items ≡ code.old.items ++ encoding.bytes_of (Instr.Store Size.Byte base disp from)) }
{
    put_byte_rexed(code, from, from, base, &[0x88])?;
    memory(code, from, base, disp)
}

fn put_store_half(code: &mut Vec<u8>, base: u8, disp: u64, from: u8) -> Result<(), AllocError>
    ensures { OnOk result (code.new.items ≡ code.old.items ++ encoding.bytes_of (Instr.Store Size.Half base disp from)) }
{
    put(code, 0x66)?;
    put_memory(code, Width::W32, 0x89, from, base, disp)
}

fn put_store(
    code: &mut Vec<u8>,
    size: Size,
    base: u8,
    disp: u64,
    from: u8,
) -> Result<(), AllocError>
    ensures { OnOk result (code.new.items ≡ code.old.items ++ encoding.bytes_of (Instr.Store size base disp from)) }
{
    match size {
        Size::Byte => put_store_byte(code, base, disp, from),
        Size::Half => put_store_half(code, base, disp, from),
        Size::Word => put_memory(code, Width::W32, 0x89, from, base, disp),
        Size::Double => put_memory(code, Width::W64, 0x89, from, base, disp),
    }
}

fn put_byte_imm(code: &mut Vec<u8>, base: u8, disp: u64, imm: u64) -> Result<(), AllocError>
    ensures { OnOk result (code.new.items ≡ code.old.items ++ encoding.bytes_of (Instr.StoreImm Size.Byte base disp imm)) }
{
    put_memory(code, Width::W32, 0xc6, 0, base, disp)?;
    put(code, (imm % 256) as u8)
}

fn put_half_imm(code: &mut Vec<u8>, base: u8, disp: u64, imm: u64) -> Result<(), AllocError>
    ensures { OnOk result (code.new.items ≡ code.old.items ++ encoding.bytes_of (Instr.StoreImm Size.Half base disp imm)) }
{
    put(code, 0x66)?;
    put_memory(code, Width::W32, 0xc7, 0, base, disp)?;
    put_half(code, imm)
}

fn put_store_imm(
    code: &mut Vec<u8>,
    size: Size,
    base: u8,
    disp: u64,
    imm: u64,
) -> Result<(), AllocError>
    ensures { OnOk result (code.new.items ≡ code.old.items ++ encoding.bytes_of (Instr.StoreImm size base disp imm)) }
{
    match size {
        Size::Byte => put_byte_imm(code, base, disp, imm),
        Size::Half => put_half_imm(code, base, disp, imm),
        Size::Word => put_memory_number(code, Width::W32, 0xc7, base, disp, imm),
        Size::Double => put_memory_number(code, Width::W64, 0xc7, base, disp, imm),
    }
}

fn put_lea_by(code: &mut Vec<u8>, to: u8, base: u8, index: u8, disp: u64) -> Result<(), AllocError>
    ensures { OnOk result (code.new.items ≡ code.old.items ++ encoding.bytes_of (Instr.LeaBy to base index disp)) }
{
    put_rexed(code, Width::W64, to, index, base, &[0x8d])?;
    memory_by(code, to, base, index, disp)
}

fn put_jump_if(
    code: &mut Vec<u8>,
    condition: ConditionCode,
    distance: u64,
) -> Result<(), AllocError>
    ensures { OnOk result (code.new.items ≡ code.old.items ++ encoding.bytes_of (Instr.JumpIf condition distance)) }
{
    put_pair(code, 0x0f, 0x80 + code_of(condition))?;
    put_number(code, distance)
}

fn put_jump(code: &mut Vec<u8>, distance: u64) -> Result<(), AllocError>
    ensures { OnOk result (code.new.items ≡ code.old.items ++ encoding.bytes_of (Instr.Jump distance)) }
{
    put(code, 0xe9)?;
    put_number(code, distance)
}

impl Instr {
    /// Appends its bytes.
    pub fn write(&self, code: &mut Vec<u8>) -> Result<(), AllocError>
        ensures { OnOk result (code.new.items ≡ code.old.items ++ encoding.bytes_of self.now) }
    {
        match *self {
            Instr::Mov { width, to, from } => put_two(code, width, 0x89, from, to),
            Instr::MovImm { to, imm } => put_mov_imm(code, to, imm),
            Instr::MovSigned { to, imm } => put_two_number(code, Width::W64, 0xc7, 0, to, imm),
            Instr::MovWide { to, imm } => put_mov_wide(code, to, imm),
            Instr::MovSx {
                extension,
                to,
                from,
            } => put_movsx(code, extension, to, from),
            Instr::MovZx { to, from } => put_two_0f(code, Width::W32, 0xb7, to, from),
            Instr::Alu {
                op,
                width,
                to,
                from,
            } => put_two(code, width, 8 * op_number(op) + 1, from, to),
            Instr::AluImm { op, width, to, imm } => put_alu_imm(code, op, width, to, imm),
            Instr::Test { width, a, b } => put_two(code, width, 0x85, b, a),
            Instr::TestImm { width, a, imm } => put_two_number(code, width, 0xf7, 0, a, imm),
            Instr::Mul { width, to, from } => put_two_0f(code, width, 0xaf, to, from),
            Instr::MulImm {
                width,
                to,
                from,
                imm,
            } => put_two_number(code, width, 0x69, to, from, imm),
            Instr::Neg { width, to } => put_two(code, width, 0xf7, 3, to),
            Instr::Shift {
                op,
                width,
                to,
                count,
            } => put_two_byte(code, width, 0xc1, shift_number(op), to, count),
            Instr::ShiftBy { op, width, to } => put_two(code, width, 0xd3, shift_number(op), to),
            Instr::SwapLow { to } => put_swap_low(code, to),
            Instr::Swap { width, to } => put_swap(code, width, to),
            Instr::Div { width, by } => put_two(code, width, 0xf7, 6, by),
            Instr::SignedDiv { width, by } => put_two(code, width, 0xf7, 7, by),
            Instr::Spread { width } => put_named(code, width, 0x99, 0),
            Instr::Load {
                size,
                to,
                base,
                disp,
            } => put_load(code, size, to, base, disp),
            Instr::LoadSx {
                size,
                to,
                base,
                disp,
            } => put_load_sx(code, size, to, base, disp),
            Instr::Store {
                size,
                base,
                disp,
                from,
            } => put_store(code, size, base, disp, from),
            Instr::StoreImm {
                size,
                base,
                disp,
                imm,
            } => put_store_imm(code, size, base, disp, imm),
            Instr::LoadLong { base, disp } => put_memory_0f(code, Width::W32, 0x10, 0, base, disp),
            Instr::StoreLong { base, disp } => put_memory_0f(code, Width::W32, 0x11, 0, base, disp),
            Instr::Lea { to, base, disp } => put_memory(code, Width::W64, 0x8d, to, base, disp),
            Instr::LeaBy {
                to,
                base,
                index,
                disp,
            } => put_lea_by(code, to, base, index, disp),
            Instr::Jump { distance } => put_jump(code, distance),
            Instr::JumpIf {
                condition,
                distance,
            } => put_jump_if(code, condition, distance),
            Instr::JumpShort { distance } => put_pair(code, 0xeb, distance),
            Instr::JumpIfShort {
                condition,
                distance,
            } => put_pair(code, 0x70 + code_of(condition), distance),
            Instr::Push { reg } => put_named(code, Width::W32, 0x50, reg),
            Instr::Pop { reg } => put_named(code, Width::W32, 0x58, reg),
            Instr::CopyBytes => put_pair(code, 0xf3, 0xa4),
            Instr::Return => put(code, 0xc3),
        }
    }
}
