//! What an opcode means.

ghost use Rattle.std.specs.Prelude.{◌≡◌};
ghost use Rattle.decode.specs.Encoding.{Fits};
ghost use Rattle.decode.specs.Inside.Form.{alu_at, condition_at, source_at, form_at, signed_at, extension_at, bits_at, operand_at, insn_from};

use crate::insn::{
    AluOp, ByteOrder, Condition, Extension, Insn, Operand, Reg, SignedSize, Size, SwapBits, Width,
};
use crate::word::Word;

#[derive(Clone, Copy)]
pub enum Source {
    Imm,
    Register,
}

/// What an opcode tells of an instruction.
#[derive(Clone, Copy)]
pub enum OpcodeForm {
    Alu(AluOp, Width, Source),
    Neg(Width),
    End(ByteOrder),
    Jump,
    JumpLong,
    JumpIf(Condition, Width, Source),
    Call,
    Exit,
    Load(Size),
    LoadSx(SignedSize),
    StoreReg(Size),
    StoreImm(Size),
    Wide,
}

fn alu_of(code: u8) -> Option<AluOp>
    ensures { result ≡ alu_at code }
{
    Some(match code {
        0x0 => AluOp::Add,
        0x1 => AluOp::Sub,
        0x2 => AluOp::Mul,
        0x3 => AluOp::Div,
        0x4 => AluOp::Or,
        0x5 => AluOp::And,
        0x6 => AluOp::Lsh,
        0x7 => AluOp::Rsh,
        0x9 => AluOp::Mod,
        0xa => AluOp::Xor,
        0xb => AluOp::Mov,
        0xc => AluOp::Arsh,
        _ => return None,
    })
}

fn condition_of(code: u8) -> Option<Condition>
    ensures { result ≡ condition_at code }
{
    Some(match code {
        0x1 => Condition::Equal,
        0x2 => Condition::Greater,
        0x3 => Condition::GreaterEqual,
        0x4 => Condition::Set,
        0x5 => Condition::NotEqual,
        0x6 => Condition::SignedGreater,
        0x7 => Condition::SignedGreaterEqual,
        0xa => Condition::Less,
        0xb => Condition::LessEqual,
        0xc => Condition::SignedLess,
        0xd => Condition::SignedLessEqual,
        _ => return None,
    })
}

fn source_of(opcode: u8) -> Source
    ensures { result ≡ source_at opcode }
{
    if opcode / 8 % 2 == 0 {
        Source::Imm
    } else {
        Source::Register
    }
}

/// The form of an opcode.
pub fn form_of(opcode: u8) -> Option<OpcodeForm>
    ensures { result ≡ form_at opcode }
{
    Some(match opcode {
        0x05 => OpcodeForm::Jump,
        0x06 => OpcodeForm::JumpLong,
        0x18 => OpcodeForm::Wide,
        0x61 => OpcodeForm::Load(Size::Word),
        0x69 => OpcodeForm::Load(Size::Half),
        0x71 => OpcodeForm::Load(Size::Byte),
        0x79 => OpcodeForm::Load(Size::Double),
        0x62 => OpcodeForm::StoreImm(Size::Word),
        0x6a => OpcodeForm::StoreImm(Size::Half),
        0x72 => OpcodeForm::StoreImm(Size::Byte),
        0x7a => OpcodeForm::StoreImm(Size::Double),
        0x63 => OpcodeForm::StoreReg(Size::Word),
        0x6b => OpcodeForm::StoreReg(Size::Half),
        0x73 => OpcodeForm::StoreReg(Size::Byte),
        0x7b => OpcodeForm::StoreReg(Size::Double),
        0x81 => OpcodeForm::LoadSx(SignedSize::Word),
        0x89 => OpcodeForm::LoadSx(SignedSize::Half),
        0x91 => OpcodeForm::LoadSx(SignedSize::Byte),
        0x84 => OpcodeForm::Neg(Width::W32),
        0x87 => OpcodeForm::Neg(Width::W64),
        0x85 => OpcodeForm::Call,
        0x95 => OpcodeForm::Exit,
        0xd4 => OpcodeForm::End(ByteOrder::Little),
        0xdc => OpcodeForm::End(ByteOrder::Big),
        0xd7 => OpcodeForm::End(ByteOrder::Swap),
        _ => match opcode % 8 {
            4 => OpcodeForm::Alu(alu_of(opcode / 16)?, Width::W32, source_of(opcode)),
            7 => OpcodeForm::Alu(alu_of(opcode / 16)?, Width::W64, source_of(opcode)),
            5 => OpcodeForm::JumpIf(condition_of(opcode / 16)?, Width::W64, source_of(opcode)),
            6 => OpcodeForm::JumpIf(condition_of(opcode / 16)?, Width::W32, source_of(opcode)),
            _ => return None,
        },
    })
}

/// The signed division instead of the unsigned one, if the offset says so.
fn signed_of(op: AluOp, offset: u16) -> AluOp
    ensures { result ≡ signed_at op offset }
{
    match op {
        AluOp::Div if offset == 1 => AluOp::Sdiv,
        AluOp::Mod if offset == 1 => AluOp::Smod,
        _ => op,
    }
}

/// The extension that the offset of a move names.
fn extension_of(op: AluOp, width: Width, offset: u16) -> Option<Extension>
    ensures { result ≡ extension_at op width offset }
{
    Some(match (op, width, offset) {
        (AluOp::Mov, Width::W32, 8) => Extension::W32From8,
        (AluOp::Mov, Width::W32, 16) => Extension::W32From16,
        (AluOp::Mov, Width::W64, 8) => Extension::W64From8,
        (AluOp::Mov, Width::W64, 16) => Extension::W64From16,
        (AluOp::Mov, Width::W64, 32) => Extension::W64From32,
        _ => return None,
    })
}

fn bits_of(imm: u32) -> SwapBits
    ensures { result ≡ bits_at imm }
{
    match imm {
        16 => SwapBits::Bits16,
        32 => SwapBits::Bits32,
        _ => SwapBits::Bits64,
    }
}

fn operand_of(source: Source, src: Reg, imm: i32) -> Operand
    ensures { result ≡ operand_at source src imm }
{
    match source {
        Source::Imm => Operand::Imm(imm),
        Source::Register => Operand::Reg(src),
    }
}

/// The instruction with this form and these fields. Unused fields are not read.
pub fn insn_of(form: OpcodeForm, dst: Reg, src: Reg, word: &Word, next: Option<Word>) -> Insn
    ensures insn { result ≡ insn_from form dst src word.now next }
    ensures fits { Fits result }
{
    let offset = word.offset.cast_signed();
    let imm = word.imm.cast_signed();
    let high = next.map_or(0, |second| second.imm);
    match form {
        OpcodeForm::Alu(op, width, Source::Imm) => Insn::Alu {
            op: signed_of(op, word.offset),
            width,
            dst,
            operand: Operand::Imm(imm),
        },
        OpcodeForm::Alu(op, width, Source::Register) => match extension_of(op, width, word.offset) {
            Some(extension) => Insn::MovSx {
                extension,
                dst,
                src,
            },
            None => Insn::Alu {
                op: signed_of(op, word.offset),
                width,
                dst,
                operand: Operand::Reg(src),
            },
        },
        OpcodeForm::Neg(width) => Insn::Neg { width, dst },
        OpcodeForm::End(order) => Insn::End {
            order,
            bits: bits_of(word.imm),
            dst,
        },
        OpcodeForm::Jump => Insn::Jump { offset },
        OpcodeForm::JumpLong => Insn::JumpLong { distance: imm },
        OpcodeForm::JumpIf(condition, width, source) => Insn::JumpIf {
            condition,
            width,
            dst,
            operand: operand_of(source, src, imm),
            offset,
        },
        OpcodeForm::Call => Insn::Call { helper: imm },
        OpcodeForm::Exit => Insn::Exit,
        OpcodeForm::Load(size) => Insn::Load {
            size,
            dst,
            src,
            offset,
        },
        OpcodeForm::LoadSx(size) => Insn::LoadSx {
            size,
            dst,
            src,
            offset,
        },
        OpcodeForm::StoreReg(size) => Insn::StoreReg {
            size,
            dst,
            src,
            offset,
        },
        OpcodeForm::StoreImm(size) => Insn::StoreImm {
            size,
            dst,
            offset,
            imm,
        },
        OpcodeForm::Wide => Insn::Wide {
            dst,
            value: word.imm as u64 + high as u64 * 0x1_0000_0000,
        },
    }
}
