//! The fields of each instruction (RFC 9669 sections 4 and 5).

ghost use Rattle.std.specs.Prelude.{◌≡◌, ◌==◌};
ghost use Rattle.decode.specs.Encoding.{Fits, alu_code, alu_offset, alu_class, jump_class, extension_width, extension_offset, order_opcode, swap_imm, jump_code, size_code, loaded, first_word, second_word};
ghost use Rattle.decode.specs.Slots.{size_of};

use crate::insn::{
    AluOp, ByteOrder, Condition, Extension, Insn, Operand, SignedSize, Size, SwapBits, Width,
};
use crate::word::Word;

impl AluOp {
    /// The high four bits of the opcode (RFC 9669 section 4.1).
    fn code(self) -> u8
        ensures { result ≡ alu_code self }
    {
        match self {
            AluOp::Add => 0x0,
            AluOp::Sub => 0x1,
            AluOp::Mul => 0x2,
            AluOp::Div | AluOp::Sdiv => 0x3,
            AluOp::Or => 0x4,
            AluOp::And => 0x5,
            AluOp::Lsh => 0x6,
            AluOp::Rsh => 0x7,
            AluOp::Mod | AluOp::Smod => 0x9,
            AluOp::Xor => 0xa,
            AluOp::Mov => 0xb,
            AluOp::Arsh => 0xc,
        }
    }

    /// The offset field, 1 for a signed division.
    fn offset(self) -> u16
        ensures { result ≡ alu_offset self }
    {
        match self {
            AluOp::Sdiv | AluOp::Smod => 1,
            _ => 0,
        }
    }
}

impl Width {
    fn alu_class(self) -> u8
        ensures { result ≡ alu_class self }
    {
        match self {
            Width::W32 => 0x04,
            Width::W64 => 0x07,
        }
    }

    fn jump_class(self) -> u8
        ensures { result ≡ jump_class self }
    {
        match self {
            Width::W32 => 0x06,
            Width::W64 => 0x05,
        }
    }
}

impl Extension {
    fn width(self) -> Width
        ensures { result ≡ extension_width self }
    {
        match self {
            Extension::W32From8 | Extension::W32From16 => Width::W32,
            Extension::W64From8 | Extension::W64From16 | Extension::W64From32 => Width::W64,
        }
    }

    fn offset(self) -> u16
        ensures { result ≡ extension_offset self }
    {
        match self {
            Extension::W32From8 | Extension::W64From8 => 8,
            Extension::W32From16 | Extension::W64From16 => 16,
            Extension::W64From32 => 32,
        }
    }
}

impl ByteOrder {
    fn opcode(self) -> u8
        ensures { result ≡ order_opcode self }
    {
        match self {
            ByteOrder::Little => 0xd4,
            ByteOrder::Big => 0xdc,
            ByteOrder::Swap => 0xd7,
        }
    }
}

impl SwapBits {
    fn imm(self) -> u32
        ensures { result ≡ swap_imm self }
    {
        match self {
            SwapBits::Bits16 => 16,
            SwapBits::Bits32 => 32,
            SwapBits::Bits64 => 64,
        }
    }
}

impl Condition {
    /// The high four bits of the opcode (RFC 9669 section 4.3).
    fn code(self) -> u8
        ensures { result ≡ jump_code self }
    {
        match self {
            Condition::Equal => 0x1,
            Condition::Greater => 0x2,
            Condition::GreaterEqual => 0x3,
            Condition::Set => 0x4,
            Condition::NotEqual => 0x5,
            Condition::SignedGreater => 0x6,
            Condition::SignedGreaterEqual => 0x7,
            Condition::Less => 0xa,
            Condition::LessEqual => 0xb,
            Condition::SignedLess => 0xc,
            Condition::SignedLessEqual => 0xd,
        }
    }
}

impl Size {
    /// The size bits of the opcode (RFC 9669 section 5).
    fn code(self) -> u8
        ensures { result ≡ size_code self }
    {
        match self {
            Size::Word => 0x00,
            Size::Half => 0x08,
            Size::Byte => 0x10,
            Size::Double => 0x18,
        }
    }
}

impl SignedSize {
    /// The size that is read (RFC 9669 section 5.2).
    fn loaded(self) -> Size
        ensures { result ≡ loaded self }
    {
        match self {
            SignedSize::Word => Size::Word,
            SignedSize::Half => Size::Half,
            SignedSize::Byte => Size::Byte,
        }
    }
}

impl Insn {
    /// The fields of the first slot.
    pub(crate) fn first_word(&self) -> Word
        ensures word { result ≡ first_word self.now }
        ensures fits { Fits self.now }
    {
        match *self {
            Insn::Alu {
                op,
                width,
                dst,
                operand: Operand::Imm(n),
            } => Word {
                opcode: op.code() * 16 + width.alu_class(),
                dst: dst.number,
                offset: op.offset(),
                imm: n.cast_unsigned(),
                ..Word::ZERO
            },
            Insn::Alu {
                op,
                width,
                dst,
                operand: Operand::Reg(src),
            } => Word {
                opcode: op.code() * 16 + 0x08 + width.alu_class(),
                dst: dst.number,
                src: src.number,
                offset: op.offset(),
                ..Word::ZERO
            },
            Insn::MovSx {
                extension,
                dst,
                src,
            } => Word {
                opcode: 0xb8 + extension.width().alu_class(),
                dst: dst.number,
                src: src.number,
                offset: extension.offset(),
                ..Word::ZERO
            },
            Insn::Neg { width, dst } => Word {
                opcode: 0x80 + width.alu_class(),
                dst: dst.number,
                ..Word::ZERO
            },
            Insn::End { order, bits, dst } => Word {
                opcode: order.opcode(),
                dst: dst.number,
                imm: bits.imm(),
                ..Word::ZERO
            },
            Insn::Jump { offset } => Word {
                opcode: 0x05,
                offset: offset.cast_unsigned(),
                ..Word::ZERO
            },
            Insn::JumpLong { distance } => Word {
                opcode: 0x06,
                imm: distance.cast_unsigned(),
                ..Word::ZERO
            },
            Insn::JumpIf {
                condition,
                width,
                dst,
                operand: Operand::Imm(n),
                offset,
            } => Word {
                opcode: condition.code() * 16 + width.jump_class(),
                dst: dst.number,
                offset: offset.cast_unsigned(),
                imm: n.cast_unsigned(),
                ..Word::ZERO
            },
            Insn::JumpIf {
                condition,
                width,
                dst,
                operand: Operand::Reg(src),
                offset,
            } => Word {
                opcode: condition.code() * 16 + 0x08 + width.jump_class(),
                dst: dst.number,
                src: src.number,
                offset: offset.cast_unsigned(),
                ..Word::ZERO
            },
            Insn::Call { helper } => Word {
                opcode: 0x85,
                imm: helper.cast_unsigned(),
                ..Word::ZERO
            },
            Insn::Exit => Word {
                opcode: 0x95,
                ..Word::ZERO
            },
            Insn::Load {
                size,
                dst,
                src,
                offset,
            } => Word {
                opcode: 0x61 + size.code(),
                dst: dst.number,
                src: src.number,
                offset: offset.cast_unsigned(),
                ..Word::ZERO
            },
            Insn::LoadSx {
                size,
                dst,
                src,
                offset,
            } => Word {
                opcode: 0x81 + size.loaded().code(),
                dst: dst.number,
                src: src.number,
                offset: offset.cast_unsigned(),
                ..Word::ZERO
            },
            Insn::StoreReg {
                size,
                dst,
                src,
                offset,
            } => Word {
                opcode: 0x63 + size.code(),
                dst: dst.number,
                src: src.number,
                offset: offset.cast_unsigned(),
                ..Word::ZERO
            },
            Insn::StoreImm {
                size,
                dst,
                offset,
                imm,
            } => Word {
                opcode: 0x62 + size.code(),
                dst: dst.number,
                offset: offset.cast_unsigned(),
                imm: imm.cast_unsigned(),
                ..Word::ZERO
            },
            Insn::Wide { dst, value } => Word {
                opcode: 0x18,
                dst: dst.number,
                imm: (value % 0x1_0000_0000) as u32,
                ..Word::ZERO
            },
        }
    }

    /// The fields of the second slot, which a wide instruction has.
    pub(crate) fn second_word(&self) -> Option<Word>
        ensures { result ≡ second_word self.now }
    {
        match *self {
            Insn::Wide { dst: _, value } => Some(Word {
                imm: (value / 0x1_0000_0000) as u32,
                ..Word::ZERO
            }),
            _ => None,
        }
    }

    /// Whether it takes two slots, as the load of a 64-bit value does (RFC 9669 section 3).
    pub fn is_wide(&self) -> bool
        ensures { result ≡ (size_of self.now == 2) }
    {
        match *self {
            Insn::Wide { dst: _, value: _ } => true,
            _ => false,
        }
    }

    /// How many slots it takes: two if it is wide, else one.
    pub fn slots(&self) -> usize
        ensures { result ≡ size_of self.now }
    {
        if self.is_wide() { 2 } else { 1 }
    }
}
