//! Registers and instructions (RFC 9669 sections 3 to 5).

ghost use Rattle.std.specs.Prelude.{◌≡◌, ◌<◌, ◌≤◌, MatchOption};

/// A register, r0 to r10 (RFC 9669 section 3.1). A register with another number can't be made.
#[derive(Clone, Copy, Debug, PartialEq, Eq)]
pub struct Reg {
    /// 0 to 10.
    pub number: u8,
    pub ghost in_range: { number ≤ 10 },
}

impl Reg {
    /// The register of this number, `None` above 10.
    pub fn new(number: u8) -> Option<Reg>
        ensures { MatchOption result (10 < number) (λ r. r.number ≡ number) }
    {
        if number <= 10 {
            Some(Reg { number })
        } else {
            None
        }
    }
}

/// What an operation works on: the low 32 bits, or all 64 (RFC 9669 section 3.3).
#[derive(Clone, Copy, Debug, PartialEq, Eq)]
pub enum Width {
    W32,
    W64,
}

/// An arithmetic operation (RFC 9669 section 4.1).
#[derive(Clone, Copy, Debug, PartialEq, Eq)]
pub enum AluOp {
    Add,
    Sub,
    Mul,
    Div,
    Sdiv,
    Or,
    And,
    Lsh,
    Rsh,
    Mod,
    Smod,
    Xor,
    Mov,
    Arsh,
}

/// What an operation takes besides its destination: a signed number, or a register (RFC 9669 section 4).
#[derive(Clone, Copy, Debug, PartialEq, Eq)]
pub enum Operand {
    Imm(i32),
    Reg(Reg),
}

/// The width to which a move extends a sign, and from how many bits (RFC 9669 section 4.1).
#[derive(Clone, Copy, Debug, PartialEq, Eq)]
pub enum Extension {
    W32From8,
    W32From16,
    W64From8,
    W64From16,
    W64From32,
}

/// The byte order that a swap makes, or an unconditional swap (RFC 9669 section 4.2).
#[derive(Clone, Copy, Debug, PartialEq, Eq)]
pub enum ByteOrder {
    Little,
    Big,
    Swap,
}

/// How many low bits a swap takes (RFC 9669 section 4.2).
#[derive(Clone, Copy, Debug, PartialEq, Eq)]
pub enum SwapBits {
    Bits16,
    Bits32,
    Bits64,
}

/// When a jump is taken, by the destination and the operand (RFC 9669 section 4.3).
#[derive(Clone, Copy, Debug, PartialEq, Eq)]
pub enum Condition {
    /// `dst == operand`
    Equal,
    /// `dst > operand`, unsigned
    Greater,
    /// `dst >= operand`, unsigned
    GreaterEqual,
    /// `dst & operand != 0`
    Set,
    /// `dst != operand`
    NotEqual,
    /// `dst > operand`, signed
    SignedGreater,
    /// `dst >= operand`, signed
    SignedGreaterEqual,
    /// `dst < operand`, unsigned
    Less,
    /// `dst <= operand`, unsigned
    LessEqual,
    /// `dst < operand`, signed
    SignedLess,
    /// `dst <= operand`, signed
    SignedLessEqual,
}

/// How many bytes are read or written: 4, 2, 1 or 8 (RFC 9669 section 5).
#[derive(Clone, Copy, Debug, PartialEq, Eq)]
pub enum Size {
    Word,
    Half,
    Byte,
    Double,
}

/// How many bytes are read and extended by their sign: 4, 2 or 1 (RFC 9669 section 5.2).
#[derive(Clone, Copy, Debug, PartialEq, Eq)]
pub enum SignedSize {
    Word,
    Half,
    Byte,
}

/// An instruction (RFC 9669 sections 4 and 5, without atomic operations, calls between functions, maps and packet
/// access). Every value can be encoded. Jumps count slots from the one after their own.
#[derive(Clone, Copy, Debug, PartialEq, Eq)]
pub enum Insn {
    /// `dst = dst op operand` (section 4.1).
    Alu {
        op: AluOp,
        width: Width,
        dst: Reg,
        operand: Operand,
    },
    /// `dst` is the low bits of `src`, extended by their sign (section 4.1).
    MovSx {
        extension: Extension,
        dst: Reg,
        src: Reg,
    },
    /// `dst = -dst` (section 4.1).
    Neg {
        width: Width,
        dst: Reg,
    },
    /// `dst` in another byte order (section 4.2).
    End {
        order: ByteOrder,
        bits: SwapBits,
        dst: Reg,
    },
    /// Always jumps (section 4.3).
    Jump {
        offset: i16,
    },
    /// Always jumps, by 32 bits (section 4.3).
    JumpLong {
        distance: i32,
    },
    /// Jumps if the condition holds (section 4.3).
    JumpIf {
        condition: Condition,
        width: Width,
        dst: Reg,
        operand: Operand,
        offset: i16,
    },
    /// Calls a helper by its number (section 4.3.1).
    Call {
        helper: i32,
    },
    /// Returns r0 (section 4.3).
    Exit,
    /// `dst` is the number at `src + offset` (section 5.1).
    Load {
        size: Size,
        dst: Reg,
        src: Reg,
        offset: i16,
    },
    /// `dst` is the number at `src + offset`, extended by its sign (section 5.2).
    LoadSx {
        size: SignedSize,
        dst: Reg,
        src: Reg,
        offset: i16,
    },
    /// Writes `src` at `dst + offset` (section 5.1).
    StoreReg {
        size: Size,
        dst: Reg,
        src: Reg,
        offset: i16,
    },
    /// Writes `imm` at `dst + offset` (section 5.1).
    StoreImm {
        size: Size,
        dst: Reg,
        offset: i16,
        imm: i32,
    },
    /// `dst = value`, 64 bits, in two slots (section 5.4).
    Wide {
        dst: Reg,
        value: u64,
    },
}
