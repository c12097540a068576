//! The words of lines.

ghost use Rattle.std.specs.Prelude.{◌≡◌, ◌≢◌, ◌↔◌, ◌++◌, IsTrue, MatchOption, codes};
ghost use Rattle.std.specs.List.{AllByRecursion};
ghost use Rattle.assemble.specs.Inside.Mnemonic.{word};
ghost use Rattle.assemble.specs.Inside.Words.{bits, extension_name};
ghost use Rattle.assemble.specs.Text.{alu_word, condition_word, order_word, size_letters, suffix};
ghost use Rattle.decode.specs.Encoding.{loaded};
ghost use Rattle.assemble.specs.declared.mnemonic.Mnemonic.{Mnemonic};

use decode::{AluOp, ByteOrder, Condition, Extension, SignedSize, Size, SwapBits, Width};

/// An instruction without its operands.
#[derive(Clone, Copy)]
pub enum Mnemonic {
    Alu(AluOp, Width),
    MovSx(Extension),
    Neg(Width),
    End(ByteOrder, SwapBits),
    Jump,
    JumpLong,
    JumpIf(Condition, Width),
    Call,
    Exit,
    Load(Size),
    LoadSx(SignedSize),
    StoreReg(Size),
    StoreImm(Size),
    Wide,
}

impl Mnemonic {
    /// The word, in two parts.
    pub fn parts(self) -> (&'static str, &'static str)
        ensures { result.0.now ++ result.1.now ≡ word self }
    {
        match self {
            Mnemonic::Alu(op, width) => (alu_name(op), suffix_of(width)),
            Mnemonic::MovSx(extension) => (extension_name(extension), ""),
            Mnemonic::Neg(width) => ("neg", suffix_of(width)),
            Mnemonic::End(order, bits) => (order_name(order), bits_name(bits)),
            Mnemonic::Jump => ("ja", ""),
            Mnemonic::JumpLong => ("jal", ""),
            Mnemonic::JumpIf(condition, width) => (condition_name(condition), suffix_of(width)),
            Mnemonic::Call => ("call", ""),
            Mnemonic::Exit => ("exit", ""),
            Mnemonic::Load(size) => ("ldx", size_name(size)),
            Mnemonic::LoadSx(size) => ("ldxs", signed_size_name(size)),
            Mnemonic::StoreReg(size) => ("stx", size_name(size)),
            Mnemonic::StoreImm(size) => ("st", size_name(size)),
            Mnemonic::Wide => ("lddw", ""),
        }
    }

    /// Whether this is its word.
    pub fn is_named(self, text: &[u8]) -> bool
        ensures { IsTrue result ↔ (text.now ≡ word self) }
    {
        let (stem, ending) = self.parts();
        match text.strip_prefix(stem.as_bytes()) {
            Some(rest) => rest == ending.as_bytes(),
            None => false,
        }
    }
}

/// The instruction of this word.
#[tactic(auto, using(crate::proofs::Words::every))]
pub fn mnemonic_named(text: &[u8]) -> Option<Mnemonic>
    ensures { MatchOption result ((m : Mnemonic) → text.now ≢ word m) (λ m. text.now ≡ word m) }
{
    first_named(&ALL, text)
}

/// The first of these whose word it is.
fn first_named(all: &[Mnemonic], text: &[u8]) -> Option<Mnemonic>
    ensures { MatchOption result (AllByRecursion (λ m. text.now ≢ word m) all.now) (λ m. text.now ≡ word m) }
{
    for mnemonic in all {
        if mnemonic.is_named(text) {
            return Some(*mnemonic);
        }
    }
    None
}

/// Every mnemonic once.
const ALL: [Mnemonic; 86] = [
    Mnemonic::Alu(AluOp::Add, Width::W64),
    Mnemonic::Alu(AluOp::Sub, Width::W64),
    Mnemonic::Alu(AluOp::Mul, Width::W64),
    Mnemonic::Alu(AluOp::Div, Width::W64),
    Mnemonic::Alu(AluOp::Sdiv, Width::W64),
    Mnemonic::Alu(AluOp::Or, Width::W64),
    Mnemonic::Alu(AluOp::And, Width::W64),
    Mnemonic::Alu(AluOp::Lsh, Width::W64),
    Mnemonic::Alu(AluOp::Rsh, Width::W64),
    Mnemonic::Alu(AluOp::Mod, Width::W64),
    Mnemonic::Alu(AluOp::Smod, Width::W64),
    Mnemonic::Alu(AluOp::Xor, Width::W64),
    Mnemonic::Alu(AluOp::Mov, Width::W64),
    Mnemonic::Alu(AluOp::Arsh, Width::W64),
    Mnemonic::Neg(Width::W64),
    Mnemonic::Alu(AluOp::Add, Width::W32),
    Mnemonic::Alu(AluOp::Sub, Width::W32),
    Mnemonic::Alu(AluOp::Mul, Width::W32),
    Mnemonic::Alu(AluOp::Div, Width::W32),
    Mnemonic::Alu(AluOp::Sdiv, Width::W32),
    Mnemonic::Alu(AluOp::Or, Width::W32),
    Mnemonic::Alu(AluOp::And, Width::W32),
    Mnemonic::Alu(AluOp::Lsh, Width::W32),
    Mnemonic::Alu(AluOp::Rsh, Width::W32),
    Mnemonic::Alu(AluOp::Mod, Width::W32),
    Mnemonic::Alu(AluOp::Smod, Width::W32),
    Mnemonic::Alu(AluOp::Xor, Width::W32),
    Mnemonic::Alu(AluOp::Mov, Width::W32),
    Mnemonic::Alu(AluOp::Arsh, Width::W32),
    Mnemonic::Neg(Width::W32),
    Mnemonic::MovSx(Extension::W64From8),
    Mnemonic::MovSx(Extension::W64From16),
    Mnemonic::MovSx(Extension::W64From32),
    Mnemonic::MovSx(Extension::W32From8),
    Mnemonic::MovSx(Extension::W32From16),
    Mnemonic::End(ByteOrder::Little, SwapBits::Bits16),
    Mnemonic::End(ByteOrder::Little, SwapBits::Bits32),
    Mnemonic::End(ByteOrder::Little, SwapBits::Bits64),
    Mnemonic::End(ByteOrder::Big, SwapBits::Bits16),
    Mnemonic::End(ByteOrder::Big, SwapBits::Bits32),
    Mnemonic::End(ByteOrder::Big, SwapBits::Bits64),
    Mnemonic::End(ByteOrder::Swap, SwapBits::Bits16),
    Mnemonic::End(ByteOrder::Swap, SwapBits::Bits32),
    Mnemonic::End(ByteOrder::Swap, SwapBits::Bits64),
    Mnemonic::Jump,
    Mnemonic::JumpLong,
    Mnemonic::JumpIf(Condition::Equal, Width::W64),
    Mnemonic::JumpIf(Condition::Greater, Width::W64),
    Mnemonic::JumpIf(Condition::GreaterEqual, Width::W64),
    Mnemonic::JumpIf(Condition::Set, Width::W64),
    Mnemonic::JumpIf(Condition::NotEqual, Width::W64),
    Mnemonic::JumpIf(Condition::SignedGreater, Width::W64),
    Mnemonic::JumpIf(Condition::SignedGreaterEqual, Width::W64),
    Mnemonic::JumpIf(Condition::Less, Width::W64),
    Mnemonic::JumpIf(Condition::LessEqual, Width::W64),
    Mnemonic::JumpIf(Condition::SignedLess, Width::W64),
    Mnemonic::JumpIf(Condition::SignedLessEqual, Width::W64),
    Mnemonic::JumpIf(Condition::Equal, Width::W32),
    Mnemonic::JumpIf(Condition::Greater, Width::W32),
    Mnemonic::JumpIf(Condition::GreaterEqual, Width::W32),
    Mnemonic::JumpIf(Condition::Set, Width::W32),
    Mnemonic::JumpIf(Condition::NotEqual, Width::W32),
    Mnemonic::JumpIf(Condition::SignedGreater, Width::W32),
    Mnemonic::JumpIf(Condition::SignedGreaterEqual, Width::W32),
    Mnemonic::JumpIf(Condition::Less, Width::W32),
    Mnemonic::JumpIf(Condition::LessEqual, Width::W32),
    Mnemonic::JumpIf(Condition::SignedLess, Width::W32),
    Mnemonic::JumpIf(Condition::SignedLessEqual, Width::W32),
    Mnemonic::Call,
    Mnemonic::Exit,
    Mnemonic::Load(Size::Byte),
    Mnemonic::Load(Size::Half),
    Mnemonic::Load(Size::Word),
    Mnemonic::Load(Size::Double),
    Mnemonic::LoadSx(SignedSize::Byte),
    Mnemonic::LoadSx(SignedSize::Half),
    Mnemonic::LoadSx(SignedSize::Word),
    Mnemonic::StoreReg(Size::Byte),
    Mnemonic::StoreReg(Size::Half),
    Mnemonic::StoreReg(Size::Word),
    Mnemonic::StoreReg(Size::Double),
    Mnemonic::StoreImm(Size::Byte),
    Mnemonic::StoreImm(Size::Half),
    Mnemonic::StoreImm(Size::Word),
    Mnemonic::StoreImm(Size::Double),
    Mnemonic::Wide,
];

/// The word of an operation.
fn alu_name(of: AluOp) -> &'static str
    ensures { result.now ≡ alu_word of }
{
    match of {
        AluOp::Add => "add",
        AluOp::Sub => "sub",
        AluOp::Mul => "mul",
        AluOp::Div => "div",
        AluOp::Sdiv => "sdiv",
        AluOp::Or => "or",
        AluOp::And => "and",
        AluOp::Lsh => "lsh",
        AluOp::Rsh => "rsh",
        AluOp::Mod => "mod",
        AluOp::Smod => "smod",
        AluOp::Xor => "xor",
        AluOp::Mov => "mov",
        AluOp::Arsh => "arsh",
    }
}

/// The suffix of a word in 32 bits.
fn suffix_of(of: Width) -> &'static str
    ensures { result.now ≡ suffix of }
{
    match of {
        Width::W32 => "32",
        Width::W64 => "",
    }
}

/// The word of a move that extends a sign.
fn extension_name(of: Extension) -> &'static str
    ensures { result.now ≡ extension_name of }
{
    match of {
        Extension::W32From8 => "mov32sx8",
        Extension::W32From16 => "mov32sx16",
        Extension::W64From8 => "movsx8",
        Extension::W64From16 => "movsx16",
        Extension::W64From32 => "movsx32",
    }
}

/// The word of a byte swap.
fn order_name(of: ByteOrder) -> &'static str
    ensures { result.now ≡ order_word of }
{
    match of {
        ByteOrder::Little => "le",
        ByteOrder::Big => "be",
        ByteOrder::Swap => "swap",
    }
}

/// The number of bits after the word of a byte swap.
fn bits_name(of: SwapBits) -> &'static str
    ensures { result.now ≡ bits of }
{
    match of {
        SwapBits::Bits16 => "16",
        SwapBits::Bits32 => "32",
        SwapBits::Bits64 => "64",
    }
}

/// The word of a conditional jump.
fn condition_name(of: Condition) -> &'static str
    ensures { result.now ≡ condition_word of }
{
    match of {
        Condition::Equal => "jeq",
        Condition::Greater => "jgt",
        Condition::GreaterEqual => "jge",
        Condition::Set => "jset",
        Condition::NotEqual => "jne",
        Condition::SignedGreater => "jsgt",
        Condition::SignedGreaterEqual => "jsge",
        Condition::Less => "jlt",
        Condition::LessEqual => "jle",
        Condition::SignedLess => "jslt",
        Condition::SignedLessEqual => "jsle",
    }
}

/// The end of a load's or a store's word.
fn size_name(of: Size) -> &'static str
    ensures { result.now ≡ size_letters of }
{
    match of {
        Size::Byte => "b",
        Size::Half => "h",
        Size::Word => "w",
        Size::Double => "dw",
    }
}

/// The end of the word of a load that extends a sign.
fn signed_size_name(of: SignedSize) -> &'static str
    ensures { result.now ≡ size_letters (loaded of) }
{
    match of {
        SignedSize::Byte => "b",
        SignedSize::Half => "h",
        SignedSize::Word => "w",
    }
}
